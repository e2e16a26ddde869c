// What a query text comes out as, where it has no tree.
use std::alloc::AllocError;
use thiserror::Error as ErrorText;

/// A query text that the grammar does not read.
#[derive(Clone, Copy, Debug, PartialEq, Eq, ErrorText)]
#[error("the query is not in the grammar")]
pub struct Error;

/// Why a query text has no tree.
#[derive(Clone, Copy, Debug, PartialEq, Eq, ErrorText)]
pub enum ParseError {
    /// No memory was left.
    #[error("out of memory")]
    Memory,
    /// The grammar does not read the text.
    #[error("{0}")]
    Refused(Error),
    /// More than 128 parentheses, field groups and `NOT` stand inside one another.
    #[error("the query nests too deep")]
    TooDeep,
}

impl From<AllocError> for ParseError {
    ghost use Rattle.std.specs.Prelude.{◌≡◌};
    ghost use Rattle.query_tree.specs.declared.answer.ParseError.TheVariants.{Memory};

    ghost from_gives = { λ _ e. e ≡ Memory };

    fn from(_: AllocError) -> Self {
        ParseError::Memory
    }
}
