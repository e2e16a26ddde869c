// What a search answers.
use index_reading::IndexError;
use owned_bytes::Ids;
use std::alloc::AllocError;
use tantivy_query_grammar::{Error, UserInputAst};
use thiserror::Error as ErrorText;

/// The tree of a query, and the ascending numbers, from 0, of the documents that satisfy it.
#[derive(Debug, Drop)]
pub struct Answer {
    pub tree: UserInputAst,
    pub ids: Ids,
}

/// A kind of leaf that no search takes.
#[derive(Clone, Copy, Debug, PartialEq, Eq)]
pub enum Kind {
    /// A phrase with a slop above 0.
    Slop,
    Regex,
}

/// Why a file is not searched.
#[derive(Clone, Copy, Debug, PartialEq, Eq, ErrorText)]
pub enum SearchError {
    #[error("out of memory")]
    Memory,
    /// The grammar does not read the query.
    #[error("{0}")]
    Query(Error),
    /// More than 128 parentheses, field groups and `NOT` stand inside one another in the query.
    #[error("the query nests too deep")]
    TooDeep,
    /// The query's first leaf that no search takes is of this kind.
    #[error("unsupported {}", match .0 {Kind::Slop => "slop", Kind::Regex => "regex"})]
    Unsupported(Kind),
    /// The query's tree has a prefix, a range or the existence of a field.
    #[error("searches of this kind can't be made yet")]
    NotYet,
    /// The file ends with this number, where 2 or 3 belongs.
    #[error("version {0} of the table format is not known")]
    Version(u32),
    #[error("the file is no index")]
    Corrupt,
    /// The place is the offset of the block's length word in the file.
    #[error("the block at offset {0} is compressed")]
    Compressed(u64),
    /// The file failed.
    #[error("the file can't be read")]
    Read,
}

impl From<AllocError> for SearchError {
    ghost use Rattle.std.specs.Prelude.{◌≡◌};
    ghost use Rattle.term_search.specs.declared.answer.SearchError.TheVariants.{Memory};

    ghost from_gives = { λ _ e. e ≡ Memory };

    fn from(_: AllocError) -> Self {
        SearchError::Memory
    }
}

impl From<IndexError> for SearchError {
    ghost use Rattle.std.specs.Prelude.{◌≡◌};
    ghost use Rattle.term_search.specs.Members.{error_of_index};

    ghost from_gives = { λ error e. e ≡ error_of_index error };

    fn from(error: IndexError) -> Self {
        match error {
            IndexError::Memory => SearchError::Memory,
            IndexError::Read => SearchError::Read,
            IndexError::Corrupt => SearchError::Corrupt,
            IndexError::Compressed(place) => SearchError::Compressed(place),
            IndexError::Version(version) => SearchError::Version(version),
        }
    }
}
