// Why a call on an arena failed.
use std::alloc::{AllocError, AllocFailed};
use thiserror::Error;

/// Why an arena handed out no space.
#[derive(Clone, Copy, Debug, Drop, PartialEq, Eq, Error)]
pub enum ArenaError {
    /// The allocator gave no memory.
    #[error("out of memory")]
    Memory,
    /// The pages stand at their limit, and the last one has too little room.
    #[error("arena full")]
    ArenaFull,
}

impl From<AllocError> for ArenaError {
    ghost use Rattle.std.specs.Prelude.{◌≡◌};
    ghost use Rattle.tantivy_stacker.specs.declared.error.ArenaError.TheVariants.{Memory};

    ghost from_gives = { λ _ e. e ≡ Memory };

    fn from(_: AllocError) -> Self {
        ArenaError::Memory
    }
}

impl<T: Drop> From<AllocFailed<T>> for ArenaError {
    ghost use Rattle.std.specs.Prelude.{◌≡◌};
    ghost use Rattle.tantivy_stacker.specs.declared.error.ArenaError.TheVariants.{Memory};

    ghost from_gives = { λ _ e. e ≡ Memory };

    fn from(_: AllocFailed<T>) -> Self {
        ArenaError::Memory
    }
}
