// Why a block isn't read, and why a value isn't written.
use std::alloc::{AllocError, AllocFailed};
use thiserror::Error;

/// Why a block isn't read.
#[derive(Clone, Copy, Debug, PartialEq, Eq, Error)]
pub enum BlockError {
    #[error("out of memory")]
    Memory,
    #[error("a block is damaged")]
    Corrupt,
    /// The place is the offset of the block's length word in the table.
    #[error("the block at offset {0} is compressed")]
    Compressed(u64),
}

impl From<AllocError> for BlockError {
    ghost use Rattle.std.specs.Prelude.{◌≡◌};
    ghost use Rattle.sstable_values.specs.declared.errors.BlockError.TheVariants.{Memory};

    ghost from_gives = { λ _ e. e ≡ Memory };

    fn from(_error: AllocError) -> Self {
        BlockError::Memory
    }
}

impl<T: Drop> From<AllocFailed<T>> for BlockError {
    ghost use Rattle.std.specs.Prelude.{◌≡◌};
    ghost use Rattle.sstable_values.specs.declared.errors.BlockError.TheVariants.{Memory};

    ghost from_gives = { λ _ e. e ≡ Memory };

    fn from(_error: AllocFailed<T>) -> Self {
        BlockError::Memory
    }
}

/// Why a value isn't written.
#[derive(Clone, Copy, Debug, PartialEq, Eq, Error)]
pub enum ValueError {
    #[error("out of memory")]
    Memory,
    #[error("the value can't follow the values of the block")]
    Refused,
}

impl From<AllocError> for ValueError {
    ghost use Rattle.std.specs.Prelude.{◌≡◌};
    ghost use Rattle.sstable_values.specs.declared.errors.ValueError.TheVariants.{Memory};

    ghost from_gives = { λ _ e. e ≡ Memory };

    fn from(_error: AllocError) -> Self {
        ValueError::Memory
    }
}

impl<T: Drop> From<AllocFailed<T>> for ValueError {
    ghost use Rattle.std.specs.Prelude.{◌≡◌};
    ghost use Rattle.sstable_values.specs.declared.errors.ValueError.TheVariants.{Memory};

    ghost from_gives = { λ _ e. e ≡ Memory };

    fn from(_error: AllocFailed<T>) -> Self {
        ValueError::Memory
    }
}
