// What loading an index answers where it can't be loaded.
use sstable_values::BlockError;
use std::alloc::{AllocError, AllocFailed};
use thiserror::Error;

/// The bytes are no index that a table can have.
#[derive(Clone, Copy, Debug, PartialEq, Eq, Error)]
#[error("the index is damaged")]
pub struct SSTableDataCorruption;

/// Why an index isn't loaded.
#[derive(Clone, Copy, Debug, PartialEq, Eq, Error)]
pub enum LoadError {
    #[error("out of memory")]
    Memory,
    #[error("the index is damaged")]
    Corrupt(SSTableDataCorruption),
    /// The place is the offset of the block's length word in the index.
    #[error("the block of the index at offset {0} is compressed")]
    Compressed(u64),
}

impl From<AllocError> for LoadError {
    ghost use Rattle.std.specs.Prelude.{◌≡◌};
    ghost use Rattle.sstable_index.specs.declared.load_errors.LoadError.TheVariants.{Memory};

    ghost from_gives = { λ _ e. e ≡ Memory };

    fn from(_error: AllocError) -> Self {
        LoadError::Memory
    }
}

impl<T: Drop> From<AllocFailed<T>> for LoadError {
    ghost use Rattle.std.specs.Prelude.{◌≡◌};
    ghost use Rattle.sstable_index.specs.declared.load_errors.LoadError.TheVariants.{Memory};

    ghost from_gives = { λ _ e. e ≡ Memory };

    fn from(_error: AllocFailed<T>) -> Self {
        LoadError::Memory
    }
}

impl From<BlockError> for LoadError {
    ghost use Rattle.std.specs.Prelude.{◌≡◌};
    ghost use Rattle.sstable_index.specs.Errors.{load_error_of_block};

    ghost from_gives = { λ error e. e ≡ load_error_of_block error };

    fn from(error: BlockError) -> Self {
        match error {
            BlockError::Memory => LoadError::Memory,
            BlockError::Corrupt => LoadError::Corrupt(SSTableDataCorruption),
            BlockError::Compressed(place) => LoadError::Compressed(place),
        }
    }
}
