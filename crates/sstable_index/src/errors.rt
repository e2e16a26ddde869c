// What reading a table answers where it can't be read.
use owned_bytes::HandleError;
use sstable_values::BlockError;
use std::alloc::AllocError;
use thiserror::Error;

/// Why a table isn't read.
#[derive(Clone, Copy, Debug, PartialEq, Eq, Error)]
pub enum SstError {
    #[error("out of memory")]
    Memory,
    /// The file failed.
    #[error("the file can't be read")]
    Read,
    #[error("the table is damaged")]
    Corrupt,
    /// The place is the offset of the block's length word in the table.
    #[error("the block at offset {0} is compressed")]
    Compressed(u64),
    /// The table ends with this number, where 2 or 3 belongs.
    #[error("version {0} of the table format is not known")]
    Version(u32),
}

impl From<AllocError> for SstError {
    ghost use Rattle.std.specs.Prelude.{◌≡◌};
    ghost use Rattle.sstable_index.specs.declared.errors.SstError.TheVariants.{Memory};

    ghost from_gives = { λ _ e. e ≡ Memory };

    fn from(_error: AllocError) -> Self {
        SstError::Memory
    }
}

impl From<BlockError> for SstError {
    ghost use Rattle.std.specs.Prelude.{◌≡◌};
    ghost use Rattle.sstable_index.specs.Errors.{error_of_block};

    ghost from_gives = { λ error e. e ≡ error_of_block error };

    fn from(error: BlockError) -> Self {
        match error {
            BlockError::Memory => SstError::Memory,
            BlockError::Corrupt => SstError::Corrupt,
            BlockError::Compressed(place) => SstError::Compressed(place),
        }
    }
}

impl From<HandleError> for SstError {
    ghost use Rattle.std.specs.Prelude.{◌≡◌};
    ghost use Rattle.sstable_index.specs.Errors.{error_of_handle};

    ghost from_gives = { λ error e. e ≡ error_of_handle error };

    fn from(error: HandleError) -> Self {
        match error {
            HandleError::Memory => SstError::Memory,
            HandleError::Failed => SstError::Read,
        }
    }
}
