// Why an index file isn't read.
ghost use Rattle.std.specs.Prelude.{◌≡◌};
ghost use Rattle.index_reading.specs.Errors as spec;

use owned_bytes::HandleError;
use sstable_index::SstError;
use std::alloc::AllocError;
use thiserror::Error;

/// Why an index file isn't opened or looked into.
#[derive(Clone, Copy, Debug, PartialEq, Eq, Error)]
pub enum IndexError {
    #[error("out of memory")]
    Memory,
    /// The file failed.
    #[error("the file can't be read")]
    Read,
    #[error("the index is damaged")]
    Corrupt,
    /// The place is the offset of the block's length word in the file.
    #[error("the block at offset {0} is compressed")]
    Compressed(u64),
    /// The file ends with this number, where 2 or 3 belongs.
    #[error("version {0} of the table format is not known")]
    Version(u32),
}

impl From<AllocError> for IndexError {
    ghost use Rattle.std.specs.Prelude.{◌≡◌};
    ghost use Rattle.index_reading.specs.declared.errors.IndexError.TheVariants.{Memory};

    ghost from_gives = { λ _ e. e ≡ Memory };

    fn from(_error: AllocError) -> Self {
        IndexError::Memory
    }
}

impl From<HandleError> for IndexError {
    ghost use Rattle.std.specs.Prelude.{◌≡◌};
    ghost use Rattle.index_reading.specs.Errors.{error_of_handle};

    ghost from_gives = { λ error e. e ≡ error_of_handle error };

    fn from(error: HandleError) -> Self {
        match error {
            HandleError::Memory => IndexError::Memory,
            HandleError::Failed => IndexError::Read,
        }
    }
}

// The error of a table that begins at `start` of the file.
pub(crate) fn error_of_table(error: SstError, start: usize) -> IndexError
    ensures { result ≡ spec.error_of_table start error }
{
    match error {
        SstError::Memory => IndexError::Memory,
        SstError::Read => IndexError::Read,
        SstError::Corrupt => IndexError::Corrupt,
        SstError::Compressed(place) => IndexError::Compressed(place.saturating_add(start as u64)),
        SstError::Version(version) => IndexError::Version(version),
    }
}
