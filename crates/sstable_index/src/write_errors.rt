// What writing a table answers where it isn't written.
use sstable_blocks::DeltaError;
use sstable_values::ValueError;
use std::alloc::AllocError;
use thiserror::Error;

/// Why a table isn't written.
#[derive(Clone, Copy, Debug, PartialEq, Eq, Error)]
pub enum SstWriteError {
    #[error("out of memory")]
    Memory,
    #[error("the sink failed")]
    Write,
    #[error("the key doesn't come after the last one")]
    Unsorted,
    #[error("the value can't follow the values of the block")]
    ValueRefused,
    #[error("a block has more than 4,294,967,294 bytes")]
    BlockTooLong,
    #[error("an earlier call has failed while it wrote")]
    Spent,
}

impl From<AllocError> for SstWriteError {
    ghost use Rattle.std.specs.Prelude.{◌≡◌};
    ghost use Rattle.sstable_index.specs.declared.write_errors.SstWriteError.TheVariants.{Memory};

    ghost from_gives = { λ _ e. e ≡ Memory };

    fn from(_error: AllocError) -> Self {
        SstWriteError::Memory
    }
}

impl From<ValueError> for SstWriteError {
    ghost use Rattle.std.specs.Prelude.{◌≡◌};
    ghost use Rattle.sstable_index.specs.Errors.{error_of_value};

    ghost from_gives = { λ error e. e ≡ error_of_value error };

    fn from(error: ValueError) -> Self {
        match error {
            ValueError::Memory => SstWriteError::Memory,
            ValueError::Refused => SstWriteError::ValueRefused,
        }
    }
}

impl From<DeltaError> for SstWriteError {
    ghost use Rattle.std.specs.Prelude.{◌≡◌};
    ghost use Rattle.sstable_index.specs.Errors.{error_of_delta};

    ghost from_gives = { λ error e. e ≡ error_of_delta error };

    fn from(error: DeltaError) -> Self {
        match error {
            DeltaError::Memory => SstWriteError::Memory,
            DeltaError::Write => SstWriteError::Write,
            DeltaError::BlockTooLong => SstWriteError::BlockTooLong,
        }
    }
}

/// What is left of a table that was not finished: the sink, to which a prefix of the table was appended, and why.
#[derive(Debug, Drop)]
pub struct Unfinished<W, E> {
    /// The sink, after what was appended.
    pub sink: W,
    /// Why the table was not finished.
    pub error: E,
}
