// What writers of blocks answer where they can't do what they were asked for.
use std::alloc::AllocError;
use thiserror::Error;

/// Why a block isn't written out.
#[derive(Clone, Copy, Debug, PartialEq, Eq, Error)]
pub enum DeltaError {
    #[error("out of memory")]
    Memory,
    #[error("the sink failed")]
    Write,
    #[error("the block has more than 4,294,967,294 bytes")]
    BlockTooLong,
}

impl From<AllocError> for DeltaError {
    ghost use Rattle.std.specs.Prelude.{◌≡◌};
    ghost use Rattle.sstable_blocks.specs.declared.errors.DeltaError.TheVariants.{Memory};

    ghost from_gives = { λ _ e. e ≡ Memory };

    fn from(_error: AllocError) -> Self {
        DeltaError::Memory
    }
}
