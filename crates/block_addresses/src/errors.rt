// Why an address store isn't opened.
use std::alloc::AllocError;
use thiserror::Error;

/// Why an address store isn't opened.
#[derive(Clone, Copy, Debug, PartialEq, Eq, Error)]
pub enum StoreError {
    #[error("out of memory")]
    Memory,
    #[error("the addresses of the blocks are damaged")]
    Corrupt,
}

impl From<AllocError> for StoreError {
    ghost use Rattle.std.specs.Prelude.{◌≡◌};
    ghost use Rattle.block_addresses.specs.declared.errors.StoreError.TheVariants.{Memory};

    ghost from_gives = { λ _ e. e ≡ Memory };

    fn from(_error: AllocError) -> Self {
        StoreError::Memory
    }
}
