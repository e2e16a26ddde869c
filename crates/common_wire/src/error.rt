// Why a value could not be read.
use owned_bytes::SourceFault;
use std::alloc::{AllocError, AllocFailed};
use thiserror::Error;

/// Why no value was read. A front of the value's bytes may have been taken.
#[derive(Clone, Copy, Debug, PartialEq, Eq, Error)]
pub enum WireError {
    /// There was no memory for the value.
    #[error("out of memory")]
    Memory,
    /// The source ended before the value did.
    #[error("the bytes end before the value")]
    Ended,
    /// No value begins with the bytes.
    #[error("the bytes spell no value")]
    Invalid,
    /// The source itself failed.
    #[error("the source failed")]
    Failed,
}

impl From<AllocError> for WireError {
    ghost use Rattle.std.specs.Prelude.{◌≡◌};
    ghost use Rattle.common_wire.specs.declared.error.WireError.TheVariants.{Memory};

    ghost from_gives = { λ _ e. e ≡ Memory };

    fn from(_e: AllocError) -> WireError {
        WireError::Memory
    }
}

impl From<SourceFault> for WireError {
    ghost use Rattle.std.specs.Prelude.{◌≡◌};
    ghost use Rattle.common_wire.specs.declared.error.WireError.TheVariants.{Failed};

    ghost from_gives = { λ _ e. e ≡ Failed };

    fn from(_e: SourceFault) -> WireError {
        WireError::Failed
    }
}

impl<T: Drop> From<AllocFailed<T>> for WireError {
    ghost use Rattle.std.specs.Prelude.{◌≡◌};
    ghost use Rattle.common_wire.specs.declared.error.WireError.TheVariants.{Memory};

    ghost from_gives = { λ _ e. e ≡ Memory };

    fn from(_e: AllocFailed<T>) -> WireError {
        WireError::Memory
    }
}
