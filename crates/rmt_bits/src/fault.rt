//! Want of memory, the one refusal of calls that can fail for nothing else.

ghost use Rattle.std.specs.Prelude.{◌≡◌};
ghost use Rattle.rmt_bits.specs.declared.fault.OutOfMemory.TheVariants.{NoMemory};

use std::alloc::{AllocError, AllocFailed};
use thiserror::Error;

/// Why a call was refused that can only want memory.
#[derive(Clone, Copy, Debug, PartialEq, Eq, Error)]
pub enum OutOfMemory {
    /// There is not enough memory.
    #[error("out of memory")]
    NoMemory,
}

impl From<AllocError> for OutOfMemory {
    ghost from_gives = { λ _ e. e ≡ NoMemory };

    fn from(_error: AllocError) -> OutOfMemory {
        OutOfMemory::NoMemory
    }
}

impl<T: Drop> From<AllocFailed<T>> for OutOfMemory {
    ghost from_gives = { λ _ e. e ≡ NoMemory };

    fn from(_error: AllocFailed<T>) -> OutOfMemory {
        OutOfMemory::NoMemory
    }
}
