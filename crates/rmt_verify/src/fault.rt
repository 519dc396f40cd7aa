//! Why a map was not read, written or looked at.

ghost use Rattle.std.specs.Prelude.{◌≡◌};
ghost use Rattle.rmt_verify.specs.declared.fault.MapFault.TheVariants.{NoMemory};

use rmt_bits::fault::OutOfMemory;
use std::alloc::AllocError;
use thiserror::Error;

/// Why a map was not written or looked at: for want of memory alone.
pub type VerifyFault = OutOfMemory;

/// Why a map was not read.
#[derive(Clone, Copy, Debug, Drop, PartialEq, Eq, Error)]
pub enum MapFault {
    #[error("out of memory")]
    NoMemory,
    #[error("the bytes spell no map")]
    Form,
}

impl From<AllocError> for MapFault {
    ghost from_gives = { λ _ e. e ≡ NoMemory };

    fn from(_e: AllocError) -> MapFault {
        MapFault::NoMemory
    }
}

/// An item from the front of bytes and the bytes behind it, or why there is none.
pub type Read<'a, T> = Result<(T, &'a [u8]), MapFault>;
