//! Faults of captures.

ghost use Rattle.std.specs.Prelude.{◌≡◌};
ghost use Rattle.rmt_pcap.specs.declared.fault.CaptureFault.TheVariants.{NoMemory};

use std::alloc::AllocError;
use thiserror::Error;

/// Why a capture file was not read, or not written.
#[derive(Clone, Copy, Debug, Drop, PartialEq, Eq, Error)]
pub enum CaptureFault {
    /// There is not enough memory.
    #[error("out of memory")]
    NoMemory,
    /// 11: no magic stands first. 12: the version is not 2.4. 13: a magic stands first, but fewer than 24 bytes are
    /// there.
    #[error("the capture has a fault of code {0}")]
    Code(u8),
}

impl From<AllocError> for CaptureFault {
    ghost from_gives = { λ _ e. e ≡ NoMemory };

    fn from(_error: AllocError) -> CaptureFault {
        CaptureFault::NoMemory
    }
}
