//! Why the keys of a table are not loaded.

ghost use Rattle.std.specs.Prelude.{◌≡◌};
ghost use Rattle.rmt_cuckoo.specs.declared.fault.LoadFault.TheVariants.{NoMemory};

use rmt_bits::answer::Numbers;
use std::alloc::AllocError;
use thiserror::Error;

/// Why the keys of a table are not loaded.
#[derive(Debug, Drop, Error)]
pub enum LoadFault {
    #[error("out of memory")]
    NoMemory,
    /// No loading exists: the keys with these numbers have so many candidate cells together, which are fewer than the
    /// keys.
    #[error("some keys have only {cells} cells together, fewer than they are")]
    Overfull { members: Numbers, cells: u64 },
}

impl From<AllocError> for LoadFault {
    ghost from_gives = { λ _ e. e ≡ NoMemory };

    fn from(_error: AllocError) -> LoadFault {
        LoadFault::NoMemory
    }
}
