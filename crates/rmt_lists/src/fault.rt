//! Why a change is refused, or a commit.

ghost use Rattle.std.specs.Prelude.{◌≡◌};
ghost use Rattle.rmt_lists.specs.declared.fault.ChangeFault.TheVariants.{NoMemory};
ghost use Rattle.rmt_lists.specs.declared.fault.UpdateFault.TheVariants as update;

use rmt_bits::fault::OutOfMemory;
use std::alloc::{AllocError, AllocFailed};
use thiserror::Error;

/// Why lists or a book are not made, or a commit is not.
#[derive(Clone, Copy, Debug, PartialEq, Eq, Error)]
pub enum UpdateFault {
    /// There is not enough memory.
    #[error("out of memory")]
    NoMemory,
    /// Cells must move, and under each seed from 0 to 7 some exact table has no loading. Under seed 7 this is the first.
    #[error("{members} keys of the table at node {table} have {cells} cells")]
    LoadFull {
        /// The node that applies the table.
        table: u32,
        /// How many of its keys have too few cells under seed 7.
        members: u32,
        /// How many cells these have together.
        cells: u64,
    },
}

impl From<OutOfMemory> for UpdateFault {
    ghost from_gives = { λ _ e. e ≡ update.NoMemory };

    fn from(_error: OutOfMemory) -> UpdateFault {
        UpdateFault::NoMemory
    }
}

impl From<AllocError> for UpdateFault {
    ghost from_gives = { λ _ e. e ≡ update.NoMemory };

    fn from(_error: AllocError) -> UpdateFault {
        UpdateFault::NoMemory
    }
}

impl<T: Drop> From<AllocFailed<T>> for UpdateFault {
    ghost from_gives = { λ _ e. e ≡ update.NoMemory };

    fn from(_error: AllocFailed<T>) -> UpdateFault {
        UpdateFault::NoMemory
    }
}

/// Why a change is refused.
#[derive(Debug, Drop, Error)]
pub enum ChangeFault {
    /// There is not enough memory.
    #[error("out of memory")]
    NoMemory,
    /// The line is bad.
    #[error("a change has a fault of code {code}")]
    Refused {
        /// The first rule that the line breaks. 5: its form. 6: the table holds the key. 7: the table is full. 8: the
        /// table doesn't hold the key. 9: there were as many additions as there may be.
        code: u8,
    },
}

impl From<AllocError> for ChangeFault {
    ghost from_gives = { λ _ e. e ≡ NoMemory };

    fn from(_error: AllocError) -> ChangeFault {
        ChangeFault::NoMemory
    }
}
