//! Why an entry text is refused.

ghost use Rattle.rmt_entries.specs.Fault.{IsNoMemory};

use std::alloc::AllocError;
use thiserror::Error;

/// Why an entry text is refused.
#[derive(Debug, Drop, Error)]
pub enum EntryFault {
    /// There is not enough memory.
    #[error("out of memory")]
    NoMemory,
    /// A line is bad.
    #[error("line {line} of the entries has a fault of code {code}")]
    At {
        /// The least rule that the line breaks. 1: its form. 2: no table has the name. 3: the key. 4: no such action
        /// in the table's list. 5: the arguments. 6: an earlier line has the key. 7: the table is full.
        code: u8,
        /// The number of the line, from 1.
        line: u32,
    },
}

impl From<AllocError> for EntryFault {
    ghost from_gives = { IsNoMemory };

    fn from(_error: AllocError) -> EntryFault {
        EntryFault::NoMemory
    }
}
