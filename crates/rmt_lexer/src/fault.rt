//! Faults of a program's text.

ghost use Rattle.rmt_lexer.specs.Fault.{IsNoMemory};

use std::alloc::AllocError;
use thiserror::Error;

/// Why a program's text is refused.
#[derive(Debug, Drop, Error)]
pub enum ProgramFault {
    /// There is no memory for an answer.
    #[error("out of memory")]
    NoMemory,
    /// A rule is broken.
    #[error("rule {code} is broken at line {line}, column {column}")]
    At {
        /// The number of the rule, from 1 to 21.
        code: u8,
        /// The line where it is broken, from 1.
        line: u32,
        /// The column there, in bytes from 1.
        column: u32,
    },
}

impl From<AllocError> for ProgramFault {
    ghost from_gives = { IsNoMemory };

    fn from(_error: AllocError) -> ProgramFault {
        ProgramFault::NoMemory
    }
}
