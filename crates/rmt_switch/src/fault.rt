//! Why a group text is refused.

use thiserror::Error;

/// Why a group text is refused.
#[derive(Clone, Copy, Debug, Drop, PartialEq, Eq, Error)]
pub enum GroupFault {
    /// There is not enough memory.
    #[error("out of memory")]
    NoMemory,
    /// A line is bad.
    #[error("line {line} of the groups has a fault of code {code}")]
    At {
        /// 8: the line is no group, or an earlier line has its group.
        code: u8,
        /// The number of the line, from 1.
        line: u32,
    },
}
