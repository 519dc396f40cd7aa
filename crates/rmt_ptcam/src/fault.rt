//! Why a program has no parser on the chip.

ghost use Rattle.std.specs.Prelude.{◌≡◌};
ghost use Rattle.rmt_ptcam.specs.declared.fault.ParserFault.TheVariants.{NoMemory};

use rmt_bits::fault::OutOfMemory;
use std::alloc::AllocError;
use thiserror::Error;

/// Why a program has no parser.
#[derive(Debug, Drop, Error)]
pub enum ParserFault {
    /// There is not enough memory.
    #[error("out of memory")]
    NoMemory,
    /// A header selects by fields that have bits in more than 4 bytes.
    #[error("header {header} selects by {bytes} bytes; the chip looks at 4 at most")]
    LookupWide {
        /// The header's number, from 0 on.
        header: u32,
        /// How many bytes these are.
        bytes: u32,
    },
    /// A header has more than 64 extracts: one, and one for each piece of each field.
    #[error("header {header} has {extracts} pieces with its valid; the chip takes 64 at most")]
    StepWide {
        /// The header's number, from 0 on.
        header: u32,
        /// How many extracts it has.
        extracts: u32,
    },
    /// The headers have more than 256 entries: one for each case, and one for each header.
    #[error("the headers have {entries} cases and `else`s; the chip holds 256 at most")]
    ParserFull {
        /// How many these are; 4,294,967,295 where there are more.
        entries: u32,
    },
}

impl From<AllocError> for ParserFault {
    ghost from_gives = { λ _ e. e ≡ NoMemory };

    fn from(_error: AllocError) -> ParserFault {
        ParserFault::NoMemory
    }
}

/// Why an entry isn't joined: for want of memory alone.
pub type JoinFault = OutOfMemory;
