//! Why a program's fields are not packed.

ghost use Rattle.std.specs.Prelude.{◌≡◌};
ghost use Rattle.rmt_phv.specs.declared.fault.PhvFull.TheVariants.{NoMemory};

use std::alloc::AllocError;
use thiserror::Error;

/// Why the fields of a program are not packed.
#[derive(Debug, Drop, Error)]
pub enum PhvFull {
    /// There is not enough memory.
    #[error("out of memory")]
    NoMemory,
    /// No word is left for a piece of a field.
    #[error("no word of {class} bits or more is left for field {field}")]
    At {
        /// The field's number, from 0 on.
        field: u32,
        /// The size of the least words that hold the piece: 8, 16 or 32 bits.
        class: u8,
    },
}

impl From<AllocError> for PhvFull {
    ghost from_gives = { λ _ e. e ≡ NoMemory };

    fn from(_error: AllocError) -> PhvFull {
        PhvFull::NoMemory
    }
}
