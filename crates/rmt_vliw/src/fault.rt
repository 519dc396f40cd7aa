//! Why an action has no instruction.

ghost use Rattle.std.specs.Prelude.{◌≡◌};

use rmt_bits::fault::OutOfMemory;
use std::alloc::AllocError;
use thiserror::Error;

/// Why an action is not folded.
#[derive(Debug, Drop, Error)]
pub enum ActionDeep {
    /// There is not enough memory.
    #[error("out of memory")]
    NoMemory,
    /// The value that the action leaves in a field takes more than one operation.
    #[error("action {action} leaves more than one operation in field {field}")]
    At {
        /// The action's number, from 0 on.
        action: u32,
        /// The number of the first such field, in the order of first assignment.
        field: u32,
    },
}

impl From<AllocError> for ActionDeep {
    ghost use Rattle.rmt_vliw.specs.declared.fault.ActionDeep.TheVariants.{NoMemory};

    ghost from_gives = { λ _ e. e ≡ NoMemory };

    fn from(_error: AllocError) -> ActionDeep {
        ActionDeep::NoMemory
    }
}

/// Why an instruction is not made: for want of memory alone.
pub type VliwFault = OutOfMemory;
