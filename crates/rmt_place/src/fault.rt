//! Why nodes are not placed, or stages not started.

ghost use Rattle.std.specs.Prelude.{◌≡◌};
ghost use Rattle.rmt_place.specs.declared.fault.StageFull.TheVariants.{NoMemory};

use rmt_bits::fault::OutOfMemory;
use rmt_bits::sequence::Sequence;
use rmt_config::limits::LimitHit;
use rmt_pack::placement::Placement;
use std::alloc::AllocError;
use thiserror::Error;

/// Why stages are not started: for want of memory alone.
pub type PlaceFault = OutOfMemory;

/// Why nodes are not placed.
#[derive(Debug, Drop, Error)]
pub enum StageFull {
    /// There is not enough memory.
    #[error("out of memory")]
    NoMemory,
    /// A node doesn't stand in the stages that are left for it.
    #[error("node {node} doesn't stand in the stages that are left for it")]
    At {
        /// The number of the node, from 0 on.
        node: u32,
        /// What was placed, with the quanta of this node that found room.
        placed: Placement,
        /// For each stage from the node's earliest on, the first limit that one more of its quanta would pass.
        hits: Sequence<LimitHit>,
    },
}

impl From<AllocError> for StageFull {
    ghost from_gives = { λ _ e. e ≡ NoMemory };

    fn from(_error: AllocError) -> StageFull {
        StageFull::NoMemory
    }
}

impl From<OutOfMemory> for StageFull {
    ghost from_gives = { λ _ e. e ≡ NoMemory };

    fn from(_error: OutOfMemory) -> StageFull {
        StageFull::NoMemory
    }
}
