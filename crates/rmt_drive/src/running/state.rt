//! What there is of a run beside its chip.

ghost use Rattle.std.specs.Prelude.{[], IfOk};
ghost use Rattle.rmt_drive.specs.Parts.{Chip, Config, Goes, SinkState, Stands};

use crate::watch::Watch;
use rmt_chip::fault::ChipFault;
use rmt_chip::out::Out;
use rmt_runs::waiting::Waiting;
use std::alloc::Global;

/// What is printed of a run, the bytes of what leaves, the lines that are not written yet, how many answers and cycles
/// there were, and the greatest number of packets that were in flight in one cycle.
#[derive(Drop)]
pub struct Run {
    pub watch: Watch,
    pub leaving: Out,
    pub waiting: Waiting,
    pub answered: u64,
    pub cycles: u128,
    pub flight: u64,
}

/// A run in which nothing entered.
pub fn start(alloc: Global, watch: Watch) -> Result<Run, ChipFault>
    ensures { IfOk result
        (λ run. (c : Config) (chip : Chip) (before : SinkState) → Stands c [] chip →
        Goes watch c [] run chip before before) }
{
    match Out::new(alloc) {
        Ok(leaving) => Ok(Run {
            watch,
            leaving,
            waiting: Waiting::new(alloc),
            answered: 0,
            cycles: 0,
            flight: 0,
        }),
        Err(fault) => Err(fault),
    }
}
