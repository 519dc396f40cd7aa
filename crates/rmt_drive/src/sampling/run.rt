//! A run of the chip of which only counts are kept.

ghost use Rattle.std.specs.Prelude.{◌<◌, ◌^◌, ◌+◌, ◌++◌, ◌∷◌, List, [], Option, None, length, replicate, IfOk};
ghost use Rattle.rmt_drive.specs.Parts.{Config, Packet, entered_of, latency_of};
ghost use Rattle.rmt_chip.specs.Inputs.{input_of, MayEnter};
ghost use Rattle.rmt_chip.specs.PacketRuns.{StandsFor as Stands};
ghost use Rattle.rmt_drive.specs.Tallies.{IsBounded, StandsFor};

use crate::sampling::tally::{Tally, count, no_answers};
use rmt_chip::chip::Chip;
use rmt_chip::fault::ChipFault;
use rmt_chip::frame::Frame;
use rmt_chip::out::Out;
use std::alloc::Global;

/// A chip, the bytes of what leaves it, and how many cycles and answers there were.
#[derive(Drop)]
pub struct CountedRun {
    pub chip: Chip,
    pub leaving: Out,
    pub cycles: u64,
    pub tally: Tally,
}

/// A run of a chip in which nothing entered yet.
pub fn start(alloc: Global, chip: Chip) -> Result<CountedRun, ChipFault>
    ensures stands { IfOk result (λ run. (c : Config) → Stands c [] chip → StandsFor c [] run) }
    ensures bounded { IfOk result (λ run. IsBounded run.tally) }
{
    match Out::new(alloc) {
        Ok(leaving) => Ok(CountedRun {
            chip,
            leaving,
            cycles: 0,
            tally: no_answers(),
        }),
        Err(fault) => Err(fault),
    }
}

/// One cycle.
pub fn turn(run: &mut CountedRun, frame: Option<Frame<'_>>)
    requires frame { MayEnter frame }
    requires entered { entered_of run.old.chip < 2 ^ 63 }
    requires cycles { run.old.cycles + 1 < 2 ^ 64 }
    requires answered { run.old.tally.answered + 1 < 2 ^ 64 }
    requires bounded { IsBounded run.old.tally }
    ensures stands { (c : Config) (inputs : List (Option Packet)) → StandsFor c inputs run.old →
        StandsFor c (inputs ++ input_of frame.entry ∷ []) run.new }
    ensures bounded { IsBounded run.new.tally }
{
    let left = run.chip.clock(frame, &mut run.leaving);
    run.cycles += 1;
    count(&mut run.tally, left, run.leaving.bytes());
}

/// Clocks the chip until the last packet has left.
pub fn drain(run: &mut CountedRun)
    requires stands { (c : Config) × (inputs : List (Option Packet)) × StandsFor c inputs run.old
        × (length inputs < 2 ^ 63) }
    requires bounded { IsBounded run.old.tally }
    ensures stands { (c : Config) (inputs : List (Option Packet)) → StandsFor c inputs run.old →
        StandsFor c (inputs ++ replicate (latency_of c.stages) None) run.new }
    ensures bounded { IsBounded run.new.tally }
{
    let latency = run.chip.latency();
    for _age in 0..latency {
        turn(run, None);
    }
}
