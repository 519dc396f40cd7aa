//! Cycles in which nothing enters.

ghost use Rattle.std.specs.Prelude.{◌≡◌, ◌<◌, ◌≤◌, ◌^◌, ◌+◌, ◌++◌, ℕ, List, replicate, IfErr, OnOk};
ghost use Rattle.rmt_drive.specs.Parts.{Config, Goes, Idle, Input, Prints, Stands, is_waiting, oldest_in_flight, spare_of, version_of, waits};
ghost use Rattle.rmt_drive.specs.ChipCycles.{CutOff, EachCame, MayWait};

use crate::running::state::Run;
use crate::running::turn::{Cycle, turn};
use rmt_chip::chip::Chip;
use rmt_io::sink::Sink;
use rmt_runs::fault::RunFault;

/// Clocks the chip until no packet of an older version is in flight, and where `moved` until none is.
pub fn wait<O: Sink>(
    chip: &mut Chip,
    run: &mut Run,
    moved: bool,
    out: &mut O,
) -> Result<(), RunFault>
    requires may { MayWait run.old chip.old (O.state out.old) }
    ensures ok { OnOk result
        (EachCame run.old chip.old (O.state out.old) (λ w c made r before.
        Goes w c (made ++ replicate (waits r moved) Idle) run.new chip.new before
        (O.state out.new))) }
    ensures cut { IfErr result
        (λ fault. EachCame run.old chip.old (O.state out.old) (λ w c made r before.
        (count : ℕ) × (count ≤ waits r moved)
        × CutOff w c (made ++ replicate count Idle) before (O.state out.new) fault)) }
    ensures cycles { OnOk result (run.new.cycles ≤ run.old.cycles + 65536) }
    ensures spare { OnOk result (spare_of chip.old ≤ spare_of chip.new) }
    ensures prints { Prints (O.state out.old) (O.state out.new) result }
{
    let latency = chip.latency();
    for _age in 0..latency {
        if !is_waiting(chip, moved) {
            return Ok(());
        }
        match turn(chip, run, Cycle::Idle, out) {
            Ok(()) => {}
            Err(fault) => return Err(fault),
        }
    }
    Ok(())
}

/// Whether a commit must wait for a packet in flight.
fn is_waiting(chip: &Chip, moved: bool) -> bool
    ensures { (c : Config) (made : List Input) → Stands c made chip.now →
        result ≡ is_waiting moved (version_of chip.now) (oldest_in_flight c made) }
{
    match chip.oldest() {
        None => false,
        Some(oldest) => moved || oldest < chip.version(),
    }
}
