//! The cycles of a commit.

ghost use Rattle.std.specs.Prelude.{◌≡◌, ◌<◌, ◌≤◌, ◌^◌, ◌+◌, ◌++◌, All, List, length, map, IfErr, OnOk};
ghost use Rattle.rmt_drive.specs.Parts.{Config, Event, Goes, Input, IsTaken, Prints, RunState, SinkState, Watch, Writes, commit_cycles, entered_of, spare_of, version_of};
ghost use Rattle.rmt_drive.specs.ChipCycles.{Came, CutOff, EachCame};

use crate::running::state::Run;
use crate::running::turn::{Cycle, turn};
use crate::running::wait::wait;
use rmt_chip::chip::Chip;
use rmt_config::cell_write::CellWrite;
use rmt_io::sink::Sink;
use rmt_runs::fault::RunFault;

/// The cycles of a commit: it waits, changes cells, and makes the next version the current one.
pub fn change_cells<O: Sink>(
    chip: &mut Chip,
    run: &mut Run,
    moved: bool,
    seed: u8,
    writes: &[CellWrite],
    out: &mut O,
) -> Result<(), RunFault>
    requires came { (w : Watch) × (c : Config) × (events : List Event) × (made : List Input)
        × (r : RunState) × (before : SinkState)
        × Came w c events made r run.old chip.old before (O.state out.old)
        × All (IsTaken c.stages) writes.now }
    requires entered { entered_of chip.old < 2 ^ 63 }
    requires versions { version_of chip.old < 2 ^ 63 }
    requires cycles { run.old.cycles < 2 ^ 125 }
    ensures ok { OnOk result
        (EachCame run.old chip.old (O.state out.old) (λ w c made r before.
        Goes w c (made ++ commit_cycles r moved seed writes.now) run.new chip.new before
        (O.state out.new))) }
    ensures cut { IfErr result
        (λ fault. EachCame run.old chip.old (O.state out.old) (λ w c made r before.
        (part : List Input) × (rest : List Input)
        × (commit_cycles r moved seed writes.now ≡ part ++ rest)
        × CutOff w c (made ++ part) before (O.state out.new) fault)) }
    ensures cycles { OnOk result (run.new.cycles ≤ run.old.cycles + 8589934592) }
    ensures prints { Prints (O.state out.old) (O.state out.new) result }
{
    let Ok(count) = u32::try_from(writes.len()) else {
        return Err(RunFault::NoMemory);
    };
    let Ok(()) = chip.reserve(count) else {
        return Err(RunFault::NoMemory);
    };
    match wait(chip, run, moved, out) {
        Ok(()) => {}
        Err(fault) => return Err(fault),
    }
    match write_cells(chip, run, writes, out) {
        Ok(()) => {}
        Err(fault) => return Err(fault),
    }
    turn(chip, run, Cycle::Turns(seed), out)
}

/// Changes cells, one a cycle.
fn write_cells<O: Sink>(
    chip: &mut Chip,
    run: &mut Run,
    writes: &[CellWrite],
    out: &mut O,
) -> Result<(), RunFault>
    requires goes { (w : Watch) × (c : Config) × (made : List Input) × (before : SinkState)
        × Goes w c made run.old chip.old before (O.state out.old)
        × All (IsTaken c.stages) writes.now }
    requires room { length writes.now ≤ spare_of chip.old }
    requires few { length writes.now < 2 ^ 32 }
    requires entered { entered_of chip.old < 2 ^ 63 }
    requires cycles { run.old.cycles < 2 ^ 126 }
    ensures ok { OnOk result
        ((w : Watch) (c : Config) (made : List Input) (before : SinkState) →
        Goes w c made run.old chip.old before (O.state out.old) →
        Goes w c (made ++ map Writes writes.now) run.new chip.new before (O.state out.new)) }
    ensures cut { IfErr result
        (λ fault. (w : Watch) (c : Config) (made : List Input) (before : SinkState) →
        Goes w c made run.old chip.old before (O.state out.old) →
        (part : List Input) × (rest : List Input) × (map Writes writes.now ≡ part ++ rest)
        × CutOff w c (made ++ part) before (O.state out.new) fault) }
    ensures cycles { OnOk result (run.new.cycles ≡ run.old.cycles + length writes.now) }
    ensures prints { Prints (O.state out.old) (O.state out.new) result }
{
    for write in writes {
        match turn(chip, run, Cycle::Changes(write), out) {
            Ok(()) => {}
            Err(fault) => return Err(fault),
        }
    }
    Ok(())
}
