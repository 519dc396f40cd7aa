//! The commits of a run.

ghost use Rattle.std.specs.Prelude.{◌≡◌, ◌<◌, ◌^◌, ◌+◌, ℕ, List, Some, IfErr, IfOk, OnOk};
ghost use Rattle.rmt_drive.specs.Parts.{Config, EventReading, Input, Prints, RunState, SinkState, Watch};
ghost use Rattle.rmt_packets.specs.declared.line_kind.LineKind.TheVariants as kind;
ghost use Rattle.rmt_packets.specs.LineKinds.{kind_of};
ghost use Rattle.rmt_drive.specs.Running.{Follows, HasCome, IsFew, IsPlannedAt, IsRunning, IsUnplannedAt, Leaves, LeftOff};

use crate::running::changing::change_cells;
use crate::running::commits::Commits;
use crate::running::state::Run;
use rmt_chip::chip::Chip;
use rmt_io::sink::Sink;
use rmt_runs::fault::RunFault;
use rmt_update::book::plan::Plan;
use rmt_update::fault::UpdateFault;
use std::alloc::Global;

/// Commits the changes since the last commit. It answers code 10 where they find no room.
pub fn commit<O: Sink>(
    alloc: Global,
    chip: &mut Chip,
    commits: &mut Commits,
    run: &mut Run,
    out: &mut O,
) -> Result<Option<u8>, RunFault>
    requires follows { IsRunning run.old chip.old (Some commits.old) (O.state out.old) }
    requires few { (lines : ℕ) × (lines < 2 ^ 41) × IsFew lines run.old chip.old }
    ensures ok { IfOk result
        (λ code. (w : Watch) (c : Config) (said : EventReading) (number : ℕ) (text : List ℕ)
        (before : SinkState) → kind_of text ≡ kind.Commit →
        Follows w c said run.old chip.old (Some commits.old) before (O.state out.old) →
        Leaves w c number text said run.new chip.new (Some commits.new) before (O.state out.new)
        code) }
    ensures cut { IfErr result
        (λ fault. (w : Watch) (c : Config) (said : EventReading) (number : ℕ) (text : List ℕ)
        (before : SinkState) → kind_of text ≡ kind.Commit →
        Follows w c said run.old chip.old (Some commits.old) before (O.state out.old) →
        LeftOff w c number text said before (O.state out.new) fault) }
    ensures few { OnOk result ((lines : ℕ) → IsFew lines run.old chip.old →
        IsFew (lines + 1) run.new chip.new) }
    ensures prints { Prints (O.state out.old) (O.state out.new) result }
{
    match plan(alloc, commits) {
        Ok(plan) => match change_cells(
            chip,
            run,
            plan.moved,
            plan.seed,
            plan.writes.as_slice(),
            out,
        ) {
            Ok(()) => Ok(None),
            Err(fault) => Err(fault),
        },
        Err(UpdateFault::NoMemory) => Err(RunFault::NoMemory),
        Err(UpdateFault::LoadFull { .. }) => Ok(Some(10)),
    }
}

/// What the changes since the last commit change in the cells.
fn plan(alloc: Global, commits: &mut Commits) -> Result<Plan, UpdateFault>
    requires { (c : Config) × (said : EventReading) × (made : List Input) × (r : RunState)
        × HasCome c said made r (Some commits.old) }
    ensures planned { IfOk result
        (λ plan. (c : Config) (said : EventReading) (made : List Input) (r : RunState) →
        HasCome c said made r (Some commits.old) → IsPlannedAt c said r plan commits.new) }
    ensures refused { IfErr result
        (λ fault. (c : Config) (said : EventReading) (made : List Input) (r : RunState) →
        HasCome c said made r (Some commits.old) → IsUnplannedAt c said r fault) }
{
    match commits.lists.commit(alloc) {
        Ok(changes) => commits.book.plan(alloc, &changes),
        Err(fault) => Err(fault),
    }
}
