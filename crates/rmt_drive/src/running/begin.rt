//! What changes the entries of a run, made where a line first wants it.

ghost use Rattle.std.specs.Prelude.{◌≡◌, List, None, OnOk};
ghost use Rattle.rmt_drive.specs.Parts.{Config, EventReading, Input, Run, SinkState, Stands, Watch};
ghost use Rattle.rmt_drive.specs.Running.{Follows};

use crate::running::commits::{Commits, commits_of};
use rmt_chip::chip::Chip;
use std::alloc::{AllocError, Global};

/// Makes what changes the entries of a run, unless it is made already or the chip's configuration has no names. The only
/// fault is want of memory.
pub fn begin(alloc: Global, chip: &Chip, commits: &mut Option<Commits>) -> Result<(), AllocError>
    requires follows { (w : Watch) × (c : Config) × (said : EventReading) × (run : Run)
        × (before : SinkState) × (now : SinkState)
        × Follows w c said run chip.now commits.old before now }
    ensures goes { OnOk result
        ((w : Watch) (c : Config) (said : EventReading) (run : Run) (before now : SinkState) →
        Follows w c said run chip.now commits.old before now →
        Follows w c said run chip.now commits.new before now) }
    ensures unnamed { OnOk result (commits.new ≡ None → (c : Config) (made : List Input) →
        Stands c made chip.now → c.names ≡ None) }
{
    if commits.is_some() {
        return Ok(());
    }
    let made = commits_of(alloc, chip.config())?;
    *commits = made;
    Ok(())
}
