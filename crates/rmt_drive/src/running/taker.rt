//! A run of the chip as what takes lines.

ghost use Rattle.std.specs.Prelude.{ℕ};
ghost use Rattle.rmt_drive.specs.Parts.{Config, Watch};
ghost use Rattle.rmt_drive.specs.Running.{BreaksOver, IsFew, StandsOver, StopsOver};

use crate::running::commits::Commits;
use crate::running::line::take_line;
use crate::running::state::Run;
use rmt_chip::chip::Chip;
use rmt_io::sink::Sink;
use rmt_runs::fault::RunFault;
use rmt_runs::taker::TakesLines;
use std::alloc::Global;

/// A chip that is lent, with what changes its entries, and its run.
#[derive(Drop)]
pub struct ChipTaker<'a> {
    pub chip: &'a mut Chip,
    pub commits: &'a mut Option<Commits>,
    pub run: &'a mut Run,
}

impl TakesLines for ChipTaker<'_> {
    ghost Subject = { Watch × Config };

    ghost Lent = { ℕ × ℕ };

    ghost lent = { λ t. (t.chip.ghost_name, t.run.ghost_name) };

    ghost IsFew = { λ lines t. IsFew lines t.run.now t.chip.now };

    ghost Stands = { λ x lines t before now. StandsOver x lines t.run.now t.chip.now t.commits.now before now };

    ghost Stops = { λ x lines line code t before now. StopsOver x lines line code t.run.now t.chip.now before now };

    ghost Breaks = { BreaksOver };

    fn take_line<O: Sink>(
        &mut self,
        alloc: Global,
        line: &[u8],
        frame: &mut Vec<u8>,
        out: &mut O,
    ) -> Result<Option<u8>, RunFault> {
        take_line(alloc, self.chip, self.commits, self.run, line, frame, out)
    }
}
