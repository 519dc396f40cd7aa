//! Running the chip over the packets of a text.

ghost use Rattle.std.specs.Prelude.{◌≡◌, ◌≤◌, [], IsTrue};
ghost use Rattle.rmt_config.specs.declared.config.Config.{Config};
ghost use Rattle.rmt_chip.specs.Stands.{Stands};
ghost use Rattle.rmt_io.specs.Outside.{ReadingFailed, OnlyRead, PrintingFailed, OnlyPrinted};
ghost use Rattle.rmt_drive.specs.Ends.{IsRunStatus, Answered, Befalls, outside};
ghost use Rattle.rmt_drive.specs.ChipRuns.{RanWhole, RunsChip};
ghost use Rattle.rmt_drive.specs.CommitsOf.{AreCommitsOf};

mod begin;
mod changing;
mod commit;
pub mod commits;
mod finish;
mod line;
mod state;
mod taker;
mod turn;
mod wait;

use crate::run_end::fault_status;
use crate::running::commits::Commits;
use crate::running::finish::finish;
use crate::running::state::start;
use crate::running::taker::ChipTaker;
use crate::status::Status;
use crate::watch::Watch;
use rmt_chip::chip::Chip;
use rmt_io::shelf::Shelf;
use rmt_io::sink::Sink;
use rmt_runs::lines::take_all;
use std::alloc::Global;

/// Reads the packet text from the place in the shelf's open file on, of which `limit` bytes may be read, clocks the chip,
/// changes its entries, and prints the answers, the counters, the cycles and the flight, or the last line of a bad line.
/// The text is empty where no file is open. `commits` may have the entries and the cells of the chip's configuration; where
/// it has none, they are made at the first line that changes entries or commits, if there are names, so that a run of
/// packets alone takes no time and no memory for them.
///
/// The answers are `Done`, `ReadFault`, `TooLong`, `BadPackets`, `WriteFault` and `NoMemory`.
pub fn run_chip<F: Shelf, O: Sink>(
    alloc: Global,
    shelf: &mut F,
    limit: u64,
    chip: &mut Chip,
    commits: &mut Option<Commits>,
    out: &mut O,
) -> Status
    requires limit { limit ≤ 1099511627776 }
    requires stands { (c : Config) × Stands c [] chip.old × AreCommitsOf c commits.old }
    ensures possible { IsRunStatus result }
    // With Done the chip stands for all cycles of one run that the text may have, whose text was printed.
    ensures clocked { result ≡ Status.Done → IsTrue (F.state shelf.old).tells → (c : Config) →
        Stands c [] chip.old → AreCommitsOf c commits.old →
        RanWhole Watch.Answers c (F.state shelf.old).rest chip.new (O.state out.old)
        (O.state out.new) }
    ensures answered { IsTrue (F.state shelf.old).tells → (c : Config) → Stands c [] chip.old →
        AreCommitsOf c commits.old →
        let before = outside (F.state shelf.old) (O.state out.old) in
        let after = outside (F.state shelf.new) (O.state out.new) in
        Answered before after
        (RunsChip Watch.Answers before.shelf.files c limit before.shelf.rest) result }
    ensures read_fault { result ≡ Status.ReadFault →
        ReadingFailed (F.state shelf.old) (F.state shelf.new) }
    ensures write_fault { result ≡ Status.WriteFault →
        PrintingFailed (O.state out.old) (O.state out.new) }
    ensures only_read { OnlyRead (F.state shelf.old) (F.state shelf.new) }
    ensures only_printed { OnlyPrinted (O.state out.old) (O.state out.new) }
{
    run_watched(alloc, shelf, limit, chip, commits, Watch::Answers, out)
}

/// The same, printing what is watched.
pub fn run_watched<F: Shelf, O: Sink>(
    alloc: Global,
    shelf: &mut F,
    limit: u64,
    chip: &mut Chip,
    commits: &mut Option<Commits>,
    watch: Watch,
    out: &mut O,
) -> Status
    requires limit { limit ≤ 1099511627776 }
    requires stands { (c : Config) × Stands c [] chip.old × AreCommitsOf c commits.old }
    ensures possible { IsRunStatus result }
    ensures clocked { result ≡ Status.Done → IsTrue (F.state shelf.old).tells → (c : Config) →
        Stands c [] chip.old → AreCommitsOf c commits.old →
        RanWhole watch c (F.state shelf.old).rest chip.new (O.state out.old) (O.state out.new) }
    ensures answered { IsTrue (F.state shelf.old).tells → (c : Config) → Stands c [] chip.old →
        AreCommitsOf c commits.old →
        let before = outside (F.state shelf.old) (O.state out.old) in
        let after = outside (F.state shelf.new) (O.state out.new) in
        Answered before after (RunsChip watch before.shelf.files c limit before.shelf.rest) result }
    ensures befalls { Befalls (outside (F.state shelf.old) (O.state out.old))
        (outside (F.state shelf.new) (O.state out.new)) result }
{
    let Ok(mut run) = start(alloc, watch) else {
        return Status::NoMemory;
    };
    let mut taker = ChipTaker {
        chip: &mut *chip,
        commits,
        run: &mut run,
    };
    match take_all(alloc, shelf, limit, &mut taker, out) {
        Ok(bad) => finish(alloc, chip, &mut run, bad, out),
        Err(fault) => fault_status(fault),
    }
}
