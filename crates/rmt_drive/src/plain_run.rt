//! Running a program table by table over a packet text, whose lines may change its entries.

ghost use Rattle.std.specs.Prelude.{◌≡◌, ◌≢◌, ◌≤◌, ◌⊎◌, List, [], IsTrue, IfOk};
ghost use Rattle.rmt_ast.specs.declared.program.Program.{Program};
ghost use Rattle.rmt_ast.specs.declared.entry.Entry.{Entry};
ghost use Rattle.rmt_ast.specs.Events.{Event};
ghost use Rattle.rmt_plain.specs.Stands.{HasTaken};
ghost use Rattle.rmt_io.specs.Outside.{SinkState, Gained, PrintingFailed, OnlyPrinted};
ghost use Rattle.rmt_drive.specs.Ends.{IsRunStatus, Answered, Befalls, outside};
ghost use Rattle.rmt_drive.specs.EventText.{EventReading, unread, with_changes};
ghost use Rattle.rmt_drive.specs.PlainRunning.{Goes, ended_at};
ghost use Rattle.rmt_drive.specs.PlainText.{plain_end, plain_text};
ghost use Rattle.rmt_runs.specs.Printing.{GainedFront};
ghost use Rattle.rmt_drive.specs.RunEnd.{bad_line, status_of_end};
ghost use Rattle.rmt_drive.specs.Runs.{RunsBy};

mod line;

use crate::count_lines::count_lines;
use crate::run_end::{bad_text, end_run, fault_status};
use crate::status::Status;
use rmt_io::shelf::Shelf;
use rmt_io::sink::Sink;
use rmt_plain::plain::Plain;
use rmt_runs::fault::Bad;
use rmt_runs::lines::take_all;
use rmt_runs::waiting::Waiting;
use rmt_update::lists::Lists;
use std::alloc::{AllocError, Global};

/// A program with the entries that its packets meet, its entries as the lines so far leave them, how many packets were
/// answered, and the lines that are not written yet.
#[derive(Drop)]
pub struct PlainRun {
    pub plain: Plain,
    pub lists: Lists,
    pub answered: u64,
    pub waiting: Waiting,
}

/// What stands behind the answers: the counters, or the last line for a bad line.
fn last_text(alloc: Global, plain: &Plain, bad: Option<Bad>) -> Result<Vec<u8>, AllocError>
    ensures { IfOk result
        (λ text. (p : Program) (lists : List (List Entry)) (events : List Event) →
        HasTaken p lists events plain.now →
        text.items ≡ plain_end p lists events (bad_line bad)) }
{
    match bad {
        None => count_lines(alloc, plain.counters()),
        Some(bad) => {
            let line = bad_text(alloc, bad)?;
            Ok(line.into_bytes())
        }
    }
}

/// Prints the lines that wait and what stands behind the answers.
fn finish<O: Sink>(alloc: Global, run: &PlainRun, bad: Option<Bad>, out: &mut O) -> Status
    ensures possible { (result ≡ status_of_end bad) ⊎ (result ≡ Status.WriteFault)
        ⊎ (result ≡ Status.NoMemory) }
    ensures printed { result ≡ status_of_end bad →
        (p : Program) (lists : List (List Entry)) (said : EventReading) (before : SinkState) →
        Goes p lists said run.now before (O.state out.old) →
        Gained before (O.state out.new) (plain_text p lists (ended_at bad said)) }
    ensures front { (p : Program) (lists : List (List Entry)) (said : EventReading)
        (before : SinkState) → Goes p lists said run.now before (O.state out.old) →
        GainedFront before (O.state out.new) (plain_text p lists (ended_at bad said)) }
    ensures some { result ≡ Status.WriteFault →
        (p : Program) (lists : List (List Entry)) (said : EventReading) (before : SinkState) →
        Goes p lists said run.now before (O.state out.old) →
        plain_text p lists (ended_at bad said) ≢ [] }
    ensures failed { result ≡ Status.WriteFault →
        PrintingFailed (O.state out.old) (O.state out.new) }
    ensures only_printed { OnlyPrinted (O.state out.old) (O.state out.new) }
{
    match last_text(alloc, &run.plain, bad) {
        Ok(last) => end_run(&run.waiting, last.as_slice(), bad, out),
        Err(_) => Status::NoMemory,
    }
}

/// Runs the lines of the shelf's open file, of which so many bytes may be read, and prints the answers and the counters.
pub fn run_plain<F: Shelf, O: Sink>(
    alloc: Global,
    shelf: &mut F,
    limit: u64,
    run: &mut PlainRun,
    out: &mut O,
) -> Status
    requires limit { limit ≤ 1099511627776 }
    requires starts { (p : Program) × (lists : List (List Entry))
        × Goes p lists (unread p lists) run.old (O.state out.old) (O.state out.old) }
    ensures possible { IsRunStatus result }
    ensures answered { IsTrue (F.state shelf.old).tells →
        (p : Program) (lists : List (List Entry)) →
        Goes p lists (unread p lists) run.old (O.state out.old) (O.state out.old) →
        let before = outside (F.state shelf.old) (O.state out.old) in
        let after = outside (F.state shelf.new) (O.state out.new) in
        Answered before after
        (RunsBy (with_changes p lists) before.shelf.files (plain_text p lists) limit before.shelf.rest)
        result }
    ensures befalls { Befalls (outside (F.state shelf.old) (O.state out.old))
        (outside (F.state shelf.new) (O.state out.new)) result }
{
    match take_all(alloc, shelf, limit, run, out) {
        Ok(bad) => finish(alloc, run, bad, out),
        Err(fault) => fault_status(fault),
    }
}
