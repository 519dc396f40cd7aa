//! How a run over a packet text ends.

ghost use Rattle.std.specs.Prelude.{◌≡◌, ◌≢◌, ◌⊎◌, ◌++◌, [], IfOk, string_bytes};
ghost use Rattle.rmt_io.specs.Outside.{Gained, PrintingFailed, OnlyPrinted};
ghost use Rattle.rmt_runs.specs.Printing.{GainedFront};
ghost use Rattle.rmt_drive.specs.SimText.{bad_packets_line};
ghost use Rattle.rmt_drive.specs.RunEnd.{status_of_fault, status_of_end};

use crate::status::Status;
use rmt_io::sink::Sink;
use rmt_runs::fault::{Bad, RunFault};
use rmt_runs::waiting::Waiting;
use std::alloc::{AllocError, Global};

/// The status of a run that ended early.
pub fn fault_status(fault: RunFault) -> Status
    ensures { result ≡ status_of_fault fault }
{
    match fault {
        RunFault::NoMemory => Status::NoMemory,
        RunFault::Write => Status::WriteFault,
        RunFault::Read => Status::ReadFault,
        RunFault::TooLong => Status::TooLong,
    }
}

/// The status of a run that came to the end of its text or to a bad line.
pub fn end_status(bad: Option<Bad>) -> Status
    ensures { result ≡ status_of_end bad }
{
    match bad {
        None => Status::Done,
        Some(_) => Status::BadPackets,
    }
}

/// Writes the lines that wait and a last text behind them, and answers the status of the end of a run; where the sink
/// fails, it is `WriteFault`.
pub fn end_run<O: Sink>(waiting: &Waiting, last: &[u8], bad: Option<Bad>, out: &mut O) -> Status
    ensures status { (result ≡ status_of_end bad) ⊎ (result ≡ Status.WriteFault) }
    ensures printed { result ≡ status_of_end bad →
        Gained (O.state out.old) (O.state out.new) (waiting.now.lines.items ++ last.now) }
    ensures front { GainedFront (O.state out.old) (O.state out.new)
        (waiting.now.lines.items ++ last.now) }
    ensures some { result ≡ Status.WriteFault → waiting.now.lines.items ++ last.now ≢ [] }
    ensures failed { result ≡ Status.WriteFault →
        PrintingFailed (O.state out.old) (O.state out.new) }
    ensures only_printed { OnlyPrinted (O.state out.old) (O.state out.new) }
{
    match waiting.end(last, out) {
        Ok(()) => end_status(bad),
        Err(_) => Status::WriteFault,
    }
}

/// `bad packets CODE line L`
pub fn bad_text(alloc: Global, bad: Bad) -> Result<String, AllocError>
    ensures { IfOk result (λ text. string_bytes text ≡ bad_packets_line bad.code bad.line) }
{
    let code = bad.code;
    let line = bad.line;
    format!(in alloc; "bad packets {code} line {line}\n")
}
