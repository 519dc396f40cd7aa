//! The lines of a packet text, one after another, in a plain run.

ghost use Rattle.std.specs.Prelude.{◌≡◌, ◌<◌, ◌≤◌, ◌+◌, ◌^◌, ℕ, List, Ok, length, IfOk, IsTrue, OnOk};
ghost use Rattle.rmt_ast.specs.declared.program.Program.{Program};
ghost use Rattle.rmt_ast.specs.declared.entry.Entry.{Entry};
ghost use Rattle.rmt_io.specs.Outside.{SinkState};
ghost use Rattle.rmt_packets.specs.LineKinds.{kind_of};
ghost use Rattle.rmt_packets.specs.PacketText.{packet_of};
ghost use Rattle.rmt_lists.specs.Running.{is_change, line_change};
ghost use Rattle.rmt_drive.specs.EventText.{EventReading, with_change, with_commit, with_line, with_packet};
ghost use Rattle.rmt_drive.specs.PlainRunning.{BreaksOver, Goes, Leaves, StandsOver, StopsOver};

use crate::plain_run::PlainRun;
use rmt_io::sink::Sink;
use rmt_packets::answer_line::write_answer;
use rmt_packets::line_kind::{LineKind, kind_of};
use rmt_packets::packet_line::{PacketFault, read_packet};
use rmt_runs::fault::RunFault;
use rmt_runs::taker::TakesLines;
use rmt_update::fault::ChangeFault;
use std::alloc::{AllocError, Global};

impl TakesLines for PlainRun {
    ghost Subject = { Program × List (List Entry) };

    ghost lent = { λ run. tt };

    ghost IsFew = { λ lines run. run.answered ≤ lines };

    ghost Stands = { StandsOver };

    ghost Stops = { StopsOver };

    ghost Breaks = { BreaksOver };

    fn take_line<O: Sink>(
        &mut self,
        alloc: Global,
        line: &[u8],
        frame: &mut Vec<u8>,
        out: &mut O,
    ) -> Result<Option<u8>, RunFault> {
        let Ok(code) = take(alloc, self, line, frame) else {
            return Err(RunFault::NoMemory);
        };
        match self.waiting.write_many(out) {
            Ok(()) => Ok(code),
            Err(_) => Err(RunFault::Write),
        }
    }
}

/// Takes a line, and answers the code of a bad one. The only fault is want of memory.
fn take(
    alloc: Global,
    run: &mut PlainRun,
    line: &[u8],
    frame: &mut Vec<u8>,
) -> Result<Option<u8>, AllocError>
    requires goes { (p : Program) × (lists : List (List Entry)) × (said : EventReading)
        × (before : SinkState) × (now : SinkState) × Goes p lists said run.old before now }
    requires few { run.old.answered < 2 ^ 63 }
    ensures ok { IfOk result
        (λ code. (p : Program) (lists : List (List Entry)) (said : EventReading) (number : ℕ)
        (before now : SinkState) → Goes p lists said run.old before now →
        Leaves p lists number said (with_line number line.now (kind_of line.now) said) run.new
        before now code) }
    ensures answered { OnOk result (run.new.answered ≤ run.old.answered + 1) }
{
    match kind_of(line) {
        LineKind::Addition => take_change(alloc, run, line),
        LineKind::Removal => take_change(alloc, run, line),
        LineKind::Commit => {
            take_commit(alloc, run)?;
            Ok(None)
        }
        LineKind::Packet => take_packet(alloc, run, line, frame),
    }
}

/// Reads a packet, answers it, and appends the line of its answer; or answers the code of its line.
fn take_packet(
    alloc: Global,
    run: &mut PlainRun,
    line: &[u8],
    frame: &mut Vec<u8>,
) -> Result<Option<u8>, AllocError>
    requires few { run.old.answered < 2 ^ 63 }
    ensures ok { IfOk result
        (λ code. (p : Program) (lists : List (List Entry)) (said : EventReading) (number : ℕ)
        (before now : SinkState) → Goes p lists said run.old before now →
        Leaves p lists number said (with_packet number (packet_of line.now) said) run.new
        before now code) }
    ensures answered { OnOk result (run.new.answered ≤ run.old.answered + 1) }
{
    match read_packet(line, frame) {
        Ok(port) => {
            answer(alloc, run, port, frame.as_slice())?;
            Ok(None)
        }
        Err(PacketFault::Code(code)) => Ok(Some(code)),
        Err(PacketFault::NoMemory) => Err(AllocError),
    }
}

/// Answers a packet, and appends the line of its answer.
fn answer(alloc: Global, run: &mut PlainRun, port: u16, frame: &[u8]) -> Result<(), AllocError>
    requires port { port < 512 }
    requires some { 1 ≤ length frame.now }
    requires short { length frame.now ≤ 9216 }
    requires few { run.old.answered < 2 ^ 63 }
    ensures ok { OnOk result
        ((p : Program) (lists : List (List Entry)) (said : EventReading) (number : ℕ)
        (before now : SinkState) → Goes p lists said run.old before now →
        Goes p lists (with_packet number (Ok (record { port = port; frame = frame.now })) said)
        run.new before now) }
    ensures answered { OnOk result (run.new.answered ≡ run.old.answered + 1) }
{
    let Ok(answer) = run.plain.packet(alloc, port, frame) else {
        return Err(AllocError);
    };
    match write_answer(run.answered, &answer, &mut run.waiting.lines) {
        Ok(()) => {
            run.answered += 1;
            Ok(())
        }
        Err(_) => Err(AllocError),
    }
}

/// Makes a change, or answers the code of its line.
fn take_change(alloc: Global, run: &mut PlainRun, line: &[u8]) -> Result<Option<u8>, AllocError>
    requires change { IsTrue (is_change line.now) }
    requires goes { (p : Program) × (lists : List (List Entry)) × (said : EventReading)
        × (before : SinkState) × (now : SinkState) × Goes p lists said run.old before now }
    ensures ok { IfOk result
        (λ code. (p : Program) (lists : List (List Entry)) (said : EventReading) (number : ℕ)
        (before now : SinkState) → Goes p lists said run.old before now →
        Leaves p lists number said (with_change number line.now (line_change said.run line.now) said)
        run.new before now code) }
    ensures answered { OnOk result (run.new.answered ≡ run.old.answered) }
{
    match run.lists.change(alloc, line) {
        Ok(()) => Ok(None),
        Err(ChangeFault::Refused { code }) => Ok(Some(code)),
        Err(ChangeFault::NoMemory) => Err(AllocError),
    }
}

/// Commits the changes since the last commit: the packets behind it meet the entries that they leave.
fn take_commit(alloc: Global, run: &mut PlainRun) -> Result<(), AllocError>
    requires { (p : Program) × (lists : List (List Entry)) × (said : EventReading)
        × (before : SinkState) × (now : SinkState) × Goes p lists said run.old before now }
    ensures ok { OnOk result
        ((p : Program) (lists : List (List Entry)) (said : EventReading)
        (before now : SinkState) → Goes p lists said run.old before now →
        Goes p lists (with_commit said) run.new before now) }
    ensures answered { OnOk result (run.new.answered ≡ run.old.answered) }
{
    let Ok(_) = run.lists.commit(alloc) else {
        return Err(AllocError);
    };
    let Ok(entries) = run.lists.current().copy(alloc) else {
        return Err(AllocError);
    };
    match run.plain.commit(alloc, entries) {
        Ok(()) => Ok(()),
        Err(_) => Err(AllocError),
    }
}
