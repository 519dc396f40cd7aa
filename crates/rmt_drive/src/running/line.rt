//! The lines of a packet text, one after another, in a run of the chip.

ghost use Rattle.std.specs.Prelude.{◌≡◌, ◌<◌, ◌⊎◌, ◌^◌, ◌+◌, ℕ, List, Option, IfErr, IfOk, IsTrue, OnOk};
ghost use Rattle.rmt_drive.specs.Parts.{Config, EventReading, Prints, Run, SinkState, Watch};
ghost use Rattle.rmt_packets.specs.declared.line_kind.LineKind.TheVariants as kind;
ghost use Rattle.rmt_packets.specs.LineKinds.{kind_of};
ghost use Rattle.rmt_lists.specs.Running.{is_change};
ghost use Rattle.rmt_drive.specs.Running.{Follows, IsFew, IsRunning, Leaves, LeftOff};

use crate::running::begin::begin;
use crate::running::commit::commit;
use crate::running::commits::Commits;
use crate::running::state::Run;
use crate::running::turn::{Cycle, turn};
use rmt_chip::chip::Chip;
use rmt_chip::frame::Frame;
use rmt_io::sink::Sink;
use rmt_packets::line_kind::{LineKind, kind_of};
use rmt_packets::packet_line::{PacketFault, read_packet};
use rmt_runs::fault::RunFault;
use rmt_update::fault::ChangeFault;
use std::alloc::Global;

/// Takes the next line of a text, which is not passed over. It answers the code of a bad line.
pub fn take_line<O: Sink>(
    alloc: Global,
    chip: &mut Chip,
    commits: &mut Option<Commits>,
    run: &mut Run,
    line: &[u8],
    frame: &mut Vec<u8>,
    out: &mut O,
) -> Result<Option<u8>, RunFault>
    requires follows { IsRunning run.old chip.old commits.old (O.state out.old) }
    requires few { (lines : ℕ) × (lines < 2 ^ 41) × IsFew lines run.old chip.old }
    ensures ok { IfOk result
        (λ code. (w : Watch) (c : Config) (said : EventReading) (number : ℕ)
        (before : SinkState) →
        Follows w c said run.old chip.old commits.old before (O.state out.old) →
        Leaves w c number line.now said run.new chip.new commits.new before (O.state out.new)
        code) }
    ensures cut { IfErr result
        (λ fault. (w : Watch) (c : Config) (said : EventReading) (number : ℕ)
        (before : SinkState) →
        Follows w c said run.old chip.old commits.old before (O.state out.old) →
        LeftOff w c number line.now said before (O.state out.new) fault) }
    ensures few { OnOk result ((lines : ℕ) → IsFew lines run.old chip.old →
        IsFew (lines + 1) run.new chip.new) }
    ensures prints { Prints (O.state out.old) (O.state out.new) result }
{
    match kind_of(line) {
        LineKind::Addition => take_change(alloc, chip, commits, line),
        LineKind::Removal => take_change(alloc, chip, commits, line),
        LineKind::Commit => take_commit(alloc, chip, commits, run, out),
        LineKind::Packet => take_packet(chip, run, line, frame, out),
    }
}

/// Reads a packet, and enters it; or answers the code of its line.
fn take_packet<O: Sink>(
    chip: &mut Chip,
    run: &mut Run,
    line: &[u8],
    frame: &mut Vec<u8>,
    out: &mut O,
) -> Result<Option<u8>, RunFault>
    requires follows { (commits : Option Commits)
        × IsRunning run.old chip.old commits (O.state out.old) }
    requires few { (lines : ℕ) × (lines < 2 ^ 41) × IsFew lines run.old chip.old }
    ensures ok { IfOk result
        (λ code. (w : Watch) (c : Config) (said : EventReading) (number : ℕ)
        (before : SinkState) (commits : Option Commits) → kind_of line.now ≡ kind.Packet →
        Follows w c said run.old chip.old commits before (O.state out.old) →
        Leaves w c number line.now said run.new chip.new commits before (O.state out.new)
        code) }
    ensures cut { IfErr result
        (λ fault. (w : Watch) (c : Config) (said : EventReading) (number : ℕ)
        (before : SinkState) (commits : Option Commits) → kind_of line.now ≡ kind.Packet →
        Follows w c said run.old chip.old commits before (O.state out.old) →
        LeftOff w c number line.now said before (O.state out.new) fault) }
    ensures few { OnOk result ((lines : ℕ) → IsFew lines run.old chip.old →
        IsFew (lines + 1) run.new chip.new) }
    ensures prints { Prints (O.state out.old) (O.state out.new) result }
{
    let port = match read_packet(line, frame) {
        Ok(port) => port,
        Err(PacketFault::Code(code)) => return Ok(Some(code)),
        Err(PacketFault::NoMemory) => return Err(RunFault::NoMemory),
    };
    let entering = Frame {
        port,
        bytes: frame.as_slice(),
    };
    match turn(chip, run, Cycle::Enters(entering), out) {
        Ok(()) => Ok(None),
        Err(fault) => Err(fault),
    }
}

/// Makes a change, or answers the code of its line.
fn take_change(
    alloc: Global,
    chip: &Chip,
    commits: &mut Option<Commits>,
    line: &[u8],
) -> Result<Option<u8>, RunFault>
    requires change { IsTrue (is_change line.now) }
    requires follows { (w : Watch) × (c : Config) × (said : EventReading) × (run : Run)
        × (before : SinkState) × (now : SinkState)
        × Follows w c said run chip.now commits.old before now }
    ensures ok { IfOk result
        (λ code. (w : Watch) (c : Config) (said : EventReading) (number : ℕ) (run : Run)
        (before now : SinkState) →
        (kind_of line.now ≡ kind.Addition) ⊎ (kind_of line.now ≡ kind.Removal) →
        Follows w c said run chip.now commits.old before now →
        Leaves w c number line.now said run chip.now commits.new before now code) }
    ensures memory { IfErr result (λ fault. fault ≡ RunFault.NoMemory) }
{
    let Ok(()) = begin(alloc, chip, commits) else {
        return Err(RunFault::NoMemory);
    };
    match commits {
        None => Ok(Some(4)),
        Some(commits) => match commits.lists.change(alloc, line) {
            Ok(()) => Ok(None),
            Err(ChangeFault::Refused { code }) => Ok(Some(code)),
            Err(ChangeFault::NoMemory) => Err(RunFault::NoMemory),
        },
    }
}

/// Commits the changes since the last commit, or answers the code of the line.
fn take_commit<O: Sink>(
    alloc: Global,
    chip: &mut Chip,
    commits: &mut Option<Commits>,
    run: &mut Run,
    out: &mut O,
) -> Result<Option<u8>, RunFault>
    requires follows { IsRunning run.old chip.old commits.old (O.state out.old) }
    requires few { (lines : ℕ) × (lines < 2 ^ 41) × IsFew lines run.old chip.old }
    ensures ok { IfOk result
        (λ code. (w : Watch) (c : Config) (said : EventReading) (number : ℕ) (text : List ℕ)
        (before : SinkState) → kind_of text ≡ kind.Commit →
        Follows w c said run.old chip.old commits.old before (O.state out.old) →
        Leaves w c number text said run.new chip.new commits.new before (O.state out.new)
        code) }
    ensures cut { IfErr result
        (λ fault. (w : Watch) (c : Config) (said : EventReading) (number : ℕ) (text : List ℕ)
        (before : SinkState) → kind_of text ≡ kind.Commit →
        Follows w c said run.old chip.old commits.old before (O.state out.old) →
        LeftOff w c number text said before (O.state out.new) fault) }
    ensures few { OnOk result ((lines : ℕ) → IsFew lines run.old chip.old →
        IsFew (lines + 1) run.new chip.new) }
    ensures prints { Prints (O.state out.old) (O.state out.new) result }
{
    let Ok(()) = begin(alloc, chip, commits) else {
        return Err(RunFault::NoMemory);
    };
    match commits {
        None => Ok(Some(4)),
        Some(commits) => commit(alloc, chip, commits, run, out),
    }
}
