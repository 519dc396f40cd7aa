//! Entering the packets of a text that lies in memory.

ghost use Rattle.std.specs.Prelude.{◌≡◌, ◌<◌, ◌^◌, ◌∷◌, ◌++◌, List, [], Option, None, Some, Ok, OnOk};
ghost use Rattle.rmt_drive.specs.Parts.{Config, Packet, entered_of};
ghost use Rattle.rmt_config.specs.ChipRun.{inputs_of};
ghost use Rattle.rmt_packets.specs.PacketText.{packet_of, packets_of};
ghost use Rattle.rmt_drive.specs.Tallies.{IsBounded, StandsFor};

use crate::sampling::run::{CountedRun, drain, turn};
use rmt_chip::frame::Frame;
use rmt_packets::lines::next_line;
use rmt_packets::packet_line::{PacketFault, read_packet};
use std::alloc::{AllocError, Global};

/// Runs the packets of a text without a bad line through a chip, until the last has left.
pub fn run_packets(alloc: Global, text: &[u8], run: &mut CountedRun) -> Result<(), AllocError>
    requires good { (packets_of text.now).bad ≡ None }
    requires stands { (c : Config) × StandsFor c [] run.old }
    requires bounded { IsBounded run.old.tally }
    ensures stands { OnOk result
        ((c : Config) → StandsFor c [] run.old →
        StandsFor c (inputs_of c (packets_of text.now).packets) run.new) }
    ensures bounded { OnOk result (IsBounded run.new.tally) }
{
    let mut frame = Vec::new(alloc);
    let mut at: usize = 0;
    let mut number: u64 = 1;
    while let Some(line) = next_line(text, at, number) {
        enter(&text[line.from..line.to], &mut frame, run)?;
        at = line.next;
        number = line.number + 1;
    }
    if run.cycles == 0 {
        return Ok(());
    }
    drain(run);
    Ok(())
}

/// Enters the packet of a line that says one.
fn enter(line: &[u8], frame: &mut Vec<u8>, run: &mut CountedRun) -> Result<(), AllocError>
    requires good { (p : Packet) × (packet_of line.now ≡ Ok p) }
    requires entered { entered_of run.old.chip < 2 ^ 63 }
    requires cycles { run.old.cycles < 2 ^ 63 }
    requires answered { run.old.tally.answered < 2 ^ 63 }
    requires bounded { IsBounded run.old.tally }
    ensures stands { OnOk result
        ((p : Packet) → packet_of line.now ≡ Ok p → (c : Config) (inputs : List (Option Packet)) →
        StandsFor c inputs run.old → StandsFor c (inputs ++ Some p ∷ []) run.new) }
    ensures bounded { OnOk result (IsBounded run.new.tally) }
{
    let port = match read_packet(line, frame) {
        Ok(port) => port,
        Err(PacketFault::Code(_)) => unreachable!(),
        Err(PacketFault::NoMemory) => return Err(AllocError),
    };
    let entering = Frame {
        port,
        bytes: frame.as_slice(),
    };
    turn(run, Some(entering));
    Ok(())
}
