//! The line of a sample.

ghost use Rattle.std.specs.Prelude.{◌≡◌, ◌-◌, None, IfOk, length, map, string_bytes};
ghost use Rattle.rmt_drive.specs.Parts.{Formed, IsWithinLimits};
ghost use Rattle.rmt_config.specs.ChipRun.{cycles_of, outcomes_of};
ghost use Rattle.rmt_packets.specs.PacketText.{packets_of};
ghost use Rattle.rmt_refine.specs.RunsAs.{told_by_outcome};
ghost use Rattle.rmt_drive.specs.SampleText.{answers_line, bytes_part, counts_line, packets_part};
ghost use Rattle.rmt_drive.specs.Tallies.{IsBounded};

use crate::sampling::enter::run_packets;
use crate::sampling::run::start;
use crate::sampling::tally::Tally;
use rmt_chip::chip::Chip;
use rmt_config::config::Config;
use std::alloc::{AllocError, Global};

/// The line that tells of the run of a packet text without a bad line on the chip of a configuration.
pub fn run_line(
    alloc: Global,
    number: u32,
    config: Config,
    packets: &[u8],
) -> Result<Vec<u8>, AllocError>
    requires form { Formed config }
    requires limits { IsWithinLimits config }
    requires good { (packets_of packets.now).bad ≡ None }
    ensures { IfOk result
        (λ line. line.items
        ≡ answers_line number
        (map told_by_outcome (outcomes_of config (packets_of packets.now).packets))
        (length config.stages) (cycles_of config (packets_of packets.now).packets)) }
{
    let stages = config.stages.len();
    let Ok(chip) = Chip::open(alloc, config) else {
        return Err(AllocError);
    };
    let Ok(mut run) = start(alloc, chip) else {
        return Err(AllocError);
    };
    run_packets(alloc, packets, &mut run)?;
    counts_line(alloc, number, &run.tally, stages, run.cycles)
}

/// The line of these counts.
fn counts_line(
    alloc: Global,
    number: u32,
    tally: &Tally,
    stages: usize,
    cycles: u64,
) -> Result<Vec<u8>, AllocError>
    requires { IsBounded tally.now }
    ensures { IfOk result
        (λ line. line.items
        ≡ counts_line number tally.now.answered tally.now.sent
        (tally.now.answered - tally.now.sent) tally.now.bytes stages cycles) }
{
    let packets = packets_part(alloc, number, tally)?;
    let bytes = bytes_part(alloc, tally, stages, cycles)?;
    let mut line = packets.into_bytes();
    line.extend_from_slice(bytes.as_bytes())?;
    Ok(line)
}

/// What a line says of the packets.
fn packets_part(alloc: Global, number: u32, tally: &Tally) -> Result<String, AllocError>
    requires { IsBounded tally.now }
    ensures { IfOk result
        (λ text. string_bytes text
        ≡ packets_part number tally.now.answered tally.now.sent
        (tally.now.answered - tally.now.sent)) }
{
    let packets = tally.answered;
    let out = tally.sent;
    let dropped = packets - out;
    format!(in alloc; "sample {number} packets {packets} out {out} drop {dropped}")
}

/// What a line says of the bytes, the stages and the cycles.
fn bytes_part(
    alloc: Global,
    tally: &Tally,
    stages: usize,
    cycles: u64,
) -> Result<String, AllocError>
    ensures { IfOk result (λ text. string_bytes text ≡ bytes_part tally.now.bytes stages cycles) }
{
    let bytes = tally.bytes;
    format!(in alloc; " sent {bytes} stages {stages} cycles {cycles}\n")
}
