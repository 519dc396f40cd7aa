//! One cycle of a run.

ghost use Rattle.std.specs.Prelude.{◌≡◌, ◌<◌, ◌≤◌, ◌^◌, ◌+◌, ◌++◌, ◌∷◌, [], List, length, IfErr, OnOk};
ghost use Rattle.rmt_drive.specs.Parts.{Config, Goes, Input, Prints, SinkState, Stands, Watch, spare_of};
ghost use Rattle.rmt_chip.specs.Leaving.{AnswersIf};
ghost use Rattle.rmt_config.specs.RunInputs.{answer_in};
ghost use Rattle.rmt_drive.specs.ChipCycles.{CutOff, MayTurn, input_for, line_if, spent_by};

use crate::running::state::Run;
use crate::vectors::add_vectors;
use crate::watch::Watch;
use rmt_bits::answer::Verdict;
use rmt_chip::chip::Chip;
use rmt_chip::frame::Frame;
use rmt_chip::out::Out;
use rmt_config::cell_write::CellWrite;
use rmt_io::sink::Sink;
use rmt_packets::answer_line::write_line;
use rmt_runs::fault::RunFault;
use std::alloc::AllocError;

/// What a cycle begins with: nothing, a packet, a changed cell, or a new version with a seed.
#[derive(Clone, Copy)]
pub enum Cycle<'a> {
    Idle,
    Enters(Frame<'a>),
    Changes(&'a CellWrite),
    Turns(u8),
}

/// One cycle, and the lines that are to be written.
pub fn turn<O: Sink>(
    chip: &mut Chip,
    run: &mut Run,
    input: Cycle<'_>,
    out: &mut O,
) -> Result<(), RunFault>
    requires may { MayTurn chip.old input }
    requires cycles { run.old.cycles < 2 ^ 127 }
    requires answered { run.old.answered < 2 ^ 63 }
    ensures ok { OnOk result
        ((w : Watch) (c : Config) (made : List Input) (before : SinkState) →
        Goes w c made run.old chip.old before (O.state out.old) →
        Goes w c (made ++ input_for input.entry ∷ []) run.new chip.new before (O.state out.new)) }
    ensures cut { IfErr result
        (λ fault. (w : Watch) (c : Config) (made : List Input) (before : SinkState) →
        Goes w c made run.old chip.old before (O.state out.old) →
        CutOff w c (made ++ input_for input.entry ∷ []) before (O.state out.new) fault) }
    ensures cycles { OnOk result (run.new.cycles ≡ run.old.cycles + 1) }
    ensures spare { spare_of chip.old ≤ spare_of chip.new + spent_by input.entry }
    ensures prints { Prints (O.state out.old) (O.state out.new) result }
{
    let Ok(()) = run_cycle(chip, run, input) else {
        return Err(RunFault::NoMemory);
    };
    match run.waiting.write_many(out) {
        Ok(()) => Ok(()),
        Err(_) => Err(RunFault::Write),
    }
}

/// One cycle of the chip, and what it prints.
fn run_cycle(chip: &mut Chip, run: &mut Run, input: Cycle<'_>) -> Result<(), AllocError>
    requires may { MayTurn chip.old input }
    requires cycles { run.old.cycles < 2 ^ 127 }
    requires answered { run.old.answered < 2 ^ 63 }
    ensures ok { OnOk result
        ((w : Watch) (c : Config) (made : List Input) (before now : SinkState) →
        Goes w c made run.old chip.old before now →
        Goes w c (made ++ input_for input.entry ∷ []) run.new chip.new before now) }
    ensures cycles { run.new.cycles ≡ run.old.cycles + 1 }
    ensures spare { spare_of chip.old ≤ spare_of chip.new + spent_by input.entry }
{
    let number = run.answered;
    let left = clock(chip, input, &mut run.leaving);
    run.cycles += 1;
    run.answered += u64::from(left.is_some());
    run.flight = run.flight.max(chip.entered().saturating_sub(number));
    let lines = &mut run.waiting.lines;
    match run.watch {
        Watch::Answers => add_answer(number, left, run.leaving.bytes(), lines),
        Watch::Vectors { cycle } => {
            if run.cycles == u128::from(cycle) + 1 {
                add_vectors(chip, lines)
            } else {
                Ok(())
            }
        }
    }
}

/// Clocks the chip once.
fn clock(chip: &mut Chip, input: Cycle<'_>, leaving: &mut Out) -> Option<Verdict>
    requires may { MayTurn chip.old input }
    ensures stands { (c : Config) (made : List Input) → Stands c made chip.old →
        Stands c (made ++ input_for input.entry ∷ []) chip.new }
    ensures answers { (c : Config) (made : List Input) → Stands c made chip.old →
        AnswersIf (answer_in c (made ++ input_for input.entry ∷ []) (length made)) result
        leaving.new }
    ensures spare { spare_of chip.old ≤ spare_of chip.new + spent_by input.entry }
{
    match input {
        Cycle::Idle => chip.clock(None, leaving),
        Cycle::Enters(frame) => chip.clock(Some(frame), leaving),
        Cycle::Changes(write) => chip.clock_write(write, leaving),
        Cycle::Turns(seed) => chip.clock_commit(seed, leaving),
    }
}

/// Appends the line of what left, if anything did.
fn add_answer(
    number: u64,
    left: Option<Verdict>,
    bytes: &[u8],
    lines: &mut Vec<u8>,
) -> Result<(), AllocError>
    ensures { OnOk result (lines.new.items ≡ lines.old.items ++ line_if number left bytes.now) }
{
    let Some(verdict) = left else {
        return Ok(());
    };
    match write_line(number, verdict, bytes, lines) {
        Ok(()) => Ok(()),
        Err(_) => Err(AllocError),
    }
}
