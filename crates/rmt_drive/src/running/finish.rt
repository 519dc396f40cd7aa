//! The end of a run.

ghost use Rattle.std.specs.Prelude.{◌≡◌, ◌≢◌, ◌<◌, ◌⊎◌, ◌^◌, ◌++◌, ℕ, [], List, length, replicate, string_bytes, IfErr, IfOk, OnOk, if◌then◌else◌};
ghost use Rattle.rmt_drive.specs.Parts.{Config, Goes, Idle, Input, Prints, Stands, Watch, empty_cycles};
ghost use Rattle.std.specs.List.{flat_map};
ghost use Rattle.rmt_config.specs.RunInputs.{counts_in, flight_in};
ghost use Rattle.rmt_io.specs.Outside.{Gained, PrintingFailed, OnlyPrinted};
ghost use Rattle.rmt_drive.specs.ChipText.{all_cycles, end_of, run_text};
ghost use Rattle.rmt_runs.specs.Printing.{GainedFront};
ghost use Rattle.rmt_drive.specs.RunEnd.{bad_line, status_of_end};
ghost use Rattle.rmt_drive.specs.ChipCycles.{CutOff, EachCame, MayWait};
ghost use Rattle.rmt_drive.specs.SimText.{count_line, cycles_line, flight_line};

use crate::count_lines::count_lines;
use crate::run_end::{bad_text, end_run, fault_status};
use crate::running::state::Run;
use crate::running::wait::wait;
use crate::status::Status;
use crate::watch::Watch;
use rmt_chip::chip::Chip;
use rmt_io::sink::Sink;
use rmt_runs::fault::{Bad, RunFault};
use std::alloc::{AllocError, Global};

/// Runs a chip empty, and prints what is left.
pub fn finish<O: Sink>(
    alloc: Global,
    chip: &mut Chip,
    run: &mut Run,
    bad: Option<Bad>,
    out: &mut O,
) -> Status
    requires may { MayWait run.old chip.old (O.state out.old) }
    ensures possible { (result ≡ status_of_end bad) ⊎ (result ≡ Status.WriteFault)
        ⊎ (result ≡ Status.NoMemory) }
    ensures printed { result ≡ status_of_end bad →
        EachCame run.old chip.old (O.state out.old) (λ w c made r before.
        Gained before (O.state out.new) (run_text w c made (empty_cycles r) (bad_line bad))) }
    ensures front { EachCame run.old chip.old (O.state out.old) (λ w c made r before.
        GainedFront before (O.state out.new) (run_text w c made (empty_cycles r) (bad_line bad))) }
    ensures some { result ≡ Status.WriteFault →
        EachCame run.old chip.old (O.state out.old) (λ w c made r before.
        run_text w c made (empty_cycles r) (bad_line bad) ≢ []) }
    ensures clocked { result ≡ Status.Done →
        EachCame run.old chip.old (O.state out.old) (λ w c made r before.
        Stands c (made ++ replicate (empty_cycles r) Idle) chip.new) }
    ensures failed { result ≡ Status.WriteFault →
        PrintingFailed (O.state out.old) (O.state out.new) }
    ensures only_printed { OnlyPrinted (O.state out.old) (O.state out.new) }
{
    match run_out(chip, run, bad, out) {
        Ok(()) => {}
        Err(fault) => return fault_status(fault),
    }
    let Ok(last) = last_text(alloc, chip, run, bad) else {
        return Status::NoMemory;
    };
    end_run(&run.waiting, last.as_slice(), bad, out)
}

/// Clocks the chip to the end of the run.
fn run_out<O: Sink>(
    chip: &mut Chip,
    run: &mut Run,
    bad: Option<Bad>,
    out: &mut O,
) -> Result<(), RunFault>
    requires may { MayWait run.old chip.old (O.state out.old) }
    ensures ok { OnOk result
        (EachCame run.old chip.old (O.state out.old) (λ w c made r before.
        Goes w c (all_cycles w made (empty_cycles r) (bad_line bad)) run.new chip.new before
        (O.state out.new))) }
    ensures cut { IfErr result
        (λ fault. EachCame run.old chip.old (O.state out.old) (λ w c made r before.
        CutOff w c (all_cycles w made (empty_cycles r) (bad_line bad)) before
        (O.state out.new) fault)) }
    ensures prints { Prints (O.state out.old) (O.state out.new) result }
{
    if !runs_on(run.watch, bad) {
        return Ok(());
    }
    wait(chip, run, true, out)
}

/// Whether a chip runs on behind its last line. Where only vectors are printed a bad line ends the run.
fn runs_on(watch: Watch, bad: Option<Bad>) -> bool
    ensures { (made : List Input) (empty : ℕ) → all_cycles watch made empty (bad_line bad)
        ≡ (if result then made ++ replicate empty Idle else made) }
{
    match watch {
        Watch::Answers => true,
        Watch::Vectors { .. } => bad.is_none(),
    }
}

/// What stands behind the lines of a run.
fn last_text(alloc: Global, chip: &Chip, run: &Run, bad: Option<Bad>) -> Result<Vec<u8>, AllocError>
    ensures { IfOk result
        (λ text. (c : Config) (made : List Input) → Stands c made chip.now →
        run.now.cycles ≡ length made → run.now.flight ≡ flight_in c made →
        text.items ≡ end_of run.now.watch c made (bad_line bad)) }
{
    match bad {
        None => match run.watch {
            Watch::Answers => last_lines(alloc, chip, run.cycles, run.flight),
            Watch::Vectors { .. } => Ok(Vec::new(alloc)),
        },
        Some(bad) => {
            let line = bad_text(alloc, bad)?;
            Ok(line.into_bytes())
        }
    }
}

/// What stands behind the answers of a run of so many cycles.
fn last_lines(alloc: Global, chip: &Chip, cycles: u128, flight: u64) -> Result<Vec<u8>, AllocError>
    ensures { IfOk result
        (λ text. (c : Config) (made : List Input) → Stands c made chip.now →
        text.items
        ≡ flat_map count_line (counts_in c made) ++ (cycles_line cycles ++ flight_line flight)) }
{
    let mut text = count_lines(alloc, chip.counters())?;
    let last = cycle_lines(alloc, cycles, flight)?;
    text.extend_from_slice(last.as_bytes())?;
    Ok(text)
}

/// The last two lines of a run.
fn cycle_lines(alloc: Global, cycles: u128, flight: u64) -> Result<String, AllocError>
    ensures { IfOk result (λ text. string_bytes text ≡ cycles_line cycles ++ flight_line flight) }
{
    format!(in alloc; "cycles {cycles}\nflight {flight}\n")
}
