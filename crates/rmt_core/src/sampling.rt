//! The command `sample`.

ghost use Rattle.std.specs.Prelude.{◌≡◌, ◌≢◌, ◌≤◌, ℕ, List};
ghost use Rattle.rmt_core.specs.Parts.{Formed, IsWithinLimits, OnlyPrinted, Tells, outside};
ghost use Rattle.rmt_sample.specs.Texts.{packets_text};
ghost use Rattle.rmt_io.specs.Outside.{ShelfState, GainedNone, PrintingFailed};
ghost use Rattle.rmt_core.specs.Commands.{IsPossible, Sample as SampleOf};
ghost use Rattle.rmt_drive.specs.Ends.{Answered};
ghost use Rattle.rmt_core.specs.Sampling.{GivesSample, chip_line};

use crate::making::{Refusal, fit};
use crate::placer::Placer;
use crate::texts::{TextFault, understand};
use rmt_build::built::Built;
use rmt_check::laws::one_meaning;
use rmt_drive::printing::end_with;
use rmt_drive::sampling::line::run_line;
use rmt_drive::status::Status;
use rmt_drive::telling::tell;
use rmt_io::sink::Sink;
use rmt_sample::make::sample as make_texts;
use std::alloc::Global;

/// Makes a large input from a number, 1 to 100,000, builds its program with its entries, runs its packets through the chip,
/// and prints the line of the counts. It reads and writes no file. The texts mean a program with entries, so no fault of a
/// text comes.
pub fn sample<O: Sink>(alloc: Global, number: u32, out: &mut O) -> Status
    requires some { 1 ≤ number }
    requires most { number ≤ 100000 }
    ensures possible { IsPossible (SampleOf number) result }
    ensures no_reading { result ≢ Status.ReadFault }
    ensures answered { (shelf : ShelfState) →
        Answered (outside shelf (O.state out.old)) (outside shelf (O.state out.new))
        (GivesSample shelf.files number) result }
    ensures quiet { result ≡ Status.NoMemory → GainedNone (O.state out.old) (O.state out.new) }
    ensures write_fault { result ≡ Status.WriteFault →
        PrintingFailed (O.state out.old) (O.state out.new) }
    ensures only_printed { OnlyPrinted (O.state out.old) (O.state out.new) }
{
    one_meaning();
    let Ok(texts) = make_texts(alloc, number) else {
        return Status::NoMemory;
    };
    let meant = match understand(alloc, texts.program.as_slice(), texts.entries.as_slice()) {
        Ok(meant) => meant,
        Err(TextFault::NoMemory) => return Status::NoMemory,
        Err(TextFault::BadProgram { .. }) => unreachable!(),
        Err(TextFault::BadEntries { .. }) => unreachable!(),
    };
    match fit(alloc, Placer::ByRule, &meant.program, &meant.entries) {
        Ok(built) => tell_built(alloc, number, built, texts.packets.as_slice(), out),
        Err(Refusal::NoMemory) => Status::NoMemory,
        Err(Refusal::NoFit { line }) => end_with(out, line.as_slice(), Status::NoFit),
    }
}

/// Runs the packets through the chip of what was built, and tells the counts.
fn tell_built<O: Sink>(
    alloc: Global,
    number: u32,
    built: Built,
    packets: &[u8],
    out: &mut O,
) -> Status
    requires form { Formed built.config }
    requires limits { IsWithinLimits built.config }
    requires packets { packets.now ≡ packets_text number }
    ensures line { (line : List ℕ) → line ≡ chip_line number built.config →
        Tells (O.state out.old) (O.state out.new) line Status.Done result }
    ensures only_printed { OnlyPrinted (O.state out.old) (O.state out.new) }
{
    tell(
        run_line(alloc, number, built.config, packets),
        Status::Done,
        out,
    )
}
