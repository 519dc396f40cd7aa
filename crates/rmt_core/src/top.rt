//! The top call.

ghost use Rattle.std.specs.Prelude.{◌≡◌, ◌⊎◌, ◌↔◌, None, IsTrue};
ghost use Rattle.rmt_core.specs.Parts.{OnlyPrinted, outside};
ghost use Rattle.rmt_io.specs.Outside.{ReadingFailed, WritingFailed, GainedNone, PrintingFailed};
ghost use Rattle.rmt_core.specs.Commands.{IfCommand, IsPossible, PrintsAtEnd, ReadsNone, WritesFiles, command_of, words_of};
ghost use Rattle.rmt_drive.specs.Ends.{Answered};
ghost use Rattle.rmt_core.specs.Gives.{Gives};

use crate::commands::{Command, command_from};
use crate::compiling::{Wanted, compile};
use crate::placer::Placer;
use crate::plain::plain;
use crate::reporting::report;
use crate::sampling::sample;
use crate::simulating::simulate;
use crate::switching::switch;
use crate::verifying::verify;
use rmt_drive::status::Status;
use rmt_drive::watch::Watch;
use rmt_io::shelf::Shelf;
use rmt_io::sink::Sink;
use std::alloc::Global;

/// Runs a command. `words` are those behind the program's name.
///
/// What each command gives, over a shelf that tells its files, is said by `Gives`: a status, the whole text that is printed,
/// and the files as they stand afterwards.
pub fn rmt<F: Shelf, O: Sink>(
    alloc: Global,
    words: &Vec<String>,
    shelf: &mut F,
    out: &mut O,
) -> Status
    // Usage comes exactly where the words are no command, and then nothing happens.
    ensures usage { (result ≡ Status.Usage) ↔ (command_of (words_of words.now.items) ≡ None) }
    ensures untouched { result ≡ Status.Usage → (shelf.new ≡ shelf.old) × (out.new ≡ out.old) }
    // Only some answers are a command's.
    ensures possible { IfCommand (command_of (words_of words.now.items))
        (λ command. IsPossible command result) }
    // A call ends as what the command gives over these files, or it is stopped by the outside or by want of memory.
    ensures answered { IsTrue (F.state shelf.old).tells →
        IfCommand (command_of (words_of words.now.items)) (λ command.
        let before = outside (F.state shelf.old) (O.state out.old) in
        let after = outside (F.state shelf.new) (O.state out.new) in
        Answered before after (Gives before.shelf.files command) result) }
    // What reads no file does so over any shelf.
    ensures alone { IfCommand (command_of (words_of words.now.items)) (λ command.
        let before = outside (F.state shelf.old) (O.state out.old) in
        let after = outside (F.state shelf.new) (O.state out.new) in
        ReadsNone command → Answered before after (Gives before.shelf.files command) result) }
    // What runs no packets of a file has all that it prints, and has written its files, before it prints anything.
    ensures quiet { (result ≡ Status.NoMemory) ⊎ (result ≡ Status.ReadFault)
        ⊎ (result ≡ Status.TooLong) → IfCommand (command_of (words_of words.now.items)) PrintsAtEnd →
        GainedNone (O.state out.old) (O.state out.new) }
    // Faults of the outside come only where a count rose in this call; a steady shelf has none of writing. Where a file was
    // not written, nothing was printed.
    ensures read_fault { result ≡ Status.ReadFault →
        ReadingFailed (F.state shelf.old) (F.state shelf.new) }
    ensures write_fault { result ≡ Status.WriteFault →
        (WritingFailed (F.state shelf.old) (F.state shelf.new)
        × GainedNone (O.state out.old) (O.state out.new))
        ⊎ PrintingFailed (O.state out.old) (O.state out.new) }
    // With a command that writes no file the sink failed.
    ensures sink_fault { result ≡ Status.WriteFault →
        (IfCommand (command_of (words_of words.now.items)) WritesFiles → ⊥) →
        PrintingFailed (O.state out.old) (O.state out.new) }
    ensures steady_write { result ≡ Status.WriteFault → IsTrue (F.state shelf.old).steady →
        PrintingFailed (O.state out.old) (O.state out.new) }
    // What tells its content goes on doing so.
    ensures tells { (F.state shelf.new).tells ≡ (F.state shelf.old).tells }
    ensures only_printed { OnlyPrinted (O.state out.old) (O.state out.new) }
{
    match command_from(words) {
        Command::Compile {
            program,
            entries,
            image,
        } => {
            let wanted = Wanted { image, map: None };
            compile(alloc, Placer::ByRule, program, entries, wanted, shelf, out)
        }
        Command::CompileMap {
            program,
            entries,
            image,
            map,
        } => {
            let wanted = Wanted {
                image,
                map: Some(map),
            };
            compile(alloc, Placer::ByRule, program, entries, wanted, shelf, out)
        }
        Command::Improve {
            program,
            entries,
            image,
            budget,
        } => {
            let placer = Placer::ByTries { budget };
            let wanted = Wanted { image, map: None };
            compile(alloc, placer, program, entries, wanted, shelf, out)
        }
        Command::Sim { image, packets } => {
            simulate(alloc, image, packets, Watch::Answers, shelf, out)
        }
        Command::Probe {
            image,
            packets,
            cycle,
        } => simulate(alloc, image, packets, Watch::Vectors { cycle }, shelf, out),
        Command::Plain {
            program,
            entries,
            packets,
        } => plain(alloc, program, entries, packets, shelf, out),
        Command::Report { image } => report(alloc, image, shelf, out),
        Command::Sample { number } => sample(alloc, number, out),
        Command::Switch { names, every } => switch(alloc, names, every, shelf, out),
        Command::Verify {
            program,
            entries,
            image,
            map,
        } => verify(alloc, program, entries, image, map, shelf, out),
        Command::Unknown => Status::Usage,
    }
}
