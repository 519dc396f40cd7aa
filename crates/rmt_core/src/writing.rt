//! Writing the files of a command.

ghost use Rattle.std.specs.Prelude.{◌≡◌, ◌≢◌, ◌⊎◌, [], Err, IsTrue, IfErr, OnOk, string_bytes};
ghost use Rattle.rmt_io.specs.Outside.{HasFile, KeepsFiles, OnlyWrote, WritingFailed};
ghost use Rattle.rmt_drive.specs.Ends.{AreSame, BrokenOff, WritesAndPrints, outside};
ghost use Rattle.rmt_drive.specs.Files.{all_written};
ghost use Rattle.rmt_drive.specs.Given.{Stores};
ghost use Rattle.rmt_core.specs.Writing.{StoodUpTo, writes_of};

use rmt_drive::printing::end_with;
use rmt_drive::status::Status;
use rmt_io::shelf::{Shelf, ShelfFault};
use rmt_io::sink::Sink;
use std::alloc::Global;

/// A file that is to be written: its name, and the bytes that it is to have.
#[derive(Debug, Drop)]
pub struct NewFile {
    pub name: String,
    pub bytes: Vec<u8>,
}

/// Writes files in their order, up to the first that isn't written: the files before that one stand then, and those behind it are as
/// they were. The status tells why: `WriteFault` or `NoMemory`.
fn write_files<F: Shelf>(alloc: Global, files: &[NewFile], shelf: &mut F) -> Result<(), Status>
    ensures whole { OnOk result (IsTrue (F.state shelf.old).tells →
        AreSame (F.state shelf.new).files
        (all_written (F.state shelf.old).files (writes_of files.now))) }
    ensures kind { IfErr result
        (λ status. (status ≡ Status.WriteFault) ⊎ (status ≡ Status.NoMemory)) }
    ensures no_memory { result ≡ Err Status.NoMemory → IsTrue (F.state shelf.old).tells →
        StoodUpTo (F.state shelf.old).files (F.state shelf.new).files (writes_of files.now) }
    ensures tells { (F.state shelf.new).tells ≡ (F.state shelf.old).tells }

    // A fault is counted, and nothing is told of the file that has it; a steady shelf has none.
    ensures broken { result ≡ Err Status.WriteFault → IsTrue (F.state shelf.old).tells →
        BrokenOff (F.state shelf.old).files (F.state shelf.new).files (writes_of files.now) }
    ensures failed { result ≡ Err Status.WriteFault →
        WritingFailed (F.state shelf.old) (F.state shelf.new) }
    ensures never_fails { result ≡ Err Status.WriteFault → IsTrue (F.state shelf.old).steady → ⊥ }
{
    for file in files {
        write_file(alloc, file, shelf)?;
    }
    Ok(())
}

/// Writes a file, or gives the status of a command that cannot.
fn write_file<F: Shelf>(alloc: Global, file: &NewFile, shelf: &mut F) -> Result<(), Status>
    ensures written { OnOk result
        (HasFile (F.state shelf.new) (string_bytes file.now.name) file.now.bytes.items) }
    ensures kind { IfErr result
        (λ status. (status ≡ Status.WriteFault) ⊎ (status ≡ Status.NoMemory)) }
    ensures no_memory { result ≡ Err Status.NoMemory →
        KeepsFiles (F.state shelf.old) (F.state shelf.new) }
    ensures failed { result ≡ Err Status.WriteFault →
        WritingFailed (F.state shelf.old) (F.state shelf.new) }
    ensures never_fails { result ≡ Err Status.WriteFault → IsTrue (F.state shelf.old).steady → ⊥ }
    ensures only_wrote { OnlyWrote (string_bytes file.now.name)
        (F.state shelf.old) (F.state shelf.new) }
{
    match shelf.write(alloc, &file.name, &file.bytes) {
        Ok(()) => Ok(()),
        Err(ShelfFault::NoMemory) => Err(Status::NoMemory),
        Err(ShelfFault::Failed | ShelfFault::TooLong) => Err(Status::WriteFault),
    }
}

/// Writes files in their order, and then prints lines. Nothing is printed unless all files were written.
pub fn deliver<F: Shelf, O: Sink>(
    alloc: Global,
    files: &[NewFile],
    lines: &[u8],
    shelf: &mut F,
    out: &mut O,
) -> Status
    requires { lines.now ≢ [] }
    ensures kind { (result ≡ Status.Done) ⊎ (result ≡ Status.WriteFault)
        ⊎ (result ≡ Status.NoMemory) }
    ensures call { WritesAndPrints (outside (F.state shelf.old) (O.state out.old))
        (outside (F.state shelf.new) (O.state out.new))
        (Stores (writes_of files.now) lines.now) result }
{
    match write_files(alloc, files, shelf) {
        Ok(()) => end_with(out, lines, Status::Done),
        Err(status) => status,
    }
}
