//! Reading a program text and an entry text.

ghost use Rattle.std.specs.Prelude.{◌≡◌, ◌≤◌, Err, length, IfOk, IfErr, string_bytes};
ghost use Rattle.rmt_io.specs.Outside.{ReadingFailed, OnlyRead};
ghost use Rattle.rmt_drive.specs.Files.{entries_limit, program_limit};
ghost use Rattle.rmt_core.specs.TextFiles.{AreFound, NoneRead};

use crate::loading::{ENTRIES_LIMIT, PROGRAM_LIMIT, read_file};
use rmt_drive::status::Status;
use rmt_io::shelf::Shelf;
use std::alloc::Global;

/// The bytes of a program text and of an entry text.
#[derive(Drop)]
pub struct TextFiles {
    pub program: Vec<u8>,
    pub entries: Vec<u8>,
}

/// Reads a program text and then an entry text, or gives the status of a command that cannot have them.
pub fn read_texts<F: Shelf>(
    alloc: Global,
    program: &String,
    entries: &String,
    shelf: &mut F,
) -> Result<TextFiles, Status>
    ensures found { IfOk result (λ texts. AreFound (F.state shelf.old)
        (string_bytes program.now) (string_bytes entries.now) texts) }
    ensures program { IfOk result (λ texts. length texts.program.items ≤ program_limit) }
    ensures entries { IfOk result (λ texts. length texts.entries.items ≤ entries_limit) }
    ensures refused { IfErr result (λ status. NoneRead (F.state shelf.old)
        (string_bytes program.now) (string_bytes entries.now) status) }
    ensures fault { result ≡ Err Status.ReadFault →
        ReadingFailed (F.state shelf.old) (F.state shelf.new) }
    // The shelf is as before, but for its count of faults of reading.
    ensures only_read { OnlyRead (F.state shelf.old) (F.state shelf.new) }
{
    let program = match read_file(alloc, program, PROGRAM_LIMIT, shelf) {
        Ok(program) => program,
        Err(status) => return Err(status),
    };
    match read_file(alloc, entries, ENTRIES_LIMIT, shelf) {
        Ok(entries) => Ok(TextFiles { program, entries }),
        Err(status) => Err(status),
    }
}
