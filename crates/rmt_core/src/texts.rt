//! Understanding a program text and an entry text.

ghost use Rattle.std.specs.Prelude.{◌≡◌, ◌<◌, ℕ, Ok, Err, length, IfOk};
ghost use Rattle.rmt_core.specs.Parts.{AreEntries, IsProgram, OnlyPrinted, Tells};
ghost use Rattle.rmt_ast.specs.declared.program.Program.{Program};
ghost use Rattle.rmt_check.specs.Means.{Means, fault_at};
ghost use Rattle.rmt_entries.specs.Entries.{entries_of};
ghost use Rattle.rmt_entries.specs.declared.fault.EntryFault.TheVariants.{At};
ghost use Rattle.rmt_core.specs.TextFaults.{text_fault_line, text_fault_status};

use rmt_ast::entry::EntryLists;
use rmt_ast::program::Program;
use rmt_check::laws::one_meaning;
use rmt_check::read_program;
use rmt_drive::status::Status;
use rmt_drive::telling::tell;
use rmt_entries::entries as read_entries;
use rmt_entries::fault::EntryFault;
use rmt_io::sink::Sink;
use rmt_lexer::fault::ProgramFault;
use std::alloc::{AllocError, Global};

/// A program and its entries.
#[derive(Drop, Debug)]
pub struct Meant {
    pub program: Program,
    pub entries: EntryLists,
}

/// Why two texts mean no program with entries.
#[derive(Clone, Copy, Debug, PartialEq, Eq)]
pub enum TextFault {
    NoMemory,
    /// A rule of the program text, 1 to 21, and where it is broken, from 1.
    BadProgram { code: u8, line: u32, column: u32 },
    /// A rule of an entry line, 1 to 7, and the line's number, from 1.
    BadEntries { code: u8, line: u32 },
}

/// The program that a text means, with the entries that an entry text says for it. A bad program counts before bad entries.
pub fn understand(alloc: Global, text: &[u8], entry_text: &[u8]) -> Result<Meant, TextFault>
    requires text { length text.now < 4294967295 }
    requires entries { length entry_text.now < 4294967295 }
    ensures means { IfOk result (λ m. Means text.now (Ok m.program)) }
    ensures says { IfOk result (λ m. entries_of m.program entry_text.now ≡ Ok m.entries) }
    ensures program { IfOk result (λ m. IsProgram m.program) }
    ensures entries { IfOk result (λ m. AreEntries m.program m.entries) }
    ensures bad_program { (code line column : ℕ) → result ≡ Err (TextFault.BadProgram code line column) → Means text.now (fault_at code line column) }
    ensures bad_entries { (code line : ℕ) → result ≡ Err (TextFault.BadEntries code line) → (p : Program) × Means text.now (Ok p) × (entries_of p entry_text.now ≡ Err (At code line)) }
{
    one_meaning();
    let program = match read_program(alloc, text) {
        Ok(program) => program,
        Err(ProgramFault::NoMemory) => return Err(TextFault::NoMemory),
        Err(ProgramFault::At { code, line, column }) => {
            return Err(TextFault::BadProgram { code, line, column });
        }
    };
    match read_entries(alloc, &program, entry_text) {
        Ok(entries) => Ok(Meant { program, entries }),
        Err(EntryFault::NoMemory) => Err(TextFault::NoMemory),
        Err(EntryFault::At { code, line }) => Err(TextFault::BadEntries { code, line }),
    }
}

/// The last line that tells a fault of a text; none is made for want of memory.
fn text_fault_line(alloc: Global, fault: TextFault) -> Result<Vec<u8>, AllocError>
    ensures { IfOk result (λ line. line.items ≡ text_fault_line fault) }
{
    let line = match fault {
        TextFault::NoMemory => return Err(AllocError),
        TextFault::BadProgram { code, line, column } => {
            format!(in alloc; "bad program {code} line {line} column {column}\n")?
        }
        TextFault::BadEntries { code, line } => {
            format!(in alloc; "bad entries {code} line {line}\n")?
        }
    };
    Ok(line.into_bytes())
}

/// Prints the last line that tells a fault of a text, and answers its status; `NoMemory` where there is no memory, and then
/// nothing is printed.
pub fn tell_text_fault<O: Sink>(alloc: Global, fault: TextFault, out: &mut O) -> Status
    ensures line { Tells (O.state out.old) (O.state out.new) (text_fault_line fault) (text_fault_status fault) result }
    ensures only_printed { OnlyPrinted (O.state out.old) (O.state out.new) }
{
    let line = text_fault_line(alloc, fault);
    match fault {
        TextFault::NoMemory => Status::NoMemory,
        TextFault::BadProgram { .. } => tell(line, Status::BadProgram, out),
        TextFault::BadEntries { .. } => tell(line, Status::BadEntries, out),
    }
}
