//! Whole entry texts.

ghost use Rattle.std.specs.Prelude.{◌≡◌, ◌<◌, List, Option, All, Err, length, IfErr, IfOk, OnOk};
ghost use Rattle.rmt_ast.specs.declared.entry.Entry.{Entry};
ghost use Rattle.rmt_ast.specs.EntryLists.{AreEntries, Terms};
ghost use Rattle.rmt_ast.specs.WellFormed.{IsProgram};
ghost use Rattle.rmt_entries.specs.Entries.{entries_of, entry_of};
ghost use Rattle.rmt_entries.specs.Fault.{Gives};
ghost use Rattle.rmt_entries.specs.LinesSoFar.{Addition, Gathers, IsAppliedBy, IsBelow, IsFault, IsReadable};

use crate::fault::EntryFault;
use crate::gathered::Gathered;
use crate::line::{is_printable, read_entry, take_table};
use crate::tables::Tables;
use crate::words::Words;
use rmt_ast::entry::EntryLists;
use rmt_ast::program::Program;
use rmt_bits::cuts::cut;
use rmt_bits::lines::is_passed_over;
use std::alloc::Global;

/// The entries that the lines of a text say, for a well-formed program and a text of at most 4,294,967,294 bytes. It
/// takes time in proportion to the text, but for a logarithm of the number of keys.
///
/// A line is `TABLE value.. ACTION number..` in an exact table, `TABLE value/length ACTION number..` in a table of
/// prefixes, and `TABLE priority pattern.. ACTION number..` in a ternary one, where a pattern is `value&mask`,
/// `value` or `*`. A number is decimal, or hexadecimal behind `0x`; a length is decimal. Words are separated by
/// spaces. Lines that have only spaces, or begin with `#`, are passed over.
///
/// # Errors
///
/// `At` of the first bad line, with the least of the codes that it breaks; else for want of memory.
pub fn entries(alloc: Global, program: &Program, text: &[u8]) -> Result<EntryLists, EntryFault>
    requires program { IsProgram program.now }
    requires short { length text.now < 4294967295 }
    // Which lists, or which line is the first bad one and by which code, unless memory runs out.
    ensures exact { Gives result (entries_of program.now text.now) }
    // The lists are well formed for the program.
    ensures well_formed { IfOk result (λ lists. AreEntries program.now lists) }
{
    let tables = Tables::of(alloc, program)?;
    let mut gathered = Gathered::new(alloc, program.nodes.len(), places_for(text))?;
    let mut rest = text;
    let mut number = 1u32;
    while !rest.is_empty() {
        let (line, behind) = cut(rest, b'\n');
        if !is_passed_over(line) {
            take_line(alloc, &tables, &mut gathered, line, number)?;
        }
        rest = behind;
        number += 1;
    }
    Ok(EntryLists::from_vec(gathered.lists))
}

/// How many places the keys of a text get: few lines have fewer than 8 bytes, and 4,194,304 are four for each key of the
/// largest table, so that few keys meet another one's.
fn places_for(text: &[u8]) -> usize
    ensures { 0 < result }
{
    (text.len() / 8).min(4_194_303) + 1
}

/// Adds the entry that a line says. After a fault nothing is known of the entries.
fn take_line(
    alloc: Global,
    tables: &Tables<'_>,
    gathered: &mut Gathered,
    line: &[u8],
    number: u32,
) -> Result<(), EntryFault>
    requires readable { All IsReadable tables.now }
    requires within { All (IsBelow (length gathered.old.lists.items)) tables.now }
    requires few { gathered.old.number < 4294967295 }
    ensures addition { OnOk result ((terms : List (Option Terms)) (es : List Entry) → Gathers terms es gathered.old →
        All (IsAppliedBy terms) tables.now → Addition tables.now terms es line.now gathered.new) }
    ensures fault { IfErr result (λ fault. IsFault fault number (λ code. (terms : List (Option Terms)) (es : List Entry) →
        Gathers terms es gathered.old → All (IsAppliedBy terms) tables.now → entry_of tables.now es line.now ≡ Err code)) }
{
    if !is_printable(line) {
        return Err(EntryFault::At {
            code: 1,
            line: number,
        });
    }
    let mut words = Words::of(line);
    let table = take_table(tables, &mut words, number)?;
    let entry = read_entry(alloc, table, gathered.number, &mut words, number)?;
    gathered.admit(table, entry, number)
}
