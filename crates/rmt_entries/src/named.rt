//! Lines that are read by the names of tables, without their program.

ghost use Rattle.std.specs.Prelude.{◌≡◌, ◌<◌, Ok, Err, IsTrue, Some, length, option_copied, IfErr, IfOk};
ghost use Rattle.rmt_ast.specs.NameRules.{names_are_formed};
ghost use Rattle.rmt_entries.specs.Entries.{of_table, read_words};
ghost use Rattle.rmt_entries.specs.Fault.{Gives};
ghost use Rattle.rmt_entries.specs.LinesSoFar.{IsFault, IsReadable};
ghost use Rattle.rmt_entries.specs.NamedLines.{IsNamedEntry, alone, key_of_table, key_words, named_entry, named_key, named_table, named_tables, table_in};
ghost use Rattle.rmt_entries.specs.Taken.{AreNarrow};

use crate::fault::EntryFault;
use crate::keys::key_of;
use crate::line::{is_printable, read_entry, take_name};
use crate::words::Words;
use rmt_ast::entry::Entry;
use rmt_ast::names::{Names, TableName};
use rmt_ast::program::Test;
use rmt_bits::sequence::Sequence;
use std::alloc::Global;

/// What a line says of an entry that is there: its table and its key.
#[derive(Drop, Debug)]
pub struct EntryName {
    /// The number of the node that applies the table.
    pub table: u32,
    /// One for each field of the key.
    pub tests: Sequence<Test>,
    /// The length in bits of a prefix, the priority in a ternary table, and else 0.
    pub rank: u32,
}

/// The entry that a line says by the names of the tables, which keep the rules that speak of names alone. It has the
/// number 0. The line is one as in an entry text, but that none is passed over.
///
/// # Errors
///
/// `At` of line 1 with the least code that the line breaks, 1 to 5; else for want of memory.
pub fn entry(alloc: Global, names: &Names, line: &[u8]) -> Result<Entry, EntryFault>
    requires formed { IsTrue (names_are_formed names.now) }
    // Which entry, or which code, unless memory runs out.
    ensures exact { Gives result (alone (named_entry names.now line.now)) }
    // The entry is well formed for the names.
    ensures well_formed { IfOk result (λ entry. IsNamedEntry names.now entry) }
{
    if !is_printable(line) {
        return Err(EntryFault::At { code: 1, line: 1 });
    }
    let mut words = Words::of(line);
    let table = take_named(names, &mut words)?;
    // An entry holds its action's place in 32 bits; a table with more actions counts as one that finds no memory.
    if table.actions.len() > u32::MAX as usize {
        return Err(EntryFault::NoMemory);
    }
    read_entry(alloc, table, 0, &mut words, 1)
}

/// The key of an entry that a line says by the names of the tables, which keep the rules that speak of names alone:
/// its table's name and its key as in an entry text, and nothing behind.
///
/// # Errors
///
/// `At` of line 1 with the least code that the line breaks: 1 its form, 2 the table, 3 the key or a word behind it;
/// else for want of memory.
pub fn key(alloc: Global, names: &Names, line: &[u8]) -> Result<EntryName, EntryFault>
    requires formed { IsTrue (names_are_formed names.now) }
    // Which key, or which code, unless memory runs out.
    ensures exact { Gives result (alone (named_key names.now line.now)) }
{
    if !is_printable(line) {
        return Err(EntryFault::At { code: 1, line: 1 });
    }
    let mut words = Words::of(line);
    let table = take_named(names, &mut words)?;
    read_key(alloc, table, &mut words)
}

/// Reads all words behind a table's name as a key. The fault is of code 3 where they are none.
fn read_key(
    alloc: Global,
    table: &TableName,
    words: &mut Words<'_>,
) -> Result<EntryName, EntryFault>
    requires { AreNarrow table.now.keys }
    ensures key { IfOk result (λ key. key_of_table words.old (Some (named_table table.now)) ≡ Ok key) }
    ensures fault { IfErr result (λ fault. IsFault fault 1 (λ code. key_of_table words.old (Some (named_table table.now)) ≡ Err code)) }
{
    let Some(key) = key_of(alloc, table.kind, table.keys.as_slice(), words)? else {
        return Err(EntryFault::At { code: 3, line: 1 });
    };
    if !words.is_empty() {
        return Err(EntryFault::At { code: 3, line: 1 });
    }
    Ok(EntryName {
        table: table.node,
        tests: key.tests,
        rank: key.rank,
    })
}

/// Takes the table that the words of a line name first. The fault is of code 1 where there are fewer than two words,
/// and of code 2 where no table has the name.
fn take_named<'a>(names: &'a Names, words: &mut Words<'_>) -> Result<&'a TableName, EntryFault>
    requires { IsTrue (names_are_formed names.now) }
    ensures entry { IfOk result (λ t. read_words (named_tables names.now) 0 words.old ≡ of_table 0 words.new (Some (named_table t.now))) }
    ensures key { IfOk result (λ t. key_words (named_tables names.now) words.old ≡ key_of_table words.new (Some (named_table t.now))) }
    ensures narrow { IfOk result (λ t. AreNarrow t.now.keys) }
    ensures readable { IfOk result (λ t. length t.now.actions < 4294967296 → IsReadable (named_table t.now)) }
    ensures fault { IfErr result (λ fault. IsFault fault 1 (λ code.
        (read_words (named_tables names.now) 0 words.old ≡ Err code) × (key_words (named_tables names.now) words.old ≡ Err code))) }
{
    let name = take_name(words, 1)?;
    match table_named(names, name) {
        Some(table) => Ok(table),
        None => Err(EntryFault::At { code: 2, line: 1 }),
    }
}

/// The table of a name.
fn table_named<'a>(names: &'a Names, name: &[u8]) -> Option<&'a TableName>
    ensures { option_copied result ≡ table_in names.now name.now }
{
    names
        .tables
        .as_slice()
        .iter()
        .find(|table| name == table.name.as_slice())
}
