//! What the lines of changes say.

ghost use Rattle.std.specs.Prelude.{◌≡◌, ◌==◌, drop, find, option_copied, option_map, Err, Ok, IfErr, IfOk, IsErr, IsTrue};
ghost use Rattle.rmt_lists.specs.Entries.{IsNamedEntry, TableName, named_entry, named_key, names_are_formed, terms_named};
ghost use Rattle.rmt_lists.specs.Running.{begins, kind_and_size};
ghost use Rattle.rmt_lists.specs.Stands.{IsRefusal};

use crate::fault::ChangeFault;
use rmt_ast::entry::Entry;
use rmt_ast::names::{Names, TableName};
use rmt_ast::program::Kind;
use rmt_entries::fault::EntryFault;
use rmt_entries::named::EntryName;
use rmt_entries::{entry, key};
use std::alloc::Global;

/// Whether a line begins with a byte.
pub fn begins(byte: u8, line: &[u8]) -> bool
    ensures { result ≡ begins byte line.now }
{
    match line.first() {
        Some(first) => *first == byte,
        None => false,
    }
}

/// What stands behind the sign of a change and its space.
pub fn behind_sign(line: &[u8]) -> &[u8]
    ensures { result.now ≡ drop 2 line.now }
{
    if line.len() < 2 {
        &line[line.len()..]
    } else {
        &line[2..]
    }
}

/// The entry that the line of an addition says; 5 where it says none.
pub fn read_entry(alloc: Global, names: &Names, line: &[u8]) -> Result<Entry, ChangeFault>
    requires { IsTrue (names_are_formed names.now) }
    ensures said { IfOk result (λ e. named_entry names.now line.now ≡ Ok e) }
    ensures named { IfOk result (λ e. IsNamedEntry names.now e) }
    ensures fault { IfErr result (λ fault. IsRefusal fault (λ code. (code ≡ 5) × IsErr (named_entry names.now line.now))) }
{
    match entry(alloc, names, line) {
        Ok(entry) => Ok(entry),
        Err(EntryFault::NoMemory) => Err(ChangeFault::NoMemory),
        Err(EntryFault::At { .. }) => Err(ChangeFault::Refused { code: 5 }),
    }
}

/// The key that the line of a removal names; 5 where it names none.
pub fn read_key(alloc: Global, names: &Names, line: &[u8]) -> Result<EntryName, ChangeFault>
    requires { IsTrue (names_are_formed names.now) }
    ensures said { IfOk result (λ k. named_key names.now line.now ≡ Ok k) }
    ensures fault { IfErr result (λ fault. IsRefusal fault (λ code. (code ≡ 5) × IsErr (named_key names.now line.now))) }
{
    match key(alloc, names, line) {
        Ok(key) => Ok(key),
        Err(EntryFault::NoMemory) => Err(ChangeFault::NoMemory),
        Err(EntryFault::At { .. }) => Err(ChangeFault::Refused { code: 5 }),
    }
}

/// The kind and the size of the table that a node applies.
pub fn terms_at(names: &Names, node: u32) -> Option<(Kind, u32)>
    ensures { result ≡ option_map kind_and_size (terms_named names.now node) }
{
    match table_at(names, node) {
        Some(table) => Some((table.kind, table.size)),
        None => None,
    }
}

/// The table that a node applies.
fn table_at(names: &Names, node: u32) -> Option<&TableName>
    ensures { option_copied result ≡ find (λ (t : TableName). t.node == node) names.now.tables }
{
    names
        .tables
        .as_slice()
        .iter()
        .find(|table| table.node == node)
}
