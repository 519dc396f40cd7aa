//! The entries that a version sees.

ghost use Rattle.std.specs.Prelude.{◌≡◌, ◌==◌, ◌++◌, All, IfOk, IsTrue, OnOk, find, option_copied};
ghost use Rattle.rmt_ast.specs.NameRules.{table_is_formed};
ghost use Rattle.rmt_config.specs.NamesForm.{by_number};
ghost use Rattle.rmt_book.specs.Seen.{IsReadable, entries_at as entries_at_of, entries_by_part, entries_in, is_seen as is_seen_of};
ghost use Rattle.rmt_book.specs.declared.table.TableCells.{TableCells as TableOf};

use crate::book::adding::add_made;
use rmt_ast::entry::Entry;
use rmt_ast::names::TableName;
use rmt_bits::sequence::Sequence;
use rmt_book::kept::Kept;
use rmt_book::table::{PartCells, TableCells};
use rmt_book::told::entry_told;
use std::alloc::{AllocError, Global};

/// Whether a cell is seen by odd versions, or by even ones.
pub fn is_seen(odd: bool, kept: &Kept) -> bool
    ensures { result ≡ is_seen_of odd kept.now }
{
    let bit = if odd { 2 } else { 1 };
    kept.visible / bit % 2 == 1
}

/// Adds the entries that are seen in a part. The only fault is want of memory.
fn put_entries(
    alloc: Global,
    odd: bool,
    table: &TableName,
    part: &PartCells,
    entries: &mut Vec<Entry>,
) -> Result<(), AllocError>
    requires { IsTrue (table_is_formed table.now) }
    ensures { OnOk result (entries.new.items ≡ entries.old.items ++ entries_in odd table.now part.now) }
{
    for kept in part.cells.values() {
        if is_seen(odd, kept) {
            add_made(entries, entry_told(alloc, table, part.first, kept))?;
        }
    }
    Ok(())
}

/// The entries that are seen in a table, by number. The only fault is want of memory.
fn entries_of(alloc: Global, odd: bool, table: &TableCells) -> Result<Sequence<Entry>, AllocError>
    requires { IsReadable odd table.now }
    ensures { IfOk result (λ entries. entries ≡ by_number (entries_by_part odd table.now)) }
{
    let mut entries = Vec::new(alloc);
    for part in table.parts.as_slice() {
        put_entries(alloc, odd, &table.name, part, &mut entries)?;
    }
    entries.sort_unstable_by_key(|entry| entry.number);
    Ok(Sequence::from_vec(entries))
}

/// The table of a node.
pub fn table_at(tables: &[TableCells], node: u32) -> Option<&TableCells>
    ensures { option_copied result ≡ find (λ (t : TableOf). t.name.node == node) tables.now }
{
    tables.iter().find(|table| table.name.node == node)
}

/// The entries that are seen in the table of a node, by number; none where there is no such table. The only fault is want
/// of memory.
pub fn entries_at(
    alloc: Global,
    odd: bool,
    tables: &[TableCells],
    node: u32,
) -> Result<Sequence<Entry>, AllocError>
    requires { All (IsReadable odd) tables.now }
    ensures { IfOk result (λ entries. entries ≡ entries_at_of odd tables.now node) }
{
    match table_at(tables, node) {
        Some(table) => entries_of(alloc, odd, table),
        None => Ok(Sequence::new(alloc)),
    }
}
