//! The cells of tables into which all entries are put anew.

ghost use Rattle.std.specs.Prelude.{◌≡◌, ◌<◌, ◌≤◌, ◌+◌, true, All, IfOk, IsTrue, OnOk, length, sum};
ghost use Rattle.std.specs.List.{AllZip};
ghost use Rattle.rmt_ast.specs.EntryLists.{IsEntry};
ghost use Rattle.rmt_ast.specs.NameRules.{table_is_formed, terms_of_name};
ghost use Rattle.rmt_update.specs.Refill.{AreRefilled, FitsInto, HasRoomIn, IsCleared, IsMoved, TableFits, WithEntry};
ghost use Rattle.rmt_book.specs.declared.table.PartCells.{PartCells as PartOf};
ghost use Rattle.std.specs.declared.vec.Vec.{Vec as VecOf};

use crate::book::adding::add_made;
use crate::book::coming::kept_of;
use crate::book::loading::key_of;
use rmt_ast::entry::{Entry, EntryLists};
use rmt_ast::names::TableName;
use rmt_book::spots::{Spot, Spots};
use rmt_book::table::{PartCells, TableCells};
use std::alloc::{AllocError, Global};
use std::collections::BTreeMap;

/// Parts without their entries. The only fault is want of memory.
fn cleared(alloc: Global, parts: &[PartCells]) -> Result<Vec<PartCells>, AllocError>
    ensures { IfOk result (λ clear. AllZip IsCleared parts.now clear.items) }
{
    let mut clear = Vec::with_capacity(alloc, parts.len())?;
    for part in parts {
        clear.push(PartCells {
            stage: part.stage,
            place: part.place,
            first: part.first,
            shape: part.shape,
            cells: BTreeMap::new(alloc),
        })?;
    }
    Ok(clear)
}

/// Whether the number of an instruction is one of a byte.
fn has_code(first: u128, action: u32) -> bool
    ensures { result ≡ true → first + action < 256 }
{
    first < 256 && action < 256 && first as u32 + action < 256
}

/// Puts an entry in a cell of a part, to be seen by all versions. The only fault is want of memory; for an entry whose
/// instruction has a number of 256 or more, as none has within the chip's limits, there isn't enough.
fn put_entry(
    alloc: Global,
    table: &TableName,
    part: &mut PartCells,
    cell: u32,
    entry: &Entry,
) -> Result<(), AllocError>
    requires formed { IsTrue (table_is_formed table.now) }
    requires entry { IsEntry table.now.node (terms_of_name table.now) entry.now }
    requires keys { sum table.now.keys ≤ 640 }
    requires room { HasRoomIn table.now entry.now part.old }
    ensures { OnOk result (WithEntry table.now entry.now cell part.old part.new) }
{
    if !has_code(part.first, entry.action) {
        return Err(AllocError);
    }
    let held = u32::from(part.shape.held);
    let key = key_of(alloc, table, entry)?;
    let kept = kept_of(alloc, table, part.first, held, cell, 3, entry, key)?;
    part.cells.insert(cell, kept)?;
    Ok(())
}

/// The parts of a table with these entries alone, each in its spot. The only fault is want of memory.
fn refilled(
    alloc: Global,
    table: &TableCells,
    entries: &[Entry],
    spots: &[Spot],
) -> Result<Vec<PartCells>, AllocError>
    requires formed { IsTrue (table_is_formed table.now.name) }
    requires entries { All (IsEntry table.now.name.node (terms_of_name table.now.name)) entries.now }
    requires keys { sum table.now.name.keys ≤ 640 }
    requires fit { AllZip (FitsInto table.now) entries.now spots.now }
    ensures { IfOk result (λ parts. AreRefilled table.now entries.now spots.now (length entries.now) parts.items) }
{
    let mut parts = cleared(alloc, table.parts.as_slice())?;
    for at in 0..entries.len() {
        let spot = spots[at];
        let entry = &entries[at];
        put_entry(alloc, &table.name, &mut parts[spot.part], spot.cell, entry)?;
    }
    Ok(parts)
}

/// The parts of all tables with the entries of all nodes, each in its spot. The only fault is want of memory.
pub fn moved_parts(
    alloc: Global,
    tables: &[TableCells],
    entries: &EntryLists,
    spots: &[Spots],
) -> Result<Vec<Vec<PartCells>>, AllocError>
    requires { All (TableFits entries.now spots.now) tables.now }
    ensures { IfOk result (λ moved. AllZip (λ t (ps : VecOf PartOf _). IsMoved entries.now spots.now t ps.items) tables.now moved.items) }
{
    let lists = entries.as_slice();
    let mut moved = Vec::with_capacity(alloc, tables.len())?;
    for table in tables {
        let node = table.name.node as usize;
        let own = lists[node].as_slice();
        add_made(
            &mut moved,
            refilled(alloc, table, own, spots[node].as_slice()),
        )?;
    }
    Ok(moved)
}
