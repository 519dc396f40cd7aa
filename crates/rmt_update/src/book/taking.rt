//! The cell that one entry takes.

ghost use Rattle.std.specs.Prelude.{◌≡◌, ◌<◌, IfOk, IfSome, OnOk, length};
ghost use Rattle.rmt_ast.specs.declared.entry.Entry.{Entry as EntryOf};
ghost use Rattle.rmt_book.specs.Coming.{key_bytes};
ghost use Rattle.rmt_update.specs.Taking.{HaveRoom, IsGiven, MayGive, TakesFrom, TakesOpen, TakesRow};

use crate::book::index::TableIndex;
use crate::book::open::open_cell;
use rmt_ast::entry::Entry;
use rmt_book::row_order::{RowOrder, row_key};
use rmt_book::spots::{Spot, spot_of};
use rmt_book::table::TableCells;
use std::alloc::AllocError;
use std::collections::BTreeSet;

/// Gives a cell of an exact table. The only fault is want of memory.
fn give(given: &mut Vec<BTreeSet<u32>>, spot: Spot) -> Result<(), AllocError>
    requires { spot.part < length given.old.items }
    ensures { OnOk result (IsGiven given.old.items given.new.items spot) }
{
    given[spot.part].insert(spot.cell)?;
    Ok(())
}

/// The first free one of the candidate cells of the key of an entry of an exact table, which is given from then on. The
/// only fault is want of memory.
fn take_open(
    odd: bool,
    seed: u8,
    table: &TableCells,
    given: &mut Vec<BTreeSet<u32>>,
    key: &[u8],
) -> Result<Option<Spot>, AllocError>
    requires given { length given.old.items ≡ length table.now.parts.items }
    ensures takes { IfOk result (λ spot. (e : EntryOf) → key.now ≡ key_bytes table.now.name e → TakesOpen odd seed table.now e given.old.items given.new.items spot) }
    ensures within { IfOk result (λ spot. IfSome spot (λ s. s.part < length table.now.parts.items)) }
{
    let parts = table.parts.as_slice();
    let Some(spot) = open_cell(odd, seed, parts, given.as_slice(), key) else {
        return Ok(None);
    };
    give(given, spot)?;
    Ok(Some(spot))
}

/// The first free row of a prefix or ternary table in which an entry keeps the order, which it has from then on. The
/// only fault is want of memory.
fn take_row(
    table: &TableCells,
    order: &mut RowOrder,
    entry: &Entry,
) -> Result<Option<Spot>, AllocError>
    requires { HaveRoom table.now entry.now order.old }
    ensures takes { IfOk result (λ spot. TakesRow table.now entry.now order.old order.new spot) }
    ensures within { IfOk result (λ spot. IfSome spot (λ s. s.part < length table.now.parts.items)) }
{
    let key = row_key(table.name.kind, entry.rank, entry.number);
    let Some(row) = order.row_for(key) else {
        return Ok(None);
    };
    order.rows.insert(key, row)?;
    order.free.remove(&row);
    Ok(Some(spot_of(table.parts.as_slice(), row)))
}

/// The first cell that an entry of this key may take, which it has from then on; None where there is none. The only
/// fault is want of memory.
pub fn take_cell(
    odd: bool,
    seed: u8,
    table: &TableCells,
    index: &mut TableIndex,
    entry: &Entry,
    key: &[u8],
) -> Result<Option<Spot>, AllocError>
    requires key { key.now ≡ key_bytes table.now.name entry.now }
    requires may { MayGive table.now entry.now index.old }
    ensures takes { IfOk result (λ spot. TakesFrom odd seed table.now entry.now index.old index.new spot) }
    ensures within { IfOk result (λ spot. IfSome spot (λ s. s.part < length table.now.parts.items)) }
{
    match index {
        TableIndex::Cells(given) => take_open(odd, seed, table, given, key),
        TableIndex::Rows(order) => take_row(table, order, entry),
    }
}
