//! Where the entries of a table stand, to find cells for those that come.

ghost use Rattle.std.specs.Prelude.{◌≡◌, ◌+◌, ◌≤◌, ◌^◌, ◌++◌, ◌∷◌, [], All, IfOk, List, OnOk, Option, length, option_copied, true};
ghost use Rattle.rmt_update.specs.RowIndex.{AreRows, HaveOwnRows, IsIndex, IsNone, has_rows as has_rows_of, never, part_rows, rows_of};
ghost use Rattle.rmt_book.specs.declared.kept.Kept.{Kept as KeptOf};

use crate::book::seen::is_seen;
use rmt_ast::program::Kind;
use rmt_book::kept::Kept;
use rmt_book::row_order::{RowOrder, row_key};
use rmt_book::table::{PartCells, TableCells};
use std::alloc::{AllocError, Global};
use std::collections::{BTreeMap, BTreeSet};

/// Where the entries of a table stand that stay, and where those that came.
#[derive(Drop)]
pub enum TableIndex {
    /// Of an exact table: the cells of each part that the commit gave.
    Cells(Vec<BTreeSet<u32>>),
    /// Of a prefix or ternary table: its rows.
    Rows(RowOrder),
}

/// Whether the rows of a table of a kind stand in an order.
fn has_rows(kind: Kind) -> bool
    ensures { result ≡ has_rows_of kind }
{
    match kind {
        Kind::Keyless | Kind::Exact => false,
        Kind::Prefix | Kind::Ternary => true,
    }
}

/// So many sets of nothing. The only fault is want of memory.
fn none_given(alloc: Global, parts: usize) -> Result<Vec<BTreeSet<u32>>, AllocError>
    ensures count { IfOk result (λ given. length given.items ≡ parts) }
    ensures none { IfOk result (λ given. All IsNone given.items) }
{
    let mut given = Vec::with_capacity(alloc, parts)?;
    let mut left = parts;
    while left > 0 {
        given.push(BTreeSet::new(alloc))?;
        left -= 1;
    }
    Ok(given)
}

/// Adds a row: that of an entry that the version sees, or a free one. The only fault is want of memory.
fn put_row(
    order: &mut RowOrder,
    kind: Kind,
    odd: bool,
    row: u32,
    kept: Option<&Kept>,
) -> Result<(), AllocError>
    ensures { OnOk result ((xs : List (Option KeptOf)) → length xs ≡ row → HaveOwnRows (xs ++ option_copied kept.entry ∷ []) → AreRows kind odd never xs order.old →
        AreRows kind odd never (xs ++ option_copied kept.entry ∷ []) order.new) }
{
    if let Some(kept) = kept {
        if is_seen(odd, kept) {
            let key = row_key(kind, kept.rank, kept.number);
            order.rows.insert(key, row)?;
            return Ok(());
        }
    }
    order.free.insert(row)?;
    Ok(())
}

/// Adds the rows of a part, of which the first has that number. The only fault is want of memory.
fn put_rows(
    order: &mut RowOrder,
    kind: Kind,
    odd: bool,
    first: u32,
    part: &PartCells,
) -> Result<(), AllocError>
    requires few { first + length (part_rows part.now) ≤ 2 ^ 31 }
    ensures { OnOk result ((xs : List (Option KeptOf)) → length xs ≡ first → HaveOwnRows (xs ++ part_rows part.now) → AreRows kind odd never xs order.old →
        AreRows kind odd never (xs ++ part_rows part.now) order.new) }
{
    for cell in 0..part.shape.cells() {
        put_row(order, kind, odd, first + cell, part.cells.get(&cell))?;
    }
    Ok(())
}

/// The rows of a table. For one with more than 2^31 rows, as none has within the chip's limits, there isn't enough
/// memory.
fn order_of(alloc: Global, odd: bool, table: &TableCells) -> Result<RowOrder, AllocError>
    requires numbers { HaveOwnRows (rows_of table.now.parts.items) }
    ensures few { OnOk result (length (rows_of table.now.parts.items) ≤ 2 ^ 31) }
    ensures rows { IfOk result (AreRows table.now.name.kind odd never (rows_of table.now.parts.items)) }
{
    let mut order = RowOrder {
        rows: BTreeMap::new(alloc),
        free: BTreeSet::new(alloc),
    };
    let mut first: u32 = 0;
    for part in table.parts.as_slice() {
        let cells = part.shape.cells();
        if cells > 2_147_483_648 - first {
            return Err(AllocError);
        }
        put_rows(&mut order, table.name.kind, odd, first, part)?;
        first += cells;
    }
    Ok(order)
}

/// The index of a table before entries go or come. The only fault is want of memory.
pub fn index_of(alloc: Global, odd: bool, table: &TableCells) -> Result<TableIndex, AllocError>
    requires numbers { HaveOwnRows (rows_of table.now.parts.items) }
    ensures { IfOk result (IsIndex odd never table.now) }
{
    if has_rows(table.name.kind) {
        Ok(TableIndex::Rows(order_of(alloc, odd, table)?))
    } else {
        Ok(TableIndex::Cells(none_given(alloc, table.parts.len())?))
    }
}
