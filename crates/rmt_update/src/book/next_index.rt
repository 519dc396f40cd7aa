//! The index of a book behind a commit that moves no cell.

ghost use Rattle.std.specs.Prelude.{◌≡◌, ◌<◌, ◌++◌, ◌^◌, ℕ, All, IfOk, List, OnOk, Some, length, map, not, slice_get};
ghost use Rattle.std.specs.List.{AllZip, filter_map};
ghost use Rattle.std.specs.BTreeMap.{get};
ghost use Rattle.std.specs.Ordering.{nat_cmp};
ghost use Rattle.rmt_update.specs.Types.{Config as ConfigOf, Entry as EntryOf, Names as NamesOf, RunCells, TableCells as TableOf};
ghost use Rattle.rmt_update.specs.Plans.{ArePlaced, BookStands, HasPlaced, IsBookIndex, MayChange};
ghost use Rattle.rmt_update.specs.NextIndex.{AreAllFreed, AreSeenSpots, HasFewRows, IsFewRow, IsRenewed, IsRowFreed, spot_behind};
ghost use Rattle.rmt_update.specs.RowIndex.{IsNone, row_number};
ghost use Rattle.rmt_update.specs.Turning.{AreNext, IsSpotIn};
ghost use Rattle.rmt_update.specs.declared.book.index.TableIndex.{TableIndex as IndexOf};
ghost use Rattle.rmt_update.specs.declared.book.placing.Coming.{Coming as ComingOf};

use crate::book::Book;
use crate::book::book_index::BookIndex;
use crate::book::index::TableIndex;
use crate::book::placing::Coming;
use crate::book::seen::is_seen;
use rmt_bits::sequence::Sequence;
use rmt_book::spot::{BookSpot, kept_at};
use rmt_book::spots::Spot;
use rmt_book::table::{PartCells, TableCells};
use rmt_lists::lists::Changes;
use std::alloc::{AllocError, Global};
use std::collections::{BTreeMap, BTreeSet};

/// The cells of the entries of these numbers. The only fault is want of memory.
fn left_spots(
    alloc: Global,
    spots: &BTreeMap<u32, BookSpot>,
    gone: &[u32],
) -> Result<Vec<BookSpot>, AllocError>
    ensures { IfOk result (λ left. left.items ≡ filter_map (get nat_cmp spots.now) gone.now) }
{
    let mut left = Vec::with_capacity(alloc, gone.len())?;
    for number in gone {
        if let Some(spot) = spots.get(number) {
            left.push(*spot)?;
        }
    }
    Ok(left)
}

/// Adds the cells that entries come to. The only fault is want of memory.
fn put_taken(recent: &mut Vec<BookSpot>, come: &[Coming]) -> Result<(), AllocError>
    ensures { OnOk result (recent.new.items ≡ recent.old.items ++ map (λ (x : ComingOf). x.spot) come.now) }
{
    for coming in come {
        recent.push(coming.spot)?;
    }
    Ok(())
}

/// Forgets the cells among these that the version doesn't see.
fn keep_seen(
    odd: bool,
    tables: &[TableCells],
    among: &[BookSpot],
    spots: &mut BTreeMap<u32, BookSpot>,
)
    requires { All (IsSpotIn tables.now) among.now }
    ensures { AreSeenSpots odd tables.now among.now spots.old spots.new }
{
    for spot in among {
        if let Some(kept) = kept_at(tables, *spot) {
            if !is_seen(odd, kept) {
                spots.remove(&kept.number);
            }
        }
    }
}

/// Adds the cells that entries come to, by the numbers of the entries. The only fault is want of memory.
fn put_spots(spots: &mut BTreeMap<u32, BookSpot>, come: &[Coming]) -> Result<(), AllocError>
    ensures { OnOk result ((n : ℕ) → get nat_cmp spots.new n ≡ spot_behind come.now n (get nat_cmp spots.old n)) }
{
    for coming in come {
        spots.insert(coming.kept.number, coming.spot)?;
    }
    Ok(())
}

/// The number of a row over all parts of a table in their order.
fn row_of(parts: &[PartCells], spot: Spot) -> u32
    requires part { spot.part < length parts.now }
    requires few { row_number parts.now spot < 2 ^ 32 }
    ensures { result ≡ row_number parts.now spot }
{
    let mut row = spot.cell;
    for at in 0..spot.part {
        row += parts[at].shape.cells();
    }
    row
}

/// Frees the row of an entry that goes. The only fault is want of memory.
fn free_row(parts: &[PartCells], spot: Spot, index: &mut TableIndex) -> Result<(), AllocError>
    requires part { spot.part < length parts.now }
    requires few { IsFewRow (row_number parts.now spot) index.old }
    ensures { OnOk result (IsRowFreed (row_number parts.now spot) index.old index.new) }
{
    match index {
        TableIndex::Cells(_) => {}
        TableIndex::Rows(order) => {
            order.free.insert(row_of(parts, spot))?;
        }
    }
    Ok(())
}

/// Frees the rows of the entries that go. The only fault is want of memory.
fn free_rows(
    tables: &[TableCells],
    left: &[BookSpot],
    indexes: &mut Vec<TableIndex>,
) -> Result<(), AllocError>
    requires count { length indexes.old.items ≡ length tables.now }
    requires there { All (IsSpotIn tables.now) left.now }
    requires few { (i : ℕ) (t : TableOf) (o : IndexOf) → slice_get tables.now i ≡ Some t → slice_get indexes.old.items i ≡ Some o → HasFewRows i t.parts.items left.now o }
    ensures { OnOk result (AreAllFreed tables.now left.now indexes.old.items indexes.new.items) }
{
    for spot in left {
        let parts = tables[spot.table].parts.as_slice();
        free_row(parts, spot.at, &mut indexes[spot.table])?;
    }
    Ok(())
}

/// Takes everything out of sets.
fn clear_all(sets: &mut [BTreeSet<u32>])
    ensures count { length sets.new ≡ length sets.old }
    ensures none { All IsNone sets.new }
{
    for set in sets.iter_mut() {
        set.clear();
    }
}

/// Takes back all cells that an exact table gave.
fn renew_one(index: &mut TableIndex)
    ensures { IsRenewed index.old index.new }
{
    if let TableIndex::Cells(given) = index {
        clear_all(given.as_mut_slice());
    }
}

/// Takes back all cells that exact tables gave.
fn renew(indexes: &mut [TableIndex])
    ensures { AllZip IsRenewed indexes.old indexes.new }
{
    for index in indexes.iter_mut() {
        renew_one(index);
    }
}

impl Book {
    /// The index of the next version, where the entries that come take these cells. The only fault is want of memory.
    pub fn next_index(
        &self,
        alloc: Global,
        changes: &Changes,
        come: &Sequence<Coming>,
        index: BookIndex,
    ) -> Result<BookIndex, AllocError>
        requires may { (c : ConfigOf) × (names : NamesOf) × (cells : RunCells) × (lists : List (List EntryOf)) × BookStands c cells lists self.now × (c.names ≡ Some names) × MayChange c names cells lists changes.now
            × ArePlaced c names cells lists changes.now self.now.odd self.now.tables.items come.now }
        requires index { HasPlaced self.now.odd changes.now.gone come.now self.now.tables.items index }
        ensures { IfOk result (λ next. (us : List TableOf) → AreNext self.now.odd changes.now.gone come.now self.now.tables.items us → IsBookIndex (not self.now.odd) us next) }
    {
        let BookIndex {
            mut spots,
            recent,
            mut tables,
        } = index;
        let mut left = left_spots(alloc, &spots, changes.gone.as_slice())?;
        free_rows(self.tables.as_slice(), left.as_slice(), &mut tables)?;
        renew(tables.as_mut_slice());
        keep_seen(
            self.odd,
            self.tables.as_slice(),
            recent.as_slice(),
            &mut spots,
        );
        put_spots(&mut spots, come.as_slice())?;
        put_taken(&mut left, come.as_slice())?;
        Ok(BookIndex {
            spots,
            recent: left,
            tables,
        })
    }
}
