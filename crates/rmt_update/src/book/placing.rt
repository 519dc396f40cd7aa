//! Which cells the entries of a commit take, where no cell moves.

ghost use Rattle.std.specs.Prelude.{◌≡◌, ◌+◌, ◌<◌, ◌≤◌, All, IfOk, IfSome, IsTrue, List, Option, Some, length, slice_get, sum, take, true};
ghost use Rattle.std.specs.BTreeMap.{IsOrdered};
ghost use Rattle.std.specs.Ordering.{nat_cmp};
ghost use Rattle.rmt_bits.specs.Members.{is_among};
ghost use Rattle.rmt_ast.specs.EntryLists.{IsEntry};
ghost use Rattle.rmt_ast.specs.NameRules.{table_is_formed, terms_of_name};
ghost use Rattle.rmt_update.specs.Types.{Config as ConfigOf, Entry as EntryOf, Names as NamesOf, RunCells, Spot as SpotOf, TableCells as TableOf};
ghost use Rattle.rmt_update.specs.Plans.{BookStands, HasPlaced, HasPlacedIn, IsBookIndex, IsPlacing, MayChange};
ghost use Rattle.rmt_update.specs.Come.{AreOrdered, HaveCome, IsRunOf, MayHaveCome, Run, come_to};
ghost use Rattle.rmt_book.specs.Coming.{key_bytes};
ghost use Rattle.rmt_update.specs.RowIndex.{IsIndex};
ghost use Rattle.rmt_update.specs.Taking.{Holds, IsComing, MayCome, MayGive, TakesFrom};

use crate::book::Book;
use crate::book::book_index::BookIndex;
use crate::book::coming::kept_of;
use crate::book::going::leave;
use crate::book::index::TableIndex;
use crate::book::loading::key_of;
use crate::book::taking::take_cell;
use rmt_ast::entry::Entry;
use rmt_bits::sequence::Sequence;
use rmt_book::kept::Kept;
use rmt_book::spot::BookSpot;
use rmt_book::spots::Spot;
use rmt_book::table::{PartCells, TableCells};
use rmt_lists::lists::Changes;
use std::alloc::{AllocError, Global};

/// An entry that comes, as the cell keeps it that it takes.
#[derive(Drop)]
pub struct Coming {
    pub spot: BookSpot,
    pub kept: Kept,
}

/// The cells of a part rise.
fn is_ordered(part: &PartCells)
    ensures { IsOrdered nat_cmp part.now.cells }
{
    let _count = part.cells.len();
}

/// The cells of each part of a table rise.
fn are_ordered(table: &TableCells)
    ensures { AreOrdered table.now }
{
    for part in table.parts.as_slice() {
        is_ordered(part);
    }
}

/// The cells of each part of the tables rise.
pub fn all_ordered(tables: &[TableCells])
    ensures { All AreOrdered tables.now }
{
    for table in tables {
        are_ordered(table);
    }
}

/// An entry of this key as it comes to a cell of the table at a place, which the next version alone sees. For an entry
/// whose instruction has no number of a byte, as none has within the chip's limits, there isn't enough memory.
fn coming_to(
    alloc: Global,
    odd: bool,
    at: usize,
    table: &TableCells,
    entry: &Entry,
    spot: Spot,
    key: Vec<u8>,
) -> Result<Coming, AllocError>
    requires formed { IsTrue (table_is_formed table.now.name) }
    requires entry { IsEntry table.now.name.node (terms_of_name table.now.name) entry.now }
    requires keys { sum table.now.name.keys ≤ 640 }
    requires holds { All (Holds table.now entry.now) table.now.parts.items }
    requires part { spot.part < length table.now.parts.items }
    requires key { key.items ≡ key_bytes table.now.name entry.now }
    ensures { IfOk result (IsComing odd at table.now entry.now spot) }
{
    let part = &table.parts[spot.part];
    if entry.action >= 256 || part.first >= 256 - entry.action as u128 {
        return Err(AllocError);
    }
    let held = u32::from(part.shape.held);
    let visible = if odd { 1 } else { 2 };
    let kept = kept_of(
        alloc,
        &table.name,
        part.first,
        held,
        spot.cell,
        visible,
        entry,
        key,
    )?;
    let spot = BookSpot {
        table: at,
        at: spot,
    };
    Ok(Coming { spot, kept })
}

/// An entry as it comes to the first cell of a table that it may take; None where there is none. The only fault is want
/// of memory.
fn place_one(
    alloc: Global,
    odd: bool,
    seed: u8,
    at: usize,
    table: &TableCells,
    index: &mut TableIndex,
    entry: &Entry,
) -> Result<Option<Coming>, AllocError>
    requires formed { IsTrue (table_is_formed table.now.name) }
    requires entry { IsEntry table.now.name.node (terms_of_name table.now.name) entry.now }
    requires keys { sum table.now.name.keys ≤ 640 }
    requires holds { All (Holds table.now entry.now) table.now.parts.items }
    requires may { MayGive table.now entry.now index.old }
    ensures { IfOk result (λ coming. (spot : Option SpotOf) × TakesFrom odd seed table.now entry.now index.old index.new spot × MayCome odd at table.now entry.now spot coming) }
{
    let key = key_of(alloc, &table.name, entry)?;
    match take_cell(odd, seed, table, index, entry, key.as_slice())? {
        Some(spot) => {
            let coming = coming_to(alloc, odd, at, table, entry, spot, key)?;
            Ok(Some(coming))
        }
        None => Ok(None),
    }
}

impl Book {
    /// Adds the cells that the entries take that come to the table at a place, by number; false where one of them finds
    /// no cell. The only fault is want of memory.
    fn place_in(
        &self,
        alloc: Global,
        changes: &Changes,
        at: usize,
        index: &mut TableIndex,
        placing: &mut Sequence<Coming>,
    ) -> Result<bool, AllocError>
        requires ordered { All AreOrdered self.now.tables.items }
        requires at { at < length self.now.tables.items }
        requires index { (t : TableOf) → slice_get self.now.tables.items at ≡ Some t → IsIndex self.now.odd (is_among changes.now.gone) t index.old }
        requires run { (w : Run) × IsRunOf self.now changes.now w × HaveCome w self.now changes.now (come_to changes.now (take at self.now.tables.items)) placing.old }
        ensures come { IfOk result (λ all. (w : Run) → IsRunOf self.now changes.now w → HaveCome w self.now changes.now (come_to changes.now (take at self.now.tables.items)) placing.old →
            MayHaveCome w self.now changes.now (come_to changes.now (take (at + 1) self.now.tables.items)) placing.new all) }
        ensures index { IfOk result (λ all. all ≡ true → HasPlacedIn self.now.odd changes.now.gone self.now.tables.items at placing.old placing.new index.new) }
    {
        let table = &self.tables[at];
        for entry in changes.come.as_slice() {
            if entry.table == table.name.node {
                match place_one(alloc, self.odd, self.seed, at, table, index, entry)? {
                    Some(coming) => placing.push(coming)?,
                    None => return Ok(false),
                }
            }
        }
        Ok(true)
    }

    /// The cells that the entries that come take, one after another, by node and then by number; None where one of them
    /// finds no cell, so that a cell must move. The entries that go leave the rows of the index, and those that come enter
    /// them. The only fault is want of memory.
    pub fn place(
        &self,
        alloc: Global,
        changes: &Changes,
        index: &mut BookIndex,
    ) -> Result<Option<Sequence<Coming>>, AllocError>
        requires may { (c : ConfigOf) × (names : NamesOf) × (cells : RunCells) × (lists : List (List EntryOf)) × BookStands c cells lists self.now × (c.names ≡ Some names) × MayChange c names cells lists changes.now }
        requires index { IsBookIndex self.now.odd self.now.tables.items index.old }
        ensures placing { IfOk result (λ placing. (c : ConfigOf) (names : NamesOf) (cells : RunCells) (lists : List (List EntryOf)) → BookStands c cells lists self.now → c.names ≡ Some names → MayChange c names cells lists changes.now →
            IsPlacing c names cells lists changes.now self.now.odd self.now.tables.items placing) }
        ensures few { IfOk result (λ placing. IfSome placing (λ come. length come ≤ length changes.now.come)) }
        ensures index { IfOk result (λ placing. IfSome placing (λ come. HasPlaced self.now.odd changes.now.gone come self.now.tables.items index.new)) }
    {
        all_ordered(self.tables.as_slice());
        leave(self.tables.as_slice(), changes.gone.as_slice(), index);
        let mut placing = Sequence::new(alloc);
        for at in 0..self.tables.len() {
            if !self.place_in(alloc, changes, at, &mut index.tables[at], &mut placing)? {
                return Ok(None);
            }
        }
        Ok(Some(placing))
    }
}
