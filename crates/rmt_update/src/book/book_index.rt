//! Where the cells of a book are found, kept from commit to commit.

ghost use Rattle.std.specs.Prelude.{◌≡◌, ◌++◌, ◌∷◌, [], IfOk, IsSome, List, None, OnOk};
ghost use Rattle.std.specs.List.{AllZip};
ghost use Rattle.rmt_update.specs.Types.{BookSpot as SpotOf, Config as ConfigOf, Entry as EntryOf, Kept as KeptOf, RunCells};
ghost use Rattle.rmt_update.specs.BookIndex.{AreApart, IsBookIndex};
ghost use Rattle.rmt_update.specs.BookStands.{BookStands};
ghost use Rattle.rmt_update.specs.IndexCells.{HasGathered, all_cells, part_cells, table_cells};
ghost use Rattle.rmt_update.specs.RowIndex.{IsIndex, never};

use crate::book::Book;
use crate::book::adding::add_made;
use crate::book::index::{TableIndex, index_of};
use crate::book::placing::all_ordered;
use rmt_book::kept::Kept;
use rmt_book::spot::BookSpot;
use rmt_book::spots::Spot;
use rmt_book::table::{PartCells, TableCells};
use std::alloc::{AllocError, Global};
use std::collections::BTreeMap;

/// Where the occupied cells of a book's tables are found, and their rows.
#[derive(Drop)]
pub struct BookIndex {
    /// The occupied cells, by the numbers of their entries.
    pub spots: BTreeMap<u32, BookSpot>,
    /// The occupied cells that don't have both visible bits.
    pub recent: Vec<BookSpot>,
    /// Where the entries of each table stand.
    pub tables: Vec<TableIndex>,
}

/// Occupied cells as they are gathered.
#[derive(Drop)]
struct Gathered {
    /// The cells, each behind the number of its entry.
    spots: Vec<(u32, BookSpot)>,
    /// Those that don't have both visible bits.
    recent: Vec<BookSpot>,
}

/// Adds an occupied cell to the others. The only fault is want of memory.
fn put_cell(gathered: &mut Gathered, spot: BookSpot, kept: &Kept) -> Result<(), AllocError>
    ensures { OnOk result ((cells : List (SpotOf × KeptOf)) → HasGathered cells gathered.old → HasGathered (cells ++ (spot, kept.now) ∷ []) gathered.new) }
{
    gathered.spots.push((kept.number, spot))?;
    if kept.visible != 3 {
        gathered.recent.push(spot)?;
    }
    Ok(())
}

/// Adds the occupied cells of a part of the table at a place to the others. The only fault is want of memory.
fn put_part(
    gathered: &mut Gathered,
    table: usize,
    part: usize,
    own: &PartCells,
) -> Result<(), AllocError>
    ensures { OnOk result ((cells : List (SpotOf × KeptOf)) → HasGathered cells gathered.old → HasGathered (cells ++ part_cells table part own.now) gathered.new) }
{
    for (cell, kept) in own.cells.iter() {
        let at = Spot { part, cell: *cell };
        put_cell(gathered, BookSpot { table, at }, kept)?;
    }
    Ok(())
}

/// Adds the occupied cells of the table at a place to the others. The only fault is want of memory.
fn put_table(gathered: &mut Gathered, table: usize, parts: &[PartCells]) -> Result<(), AllocError>
    ensures { OnOk result ((cells : List (SpotOf × KeptOf)) → HasGathered cells gathered.old → HasGathered (cells ++ table_cells table parts.now) gathered.new) }
{
    for (part, own) in parts.iter().enumerate() {
        put_part(gathered, table, part, own)?;
    }
    Ok(())
}

/// The occupied cells of tables. The only fault is want of memory.
fn gathered_of(alloc: Global, tables: &[TableCells]) -> Result<Gathered, AllocError>
    ensures { IfOk result (HasGathered (all_cells tables.now)) }
{
    let mut gathered = Gathered {
        spots: Vec::new(alloc),
        recent: Vec::new(alloc),
    };
    for (at, table) in tables.iter().enumerate() {
        put_table(&mut gathered, at, table.parts.as_slice())?;
    }
    Ok(gathered)
}

/// Where the entries of each table stand. The only fault is want of memory.
fn indexes_of(
    alloc: Global,
    odd: bool,
    tables: &[TableCells],
) -> Result<Vec<TableIndex>, AllocError>
    requires { AreApart tables.now }
    ensures { IfOk result (λ indexes. AllZip (IsIndex odd never) tables.now indexes.items) }
{
    let mut indexes = Vec::with_capacity(alloc, tables.len())?;
    for table in tables {
        add_made(&mut indexes, index_of(alloc, odd, table))?;
    }
    Ok(indexes)
}

/// The index of tables. Its map is made of all cells at once, which is faster than to add them one by one in the order of
/// cells. The only fault is want of memory.
pub fn index_of_book(
    alloc: Global,
    odd: bool,
    tables: &[TableCells],
) -> Result<BookIndex, AllocError>
    requires { AreApart tables.now }
    ensures { IfOk result (IsBookIndex odd tables.now) }
{
    all_ordered(tables);
    let Gathered { spots, recent } = gathered_of(alloc, tables)?;
    Ok(BookIndex {
        spots: BTreeMap::from_iter(alloc, spots)?,
        recent,
        tables: indexes_of(alloc, odd, tables)?,
    })
}

impl Book {
    /// Keeps an index, so that the next commit has none to make. The only fault is want of memory.
    pub fn keep_index(&mut self, alloc: Global) -> Result<(), AllocError>
        requires { (c : ConfigOf) × (cells : RunCells) × (lists : List (List EntryOf)) × BookStands c cells lists self.old }
        ensures stands { OnOk result ((c : ConfigOf) (cells : RunCells) (lists : List (List EntryOf)) → BookStands c cells lists self.old → BookStands c cells lists self.new) }
        ensures has { OnOk result (IsSome self.new.index) }
    {
        let index = self.take_index(alloc)?;
        self.index = Some(index);
        Ok(())
    }

    /// The index of the book, which it no longer has: the one that is kept, or one that is made. The only fault is want of
    /// memory.
    pub fn take_index(&mut self, alloc: Global) -> Result<BookIndex, AllocError>
        requires { (c : ConfigOf) × (cells : RunCells) × (lists : List (List EntryOf)) × BookStands c cells lists self.old }
        ensures rest { self.new ≡ record self.old { index = None } }
        ensures index { IfOk result (IsBookIndex self.old.odd self.old.tables.items) }
    {
        match self.index.take() {
            Some(index) => Ok(index),
            None => index_of_book(alloc, self.odd, self.tables.as_slice()),
        }
    }
}
