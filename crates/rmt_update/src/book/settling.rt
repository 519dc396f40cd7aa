//! A commit that moves no cell.

ghost use Rattle.std.specs.Prelude.{◌≡◌, ◌+◌, ◌<◌, ◌≤◌, ◌++◌, ℕ, All, AllPairs, IfOk, List, OnErr, OnOk, Option, Some, length, map, reverse, vec_capacity};
ghost use Rattle.rmt_update.specs.Types.{BookSpot as SpotOf, Config as ConfigOf, Entry as EntryOf, Kept as KeptOf, Names as NamesOf, RunCells};
ghost use Rattle.rmt_config.specs.Commits.{AreWrites, settled};
ghost use Rattle.rmt_config.specs.RunCells.{with_version};
ghost use Rattle.rmt_update.specs.Plans.{ArePlaced, BookStands, FindsCells, HasLengths, HasPlaced, MayChange, changed_lists};
ghost use Rattle.rmt_book.specs.BookSpots.{kept_at};
ghost use Rattle.rmt_update.specs.Changing.{ChangeKey};
ghost use Rattle.rmt_update.specs.Differences.{changes_in};
ghost use Rattle.rmt_update.specs.Recent.{recent};
ghost use Rattle.rmt_update.specs.TurnWrites.{AreChanged, AreSmall, HaveOwnSlots, IsFresh, IsOfTables, cell_turn, turn_of as turn_of_bits};
ghost use Rattle.rmt_update.specs.Turning.{HaveCells, IsSpotIn, come_to, left_kept, turned};
ghost use Rattle.rmt_update.specs.declared.book.changing.CellChange.{CellChange as ChangeOf};
ghost use Rattle.rmt_update.specs.declared.book.placing.Coming.{Coming as ComingOf};

use crate::book::Book;
use crate::book::book_index::BookIndex;
use crate::book::changing::{CellChanges, in_order, put_kept};
use crate::book::entering::enter;
use crate::book::leaving::{part_at, put_gone, put_recent};
use crate::book::placing::{Coming, all_ordered};
use crate::book::turning::{CellTurn, Turn, turn_cell};
use rmt_bits::sequence::Sequence;
use rmt_book::table::TableCells;
use rmt_config::cell_write::CellWrite;
use rmt_lists::lists::Changes;
use std::alloc::{AllocError, Global};

/// Adds the cells to which entries come. The only fault is want of memory.
fn put_come(
    alloc: Global,
    changes: &mut CellChanges,
    tables: &[TableCells],
    come: &[Coming],
) -> Result<(), AllocError>
    requires small { AreSmall tables.now }
    requires slots { HaveOwnSlots tables.now }
    requires fresh { All (IsFresh tables.now) come.now }
    ensures { OnOk result ((next : SpotOf → Option KeptOf) → AreChanged tables.now next (changes_in changes.old.items) → AreChanged tables.now (λ s. come_to come.now s (next s)) (changes_in changes.new.items)) }
{
    for coming in come {
        if let Some(part) = part_at(tables, coming.spot) {
            let kept = &coming.kept;
            put_kept(alloc, changes, part, coming.spot, kept.visible, kept)?;
        }
    }
    Ok(())
}

/// The cells that change, where entries of these numbers go, and these come. The only fault is want of memory.
fn changes_at(
    alloc: Global,
    odd: bool,
    tables: &[TableCells],
    index: &BookIndex,
    gone: &[u32],
    come: &[Coming],
) -> Result<CellChanges, AllocError>
    requires index { FindsCells tables.now index.now }
    requires small { AreSmall tables.now }
    requires slots { HaveOwnSlots tables.now }
    requires fresh { All (IsFresh tables.now) come.now }
    requires rise { AllPairs (λ (a b : ℕ). a < b) gone.now }
    ensures { IfOk result (λ changes. AreChanged tables.now (λ s. come_to come.now s (left_kept odd gone.now (kept_at tables.now s))) (changes_in changes.items)) }
{
    let recent = index.recent.as_slice();
    let mut changes = CellChanges::new(alloc);
    put_recent(alloc, &mut changes, odd, gone, tables, recent)?;
    put_gone(alloc, &mut changes, odd, gone, tables, &index.spots)?;
    put_come(alloc, &mut changes, tables, come)?;
    Ok(changes)
}

/// The turn of a cell that gets these visible bits; without any it is emptied.
fn turn_of(visible: u8) -> Turn
    ensures { result ≡ turn_of_bits visible }
{
    if visible == 0 {
        Turn::Empty
    } else {
        Turn::Shows(visible)
    }
}

/// Changed cells turn, one after another, and are put to others, for which there is room.
fn turn_changed(tables: &mut Vec<TableCells>, cells: CellChanges, writes: &mut Vec<CellWrite>)
    requires spots { All (λ (x : ChangeKey × ChangeOf). IsSpotIn tables.old.items x.1.spot) cells.items }
    requires room { length writes.old.items + length cells.items ≤ vec_capacity writes.old }
    ensures writes { writes.new.items ≡ writes.old.items ++ map (λ (x : ChangeKey × ChangeOf). x.1.write) cells.items }
    ensures made { HaveCells tables.old.items tables.new.items (λ s. turned (map cell_turn (reverse cells.items)) s (kept_at tables.old.items s)) }
{
    for (_, change) in cells {
        let turn = turn_of(change.write.visible);
        let spot = change.spot;
        turn_cell(tables, CellTurn { spot, turn });
        writes.push_reserved(change.write);
    }
}

/// Entries come to their cells, and the changed cells turn; they are given one after another. After want of memory, the only
/// fault, the cells are as before.
fn make_changes(
    alloc: Global,
    tables: &mut Vec<TableCells>,
    cells: CellChanges,
    come: Sequence<Coming>,
) -> Result<Vec<CellWrite>, AllocError>
    requires there { All (λ (x : ComingOf). IsSpotIn tables.old.items x.spot) come }
    requires spots { All (IsOfTables tables.old.items) (changes_in cells.items) }
    ensures writes { IfOk result (λ writes. writes.items ≡ map (λ (x : ChangeKey × ChangeOf). x.1.write) (changes_in cells.items)) }
    ensures made { OnOk result (HaveCells tables.old.items tables.new.items (λ s. turned (map cell_turn (changes_in cells.items)) s (come_to come s (kept_at tables.old.items s)))) }
    ensures kept { OnErr result (HaveCells tables.old.items tables.new.items (kept_at tables.old.items)) }
{
    let ordered = in_order(cells)?;
    let mut writes = Vec::with_capacity(alloc, ordered.len())?;
    enter(alloc, tables, come)?;
    turn_changed(tables, ordered, &mut writes);
    Ok(writes)
}

impl Book {
    /// Goes on to the next version, where the entries that come take these cells, and gives the cells that change by
    /// stage, unit and cell: at most those without both visible bits, those that entries go from, and those that they come
    /// to. Of the cells behind it only the last two lack a visible bit. After want of memory, its only fault, all is as
    /// before.
    pub fn settle(
        &mut self,
        alloc: Global,
        changes: &Changes,
        come: Sequence<Coming>,
        index: BookIndex,
    ) -> Result<Vec<CellWrite>, AllocError>
        requires may { (c : ConfigOf) × (names : NamesOf) × (cells : RunCells) × (lists : List (List EntryOf)) × BookStands c cells lists self.old × (c.names ≡ Some names) × MayChange c names cells lists changes.now
            × ArePlaced c names cells lists changes.now self.old.odd self.old.tables.items come }
        requires index { HasPlaced self.old.odd changes.now.gone come self.old.tables.items index }
        ensures writes { IfOk result (λ writes. (c : ConfigOf) (names : NamesOf) (cells : RunCells) (lists : List (List EntryOf)) → BookStands c cells lists self.old → c.names ≡ Some names → MayChange c names cells lists changes.now →
            (placed : ArePlaced c names cells lists changes.now self.old.odd self.old.tables.items come) → AreWrites c cells (settled c names cells lists (placed.stay ++ placed.coming)) writes.items) }
        ensures sizes { IfOk result (λ writes. (c : ConfigOf) (names : NamesOf) (cells : RunCells) (lists : List (List EntryOf)) → BookStands c cells lists self.old → c.names ≡ Some names → MayChange c names cells lists changes.now →
            ArePlaced c names cells lists changes.now self.old.odd self.old.tables.items come → All (HasLengths c) writes.items) }
        ensures stands { OnOk result ((c : ConfigOf) (names : NamesOf) (cells : RunCells) (lists : List (List EntryOf)) → BookStands c cells lists self.old → c.names ≡ Some names → MayChange c names cells lists changes.now →
            (placed : ArePlaced c names cells lists changes.now self.old.odd self.old.tables.items come) → BookStands c (with_version (settled c names cells lists (placed.stay ++ placed.coming)) cells.seed) (changed_lists lists changes.now) self.new) }
        ensures few { IfOk result (λ writes. length writes.items ≤ length (recent self.old.tables.items) + length changes.now.gone + length come) }
        ensures recent { OnOk result (length (recent self.new.tables.items) ≤ length changes.now.gone + length come) }
        ensures kept { OnErr result ((c : ConfigOf) (cells : RunCells) (lists : List (List EntryOf)) → BookStands c cells lists self.old → BookStands c cells lists self.new) }
    {
        self.index = None;
        let tables = self.tables.as_slice();
        all_ordered(tables);
        let gone = changes.gone.as_slice();
        let cells = changes_at(alloc, self.odd, tables, &index, gone, come.as_slice())?;
        let next = self.next_index(alloc, changes, &come, index)?;
        let writes = make_changes(alloc, &mut self.tables, cells, come)?;
        self.index = Some(next);
        self.odd = !self.odd;
        Ok(writes)
    }
}
