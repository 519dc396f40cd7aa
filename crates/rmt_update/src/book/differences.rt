//! The cells that change where all entries are put into cells anew.

ghost use Rattle.std.specs.Prelude.{◌≡◌, ◌<◌, ◌∷◌, [], ℕ, All, Contains, Some, IfOk, OnOk, length, map, zip};
ghost use Rattle.std.specs.BTreeMap.{get, keys};
ghost use Rattle.std.specs.List.{AllZip};
ghost use Rattle.std.specs.Ordering.{nat_cmp};
ghost use Rattle.std.specs.declared.vec.Vec.{Vec as VecOf};
ghost use Rattle.rmt_update.specs.Changing.{ChangeKey};
ghost use Rattle.rmt_update.specs.Differences.{AllPut, AreDifferences, AreMore, AreSome, CanChange, Goal, IsGoal, Puts, all_pairs, change_in, changes_in, is_exact, write_at};
ghost use Rattle.rmt_update.specs.declared.book.changing.CellChange.{CellChange as ChangeOf};
ghost use Rattle.rmt_update.specs.Types.{Kept as KeptOf, PartCells as PartOf};

use crate::book::changing::{CellChanges, in_order, put_empty, put_kept};
use crate::book::same::is_same_kept;
use rmt_book::grid::Grid;
use rmt_book::kept::Kept;
use rmt_book::spot::BookSpot;
use rmt_book::spots::Spot;
use rmt_book::table::{PartCells, TableCells};
use rmt_config::cell_write::CellWrite;
use std::alloc::{AllocError, Global};
use std::collections::BTreeMap;

/// Whether a part is exact.
fn is_exact(grid: Grid) -> bool
    ensures { result ≡ is_exact grid }
{
    match grid {
        Grid::Ways(_) => true,
        Grid::Rows(_) => false,
    }
}

/// Puts the change of a cell to the others, if what is kept of it changes between a part as it is and as it is next. The
/// only fault is want of memory.
fn put_change(
    alloc: Global,
    changes: &mut CellChanges,
    old: &PartCells,
    new: &PartCells,
    spot: BookSpot,
) -> Result<(), AllocError>
    requires stage { new.now.stage < 256 }
    requires place { new.now.place < 256 }
    ensures { OnOk result (Puts (changes_in changes.old.items) (changes_in changes.new.items) ((new.now.stage, new.now.place), spot.at.cell) spot (change_in old.now new.now spot.at.cell)) }
{
    let cell = spot.at.cell;
    match new.cells.get(&cell) {
        Some(next) => match old.cells.get(&cell) {
            Some(kept) => {
                if is_same_kept(is_exact(new.shape.grid), kept, next) {
                    Ok(())
                } else {
                    put_kept(alloc, changes, new, spot, next.visible, next)
                }
            }
            None => put_kept(alloc, changes, new, spot, next.visible, next),
        },
        None => match old.cells.get(&cell) {
            Some(_) => put_empty(alloc, changes, new, spot),
            None => Ok(()),
        },
    }
}

/// Puts the changes of some cells to the others: of those that a map has. The only fault is want of memory.
fn put_changes(
    alloc: Global,
    changes: &mut CellChanges,
    cells: &BTreeMap<u32, Kept>,
    old: &PartCells,
    new: &PartCells,
    at: (usize, usize),
) -> Result<(), AllocError>
    requires stage { new.now.stage < 256 }
    requires place { new.now.place < 256 }
    requires own { (n : ℕ) (k : KeptOf) → get nat_cmp new.now.cells n ≡ Some k → k.cell ≡ n }
    ensures { OnOk result ((goal : Goal) → IsGoal goal (old.now, new.now) → AreSome (changes_in changes.old.items) goal →
        AreMore (changes_in changes.old.items) (changes_in changes.new.items) goal × ((n : ℕ) → Contains (keys cells.now) n → write_at (changes_in changes.new.items) ((new.now.stage, new.now.place), n) ≡ goal ((new.now.stage, new.now.place), n))) }
{
    let (table, part) = at;
    for cell in cells.keys() {
        let spot = BookSpot {
            table,
            at: Spot { part, cell: *cell },
        };
        put_change(alloc, changes, old, new, spot)?;
    }
    Ok(())
}

/// Puts the changes of a part to the others. The only fault is want of memory.
fn put_part(
    alloc: Global,
    changes: &mut CellChanges,
    old: &PartCells,
    new: &PartCells,
    at: (usize, usize),
) -> Result<(), AllocError>
    requires { CanChange new.now }
    ensures { OnOk result (AllPut ((old.now, new.now) ∷ []) (changes_in changes.old.items) (changes_in changes.new.items)) }
{
    put_changes(alloc, changes, &old.cells, old, new, at)?;
    put_changes(alloc, changes, &new.cells, old, new, at)?;
    Ok(())
}

/// Puts the changes of a table's parts to the others. The only fault is want of memory.
fn put_parts(
    alloc: Global,
    changes: &mut CellChanges,
    old: &[PartCells],
    new: &[PartCells],
    table: usize,
) -> Result<(), AllocError>
    requires same { length new.now ≡ length old.now }
    requires can { All CanChange new.now }
    ensures { OnOk result (AllPut (zip old.now new.now) (changes_in changes.old.items) (changes_in changes.new.items)) }
{
    for part in 0..old.len() {
        put_part(alloc, changes, &old[part], &new[part], (table, part))?;
    }
    Ok(())
}

/// Changed cells by stage, unit and cell. The only fault is want of memory.
fn written(alloc: Global, changes: CellChanges) -> Result<Vec<CellWrite>, AllocError>
    ensures { IfOk result (λ writes. writes.items ≡ map (λ (x : ChangeKey × ChangeOf). x.1.write) (changes_in changes.items)) }
{
    let ordered = in_order(changes)?;
    let mut writes = Vec::with_capacity(alloc, ordered.len())?;
    for (_, change) in ordered {
        writes.push_reserved(change.write);
    }
    Ok(writes)
}

/// The cells that change between tables as they are and their parts as they are next, by stage, unit and cell. The only
/// fault is want of memory.
pub fn differences(
    alloc: Global,
    tables: &[TableCells],
    moved: &[Vec<PartCells>],
) -> Result<Vec<CellWrite>, AllocError>
    requires same { AllZip (λ t (ps : VecOf PartOf _). length ps.items ≡ length t.parts.items) tables.now moved.now }
    requires can { All (λ (ps : VecOf PartOf _). All CanChange ps.items) moved.now }
    ensures { IfOk result (λ writes. (goal : Goal) → All (IsGoal goal) (all_pairs tables.now moved.now) → AreDifferences (all_pairs tables.now moved.now) writes.items goal) }
{
    let mut changes = CellChanges::new(alloc);
    for table in 0..tables.len() {
        let old = tables[table].parts.as_slice();
        put_parts(alloc, &mut changes, old, moved[table].as_slice(), table)?;
    }
    let writes = written(alloc, changes)?;
    Ok(writes)
}
