//! How cells change to which no entry comes in a commit that moves none.

ghost use Rattle.std.specs.Prelude.{◌≡◌, ◌<◌, ℕ, AllPairs, Contains, OnOk, Some, option_copied, option_map};
ghost use Rattle.std.specs.BTreeMap.{get};
ghost use Rattle.std.specs.Ordering.{nat_cmp};
ghost use Rattle.rmt_bits.specs.Members.{is_among};
ghost use Rattle.rmt_book.specs.BookSpots.{kept_at};
ghost use Rattle.rmt_update.specs.Differences.{Puts, changes_in};
ghost use Rattle.rmt_update.specs.TurnWrites.{AreOnWay, AreSmall, HaveOwnSlots, MoreChanged, PutsLeft, shown_write};
ghost use Rattle.rmt_update.specs.Turning.{left_kept, part_of};
ghost use Rattle.rmt_update.specs.Types.{BookSpot as SpotOf, Kept as KeptOf};

use crate::book::changing::{CellChanges, put_empty, put_kept};
use crate::book::seen::is_seen;
use rmt_book::kept::Kept;
use rmt_book::spot::BookSpot;
use rmt_book::table::{PartCells, TableCells};
use std::alloc::{AllocError, Global};
use std::collections::BTreeMap;

/// The part of a spot.
pub fn part_at(tables: &[TableCells], spot: BookSpot) -> Option<&PartCells>
    ensures { option_copied result ≡ part_of tables.now spot }
{
    match tables.get(spot.table) {
        Some(table) => table.parts.as_slice().get(spot.at.part),
        None => None,
    }
}

/// Whether a number is among rising ones.
fn is_gone(gone: &[u32], number: u32) -> bool
    requires { AllPairs (λ (a b : ℕ). a < b) gone.now }
    ensures { result ≡ is_among gone.now number }
{
    gone.binary_search(&number).is_ok()
}

/// The visible bits that a cell has next to which no entry comes; None where it is emptied.
fn next_visible(odd: bool, gone: &[u32], kept: &Kept) -> Option<u8>
    requires { AllPairs (λ (a b : ℕ). a < b) gone.now }
    ensures { result ≡ option_map (λ (k : KeptOf). k.visible) (left_kept odd gone.now (Some kept.now)) }
{
    if !is_seen(odd, kept) {
        return None;
    }
    if is_gone(gone, kept.number) {
        Some(if odd { 2 } else { 1 })
    } else {
        Some(3)
    }
}

/// Adds an occupied cell of a part that gets these visible bits, unless it has them; without any it is emptied. The only
/// fault is want of memory.
fn put_shown(
    alloc: Global,
    changes: &mut CellChanges,
    part: &PartCells,
    spot: BookSpot,
    kept: &Kept,
    visible: Option<u8>,
) -> Result<(), AllocError>
    requires stage { part.now.stage < 256 }
    requires place { part.now.place < 256 }
    ensures { OnOk result (Puts (changes_in changes.old.items) (changes_in changes.new.items) ((part.now.stage, part.now.place), spot.at.cell) spot (shown_write part.now.stage part.now.place spot.at.cell kept.now visible)) }
{
    match visible {
        None => put_empty(alloc, changes, part, spot),
        Some(visible) => {
            if visible == kept.visible {
                Ok(())
            } else {
                put_kept(alloc, changes, part, spot, visible, kept)
            }
        }
    }
}

/// Adds a cell to which no entry comes, if it changes, where entries of these numbers go. The only fault is want of memory.
fn put_left(
    alloc: Global,
    changes: &mut CellChanges,
    odd: bool,
    gone: &[u32],
    tables: &[TableCells],
    spot: BookSpot,
) -> Result<(), AllocError>
    requires small { AreSmall tables.now }
    requires rise { AllPairs (λ (a b : ℕ). a < b) gone.now }
    ensures { OnOk result (PutsLeft odd gone.now (part_of tables.now spot) spot (changes_in changes.old.items) (changes_in changes.new.items)) }
{
    let Some(part) = part_at(tables, spot) else {
        return Ok(());
    };
    let Some(kept) = part.cells.get(&spot.at.cell) else {
        return Ok(());
    };
    let visible = next_visible(odd, gone, kept);
    put_shown(alloc, changes, part, spot, kept, visible)
}

/// Adds those of some cells that change to which no entry comes. The only fault is want of memory.
pub fn put_recent(
    alloc: Global,
    changes: &mut CellChanges,
    odd: bool,
    gone: &[u32],
    tables: &[TableCells],
    spots: &[BookSpot],
) -> Result<(), AllocError>
    requires small { AreSmall tables.now }
    requires slots { HaveOwnSlots tables.now }
    requires rise { AllPairs (λ (a b : ℕ). a < b) gone.now }
    ensures { OnOk result (AreOnWay tables.now (λ s. left_kept odd gone.now (kept_at tables.now s)) (changes_in changes.old.items) →
        MoreChanged tables.now (λ s. left_kept odd gone.now (kept_at tables.now s)) (changes_in changes.old.items) (changes_in changes.new.items) (Contains spots.now)) }
{
    for spot in spots {
        put_left(alloc, changes, odd, gone, tables, *spot)?;
    }
    Ok(())
}

/// Adds those of the cells that change whose entries go. The only fault is want of memory.
pub fn put_gone(
    alloc: Global,
    changes: &mut CellChanges,
    odd: bool,
    gone: &[u32],
    tables: &[TableCells],
    found: &BTreeMap<u32, BookSpot>,
) -> Result<(), AllocError>
    requires small { AreSmall tables.now }
    requires slots { HaveOwnSlots tables.now }
    requires rise { AllPairs (λ (a b : ℕ). a < b) gone.now }
    ensures { OnOk result (AreOnWay tables.now (λ s. left_kept odd gone.now (kept_at tables.now s)) (changes_in changes.old.items) →
        MoreChanged tables.now (λ s. left_kept odd gone.now (kept_at tables.now s)) (changes_in changes.old.items) (changes_in changes.new.items)
        (λ (s : SpotOf). (n : ℕ) × Contains gone.now n × (get nat_cmp found.now n ≡ Some s))) }
{
    for number in gone {
        if let Some(spot) = found.get(number) {
            put_left(alloc, changes, odd, gone, tables, *spot)?;
        }
    }
    Ok(())
}
