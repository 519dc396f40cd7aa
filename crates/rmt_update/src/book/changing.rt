//! Changed cells of a book, by where they stand.

ghost use Rattle.std.specs.Prelude.{◌≡◌, ◌<◌, IfOk, OnOk};
ghost use Rattle.std.specs.BTreeMap.{insert_entry};
ghost use Rattle.rmt_update.specs.Changing.{key_cmp};
ghost use Rattle.rmt_book.specs.Coming.{empty_write as empty_write_of, kept_write as kept_write_of};
ghost use Rattle.rmt_update.specs.Differences.{changes_in};

use rmt_book::kept::Kept;
use rmt_book::spot::BookSpot;
use rmt_book::table::PartCells;
use rmt_book::written::{empty_write, kept_write};
use rmt_config::cell_write::CellWrite;
use std::alloc::{AllocError, Global};

/// A changed cell, and where it stands.
#[derive(Drop)]
pub struct CellChange {
    pub spot: BookSpot,
    pub write: CellWrite,
}

/// Changed cells with their stages, units and numbers, in the order in which they are put: of each cell the last one counts.
pub type CellChanges = Vec<(((usize, usize), u32), CellChange)>;

/// Adds a changed cell of a part that is to hold what is kept, with these visible bits. The only fault is want of memory.
pub fn put_kept(
    alloc: Global,
    changes: &mut CellChanges,
    part: &PartCells,
    spot: BookSpot,
    visible: u8,
    kept: &Kept,
) -> Result<(), AllocError>
    requires stage { part.now.stage < 256 }
    requires place { part.now.place < 256 }
    ensures { OnOk result (changes_in changes.new.items ≡ insert_entry key_cmp (changes_in changes.old.items) ((part.now.stage, part.now.place), spot.at.cell)
        (record { spot = spot; write = kept_write_of part.now.stage part.now.place visible kept.now })) }
{
    let write = kept_write(alloc, part.stage, part.place, visible, kept)?;
    let key = ((part.stage, part.place), spot.at.cell);
    changes.push((key, CellChange { spot, write }))?;
    Ok(())
}

/// Adds a cell of a part that is emptied. The only fault is want of memory.
pub fn put_empty(
    alloc: Global,
    changes: &mut CellChanges,
    part: &PartCells,
    spot: BookSpot,
) -> Result<(), AllocError>
    requires stage { part.now.stage < 256 }
    requires place { part.now.place < 256 }
    ensures { OnOk result (changes_in changes.new.items ≡ insert_entry key_cmp (changes_in changes.old.items) ((part.now.stage, part.now.place), spot.at.cell)
        (record { spot = spot; write = empty_write_of part.now.stage part.now.place spot.at.cell })) }
{
    let write = empty_write(alloc, part.stage, part.place, spot.at.cell);
    let key = ((part.stage, part.place), spot.at.cell);
    changes.push((key, CellChange { spot, write }))?;
    Ok(())
}

/// Changed cells by stage, unit and cell, of each the last one. The only fault is want of memory.
pub fn in_order(changes: CellChanges) -> Result<CellChanges, AllocError>
    ensures { IfOk result (λ ordered. ordered.items ≡ changes_in changes.items) }
{
    let mut ordered = changes;
    ordered.reverse();
    ordered.sort_by_key(|change| change.0)?;
    ordered.dedup_by_key(|change| change.0);
    Ok(ordered)
}
