//! Entries come to cells of a book.

ghost use Rattle.std.specs.Prelude.{◌≡◌, ◌<◌, All, IfOk, List, OnErr, OnOk, Option, Some, length};
ghost use Rattle.std.specs.BTreeMap.{get};
ghost use Rattle.std.specs.Ordering.{nat_cmp};
ghost use Rattle.rmt_book.specs.BookSpots.{kept_at};
ghost use Rattle.rmt_update.specs.Turning.{HaveCells, IsSpotIn, LeadBack, PartWith, PartsWith, TablesWith, cell_at, come_to, turn_to};
ghost use Rattle.rmt_update.specs.Types.{Kept as KeptOf, TableCells as TableOf};
ghost use Rattle.rmt_update.specs.declared.book.placing.Coming.{Coming as ComingOf};

use crate::book::placing::Coming;
use crate::book::turning::{CellTurn, Turn, turn_all, turn_cell};
use rmt_bits::sequence::Sequence;
use rmt_book::kept::Kept;
use rmt_book::spot::BookSpot;
use rmt_book::spots::Spot;
use rmt_book::table::{PartCells, TableCells};
use std::alloc::{AllocError, Global};

/// An entry comes to a cell of a part; what was kept of it is given back. The only fault is want of memory.
fn put_in_part(part: &mut PartCells, cell: u32, kept: Kept) -> Result<Option<Kept>, AllocError>
    ensures put { OnOk result (PartWith cell (λ (o : Option KeptOf). Some kept) part.old part.new) }
    ensures before { IfOk result (λ before. before ≡ get nat_cmp part.old.cells cell) }
    ensures stays { OnErr result (PartWith cell (λ (o : Option KeptOf). o) part.old part.new) }
{
    let before = part.cells.insert(cell, kept)?;
    Ok(before)
}

/// An entry comes to a cell of parts; what was kept of it is given back. The only fault is want of memory.
fn put_in_parts(
    parts: &mut Vec<PartCells>,
    at: Spot,
    kept: Kept,
) -> Result<Option<Kept>, AllocError>
    requires { at.part < length parts.old.items }
    ensures put { OnOk result (PartsWith at (λ (o : Option KeptOf). Some kept) parts.old.items parts.new.items) }
    ensures before { IfOk result (λ before. before ≡ cell_at parts.old.items at) }
    ensures stays { OnErr result (PartsWith at (λ (o : Option KeptOf). o) parts.old.items parts.new.items) }
{
    put_in_part(&mut parts[at.part], at.cell, kept)
}

/// An entry comes to a cell of tables; what was kept of it is given back. The only fault is want of memory.
fn put_in(
    tables: &mut Vec<TableCells>,
    spot: BookSpot,
    kept: Kept,
) -> Result<Option<Kept>, AllocError>
    requires { IsSpotIn tables.old.items spot }
    ensures put { OnOk result (TablesWith spot (λ (o : Option KeptOf). Some kept) tables.old.items tables.new.items) }
    ensures before { IfOk result (λ before. before ≡ kept_at tables.old.items spot) }
    ensures stays { OnErr result (TablesWith spot (λ (o : Option KeptOf). o) tables.old.items tables.new.items) }
{
    put_in_parts(&mut tables[spot.table].parts, spot.at, kept)
}

/// The turn by which a cell to which an entry came gets back what was kept of it.
fn turn_back(before: Option<Kept>) -> Turn
    ensures { result ≡ turn_to before }
{
    match before {
        Some(kept) => Turn::Holds(kept),
        None => Turn::Empty,
    }
}

/// An entry comes to a cell of tables, and the turn back is added to the others. After want of memory, the only fault, the
/// cells are as before.
fn enter_one(
    tables: &mut Vec<TableCells>,
    entered: &mut Vec<CellTurn>,
    coming: Coming,
) -> Result<(), AllocError>
    requires { IsSpotIn tables.old.items coming.spot }
    ensures came { OnOk result (TablesWith coming.spot (λ (o : Option KeptOf). Some coming.kept) tables.old.items tables.new.items) }
    ensures back { (ts : List TableOf) → LeadBack entered.old.items tables.old.items ts → LeadBack entered.new.items tables.new.items ts }
{
    let spot = coming.spot;
    let before = put_in(tables, spot, coming.kept)?;
    let turn = turn_back(before);
    if let Err(refused) = entered.push(CellTurn { spot, turn }) {
        turn_cell(tables, refused.value);
        return Err(AllocError);
    }
    Ok(())
}

/// Entries come to cells of tables. After want of memory, the only fault, the cells are as before.
pub fn enter(
    alloc: Global,
    tables: &mut Vec<TableCells>,
    come: Sequence<Coming>,
) -> Result<(), AllocError>
    requires { All (λ (x : ComingOf). IsSpotIn tables.old.items x.spot) come }
    ensures came { OnOk result (HaveCells tables.old.items tables.new.items (λ s. come_to come s (kept_at tables.old.items s))) }
    ensures kept { OnErr result (HaveCells tables.old.items tables.new.items (kept_at tables.old.items)) }
{
    let mut entered = Vec::new(alloc);
    for coming in come.into_vec() {
        if enter_one(tables, &mut entered, coming).is_err() {
            turn_all(tables, entered);
            return Err(AllocError);
        }
    }
    Ok(())
}
