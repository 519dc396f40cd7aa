//! Cells of a book turn in their places, which needs no memory.

ghost use Rattle.std.specs.Prelude.{◌<◌, All, length};
ghost use Rattle.rmt_book.specs.BookSpots.{kept_at};
ghost use Rattle.rmt_update.specs.Turning.{HaveCells, IsSpotIn, PartWith, PartsWith, TablesWith, turned, turned_by};
ghost use Rattle.rmt_update.specs.declared.book.turning.CellTurn.{CellTurn as CellTurnOf};

use rmt_book::kept::Kept;
use rmt_book::spot::BookSpot;
use rmt_book::spots::Spot;
use rmt_book::table::{PartCells, TableCells};

/// What becomes of a cell.
#[derive(Drop)]
pub enum Turn {
    /// It is emptied.
    Empty,
    /// If it is occupied, it gets these visible bits.
    Shows(u8),
    /// If it is occupied, this is kept of it.
    Holds(Kept),
}

/// What becomes of a cell, and where it stands.
#[derive(Drop)]
pub struct CellTurn {
    pub spot: BookSpot,
    pub turn: Turn,
}

/// A cell of a part turns.
fn turn_in_part(part: &mut PartCells, cell: u32, turn: Turn)
    ensures { PartWith cell (turned_by turn) part.old part.new }
{
    match turn {
        Turn::Empty => {
            part.cells.remove(&cell);
        }
        Turn::Shows(visible) => {
            if let Some(kept) = part.cells.get_mut(&cell) {
                kept.visible = visible;
            }
        }
        Turn::Holds(before) => {
            if let Some(kept) = part.cells.get_mut(&cell) {
                *kept = before;
            }
        }
    }
}

/// A cell of parts turns.
fn turn_in_parts(parts: &mut Vec<PartCells>, at: Spot, turn: Turn)
    requires { at.part < length parts.old.items }
    ensures { PartsWith at (turned_by turn) parts.old.items parts.new.items }
{
    turn_in_part(&mut parts[at.part], at.cell, turn);
}

/// A cell of tables turns.
pub fn turn_cell(tables: &mut Vec<TableCells>, turn: CellTurn)
    requires { IsSpotIn tables.old.items turn.spot }
    ensures { TablesWith turn.spot (turned_by turn.turn) tables.old.items tables.new.items }
{
    let spot = turn.spot;
    turn_in_parts(&mut tables[spot.table].parts, spot.at, turn.turn);
}

/// Cells of tables turn, from the last one on.
pub fn turn_all(tables: &mut Vec<TableCells>, turns: Vec<CellTurn>)
    requires { All (λ (x : CellTurnOf). IsSpotIn tables.old.items x.spot) turns.items }
    ensures { HaveCells tables.old.items tables.new.items (λ s. turned turns.items s (kept_at tables.old.items s)) }
{
    let mut left = turns;
    while let Some(turn) = left.pop() {
        turn_cell(tables, turn);
    }
}
