//! Where cells of a book stand.

ghost use Rattle.std.specs.Prelude.{◌≡◌, ◌<◌, IsSomeAnd, length, option_copied, slice_get};
ghost use Rattle.rmt_book.specs.BookSpots.{kept_at as kept_at_of};
ghost use Rattle.rmt_book.specs.declared.table.TableCells.{TableCells as TableOf};

use crate::kept::Kept;
use crate::spots::Spot;
use crate::table::TableCells;

/// A cell of a book: the place of its table in the list of tables, and where it stands in the table.
#[derive(Clone, Copy, Debug, PartialEq, Eq)]
pub struct BookSpot {
    pub table: usize,
    pub at: Spot,
}

/// What is kept of a cell, if it is occupied.
pub fn kept_at(tables: &[TableCells], spot: BookSpot) -> Option<&Kept>
    requires table { spot.table < length tables.now }
    requires part { IsSomeAnd (slice_get tables.now spot.table) (λ (t : TableOf). spot.at.part < length t.parts.items) }
    ensures { option_copied result ≡ kept_at_of tables.now spot }
{
    tables[spot.table].parts[spot.at.part]
        .cells
        .get(&spot.at.cell)
}
