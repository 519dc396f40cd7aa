//! Entries that go leave the rows of a book's index.

ghost use Rattle.std.specs.Prelude.{◌≡◌, ℕ, Bool, Some, length, slice_get};
ghost use Rattle.std.specs.List.{AllZip};
ghost use Rattle.rmt_bits.specs.Members.{is_among};
ghost use Rattle.rmt_update.specs.BookIndex.{AreApart, FindsCells};
ghost use Rattle.rmt_book.specs.BookSpots.{kept_at as kept_at_of};
ghost use Rattle.rmt_update.specs.RowIndex.{IsIndex, IsRowGone, kept_key, never, or_is};
ghost use Rattle.rmt_update.specs.Turning.{IsSpotIn};
ghost use Rattle.rmt_update.specs.Types.{Kept as KeptOf, TableCells as TableOf};

use crate::book::book_index::BookIndex;
use crate::book::index::TableIndex;
use rmt_book::row_order::row_key;
use rmt_book::spot::{BookSpot, kept_at};
use rmt_book::table::TableCells;

/// The entry of a cell leaves the rows of its table.
fn leave_row(tables: &[TableCells], spot: BookSpot, index: &mut TableIndex)
    requires { IsSpotIn tables.now spot }
    ensures { (t : TableOf) (k : KeptOf) → slice_get tables.now spot.table ≡ Some t → kept_at_of tables.now spot ≡ Some k → IsRowGone (kept_key t.name.kind k) index.old index.new }
{
    match index {
        TableIndex::Cells(_) => {}
        TableIndex::Rows(order) => {
            if let Some(kept) = kept_at(tables, spot) {
                let key = row_key(tables[spot.table].name.kind, kept.rank, kept.number);
                order.rows.remove(&key);
            }
        }
    }
}

/// The entry of a number leaves the rows of its table.
fn leave_one(tables: &[TableCells], number: u32, index: &mut BookIndex)
    requires apart { AreApart tables.now }
    requires cells { FindsCells tables.now index.old }
    requires count { length index.old.tables.items ≡ length tables.now }
    ensures spots { index.new.spots ≡ index.old.spots }
    ensures recent { index.new.recent ≡ index.old.recent }
    ensures count { length index.new.tables.items ≡ length index.old.tables.items }
    ensures tables { (odd : Bool) (goes : ℕ → Bool) → AllZip (IsIndex odd goes) tables.now index.old.tables.items → AllZip (IsIndex odd (or_is number goes)) tables.now index.new.tables.items }
{
    let Some(spot) = index.spots.get(&number).copied() else {
        return;
    };
    leave_row(tables, spot, &mut index.tables[spot.table]);
}

/// The entries of these numbers leave the rows of their tables.
pub fn leave(tables: &[TableCells], gone: &[u32], index: &mut BookIndex)
    requires apart { AreApart tables.now }
    requires cells { FindsCells tables.now index.old }
    requires count { length index.old.tables.items ≡ length tables.now }
    ensures spots { index.new.spots ≡ index.old.spots }
    ensures recent { index.new.recent ≡ index.old.recent }
    ensures tables { (odd : Bool) → AllZip (IsIndex odd never) tables.now index.old.tables.items → AllZip (IsIndex odd (is_among gone.now)) tables.now index.new.tables.items }
{
    for number in gone {
        leave_one(tables, *number, index);
    }
}
