//! The cells that are free for an entry that comes.

ghost use Rattle.std.specs.Prelude.{◌≡◌, ◌+◌, ◌^◌, ◌<◌, find, length};
ghost use Rattle.std.specs.List.{range_with_len};
ghost use Rattle.rmt_update.specs.Open.{first_open as first_open_of, is_open as is_open_of};
ghost use Rattle.rmt_book.specs.PartShape.{cells_for, row_cells};
ghost use Rattle.rmt_update.specs.Taking.{cells_of_parts};

use crate::book::seen::is_seen;
use rmt_book::grid::Grid;
use rmt_book::spots::Spot;
use rmt_book::table::PartCells;
use rmt_config::part_ways::PartWays;
use rmt_config::way_rows::row_of;
use std::collections::BTreeSet;

/// A part in which a free cell is looked for: which versions see its cells, those that this commit has given, and the
/// key for which it is, as its bytes, the highest first, with the seed.
#[derive(Drop)]
struct OpenLook<'a> {
    odd: bool,
    seed: u8,
    part: &'a PartCells,
    given: &'a BTreeSet<u32>,
    key: &'a [u8],
}

/// Whether a cell is free: the version doesn't see it, and this commit hasn't given it.
fn is_open(look: &OpenLook, cell: u32) -> bool
    ensures { result ≡ is_open_of look.now.odd look.now.part.now look.now.given.now cell }
{
    let seen = match look.part.cells.get(&cell) {
        Some(kept) => is_seen(look.odd, kept),
        None => false,
    };
    !seen && !look.given.contains(&cell)
}

/// The first free one of so many cells, from one on.
fn first_open(look: &OpenLook, first: u32, count: u32) -> Option<u32>
    requires { first + count < 2 ^ 32 }
    ensures { result ≡ find (is_open_of look.now.odd look.now.part.now look.now.given.now) (range_with_len first count) }
{
    let end = first + count;
    for cell in first..end {
        if is_open(look, cell) {
            return Some(cell);
        }
    }
    None
}

/// The first free cell of the row that a key has in a way.
fn open_in_way(look: &OpenLook, ways: PartWays, way: u8) -> Option<u32>
    requires { way < 4 }
    ensures { result ≡ find (is_open_of look.now.odd look.now.part.now look.now.given.now) (row_cells look.now.seed look.now.key.now ways.first ways.rows ways.per way) }
{
    let per = ways.per as u32;
    let row = row_of(ways, look.seed, look.key, way);
    first_open(look, row * per, per)
}

/// The first free cell of the rows that a key has in four ways.
fn open_in_ways(look: &OpenLook, ways: PartWays) -> Option<u32>
    ensures { result ≡ find (is_open_of look.now.odd look.now.part.now look.now.given.now) (cells_for look.now.seed look.now.key.now (Grid.Ways ways)) }
{
    for way in 0..4 {
        let found = open_in_way(look, ways, way);
        if let Some(cell) = found {
            return Some(cell);
        }
    }
    None
}

/// The first free one of the cells of a part in which a key may stand under a seed: those of its rows in the ways of an
/// exact part, and all rows of another.
fn open_in_part(look: &OpenLook) -> Option<u32>
    ensures { result ≡ find (is_open_of look.now.odd look.now.part.now look.now.given.now) (cells_for look.now.seed look.now.key.now look.now.part.now.shape.grid) }
{
    match look.part.shape.grid {
        Grid::Ways(ways) => open_in_ways(look, ways),
        Grid::Rows(rows) => first_open(look, 0, rows),
    }
}

/// The first free one of the cells in which a key may stand under a seed, over the parts in order. A way's row is looked
/// for only where no cell before it is free.
pub fn open_cell(
    odd: bool,
    seed: u8,
    parts: &[PartCells],
    given: &[BTreeSet<u32>],
    key: &[u8],
) -> Option<Spot>
    requires { length given.now ≡ length parts.now }
    ensures { result ≡ first_open_of odd 0 parts.now given.now (cells_of_parts seed key.now parts.now) }
{
    for at in 0..parts.len() {
        let look = OpenLook {
            odd,
            seed,
            part: &parts[at],
            given: &given[at],
            key,
        };
        let found = open_in_part(&look);
        if let Some(cell) = found {
            return Some(Spot { part: at, cell });
        }
    }
    None
}
