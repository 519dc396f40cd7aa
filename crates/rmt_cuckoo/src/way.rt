//! The ways of a table.

ghost use Rattle.std.specs.Prelude.{◌≡◌, ℕ, ◌+◌, ◌*◌, ◌<◌, ◌≤◌, ◌^◌, ◌++◌, ◌∷◌, [], length, map, IfOk, OnOk};
ghost use Rattle.rmt_cuckoo.specs.Loading.{cells_of, cells_in, way_of, ways_of};

use crate::layout::Ways;
use std::alloc::{AllocError, Global};

/// A way: its number, the number of its first cell, its rows, and the cells of a row.
#[derive(Clone, Copy, Debug)]
pub struct Way {
    pub number: u8,
    pub first: u32,
    pub rows: u32,
    pub per: u32,
}

/// How many cells a way of a part has.
fn way_cells(part: Ways) -> u32
    requires { part.rows * part.per < 2 ^ 32 }
    ensures { result ≡ part.rows * part.per }
{
    part.rows * part.per
}

/// How many cells a part has.
fn part_cells(part: Ways) -> u32
    requires { cells_in part < 2 ^ 32 }
    ensures { result ≡ cells_in part }
{
    4 * way_cells(part)
}

/// Way `j` of a part whose first way has this number and begins at this cell.
fn make_way(number: u8, first: u32, part: Ways, j: u8) -> Way
    requires few { number + j < 256 }
    requires four { j < 4 }
    requires within { first + cells_in part < 2 ^ 32 }
    ensures { result ≡ way_of number first part j }
{
    Way {
        number: number + j,
        first: first + u32::from(j) * way_cells(part),
        rows: part.rows,
        per: part.per,
    }
}

/// Appends the four ways of a part.
fn push_ways(ways: &mut Vec<Way>, number: u8, first: u32, part: Ways) -> Result<(), AllocError>
    requires few { number + 4 ≤ 256 }
    requires within { first + cells_in part < 2 ^ 32 }
    ensures { OnOk result (ways.new.items ≡ ways.old.items ++ map (way_of number first part) (0 ∷ 1 ∷ 2 ∷ 3 ∷ [])) }
{
    ways.extend_from_slice(&[
        make_way(number, first, part, 0),
        make_way(number, first, part, 1),
        make_way(number, first, part, 2),
        make_way(number, first, part, 3),
    ])
}

/// The ways of a table, in their order, and how many cells they have together.
#[derive(Drop)]
pub struct WayList {
    pub ways: Vec<Way>,
    pub cells: u32,
}

/// The ways of a table and their cells.
pub fn way_list(alloc: Global, layout: &[Ways]) -> Result<WayList, AllocError>
    requires parts { length layout.now ≤ 64 }
    requires cells { cells_of layout.now < 2 ^ 32 }
    ensures ways { IfOk result (λ list. list.ways.items ≡ ways_of layout.now) }
    ensures cells { IfOk result (λ list. list.cells ≡ cells_of layout.now) }
{
    let mut ways = Vec::new(alloc);
    let mut cells = 0;
    for (at, part) in layout.iter().enumerate() {
        push_ways(&mut ways, 4 * at as u8, cells, *part)?;
        cells += part_cells(*part);
    }
    Ok(WayList { ways, cells })
}
