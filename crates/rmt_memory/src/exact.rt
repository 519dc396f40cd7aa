//! Look-ups in the cells of an exact part, by the rows of its four ways.

ghost use Rattle.std.specs.Prelude.{◌≡◌, ◌+◌, ◌*◌, ◌<◌, ◌≤◌, true, false, length, IfSome};
ghost use Rattle.rmt_memory.specs.Searching.{FirstIn, HasCell, FirstByWays, FirstInWay};

use crate::runs::{Runs, run_at};
use crate::sight::is_seen;
use rmt_config::part_ways::PartWays;
use rmt_config::way_rows::row_of;

/// Whether a sight shows a cell, and it has a key.
fn has_key(cells: &Runs, at: usize, sight: u8, key: &[u8]) -> bool
    requires at { at < cells.now.count }
    requires sight { sight < 3 }
    requires size { 1 + length key.now ≤ cells.now.size }
    ensures yes { result ≡ true → HasCell cells.now sight key.now at }
    ensures no { result ≡ false → HasCell cells.now sight key.now at → ⊥ }
{
    let cell = run_at(cells, at);
    is_seen(cell[0], sight) && &cell[1..1 + key.len()] == key
}

/// The first cell from a place on, below another, that a sight shows and that has a key.
fn first_with(cells: &Runs, sight: u8, key: &[u8], from: usize, to: usize) -> Option<usize>
    requires sight { sight < 3 }
    requires size { 1 + length key.now ≤ cells.now.size }
    requires to { to ≤ cells.now.count }
    ensures { FirstIn (HasCell cells.now sight key.now) from to result }
{
    for at in from..to {
        if has_key(cells, at, sight, key) {
            return Some(at);
        }
    }
    None
}

/// The first cell of a key's row in a way that a sight shows and that has the key.
fn first_in_way(
    ways: PartWays,
    cells: &Runs,
    seed: u8,
    sight: u8,
    key: &[u8],
    way: u8,
) -> Option<usize>
    requires way { way < 4 }
    requires sight { sight < 3 }
    requires size { 1 + length key.now ≤ cells.now.size }
    requires within { 4 * ways.rows * ways.per ≤ cells.now.count }
    ensures first { FirstInWay ways cells.now seed sight key.now way result }
    ensures within { IfSome result (λ i. i < cells.now.count) }
{
    let per = ways.per as usize;
    let from = row_of(ways, seed, key, way) as usize * per;
    first_with(cells, sight, key, from, from + per)
}

/// The cell of a key under a seed, in the first way that has one that a sight shows.
pub fn place_of(ways: PartWays, cells: &Runs, seed: u8, sight: u8, key: &[u8]) -> Option<usize>
    requires sight { sight < 3 }
    requires size { 1 + length key.now ≤ cells.now.size }
    requires within { 4 * ways.rows * ways.per ≤ cells.now.count }
    ensures first { FirstByWays ways cells.now seed sight key.now result }
    ensures within { IfSome result (λ i. i < cells.now.count) }
{
    for way in 0..4 {
        if let Some(at) = first_in_way(ways, cells, seed, sight, key, way) {
            return Some(at);
        }
    }
    None
}
