//! Bytes that are cut into pieces of a cell each.

ghost use Rattle.std.specs.Prelude.{◌≡◌, ℕ, ◌+◌, ◌++◌, ◌<◌, ◌≤◌, ◌^◌, [], List, length, take, drop, slice_index_or};
ghost use Rattle.rmt_cells.specs.Links.{after, walk, times};
ghost use Rattle.rmt_cells.specs.Pieces.{IsRun, Spell, cells_for, piece};

use crate::links::after as cell_after;

/// How many bytes a cell has.
pub const CELL: usize = 64;

/// A cell of bytes.
pub type Block = [u8; CELL];

/// How many cells so many bytes need.
pub fn cell_count(bytes: usize) -> usize
    ensures { result ≡ cells_for bytes }
{
    bytes.div_ceil(CELL)
}

/// Writes a piece to the front of a cell.
fn fill(block: &mut Block, part: &[u8])
    requires { length part.now ≤ 64 }
    ensures { take (length part.now) block.new ≡ part.now }
{
    block[..part.len()].copy_from_slice(part);
}

/// Writes bytes, piece by piece, into the cells from a cell on, and answers the cell behind the last.
pub fn write(blocks: &mut Vec<Block>, links: &[u32], first: u32, bytes: &[u8]) -> u32
    requires run { IsRun (length blocks.old.items) links.now first (cells_for (length bytes.now)) }
    requires links { length links.now ≡ length blocks.old.items }
    ensures behind { result ≡ after links.now first (cells_for (length bytes.now)) }
    ensures size { length blocks.new.items ≡ length blocks.old.items }
    ensures written { Spell blocks.new.items links.now first bytes.now }
    ensures others { (cell : ℕ) → times cell (walk links.now first (cells_for (length bytes.now))) ≡ 0 →
        slice_index_or blocks.new.items cell [] ≡ slice_index_or blocks.old.items cell [] }
{
    let mut cell = first;
    for number in 0..cell_count(bytes.len()) {
        let from = number * CELL;
        let to = (from + CELL).min(bytes.len());
        fill(&mut blocks[cell as usize], &bytes[from..to]);
        cell = links[cell as usize];
    }
    cell
}

/// Writes a part over bytes from a place on.
fn put_at(into: &mut [u8], from: usize, part: &[u8])
    requires { from + length part.now ≤ length into.old }
    ensures { take (from + length part.now) into.new ≡ take from into.old ++ part.now }
{
    into[from..from + part.len()].copy_from_slice(part);
}

/// Reads bytes that the cells from a cell on spell, from a place in them on.
pub fn read(blocks: &[Block], links: &[u32], first: u32, at: u32, into: &mut [u8])
    requires links { (i : ℕ) → i < cells_for (at + length into.old) → after links.now first i < length links.now }
    requires blocks { length links.now ≡ length blocks.now }
    ensures { (bytes : List ℕ) → Spell blocks.now links.now first bytes → at + length into.old ≤ length bytes →
        into.new ≡ take (length into.old) (drop at bytes) }
{
    let at = at as usize;
    let mut cell = cell_after(links, first, (at / CELL) as u32);
    let mut done = 0;
    while done < into.len() {
        let place = (at + done) % CELL;
        let count = (CELL - place).min(into.len() - done);
        put_at(into, done, &blocks[cell as usize][place..place + count]);
        cell = links[cell as usize];
        done += count;
    }
}
