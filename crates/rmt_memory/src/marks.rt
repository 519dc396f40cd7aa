//! Marks of the keys of cells: what tells of most keys that no cell has them, without a look at the cells.

ghost use Rattle.std.specs.Prelude.{◌≡◌, ℕ, ◌+◌, ◌*◌, ◌^◌, ◌<◌, ◌≤◌, List, IfOk, true, false, length, take, drop, slice_index, vec_len};
ghost use Rattle.rmt_config.specs.Cells.{is_occupied};
ghost use Rattle.rmt_memory.specs.Marking.{mark_bit as mark_bit_of, IsMarked, AreMarked};

use crate::row_bits::{has_bit, set_bit};
use crate::runs::{Runs, run_at};
use rmt_bits::hash::fnv;
use std::alloc::{AllocError, Global};

/// The most words of marks.
const MOST: usize = 1 << 20;

/// A bit for each of some hashes, which is set where a key with that hash was put, and stays. Where
/// there are no words any key may have been put.
#[derive(Drop)]
pub struct Marks {
    pub words: Vec<u64>,
    pub ghost few: { vec_len words ≤ 2 ^ 20 },
}

/// The bit of a key among those of so many words.
fn mark_bit(count: usize, key: &[u8]) -> usize
    requires some { 1 ≤ count }
    requires few { count ≤ 2 ^ 20 }
    ensures value { result ≡ mark_bit_of count key.now }
    ensures within { result < 64 * count }
{
    let hash = fnv(key) >> 32;
    ((hash * (64 * count as u64)) >> 32) as usize
}

/// Whether a key may have been put; where its bit isn't set it was not.
pub fn may_have(marks: &Marks, key: &[u8]) -> bool
    ensures { result ≡ false → IsMarked marks.now.words.items key.now → ⊥ }
{
    let count = marks.words.len();
    if count == 0 {
        return true;
    }
    has_bit(&marks.words, count, mark_bit(count, key))
}

/// Marks a key. It takes no memory.
pub fn mark(marks: &mut Marks, key: &[u8])
    ensures own { IsMarked marks.new.words.items key.now }
    ensures others { (other : List ℕ) → IsMarked marks.old.words.items other → IsMarked marks.new.words.items other }
{
    let count = marks.words.len();
    if count > 0 {
        let bit = mark_bit(count, key);
        set_bit(marks.words.as_mut_slice(), count, 0, bit, true);
    }
}

/// Marks the key of a cell, in so many bytes behind its head, where the cell is occupied.
fn mark_cell(marks: &mut Marks, cell: &[u8], stored: usize)
    requires { 1 + stored ≤ length cell.now }
    ensures own { is_occupied (slice_index cell.now 0) ≡ true → IsMarked marks.new.words.items (take stored (drop 1 cell.now)) }
    ensures others { (other : List ℕ) → IsMarked marks.old.words.items other → IsMarked marks.new.words.items other }
{
    if cell[0] % 2 == 1 {
        mark(marks, &cell[1..1 + stored]);
    }
}

/// Marks of the keys of all occupied cells, each in so many bytes behind its head.
pub fn marks_of(alloc: Global, cells: &Runs, stored: usize) -> Result<Marks, AllocError>
    requires { 1 + stored ≤ cells.now.size }
    ensures { IfOk result (λ marks. AreMarked cells.now stored cells.now.count marks.words.items) }
{
    let count = (cells.count / 8 + 1).min(MOST);
    let words = vec![in alloc; 0; count]?;
    let mut marks = Marks { words };
    for at in 0..cells.count {
        mark_cell(&mut marks, run_at(cells, at), stored);
    }
    Ok(marks)
}
