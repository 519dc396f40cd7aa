//! Rows of a ternary part in vectors of bits, and the first row that a key has.

ghost use Rattle.std.specs.Prelude.{◌≡◌, ◌≤◌, ◌+◌, ◌*◌, ◌^◌, vec_len};

use crate::row_bits::{nibble, set_row, set_seen};
use crate::rows_left::{SIDE, first_bit, is_zero, keep};
use std::alloc::{AllocError, Global};

/// Rows of a ternary part, of which some may be missing. For each nibble of a key and each of its
/// 16 values stands a vector with a bit for each row, which is set where the value leaves the row;
/// the last three vectors, one for each sight, have the rows that the sight shows. Under a sight a key
/// has the rows whose bits are set in the vectors of all its nibbles and in that of the sight.
///
/// A look-up takes at most one step for a nibble and 512 rows, whatever the masks, each step being that
/// of eight words side by side: 20,000 rows are 40 runs of 512. A run ends where none of its rows is left
/// after 40 bits of the key. A row that is put takes 16 steps for a nibble. The memory is 20 bytes a row
/// for each word of 40 bits of a key, and three bits; rows are counted up to a multiple of 64.
#[derive(Drop)]
pub struct Sliced {
    /// How many words of 40 bits a key has.
    pub words: usize,
    /// How many words of 64 bits a vector has.
    pub width: usize,
    /// The vectors one behind another: that of value v of nibble n is the one numbered 16 n + v.
    pub bits: Vec<u64>,
    pub ghost few: { words ≤ 16 },
    pub ghost few_rows: { width ≤ 2 ^ 26 },
    pub ghost all: { vec_len bits ≡ (160 * words + 3) * width },
}

impl Sliced {
    ghost use Rattle.std.specs.Prelude.{◌<◌, ℕ, List, length, Option, Some, None, replicate, slice_index, IfOk, IfSome, ◌/◌, if◌then◌else◌};
    ghost use Rattle.std.specs.Int.{bit_at};
    ghost use Rattle.rmt_bits.specs.Grouping.{Compared};
    ghost use Rattle.rmt_memory.specs.Searching.{FirstIn};
    ghost use Rattle.rmt_memory.specs.Sights.{seen_by};
    ghost use Rattle.rmt_memory.specs.Slicing.{nibble as nibble_of, HasRow, RowFits, RowSet, StandsFor, IsOn, OnIn};

    /// No row is there, of some, where a key has that many words of 40 bits.
    pub fn new(alloc: Global, rows: usize, words: usize) -> Result<Sliced, AllocError>
        requires few { rows < 2 ^ 32 }
        requires words { words ≤ 16 }
        ensures words { IfOk result (λ sliced. sliced.words ≡ words) }
        ensures width { IfOk result (λ sliced. sliced.width ≡ (rows + 63) / 64) }
        ensures stands { IfOk result (λ sliced. (sight : ℕ) → sight < 3 → StandsFor sight (replicate rows None) sliced) }
    {
        let width = (rows + 63) / 64;
        let bits = vec![in alloc; 0; (160 * words + 3) * width]?;
        Ok(Sliced { words, width, bits })
    }

    /// Puts a row that compares these bits, whatever was there, and that sights show by its head. It takes
    /// no memory.
    pub fn put(&mut self, row: usize, head: u8, masks: &[u128], values: &[u128])
        requires row { row < 64 * self.old.width }
        requires fits { RowFits self.old.words (record { masks = masks.now; values = values.now }) }
        ensures { RowSet row (λ sight. if seen_by sight head then Some (record { masks = masks.now; values = values.now }) else None) self.old self.new }
    {
        let (words, width) = (self.words, self.width);
        let bits = self.bits.as_mut_slice();
        set_row(bits, words, width, row, masks, values);
        set_seen(bits, words, width, row, head);
    }

    /// Takes a row away from every sight. It takes no memory.
    pub fn hide(&mut self, row: usize)
        requires row { row < 64 * self.old.width }
        ensures { RowSet row (λ sight. None) self.old self.new }
    {
        let (words, width) = (self.words, self.width);
        set_seen(self.bits.as_mut_slice(), words, width, row, 0);
    }

    /// Of 64 rows those that a sight shows and that are left by the nibbles whose vectors begin at some words.
    fn left(&self, sight: u8, vectors: &[usize], at: usize) -> u64
        requires sight { sight < 3 }
        requires at { at < self.now.width }
        requires all { length vectors.now ≡ 160 }
        requires within { (n : ℕ) → n < 10 * self.now.words → slice_index vectors.now n + self.now.width ≤ vec_len self.now.bits }
        ensures on { (j : ℕ) → bit_at result j ≡ 1 → IsOn self.now sight vectors.now (10 * self.now.words) at j }
        ensures all { (j : ℕ) → IsOn self.now sight vectors.now (10 * self.now.words) at j → bit_at result j ≡ 1 }
    {
        let mut left = self.bits[(160 * self.words + sight as usize) * self.width + at];
        for nibble in 0..10 * self.words {
            if left == 0 {
                return 0;
            }
            left &= self.bits[vectors[nibble] + at];
        }
        left
    }

    /// Of eight words of 64 rows each those rows that a sight shows and that are left by the nibbles whose
    /// vectors begin at some words.
    fn left_of_eight(&self, sight: u8, vectors: &[usize], at: usize) -> [u64; SIDE]
        requires sight { sight < 3 }
        requires at { at + 8 ≤ self.now.width }
        requires all { length vectors.now ≡ 160 }
        requires within { (n : ℕ) → n < 10 * self.now.words → slice_index vectors.now n + self.now.width ≤ vec_len self.now.bits }
        ensures on { (k j : ℕ) → k < 8 → bit_at (slice_index result k) j ≡ 1 → IsOn self.now sight vectors.now (10 * self.now.words) (at + k) j }
        ensures all { (k j : ℕ) → k < 8 → IsOn self.now sight vectors.now (10 * self.now.words) (at + k) j → bit_at (slice_index result k) j ≡ 1 }
    {
        let mut left = [0; SIDE];
        let from = (160 * self.words + sight as usize) * self.width + at;
        left.copy_from_slice(&self.bits[from..from + SIDE]);
        for nibble in 0..10 * self.words {
            if nibble % 10 == 0 && is_zero(&left) {
                return left;
            }
            let from = vectors[nibble] + at;
            keep(&mut left, &self.bits[from..from + SIDE]);
        }
        left
    }

    /// The first row among those in whole runs of eight words that a sight shows and that is left by the
    /// nibbles whose vectors begin at some words.
    fn first_in_runs(&self, sight: u8, vectors: &[usize]) -> Option<usize>
        requires sight { sight < 3 }
        requires all { length vectors.now ≡ 160 }
        requires within { (n : ℕ) → n < 10 * self.now.words → slice_index vectors.now n + self.now.width ≤ vec_len self.now.bits }
        ensures { FirstIn (OnIn self.now sight vectors.now) 0 (512 * (self.now.width / 8)) result }
    {
        for run in 0..self.width / SIDE {
            let left = self.left_of_eight(sight, vectors, SIDE * run);
            if let Some(row) = first_bit(&left) {
                return Some(64 * SIDE * run + row);
            }
        }
        None
    }

    /// The first row that a sight shows and that is left by the nibbles whose vectors begin at some words.
    fn first_left(&self, sight: u8, vectors: &[usize]) -> Option<usize>
        requires sight { sight < 3 }
        requires all { length vectors.now ≡ 160 }
        requires within { (n : ℕ) → n < 10 * self.now.words → slice_index vectors.now n + self.now.width ≤ vec_len self.now.bits }
        ensures { FirstIn (OnIn self.now sight vectors.now) 0 (64 * self.now.width) result }
    {
        if let Some(row) = self.first_in_runs(sight, vectors) {
            return Some(row);
        }
        for at in SIDE * (self.width / SIDE)..self.width {
            let left = self.left(sight, vectors, at);
            if left != 0 {
                return Some(64 * at + left.trailing_zeros() as usize);
            }
        }
        None
    }

    /// Where the vectors of the nibbles of a key begin.
    fn vectors_of(&self, key: &[u128]) -> [usize; 160]
        requires { self.now.words ≤ length key.now }
        ensures starts { (n : ℕ) → n < 10 * self.now.words → slice_index result n ≡ (16 * n + nibble_of key.now n) * self.now.width }
        ensures within { (n : ℕ) → n < 10 * self.now.words → slice_index result n + self.now.width ≤ vec_len self.now.bits }
    {
        let mut vectors = [0; 160];
        for at in 0..10 * self.words {
            vectors[at] = (16 * at + nibble(key, at)) * self.width;
        }
        vectors
    }

    /// The first row that a sight shows and that equals a key on the bits that it compares.
    pub fn first(&self, sight: u8, key: &[u128]) -> Option<usize>
        requires sight { sight < 3 }
        requires words { self.now.words ≤ length key.now }
        ensures within { IfSome result (λ i. i < 64 * self.now.width) }
        ensures first { (rows : List (Option Compared)) → StandsFor sight rows self.now → FirstIn (HasRow key.now rows) 0 (length rows) result }
    {
        let vectors = self.vectors_of(key);
        self.first_left(sight, &vectors)
    }
}
