//! The rows of a ternary part in vectors of bits, and the first that has a key.

ghost use Rattle.std.specs.Prelude.{◌≡◌, ℕ, ◌+◌, ◌*◌, ◌/◌, ◌%◌, ◌^◌, ◌<◌, ◌≤◌, List, length, map, All, IfOk, Option, Some, None, IfSome, if◌then◌else◌};
ghost use Rattle.std.specs.List.{range_with_len};
ghost use Rattle.rmt_bits.specs.Bits.{slice as slice_of, number_of};
ghost use Rattle.rmt_config.specs.Cells.{tcam_row};
ghost use Rattle.rmt_memory.specs.Types.{CellNumber, TcamRow};
ghost use Rattle.rmt_config.specs.PrefixRow.{PrefixRows};
ghost use Rattle.rmt_bits.specs.Grouping.{Compared};
ghost use Rattle.rmt_memory.specs.KeyWords.{words_of, words_of_key};
ghost use Rattle.rmt_memory.specs.Searching.{FirstIn};
ghost use Rattle.rmt_memory.specs.Slicing.{HasRow, RowFits, RowSet, StandsFor};
ghost use Rattle.rmt_memory.specs.Sights.{seen_by};
ghost use Rattle.rmt_memory.specs.Comparing.{compared_at, ShowsListed};

use crate::runs::{Runs, run_at};
use crate::sliced::Sliced;
use rmt_bits::bits::bits_of_bytes;
use rmt_config::config::{CellNumber, TcamRow};
use rmt_config::form::names::key_bytes::piece_at;
use rmt_config::form::tcam::row_compared;
use std::alloc::{AllocError, Global};

/// What a row of some blocks side by side compares: in each block these bits, and what they must be.
#[derive(Drop)]
struct Compares {
    masks: Vec<u128>,
    values: Vec<u128>,
}

/// What each of some blocks compares in a row.
fn row_compares(
    alloc: Global,
    rows: &[TcamRow],
    blocks: &[u8],
    row: u64,
) -> Result<Compares, AllocError>
    requires rows { PrefixRows rows.now }
    requires row { row < 2048 }
    ensures masks { IfOk result (λ bits. bits.masks.items ≡ map (λ b. tcam_row (λ (t : TcamRow). t.mask) rows.now b row) blocks.now) }
    ensures values { IfOk result (λ bits. bits.values.items ≡ map (λ b. tcam_row (λ (t : TcamRow). t.value) rows.now b row) blocks.now) }
{
    let mut masks = Vec::with_capacity(alloc, blocks.len())?;
    let mut values = Vec::with_capacity(alloc, blocks.len())?;
    let mut near = 0;
    for block in blocks {
        let bits = row_compared(rows, *block, row, &mut near);
        masks.push(u128::from(bits.mask))?;
        values.push(u128::from(bits.value))?;
    }
    Ok(Compares { masks, values })
}

/// The listed rows of a part in vectors, each with its head, where a key takes `side` blocks. The vectors
/// have a bit for each of `count` rows; one that isn't listed is missing.
pub fn sliced_of(
    alloc: Global,
    rows: &[TcamRow],
    blocks: &[u8],
    side: u64,
    numbers: &[CellNumber],
    heads: &Runs,
    count: usize,
) -> Result<Sliced, AllocError>
    requires rows { PrefixRows rows.now }
    requires side { side ≤ 16 }
    requires few { count < 2 ^ 32 }
    requires heads { heads.now.count ≡ length numbers.now }
    requires head_size { heads.now.size ≡ 1 }
    requires inside { All (λ (n : CellNumber). n.cell < count) numbers.now }
    requires cells { All (λ (n : CellNumber). (n.cell / 2048 + 1) * side ≤ length blocks.now) numbers.now }
    requires fit { All (λ (n : CellNumber). RowFits side (compared_at rows.now blocks.now side n.cell)) numbers.now }
    ensures words { IfOk result (λ sliced. sliced.words ≡ side) }
    ensures width { IfOk result (λ sliced. sliced.width ≡ (count + 63) / 64) }
    ensures stands { IfOk result (λ sliced. (shown : ℕ → Option Compared) (sight : ℕ) → sight < 3 → ShowsListed sight count rows.now blocks.now side numbers.now heads.now shown →
        StandsFor sight (map shown (range_with_len 0 count)) sliced) }
{
    let mut sliced = Sliced::new(alloc, count, side as usize)?;
    for at in 0..numbers.len() {
        let cell = numbers[at].cell as u64;
        let unit = piece_at(blocks, side, cell / 2048);
        let bits = row_compares(alloc, rows, unit, cell % 2048)?;
        let head = run_at(heads, at)[0];
        sliced.put(cell as usize, head, &bits.masks, &bits.values);
    }
    Ok(sliced)
}

/// The 40 bits of a key from one on.
fn word_at(key: &[u8], low: u32) -> u128
    requires short { length key.now ≤ 80 }
    requires low { low < 640 }
    ensures { result ≡ slice_of (number_of key.now) low 40 }
{
    let bits = 8 * key.len() as u32;
    if bits <= low {
        return 0;
    }
    let len = (bits - low).min(40);
    bits_of_bytes(key, bits - low - len, len as u8)
}

/// A key in 16 words of 40 bits, the lowest first.
fn key_words(key: &[u8]) -> [u128; 16]
    requires { length key.now ≤ 80 }
    ensures { result ≡ words_of_key (number_of key.now) }
{
    let mut words = [0; 16];
    for at in 0..16 {
        words[at] = word_at(key, 40 * at as u32);
    }
    words
}

/// Puts a row that compares the bits of a mask, and that sights show by its head. It takes no memory.
pub fn put_row(sliced: &mut Sliced, row: usize, head: u8, key: &[u8], mask: &[u8])
    requires row { row < 64 * sliced.old.width }
    requires key { length key.now ≤ 80 }
    requires mask { length mask.now ≤ 80 }
    ensures { RowSet row (λ sight. if seen_by sight head then Some (record { masks = words_of sliced.old.words (number_of mask.now); values = words_of sliced.old.words (number_of key.now) }) else None) sliced.old sliced.new }
{
    let (masks, values) = (key_words(mask), key_words(key));
    let words = sliced.words;
    sliced.put(row, head, &masks[..words], &values[..words]);
}

/// The first row that a sight shows and that has a key.
pub fn first_row(sliced: &Sliced, sight: u8, key: &[u8]) -> Option<usize>
    requires sight { sight < 3 }
    requires key { length key.now ≤ 80 }
    ensures within { IfSome result (λ i. i < 64 * sliced.now.width) }
    ensures first { (rows : List (Option Compared)) → StandsFor sight rows sliced.now → FirstIn (HasRow (words_of_key (number_of key.now)) rows) 0 (length rows) result }
{
    let words = key_words(key);
    sliced.first(sight, &words)
}
