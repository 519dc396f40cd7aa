//! The bits of rows in vectors of bits that stand one behind another, 64 rows to a word.

ghost use Rattle.std.specs.Prelude.{◌≡◌, ◌≢◌, ◌≤◌, ◌<◌, ◌+◌, ◌*◌, ◌==◌, ℕ, false, length, bit_and};
ghost use Rattle.std.specs.Int.{bit_at};
ghost use Rattle.rmt_memory.specs.Sights.{seen_by};
ghost use Rattle.rmt_memory.specs.Slicing.{nibble as nibble_of, leaves as leaves_of, bit_if, bit_in};

use crate::sight::is_seen;
use rmt_bits::bits::slice;

/// A nibble of a number in words of 40 bits, the lowest first.
pub fn nibble(words: &[u128], at: usize) -> usize
    requires { at < 10 * length words.now }
    ensures value { result ≡ nibble_of words.now at }
    ensures small { result < 16 }
{
    slice(words[at / 10], 4 * (at % 10) as u8, 4) as usize
}

/// A word in which one bit is what it is to be.
fn with_bit(word: u64, bit: usize, on: bool) -> u64
    requires { bit < 64 }
    ensures set { bit_at result bit ≡ bit_if on }
    ensures others { (i : ℕ) → i < 64 → i ≢ bit → bit_at result i ≡ bit_at word i }
{
    if on {
        word | 1 << bit
    } else {
        word & !(1 << bit)
    }
}

/// Whether the bit of a row is set in the first vector.
pub fn has_bit(bits: &[u64], width: usize, row: usize) -> bool
    requires row { row < 64 * width }
    requires width { width ≤ length bits.now }
    ensures { result ≡ false → bit_in bits.now width 0 row ≡ 1 → ⊥ }
{
    (bits[row / 64] >> (row % 64)) % 2 == 1
}

/// Sets the bit of a row in a vector.
pub fn set_bit(bits: &mut [u64], width: usize, vector: usize, row: usize, on: bool)
    requires row { row < 64 * width }
    requires vector { (vector + 1) * width ≤ length bits.old }
    ensures size { length bits.new ≡ length bits.old }
    ensures set { bit_in bits.new width vector row ≡ bit_if on }
    ensures others { (v r : ℕ) → r < 64 * width → (v ≡ vector → r ≢ row) → bit_in bits.new width v r ≡ bit_in bits.old width v r }
{
    let at = vector * width + row / 64;
    bits[at] = with_bit(bits[at], row % 64, on);
}

/// Sets the bits of a row in the 16 vectors of a nibble, of which it compares some bits.
fn set_nibble(bits: &mut [u64], width: usize, row: usize, at: usize, mask: usize, value: usize)
    requires row { row < 64 * width }
    requires within { (16 * at + 16) * width ≤ length bits.old }
    ensures size { length bits.new ≡ length bits.old }
    ensures set { (x : ℕ) → x < 16 → bit_in bits.new width (16 * at + x) row ≡ bit_if (bit_and x mask == value) }
    ensures others { (v r : ℕ) → r < 64 * width → (16 * at ≤ v → v < 16 * at + 16 → r ≢ row) → bit_in bits.new width v r ≡ bit_in bits.old width v r }
{
    for x in 0..16 {
        set_bit(bits, width, 16 * at + x, row, x & mask == value);
    }
}

/// Sets the bits of a row in the last three vectors, one for each sight, by the head of its cell.
pub fn set_seen(bits: &mut [u64], words: usize, width: usize, row: usize, head: u8)
    requires row { row < 64 * width }
    requires few { words ≤ 16 }
    requires all { length bits.old ≡ (160 * words + 3) * width }
    ensures size { length bits.new ≡ length bits.old }
    ensures seen { (sight : ℕ) → sight < 3 → bit_in bits.new width (160 * words + sight) row ≡ bit_if (seen_by sight head) }
    ensures others { (v r : ℕ) → r < 64 * width → (160 * words ≤ v → r ≢ row) → bit_in bits.new width v r ≡ bit_in bits.old width v r }
{
    for sight in 0..3u8 {
        set_bit(
            bits,
            width,
            160 * words + sight as usize,
            row,
            is_seen(head, sight),
        );
    }
}

/// Sets the bits of a row in all vectors but the last three.
pub fn set_row(
    bits: &mut [u64],
    words: usize,
    width: usize,
    row: usize,
    masks: &[u128],
    values: &[u128],
)
    requires row { row < 64 * width }
    requires few { words ≤ 16 }
    requires all { length bits.old ≡ (160 * words + 3) * width }
    requires masks { length masks.now ≡ words }
    requires values { length values.now ≡ words }
    ensures size { length bits.new ≡ length bits.old }
    ensures leaves { (v : ℕ) → v < 160 * words → bit_in bits.new width v row ≡ bit_if (leaves_of (record { masks = masks.now; values = values.now }) v) }
    ensures others { (v r : ℕ) → r < 64 * width → r ≢ row → bit_in bits.new width v r ≡ bit_in bits.old width v r }
{
    for at in 0..10 * words {
        let mask = nibble(masks, at);
        let value = nibble(values, at);
        set_nibble(bits, width, row, at, mask, value);
    }
}
