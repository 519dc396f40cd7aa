//! Rows of TCAM.

ghost use Rattle.std.specs.Prelude.{◌≡◌, ℕ, ◌+◌, ◌*◌, ◌<◌, ◌≤◌, ◌^◌, ◌↔◌, List, length, map, sum, All, IfOk, OnOk};
ghost use Rattle.std.specs.List.{AllZip};
ghost use Rattle.rmt_ast.specs.declared.program.Test.{Test};
ghost use Rattle.rmt_ast.specs.WellFormed.{Fits, IsTest};
ghost use Rattle.rmt_pack.specs.declared.tcam.TcamWord.{TcamWord};
ghost use Rattle.rmt_config.specs.Rooms.{side_by_side};
ghost use Rattle.rmt_pack.specs.Tcam.{Holds, IsWords, FillsRow, MatchesKey, Passes};

use crate::fault::PackFault;
use rmt_ast::program::Test;
use rmt_bits::answer::Bytes;
use rmt_bits::sequence::Sequence;
use std::alloc::{AllocError, Global};

/// What one TCAM block holds in a row.
#[derive(Clone, Copy, Debug, PartialEq, Eq)]
pub struct TcamWord {
    /// What a key must be on the bits of the mask, 40 bits.
    pub value: u64,
    /// The bits of a key that are compared, 40 bits.
    pub mask: u64,
}

/// Bits that are gathered from the lowest up: whole words of 40, and the rest.
#[derive(Drop)]
struct Bits {
    /// The whole words, the first lowest.
    words: Sequence<u64>,
    /// The bits above them.
    rest: u64,
    /// How many these are, below 40.
    filled: u8,
}

impl Bits {
    /// No bits.
    fn new(alloc: Global) -> Bits
        ensures { Holds result 0 0 }
    {
        Bits {
            words: Sequence::new(alloc),
            rest: 0,
            filled: 0,
        }
    }

    /// Adds a piece that doesn't pass the word.
    fn add_piece(&mut self, piece: u64, len: u8) -> Result<(), AllocError>
        requires piece { piece < 2 ^ len }
        requires rest { self.old.rest < 2 ^ self.old.filled }
        requires room { self.old.filled + len ≤ 40 }
        ensures holds { OnOk result ((n bits : ℕ) → Holds self.old n bits → Holds self.new (piece * 2 ^ bits + n) (bits + len)) }
        ensures rest { OnOk result (self.new.rest < 2 ^ self.new.filled) }
        ensures filled { OnOk result (self.new.filled < 40) }
    {
        self.rest += piece << self.filled;
        self.filled += len;
        if self.filled == 40 {
            self.words.push(self.rest)?;
            self.rest = 0;
            self.filled = 0;
        }
        Ok(())
    }

    /// Adds a number of so many bits.
    fn add(&mut self, value: u128, bits: u8) -> Result<(), AllocError>
        requires value { value < 2 ^ bits }
        requires bits { bits ≤ 128 }
        requires rest { self.old.rest < 2 ^ self.old.filled }
        requires filled { self.old.filled < 40 }
        ensures holds { OnOk result ((n count : ℕ) → Holds self.old n count → Holds self.new (value * 2 ^ count + n) (count + bits)) }
        ensures rest { OnOk result (self.new.rest < 2 ^ self.new.filled) }
        ensures filled { OnOk result (self.new.filled < 40) }
    {
        let mut left = bits;
        let mut above = value;
        while left > 0 {
            let len = left.min(40 - self.filled);
            let piece = (above % (1 << len)) as u64;
            self.add_piece(piece, len)?;
            above >>= len;
            left -= len;
        }
        Ok(())
    }

    /// The words of the bits, the last one filled up with zeros.
    fn into_words(self) -> Result<Sequence<u64>, AllocError>
        ensures { IfOk result (λ words. (n bits : ℕ) → Holds self n bits → IsWords words n bits) }
    {
        let Bits {
            mut words,
            rest,
            filled,
        } = self;
        if filled > 0 {
            words.push(rest)?;
        }
        Ok(words)
    }
}

/// Numbers of these widths, side by side in words of 40 bits, the first number highest and the first word lowest.
fn side_words(alloc: Global, values: &[u128], widths: &[u8]) -> Result<Sequence<u64>, AllocError>
    requires fit { AllZip Fits widths.now values.now }
    requires widths { All (λ w. w ≤ 128) widths.now }
    ensures { IfOk result (λ words. IsWords words (side_by_side widths.now values.now) (sum widths.now)) }
{
    let mut gathered = Bits::new(alloc);
    let mut at = widths.len();
    while at > 0 {
        at -= 1;
        gathered.add(values[at], widths[at])?;
    }
    gathered.into_words()
}

/// The values of tests.
fn values_of(alloc: Global, tests: &[Test]) -> Result<Vec<u128>, AllocError>
    ensures { IfOk result (λ values. values.items ≡ map (λ (t : Test). t.value) tests.now) }
{
    tests.iter().map(|test| test.value).collect(alloc)
}

/// The masks of tests.
fn masks_of(alloc: Global, tests: &[Test]) -> Result<Vec<u128>, AllocError>
    ensures { IfOk result (λ masks. masks.items ≡ map (λ (t : Test). t.mask) tests.now) }
{
    tests.iter().map(|test| test.mask).collect(alloc)
}

/// Words of values with those of masks.
fn with_masks(
    alloc: Global,
    values: &[u64],
    masks: &[u64],
) -> Result<Sequence<TcamWord>, AllocError>
    requires { length values.now ≡ length masks.now }
    ensures values { IfOk result (λ row. map (λ (w : TcamWord). w.value) row ≡ values.now) }
    ensures masks { IfOk result (λ row. map (λ (w : TcamWord). w.mask) row ≡ masks.now) }
{
    let mut row = Sequence::new(alloc);
    for at in 0..values.len() {
        row.push(TcamWord {
            value: values[at],
            mask: masks[at],
        })?;
    }
    Ok(row)
}

/// What the TCAM blocks of an entry hold in its row, the lowest 40 bits of the key first.
///
/// There is a test for each field of the key, and the key is the fields' values side by side, the first field highest.
/// Bits past the key are 0 in value and mask.
///
/// # Errors
///
/// For want of memory alone.
pub fn tcam_row(
    alloc: Global,
    tests: &Sequence<Test>,
    widths: &Bytes,
) -> Result<Sequence<TcamWord>, PackFault>
    requires tests { AllZip IsTest widths.now tests.now }
    requires widths { All (λ w. w ≤ 128) widths.now }
    // As many words as the key takes blocks, each of 40 bits, which together are the tests' values and masks.
    ensures values { IfOk result (λ row. IsWords (map (λ (w : TcamWord). w.value) row)
        (side_by_side widths.now (map (λ (t : Test). t.value) tests.now)) (sum widths.now)) }
    ensures masks { IfOk result (λ row. IsWords (map (λ (w : TcamWord). w.mask) row)
        (side_by_side widths.now (map (λ (t : Test). t.mask) tests.now)) (sum widths.now)) }
    // Blocks with these words in a row have the tests' values and masks there.
    ensures value_row { IfOk result (λ row. FillsRow (map (λ (w : TcamWord). w.value) row)
        (side_by_side widths.now (map (λ (t : Test). t.value) tests.now))) }
    ensures mask_row { IfOk result (λ row. FillsRow (map (λ (w : TcamWord). w.mask) row)
        (side_by_side widths.now (map (λ (t : Test). t.mask) tests.now))) }
    // The row matches a key exactly where each of its values passes its test.
    ensures matches { IfOk result (λ row. (key : List ℕ) → AllZip Fits widths.now key →
        MatchesKey row (side_by_side widths.now key) ↔ AllZip Passes tests.now key) }
{
    let tests = tests.as_slice();
    let values = values_of(alloc, tests)?;
    let masks = masks_of(alloc, tests)?;
    let values = side_words(alloc, values.as_slice(), widths.as_slice())?;
    let masks = side_words(alloc, masks.as_slice(), widths.as_slice())?;
    let row = with_masks(alloc, values.as_slice(), masks.as_slice())?;
    Ok(row)
}
