//! The layouts of exact and ternary parts.

ghost use Rattle.std.specs.Prelude.{◌≡◌, ℕ, ◌+◌, ◌*◌, ◌<◌, ◌≤◌};
ghost use Rattle.rmt_config.specs.Layouts.{exact_keys as exact_keys_of, exact_records as exact_records_of, ternary_keys as ternary_keys_of, ternary_records as ternary_records_of};

use crate::form::layout::{CellLayout, divided_up, record_width, records_a_row};

/// The entries of an exact part, with a key of `bits` bits, `per` of them in a row of units `width` blocks wide.
pub fn exact_keys(width: u8, per: u16, quanta: u8, bits: u64) -> CellLayout
    requires { bits ≤ 640 }
    ensures { result ≡ exact_keys_of width per quanta bits }
{
    CellLayout {
        bits: 112,
        rows: 1024,
        side: width as u64,
        entry: bits + 8,
        per: per as u64,
        units: 4,
        way: 1024 * per as u64,
        ways: 4,
        quanta: quanta as u64,
    }
}

/// The records of an exact part, of `held` bits.
pub fn exact_records(per: u16, quanta: u8, held: u16) -> CellLayout
    requires some { 0 < held }
    ensures { result ≡ exact_records_of per quanta held }
{
    let in_row = records_a_row(held as u64);
    CellLayout {
        bits: 112,
        rows: 1024,
        side: record_width(held as u64),
        entry: held as u64,
        per: in_row,
        units: divided_up(4 * per as u64, in_row),
        way: 1024 * per as u64,
        ways: 4,
        quanta: quanta as u64,
    }
}

/// The keys of a ternary part, of `bits` bits.
pub fn ternary_keys(quanta: u8, bits: u64) -> CellLayout
    requires { bits ≤ 640 }
    ensures { result ≡ ternary_keys_of quanta bits }
{
    CellLayout {
        bits: 40,
        rows: 2048,
        side: divided_up(bits, 40),
        entry: bits,
        per: 1,
        units: 1,
        way: 2048,
        ways: 1,
        quanta: quanta as u64,
    }
}

/// The records of a ternary part: a head of 8 bits, and `held` bits.
pub fn ternary_records(quanta: u8, held: u16) -> CellLayout
    ensures { result ≡ ternary_records_of quanta (held + 8) }
{
    let bits = held as u64 + 8;
    let in_row = records_a_row(bits);
    CellLayout {
        bits: 112,
        rows: 1024,
        side: record_width(bits),
        entry: bits,
        per: in_row,
        units: divided_up(2, in_row),
        way: 2048,
        ways: 1,
        quanta: quanta as u64,
    }
}
