//! The rules on the rows of a prefix table.

ghost use Rattle.std.specs.Prelude.{◌≡◌, ◌≤◌, IfOk, is_some};
ghost use Rattle.rmt_config.specs.NamesForm.{each_later, prefix_length};
ghost use Rattle.rmt_config.specs.PrefixRows.{have_lengths, length_in, row_goes_first, rows_keep, stand_once};

use crate::form::names::prefix_length::length_of;
use rmt_bits::bits::slice;
use std::alloc::{AllocError, Global};
use std::collections::BTreeSet;

/// A row of a prefix table: its key and mask, and the number of its entry.
#[derive(Clone, Copy)]
pub struct Row {
    pub key: u128,
    pub mask: u128,
    pub number: u32,
}

/// Whether a mask is some of the highest bits, or none.
fn has_length(bits: u8, mask: u128) -> bool
    requires { bits ≤ 128 }
    ensures { result ≡ is_some (prefix_length bits mask) }
{
    length_of(bits, mask).is_some()
}

/// Whether the mask of each row is some of the highest bits, or none. A mask is looked at anew where it differs from
/// that of the row before.
fn all_have_lengths(bits: u8, rows: &[Row]) -> bool
    requires { bits ≤ 128 }
    ensures { result ≡ have_lengths bits rows.now }
{
    let mut known = 0;
    for row in rows {
        if row.mask != known {
            if !has_length(bits, row.mask) {
                return false;
            }
            known = row.mask;
        }
    }
    true
}

/// The length of a row's prefix.
fn length_in(bits: u8, row: Row) -> u8
    requires { bits ≤ 128 }
    ensures { result ≡ length_in bits row }
{
    length_of(bits, row.mask).unwrap_or(0)
}

/// Whether a row goes before another.
fn goes_first(bits: u8, a: Row, b: Row) -> bool
    requires { bits ≤ 128 }
    ensures { result ≡ row_goes_first bits a b }
{
    if a.mask == b.mask {
        return a.number < b.number;
    }
    let length = length_in(bits, a);
    let other = length_in(bits, b);
    other < length || length == other && a.number < b.number
}

/// Whether each row goes before all later ones.
fn are_in_order(bits: u8, rows: &[Row]) -> bool
    requires { bits ≤ 128 }
    ensures { result ≡ each_later (row_goes_first bits) rows.now }
{
    for at in 0..rows.len() {
        if at + 1 < rows.len() && !goes_first(bits, rows[at], rows[at + 1]) {
            return false;
        }
    }
    true
}

/// Whether no prefix stands twice.
fn are_distinct(alloc: Global, bits: u8, rows: &[Row]) -> Result<bool, AllocError>
    requires { bits ≤ 128 }
    ensures { IfOk result (λ once. once ≡ stand_once bits rows.now) }
{
    let mut seen = BTreeSet::new(alloc);
    for row in rows {
        if !seen.insert((slice(row.key, 0, bits), slice(row.mask, 0, bits)))? {
            return Ok(false);
        }
    }
    Ok(true)
}

/// Whether rows keep the rules on those of a prefix table.
pub fn rows_fit(alloc: Global, bits: u8, rows: &[Row]) -> Result<bool, AllocError>
    requires { bits ≤ 128 }
    ensures { IfOk result (λ fit. fit ≡ rows_keep bits rows.now) }
{
    if !all_have_lengths(bits, rows) {
        return Ok(false);
    }
    if !are_in_order(bits, rows) {
        return Ok(false);
    }
    are_distinct(alloc, bits, rows)
}
