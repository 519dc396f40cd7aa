//! Tests and arguments of entries side by side, as bytes.

ghost use Rattle.std.specs.Prelude.{◌≡◌, slice_index, ℕ, ◌+◌, ◌*◌, ◌<◌, ◌≤◌, ◌^◌, All, IfOk, length, replicate, sum};
ghost use Rattle.std.specs.List.{AllZip};
ghost use Rattle.rmt_bits.specs.Bits.{bytes_of, number_of};
ghost use Rattle.rmt_ast.specs.WellFormed.{Fits, IsTest};
ghost use Rattle.rmt_config.specs.BlockCounts.{divided_up};
ghost use Rattle.rmt_config.specs.Rooms.{args_as_one, mask_or_value, tests_as_one};

use crate::format::divide_up;
use crate::need::sum_of;
use rmt_ast::program::Test;
use rmt_bits::bits::bytes_of_bits;
use std::alloc::{AllocError, Global};

/// As many bytes, all 0, as hold so many bits. The only fault is want of memory.
fn bytes_for(alloc: Global, bits: u32) -> Result<Vec<u8>, AllocError>
    requires { bits < 65536 }
    ensures { IfOk result (λ bytes. bytes.items ≡ replicate (divided_up bits 8) 0) }
{
    vec![in alloc; 0; divide_up(bits, 8) as usize]
}

/// The mask of a test, or its value.
fn part_of(mask: bool, test: &Test) -> u128
    ensures { result ≡ mask_or_value mask test.now }
{
    if mask { test.mask } else { test.value }
}

/// Puts the values, or the masks, of tests of these widths side by side into bytes that are 0, from a bit on to the last.
fn put_tests(bytes: &mut [u8], first: u32, widths: &[u8], tests: &[Test], mask: bool)
    requires few { length bytes.old < 2 ^ 16 }
    requires zero { number_of bytes.old ≡ 0 }
    requires room { first + sum widths.now ≡ 8 * length bytes.old }
    requires narrow { All (λ w. w ≤ 128) widths.now }
    requires tests { AllZip IsTest widths.now tests.now }
    ensures number { number_of bytes.new ≡ tests_as_one (mask_or_value mask) widths.now tests.now }
    ensures bytes { (k : ℕ) → slice_index bytes.new k < 2 ^ 8 }
{
    let mut from = first;
    for (at, test) in tests.iter().enumerate() {
        bytes_of_bits(part_of(mask, test), widths[at], bytes, from);
        from += widths[at] as u32;
    }
}

/// The values, or the masks, of tests of these widths side by side, the first highest, as the lowest bits of bytes.
/// The only fault is want of memory.
pub fn tests_bytes(
    alloc: Global,
    widths: &[u8],
    tests: &[Test],
    mask: bool,
) -> Result<Vec<u8>, AllocError>
    requires tests { AllZip IsTest widths.now tests.now }
    requires narrow { All (λ w. w ≤ 128) widths.now }
    requires few { sum widths.now ≤ 640 }
    ensures long { IfOk result (λ bytes. length bytes.items ≡ divided_up (sum widths.now) 8) }
    ensures number { IfOk result (λ bytes. number_of bytes.items ≡ tests_as_one (mask_or_value mask) widths.now tests.now) }
    ensures bytes { IfOk result (λ bytes. bytes.items ≡
        bytes_of (divided_up (sum widths.now) 8) (tests_as_one (mask_or_value mask) widths.now tests.now)) }
{
    let bits = sum_of(widths);
    let mut bytes = bytes_for(alloc, bits)?;
    put_tests(
        &mut bytes,
        divide_up(bits, 8) * 8 - bits,
        widths,
        tests,
        mask,
    );
    Ok(bytes)
}

/// Puts arguments of these widths side by side into bytes that are 0, the first from bit `low` upward.
fn put_args(bytes: &mut [u8], low: u32, widths: &[u8], args: &[u128])
    requires few { length bytes.old < 2 ^ 16 }
    requires zero { number_of bytes.old ≡ 0 }
    requires room { low + sum widths.now ≤ 8 * length bytes.old }
    requires widths { All (λ w. w ≤ 128) widths.now }
    requires fit { AllZip Fits widths.now args.now }
    ensures { number_of bytes.new ≡ 2 ^ low * args_as_one widths.now args.now }
{
    let mut above = bytes.len() as u32 * 8 - low;
    for at in 0..widths.len() {
        above -= widths[at] as u32;
        bytes_of_bits(args[at], widths[at], bytes, above);
    }
}

/// Arguments of these widths side by side in so many bits as bytes, the first from bit `low` upward. The only fault is
/// want of memory.
pub fn args_bytes(
    alloc: Global,
    bits: u32,
    low: u32,
    widths: &[u8],
    args: &[u128],
) -> Result<Vec<u8>, AllocError>
    requires args { AllZip Fits widths.now args.now }
    requires narrow { All (λ w. w ≤ 128) widths.now }
    requires few { bits < 65536 }
    requires room { low + sum widths.now ≤ bits }
    ensures long { IfOk result (λ bytes. length bytes.items ≡ divided_up bits 8) }
    ensures number { IfOk result (λ bytes. number_of bytes.items ≡ 2 ^ low * args_as_one widths.now args.now) }
{
    let mut bytes = bytes_for(alloc, bits)?;
    put_args(&mut bytes, low, widths, args);
    Ok(bytes)
}
