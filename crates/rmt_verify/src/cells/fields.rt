//! Numbers that are read as bytes, against values side by side.

ghost use Rattle.std.specs.Prelude.{◌≡◌, ◌↔◌, ◌*◌, ◌<◌, ◌≤◌, ◌^◌, All, IsTrue, length, sum};
ghost use Rattle.std.specs.List.{AllZip};
ghost use Rattle.rmt_bits.specs.Bits.{number_of};
ghost use Rattle.rmt_ast.specs.WellFormed.{Fits, IsTest};
ghost use Rattle.rmt_config.specs.Effects.{HasArguments};
ghost use Rattle.rmt_config.specs.Rooms.{mask_or_value, tests_as_one};

use rmt_ast::program::Test;
use rmt_bits::bits::bits_of_bytes;

/// The sum of some widths.
fn width_sum(widths: &[u8]) -> u32
    requires { sum widths.now < 2 ^ 32 }
    ensures { result ≡ sum widths.now }
{
    widths.iter().map(|width| *width as u32).sum()
}

/// The mask of a test, or its value.
fn part_of(mask: bool, test: &Test) -> u128
    ensures { result ≡ mask_or_value mask test.now }
{
    if mask { test.mask } else { test.value }
}

/// Whether bytes are the values, or the masks, of tests of these widths side by side, the first highest.
pub fn are_tests(bytes: &[u8], widths: &[u8], tests: &[Test], mask: bool) -> bool
    requires tests { AllZip IsTest widths.now tests.now }
    requires narrow { All (λ w. w ≤ 128) widths.now }
    requires few { length bytes.now < 2 ^ 16 }
    requires room { sum widths.now ≤ 8 * length bytes.now }
    requires small { number_of bytes.now < 2 ^ sum widths.now }
    ensures { IsTrue result ↔ number_of bytes.now ≡ tests_as_one (mask_or_value mask) widths.now tests.now }
{
    let mut from = 8 * bytes.len() as u32 - width_sum(widths);
    for (at, test) in tests.iter().enumerate() {
        if bits_of_bytes(bytes, from, widths[at]) != part_of(mask, test) {
            return false;
        }
        from += widths[at] as u32;
    }
    true
}

/// Whether bytes have arguments of these widths, the first from the last bit upward.
pub fn are_arguments(bytes: &[u8], widths: &[u8], args: &[u128]) -> bool
    requires args { AllZip Fits widths.now args.now }
    requires narrow { All (λ w. w ≤ 128) widths.now }
    requires few { length bytes.now < 2 ^ 16 }
    requires room { sum widths.now ≤ 8 * length bytes.now }
    ensures { IsTrue result ↔ HasArguments widths.now args.now (number_of bytes.now) }
{
    let mut above = 8 * bytes.len() as u32;
    for (at, width) in widths.iter().enumerate() {
        above -= *width as u32;
        if bits_of_bytes(bytes, above, *width) != args[at] {
            return false;
        }
    }
    true
}
