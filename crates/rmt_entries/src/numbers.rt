//! The numbers that words say.

ghost use Rattle.std.specs.Prelude.{◌≡◌, ◌+◌, ◌<◌, ◌≤◌};
ghost use Rattle.rmt_bits.specs.Digits.{is_hex};
ghost use Rattle.rmt_entries.specs.Numbers.{below, decimal, number, number_in, number_of_width};

use rmt_bits::bits::ones;
use rmt_bits::digits::{decimal, hexadecimal, is_hex_number};

/// The digits without zeros at their front, or the last one alone. They are passed over since a digit more is a product more.
fn without_zeros(digits: &[u8]) -> &[u8]
    ensures hexadecimal { number_in 16 is_hex result.now ≡ number_in 16 is_hex digits.now }
    ensures decimal { decimal result.now ≡ decimal digits.now }
{
    let mut rest = digits;
    while rest.len() > 1 && rest[0] == b'0' {
        rest = &rest[1..];
    }
    rest
}

/// The number that a word says, where it is at most `last`.
fn number(last: u128, word: &[u8]) -> Option<u128>
    ensures { result ≡ below (last + 1) (number word.now) }
{
    if is_hex_number(word) {
        hexadecimal(last, without_zeros(&word[2..]))
    } else {
        decimal(last, without_zeros(word))
    }
}

/// The number that a word says, where it fits a width up to 128.
pub fn number_of_width(width: u8, word: &[u8]) -> Option<u128>
    requires { width ≤ 128 }
    ensures { result ≡ number_of_width width word.now }
{
    number(ones(width), word)
}

/// The number that decimal digits say, where it is at most `last`.
pub fn decimal_up_to(last: u8, word: &[u8]) -> Option<u8>
    ensures { result ≡ below (last + 1) (decimal word.now) }
{
    match decimal(u128::from(last), word) {
        Some(value) => Some(value as u8),
        None => None,
    }
}

/// The number that a word says, where it has at most 32 bits.
pub fn priority(word: &[u8]) -> Option<u32>
    ensures { result ≡ number_of_width 32 word.now }
{
    match number(u128::from(u32::MAX), word) {
        Some(value) => Some(value as u32),
        None => None,
    }
}
