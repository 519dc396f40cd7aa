//! Decimal and hexadecimal digits, and the numbers that they say.

ghost use Rattle.std.specs.Prelude.{◌≡◌, ◌+◌, ◌<◌, ◌≤◌, length, SomeIff};
ghost use Rattle.std.specs.List.{list_all, prefix_len, take_while};
ghost use Rattle.rmt_bits.specs.Digits.{appended, below, decimal, digit_value, is_digit, is_hex, is_hex_number, number_in, number_of_digits};

/// Whether a byte is a decimal digit.
pub fn is_digit(byte: u8) -> bool
    ensures { result ≡ is_digit byte }
{
    b'0' <= byte && byte <= b'9'
}

/// Whether a byte is a hexadecimal digit of either case.
pub fn is_hex(byte: u8) -> bool
    ensures { result ≡ is_hex byte }
{
    is_digit(byte) || b'a' <= byte && byte <= b'f' || b'A' <= byte && byte <= b'F'
}

/// Whether there are only decimal digits.
pub fn are_digits(bytes: &[u8]) -> bool
    ensures { result ≡ list_all is_digit bytes.now }
{
    bytes.iter().all(|byte| is_digit(*byte))
}

/// Whether there are only hexadecimal digits.
pub fn are_hex(bytes: &[u8]) -> bool
    ensures { result ≡ list_all is_hex bytes.now }
{
    bytes.iter().all(|byte| is_hex(*byte))
}

/// How many bytes at the front are decimal digits.
pub fn digits_len(text: &[u8]) -> usize
    ensures prefix { result ≡ prefix_len is_digit text.now }
    ensures len { result ≡ length (take_while is_digit text.now) }
    ensures within { result ≤ length text.now }
{
    text.iter().take_while(|byte| is_digit(**byte)).count()
}

/// How many bytes at the front are hexadecimal digits.
pub fn hex_len(text: &[u8]) -> usize
    ensures { result ≡ length (take_while is_hex text.now) }
{
    text.iter().take_while(|byte| is_hex(**byte)).count()
}

/// Whether a text begins with `0x`.
pub fn is_hex_number(text: &[u8]) -> bool
    ensures { result ≡ is_hex_number text.now }
{
    text.len() >= 2 && text[0] == b'0' && text[1] == b'x'
}

/// The value of a hexadecimal digit of either case.
fn digit_value(digit: u8) -> u128
    ensures { result ≡ digit_value digit }
{
    if digit >= b'a' {
        (digit - 87) as u128
    } else if digit >= b'A' {
        (digit - 55) as u128
    } else {
        digit.saturating_sub(b'0') as u128
    }
}

/// A number with one more digit behind it, or None where that is above `last`.
fn appended(last: u128, base: u128, value: u128, digit: u8) -> Option<u128>
    ensures { SomeIff result (appended base value digit ≤ last) (appended base value digit) }
{
    let Some(product) = value.checked_mul(base) else {
        return None;
    };
    match product.checked_add(digit_value(digit)) {
        Some(sum) if sum <= last => Some(sum),
        _ => None,
    }
}

/// The number that digits say in a base, or None where it is above `last`.
pub fn number_up_to(last: u128, base: u128, digits: &[u8]) -> Option<u128>
    requires { 0 < base }
    ensures { SomeIff result (number_of_digits base digits.now ≤ last)
        (number_of_digits base digits.now) }
{
    let mut value: u128 = 0;
    for digit in digits {
        let Some(longer) = appended(last, base, value, *digit) else {
            return None;
        };
        value = longer;
    }
    Some(value)
}

/// The number that one or more decimal digits say, and nothing else does, where it is at most `last`.
#[tactic(auto, using(crate::proofs::DigitLaws::number_below, crate::proofs::DigitLaws::number_none))]
pub fn decimal(last: u128, word: &[u8]) -> Option<u128>
    ensures { result ≡ below (last + 1) (decimal word.now) }
{
    if !word.is_empty() && are_digits(word) {
        number_up_to(last, 10, word)
    } else {
        None
    }
}

/// The number that one or more hexadecimal digits say, and nothing else does, where it is at most `last`.
#[tactic(auto, using(crate::proofs::DigitLaws::number_below, crate::proofs::DigitLaws::number_none))]
pub fn hexadecimal(last: u128, digits: &[u8]) -> Option<u128>
    ensures { result ≡ below (last + 1) (number_in 16 is_hex digits.now) }
{
    if !digits.is_empty() && are_hex(digits) {
        number_up_to(last, 16, digits)
    } else {
        None
    }
}
