//! Numbers of entry lines.

use crate::places::part;
use memchr::memchr;
use rmt_bits::digits::{decimal, hexadecimal};

/// Zeros that are passed over at once.
const ZEROS: &[u8] = b"00000000000000000000000000000000";

/// The number that a word says, in decimal or behind `0x`; none where it is no number, or 2^128 or more.
pub fn value_of(word: &[u8]) -> Option<u128> {
    if word.starts_with(b"0x") {
        hexadecimal(u128::MAX, without_zeros(part(word, 2, word.len())))
    } else {
        decimal(u128::MAX, without_zeros(word))
    }
}

/// The digits without zeros at their front, or the last one alone.
fn without_zeros(digits: &[u8]) -> &[u8] {
    let mut front: usize = 0;
    for piece in digits.chunks(ZEROS.len()) {
        if piece != ZEROS {
            break;
        }
        front = front.saturating_add(piece.len());
    }
    let last = digits.len().saturating_sub(1);
    let rest = part(digits, front.min(last), digits.len());
    let zeros = rest.iter().take_while(|digit| **digit == b'0').count();
    part(rest, zeros.min(rest.len().saturating_sub(1)), rest.len())
}

/// A number without its low bits.
pub fn high_part(value: u128, low_bits: u64) -> u128 {
    if low_bits >= 128 {
        0
    } else {
        value >> low_bits
    }
}

/// Whether a word is a number of so many bits.
pub fn is_number_of(word: &[u8], bits: u64) -> bool {
    match value_of(word) {
        Some(value) => high_part(value, bits) == 0,
        None => false,
    }
}

/// The two sides of the first such sign in a word.
pub fn split_at(word: &[u8], sign: u8) -> Option<(&[u8], &[u8])> {
    let at = memchr(sign, word)?;
    let behind = at.saturating_add(1);
    Some((part(word, 0, at), part(word, behind, word.len())))
}
