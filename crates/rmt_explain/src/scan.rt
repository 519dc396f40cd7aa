//! The tokens of a program's text, one after another.

use rmt_bits::digits::{is_digit, is_hex};

/// A token of a text.
#[derive(Clone, Copy)]
pub struct Token<'a> {
    /// Its bytes.
    pub word: &'a [u8],
    /// Where it begins in the text, from 0.
    pub start: usize,
    /// Where it ends in the text.
    pub end: usize,
}

/// The kinds of bytes that a token may go on with.
#[derive(Clone, Copy)]
enum Class {
    Name,
    Digit,
    Hex,
}

/// The first token at a position or behind it.
pub fn token_from(text: &[u8], from: usize) -> Option<Token<'_>> {
    let start = skip_gaps(text, from);
    let end = token_end(text, start);
    let word = text.get(start..end)?;
    if word.is_empty() {
        return None;
    }
    Some(Token { word, start, end })
}

/// The position of the first byte that is in no gap.
fn skip_gaps(text: &[u8], from: usize) -> usize {
    let mut is_comment = false;
    for at in from..text.len() {
        if is_comment {
            is_comment = text[at] != b'\n';
        } else if text[at] == b'/' && byte_at(text, at.saturating_add(1)) == b'/' {
            is_comment = true;
        } else if !is_space(text[at]) {
            return at;
        }
    }
    text.len()
}

/// Where the token ends that begins at a position.
fn token_end(text: &[u8], start: usize) -> usize {
    let first = byte_at(text, start);
    let next = start.saturating_add(1);
    let second = byte_at(text, next);
    if is_name_byte(first) && !is_digit(first) {
        run_end(text, next, Class::Name)
    } else if first == b'0' && second == b'x' {
        run_end(text, next.saturating_add(1), Class::Hex)
    } else if is_digit(first) {
        run_end(text, next, Class::Digit)
    } else if first == b'=' && second == b'=' {
        next.saturating_add(1)
    } else if start < text.len() {
        next
    } else {
        text.len()
    }
}

/// Where a run of bytes of a class ends.
fn run_end(text: &[u8], from: usize, class: Class) -> usize {
    for at in from..text.len() {
        if !is_in(class, text[at]) {
            return at;
        }
    }
    text.len()
}

/// Whether a byte is of a class.
fn is_in(class: Class, byte: u8) -> bool {
    match class {
        Class::Name => is_name_byte(byte),
        Class::Digit => is_digit(byte),
        Class::Hex => is_hex(byte),
    }
}

/// Whether a byte is a letter, a digit or `_`.
pub fn is_name_byte(byte: u8) -> bool {
    byte.is_ascii_alphanumeric() || byte == b'_'
}

/// Whether a byte is white space of a program.
fn is_space(byte: u8) -> bool {
    byte == b' ' || byte == b'\t' || byte == b'\n' || byte == b'\r'
}

/// The byte at a position; 0 where the text has ended.
pub fn byte_at(text: &[u8], at: usize) -> u8 {
    match text.get(at) {
        Some(byte) => *byte,
        None => 0,
    }
}
