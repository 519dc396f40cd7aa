//! Places in a text, and lines that are quoted with a caret under the place.

use crate::ending::Texts;
use crate::message::{Message, is_seen};
use memchr::memchr;

/// The most bytes of a line that are shown.
const WINDOW: usize = 100;

/// How many bytes are shown before the place where a line is cut.
const BEFORE: usize = 60;

/// How many bytes' line feeds are counted at once.
const PIECE: usize = 4096;

/// Where the line of a number begins, the lines counted from 1.
pub fn line_start(text: &[u8], line: u64) -> Option<usize> {
    if line <= 1 {
        return Some(0);
    }
    let mut left = line.saturating_sub(1);
    let mut start: usize = 0;
    for piece in text.chunks(PIECE) {
        let feeds = line_feeds(piece);
        if left <= feeds {
            return Some(start.saturating_add(behind_feed(piece, left)?));
        }
        left = left.saturating_sub(feeds);
        start = start.saturating_add(piece.len());
    }
    None
}

/// How many line feeds are among bytes.
fn line_feeds(bytes: &[u8]) -> u64 {
    let mut count: u64 = 0;
    for byte in bytes {
        count = count.wrapping_add(u64::from(*byte == b'\n'));
    }
    count
}

/// The place behind the line feed of a number, from 1.
fn behind_feed(bytes: &[u8], number: u64) -> Option<usize> {
    let mut left = number;
    for at in 0..bytes.len() {
        if bytes[at] == b'\n' {
            if left <= 1 {
                return Some(at.saturating_add(1));
            }
            left = left.saturating_sub(1);
        }
    }
    None
}

/// The line that begins at a position, without its line feed.
pub fn line_from(text: &[u8], start: usize) -> &[u8] {
    let rest = part(text, start, text.len());
    match memchr(b'\n', rest) {
        Some(end) => part(rest, 0, end),
        None => rest,
    }
}

/// A line of the entries' text or the group text; nothing where the text is not there.
pub fn line_of<'e>(texts: &Texts<'_, 'e, '_>, number: u64) -> &'e [u8] {
    match texts.entries {
        Some(text) => match line_start(text, number) {
            Some(start) => line_from(text, start),
            None => b"".as_slice(),
        },
        None => b"".as_slice(),
    }
}

/// The bytes from one position to another; none where there are no such.
pub fn part(text: &[u8], start: usize, end: usize) -> &[u8] {
    match text.get(start..end) {
        Some(bytes) => bytes,
        None => b"".as_slice(),
    }
}

/// The line and the column of a position, both from 1.
pub fn place_of(text: &[u8], position: usize) -> (u64, u64) {
    let mut line: u64 = 1;
    let mut column: u64 = 1;
    for byte in part(text, 0, position) {
        if *byte == b'\n' {
            line = line.saturating_add(1);
            column = 1;
        } else {
            column = column.saturating_add(1);
        }
    }
    (line, column)
}

/// Says `NAME:LINE:COLUMN: `.
pub fn say_head(name: &str, line: u64, column: u64, message: &mut Message) {
    message.name(name);
    message.say(":");
    message.say_place(line);
    message.say(":");
    message.say_place(column);
    message.say(": ");
}

/// Quotes a line, with carets under `width` bytes from a column on; a long line is cut around the place.
pub fn quote_line(number: u64, line: &[u8], column: u64, width: usize, message: &mut Message) {
    let place = column.saturating_sub(1) as usize;
    let from = if line.len() > WINDOW {
        place.saturating_sub(BEFORE)
    } else {
        0
    };
    let to = from.saturating_add(WINDOW).min(line.len());
    message.say("  ");
    message.say_place(number);
    message.say(" | ");
    say_cut(from > 0, message);
    for byte in part(line, from, to) {
        show_in_line(*byte, message);
    }
    say_cut(to < line.len(), message);
    message.say("\n  ");
    say_digits_as_spaces(number, message);
    message.say(" | ");
    say_blank(from > 0, message);
    for _ in from..place {
        message.say(" ");
    }
    say_carets(width.min(to.saturating_sub(place)), message);
    message.say("\n");
}

/// Tells another place of a text, at which a word stands, and quotes its line.
pub fn say_second_place(
    name: &str,
    text: &[u8],
    position: usize,
    word: &[u8],
    behind: &str,
    message: &mut Message,
) {
    let (line, column) = place_of(text, position);
    say_head(name, line, column, message);
    message.quote(word);
    message.say(behind);
    if let Some(start) = line_start(text, line) {
        quote_line(line, line_from(text, start), column, word.len(), message);
    }
}

/// Marks where a line is cut.
fn say_cut(is_cut: bool, message: &mut Message) {
    if is_cut {
        message.say("..");
    }
}

/// Room as wide as the mark of a cut.
fn say_blank(is_cut: bool, message: &mut Message) {
    if is_cut {
        message.say("  ");
    }
}

/// At least one caret.
fn say_carets(width: usize, message: &mut Message) {
    message.say("^");
    for _ in 1..width {
        message.say("^");
    }
}

/// A byte of a line: one column wide, whatever it is.
fn show_in_line(byte: u8, message: &mut Message) {
    if is_seen(byte) {
        message.show(byte);
    } else if byte == b'\t' || byte == b'\r' {
        message.say(" ");
    } else {
        message.say("?");
    }
}

/// A space for each digit of a number.
fn say_digits_as_spaces(number: u64, message: &mut Message) {
    let mut left = number;
    message.say(" ");
    for _ in 0..20 {
        left = left / 10;
        if left == 0 {
            break;
        }
        message.say(" ");
    }
}

/// Names a byte that isn't seen on a screen, or shows one that is.
pub fn say_named_byte(byte: u8, message: &mut Message) {
    match byte {
        b'\t' => message.say("a tab"),
        b'\r' => message.say("a carriage return"),
        0 => message.say("a byte 0"),
        0xef => message.say("the byte 0xef, with which a byte order mark begins,"),
        _ => {
            if is_seen(byte) {
                message.quote(&[byte]);
            } else {
                message.say("the byte ");
                message.say_byte(byte);
            }
        }
    }
}
