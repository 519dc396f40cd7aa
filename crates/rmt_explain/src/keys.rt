//! The keys of entry lines, against the key that the program declares.

use crate::fields::{FieldName, Width, widths_of};
use crate::grammar::Want;
use crate::numbers::{high_part, is_number_of, split_at, value_of};
use crate::places::part;
use crate::reader::{Reader, Step};
use crate::tables::Kind;
use crate::words::{Word, Words};
use std::alloc::Global;

/// How many bits the last three bytes of a key have.
const LAST_BITS: u64 = 24;

/// The key of a table, as the program declares it.
#[derive(Drop)]
pub struct Key<'t> {
    pub kind: Kind,
    pub fields: Vec<FieldName<'t>>,
    widths: Vec<Width>,
}

/// A word that makes no key.
#[derive(Clone, Copy)]
pub struct BadWord<'a, 't> {
    pub word: Word<'a>,
    /// The field that it stands for, with its bits; none where it stands for no field.
    pub field: Option<(FieldName<'t>, u64)>,
}

/// The key of the table of a name.
pub fn key_of<'t>(alloc: Global, text: &'t [u8], name: &[u8], kind: Kind) -> Option<Key<'t>> {
    let fields = key_fields(alloc, text, name)?;
    let widths = widths_of(alloc, text, fields.as_slice()).ok()?;
    Some(Key {
        kind,
        fields,
        widths,
    })
}

/// The fields of the key of the table of a name.
fn key_fields<'t>(alloc: Global, text: &'t [u8], name: &[u8]) -> Option<Vec<FieldName<'t>>> {
    let mut reader = Reader::new(alloc, text);
    let mut found = KeyFields::new(alloc);
    for _ in 0..text.len() {
        let step = reader.next()?;
        if found.note(&step, name) {
            return Some(found.fields);
        }
    }
    None
}

/// The fields that were read of the key of a table.
#[derive(Drop)]
struct KeyFields<'t> {
    fields: Vec<FieldName<'t>>,
    /// The field that is being named.
    running: FieldName<'t>,
    /// Whether the table's declaration has begun.
    is_inside: bool,
}

impl<'t> KeyFields<'t> {
    /// No field.
    fn new(alloc: Global) -> KeyFields<'t> {
        KeyFields {
            fields: Vec::new(alloc),
            running: FieldName::none(),
            is_inside: false,
        }
    }

    /// Notes a token, and answers whether the key of the table of this name ends with it. Where memory is refused, a field is
    /// left out, and the message knows less.
    fn note(&mut self, step: &Step<'t>, name: &[u8]) -> bool {
        self.running = self.running.behind(step);
        match step.want {
            Want::TableName => self.is_inside = step.word() == name,
            Want::KeyMore if self.is_inside => {
                let _ = self.fields.push(self.running).is_ok();
            }
            _ => {}
        }
        self.is_inside && matches!(step.want, Want::ActionsWord)
    }
}

impl<'t> Key<'t> {
    /// The bits of a field of the key.
    fn bits(&self, field: usize) -> u64 {
        match self.widths.get(field) {
            Some(width) => width.bits,
            None => 0,
        }
    }

    /// The first word of a line's key that is missing or is none of this key; none where all are.
    pub fn bad_word<'a>(&self, line: &'a [u8], missing: Word<'a>) -> Option<BadWord<'a, 't>> {
        let mut words = Words::new(line);
        let _name = words.next()?;
        if self.kind == Kind::Ternary {
            let word = next_or(&mut words, missing);
            if !is_number_of(word.bytes, 32) {
                return Some(BadWord { word, field: None });
            }
        }
        for k in 0..self.fields.len() {
            let word = next_or(&mut words, missing);
            let bits = self.bits(k);
            if !is_value(self.kind, word.bytes, bits) {
                let field = Some((self.fields[k], bits));
                return Some(BadWord { word, field });
            }
        }
        None
    }

    /// Whether two lines, of which the first may be of another table, have the same exact key or prefix.
    fn is_same(&self, line: &[u8], other: &[u8]) -> bool {
        let mut words = Words::new(line);
        let mut others = Words::new(other);
        for k in 0..self.fields.len().saturating_add(1) {
            let (Some(word), Some(wanted)) = (words.next(), others.next()) else {
                return false;
            };
            let is_same = match k.checked_sub(1) {
                None => word.bytes == wanted.bytes,
                Some(field) => {
                    is_same_value(self.kind, word.bytes, wanted.bytes, self.bits(field))
                }
            };
            if !is_same {
                return false;
            }
        }
        true
    }

    /// The number of the first line before one that has the same key.
    pub fn earlier_line(&self, text: &[u8], line: &[u8], number: u64) -> Option<u64> {
        let mut start = 0;
        let mut at_line: u64 = 1;
        for end in 0..text.len() {
            if text[end] == b'\n' {
                if at_line >= number {
                    return None;
                }
                if self.is_same(part(text, start, end), line) {
                    return Some(at_line);
                }
                at_line = at_line.saturating_add(1);
                start = end.saturating_add(1);
            }
        }
        None
    }

    /// How many low bits of each field stand in the last three bytes of the key.
    fn late_bits(&self, alloc: Global) -> Option<Vec<u64>> {
        let mut late = Vec::new(alloc);
        for _ in 0..self.fields.len() {
            late.push(0).ok()?;
        }
        let mut left = LAST_BITS;
        for behind in 0..self.fields.len() {
            let field = self.fields.len() - 1 - behind;
            let bits = self.bits(field).min(left);
            if let Some(place) = late.get_mut(field) {
                *place = bits;
            }
            left = left.saturating_sub(bits);
        }
        Some(late)
    }

    /// How many lines a text has for the table of a name, where their exact keys differ in their last three bytes alone.
    pub fn late_lines(&self, alloc: Global, text: &[u8], name: &[u8]) -> Option<u64> {
        if self.kind != Kind::Exact {
            return None;
        }
        let late = self.late_bits(alloc)?;
        let mut first: Option<&[u8]> = None;
        let mut count: u64 = 0;
        let mut start = 0;
        for end in 0..text.len() {
            if text[end] == b'\n' || end.saturating_add(1) == text.len() {
                let line = part(text, start, end.saturating_add(1));
                start = end.saturating_add(1);
                if is_of_table(line, name) {
                    let wanted = match first {
                        Some(wanted) => wanted,
                        None => line,
                    };
                    if !is_late(line, wanted, late.as_slice()) {
                        return None;
                    }
                    first = Some(wanted);
                    count = count.saturating_add(1);
                }
            }
        }
        Some(count)
    }
}

/// The next word, or else this one.
fn next_or<'a>(words: &mut Words<'a>, missing: Word<'a>) -> Word<'a> {
    match words.next() {
        Some(word) => word,
        None => missing,
    }
}

/// Whether a line begins with a table's name.
fn is_of_table(line: &[u8], name: &[u8]) -> bool {
    match Words::new(line).next() {
        Some(word) => word.bytes == name,
        None => false,
    }
}

/// Whether two lines of an exact table have the same key, but for these low bits of its fields.
fn is_late(line: &[u8], wanted: &[u8], late: &[u64]) -> bool {
    let mut words = Words::new(line);
    let mut others = Words::new(wanted);
    let (Some(_), Some(_)) = (words.next(), others.next()) else {
        return false;
    };
    for bits in late {
        let (Some(word), Some(other)) = (words.next(), others.next()) else {
            return false;
        };
        if high_value(word.bytes, *bits) != high_value(other.bytes, *bits) {
            return false;
        }
    }
    true
}

/// The number of a word without its low bits; 0 where it is none.
fn high_value(word: &[u8], low_bits: u64) -> u128 {
    match value_of(word) {
        Some(value) => high_part(value, low_bits),
        None => 0,
    }
}

/// Whether a word is what such a table's key has for a field of so many bits.
fn is_value(kind: Kind, word: &[u8], bits: u64) -> bool {
    match kind {
        Kind::NoKey => false,
        Kind::Exact => is_number_of(word, bits),
        Kind::Prefix => match split_at(word, b'/') {
            Some((value, length)) => { is_number_of(value, bits) && is_length(length, bits) }
            None => false,
        },
        Kind::Ternary => match split_at(word, b'&') {
            Some((value, mask)) => is_number_of(value, bits) && is_number_of(mask, bits),
            None => word == b"*".as_slice() || is_number_of(word, bits),
        },
    }
}

/// Whether a word is a decimal length of at most so many bits.
fn is_length(word: &[u8], bits: u64) -> bool {
    match value_of(word) {
        Some(length) => length <= u128::from(bits) && !word.starts_with(b"0x"),
        None => false,
    }
}

/// Whether two words say the same of an exact field, or the same prefix of a field of so many bits.
fn is_same_value(kind: Kind, word: &[u8], other: &[u8], bits: u64) -> bool {
    if kind != Kind::Prefix {
        return value_of(word) == value_of(other);
    }
    let (Some((value, length)), Some((wanted, wanted_length))) = (
        split_at(word, b'/'),
        split_at(other, b'/'),
    ) else {
        return false;
    };
    let Some(counted) = value_of(length) else {
        return false;
    };
    let low_bits = u128::from(bits).saturating_sub(counted).min(128) as u64;
    value_of(wanted_length) == Some(counted)
        && high_value(value, low_bits) == high_value(wanted, low_bits)
}
