//! What a program's text declares of a table: enough to tell which word of an entry is wrong.

use crate::grammar::{Walk, Want, is_same};
use crate::last_line::number_of;
use crate::scan::token_from;
use std::alloc::Global;

/// How the entries of a table match.
#[derive(Clone, Copy, PartialEq, Eq)]
pub enum Kind {
    NoKey,
    Exact,
    Prefix,
    Ternary,
}

/// A table as its declaration says it.
#[derive(Clone, Copy)]
pub struct Declared {
    /// Where its name stands in the text.
    pub position: usize,
    pub kind: Kind,
    /// How many fields its key has.
    pub fields: usize,
    /// How many entries it may have.
    pub size: u64,
}

/// Where a name is declared at such a place of the grammar.
pub fn declaration(alloc: Global, text: &[u8], place: Want, name: &[u8]) -> Option<usize> {
    let mut walk = Walk::new(alloc);
    let mut at = 0;
    for _ in 0..text.len() {
        let token = token_from(text, at)?;
        if is_same(walk.want(), place) && token.word == name {
            return Some(token.start);
        }
        if !walk.take(token.word) {
            return None;
        }
        at = token.end;
    }
    None
}

/// The table of a name, as the text declares it.
pub fn table_of(alloc: Global, text: &[u8], name: &[u8]) -> Option<Declared> {
    let position = declaration(alloc, text, Want::TableName, name)?;
    let mut found = Declared {
        position,
        kind: Kind::NoKey,
        fields: 0,
        size: 0,
    };
    let mut at = position;
    let mut is_size = false;
    let mut is_key = false;
    for _ in 0..text.len() {
        let token = token_from(text, at)?;
        let kind = kind_of(token.word);
        if kind != Kind::NoKey {
            found.kind = kind;
            found.fields = 1;
            is_key = true;
        } else if is_size {
            found.size = number_of(token.word);
        } else if is_key && token.word == b",".as_slice() {
            found.fields = found.fields.saturating_add(1);
        }
        is_key = is_key && token.word != b";".as_slice();
        is_size = token.word == b"size".as_slice();
        if token.word == b"default".as_slice() {
            return Some(found);
        }
        at = token.end;
    }
    None
}

/// The kind that a word says.
fn kind_of(word: &[u8]) -> Kind {
    if word == b"exact".as_slice() {
        Kind::Exact
    } else if word == b"prefix".as_slice() {
        Kind::Prefix
    } else if word == b"ternary".as_slice() {
        Kind::Ternary
    } else {
        Kind::NoKey
    }
}

/// How many words the key of an entry has.
pub fn key_words(table: &Declared) -> usize {
    match table.kind {
        Kind::NoKey => 0,
        Kind::Exact => table.fields,
        Kind::Prefix => 1,
        Kind::Ternary => table.fields.saturating_add(1),
    }
}
