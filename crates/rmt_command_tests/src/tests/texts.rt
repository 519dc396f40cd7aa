//! Rows of commands over programs and entries, of which some are made of parts that are repeated.

use crate::fixtures::cases::{Told, ends};
use crate::fixtures::programs::*;
use rmt_core::status::Status;
use std::alloc::{AllocError, Global};
use std::test::Fail;

/// A program or entries.
#[derive(Clone, Copy)]
pub enum Text {
    /// These bytes.
    Bytes(&'static [u8]),
    /// This text.
    Str(&'static str),
    /// `chain` of so many tables.
    Chain(u16),
    /// `better_order`.
    BetterOrder,
    /// `wide` of so many fields.
    Wide(u16),
    /// `long_header` of so many fields.
    LongHeader(u16),
    /// `many_cases` of so many cases.
    ManyCases(u16),
    /// `split_entries`.
    SplitEntries,
}

/// The bytes of a text.
pub fn bytes_of(alloc: Global, text: Text) -> Result<Vec<u8>, AllocError> {
    match text {
        Text::Bytes(bytes) => Vec::from_slice(alloc, bytes),
        Text::Str(text) => Vec::from_slice(alloc, text.as_bytes()),
        Text::Chain(count) => chain(alloc, count),
        Text::BetterOrder => better_order(alloc),
        Text::Wide(count) => wide(alloc, count),
        Text::LongHeader(count) => long_header(alloc, count),
        Text::ManyCases(count) => many_cases(alloc, count),
        Text::SplitEntries => Ok(split_entries(alloc)?.into_bytes()),
    }
}

/// Words, a program `p` and entries `e`, how a run of the words ends, and what it prints.
pub type Row = (&'static [&'static str], Text, Text, Status, Told<'static>);

/// Whether a row comes out as it says.
fn is_kept(alloc: Global, row: &Row) -> Result<bool, Fail> {
    let (words, program, entries, status, told) = *row;
    let program = bytes_of(alloc, program)?;
    let entries = bytes_of(alloc, entries)?;
    let files = [("p", program.as_slice()), ("e", entries.as_slice())];
    ends(alloc, &files, words, status, told)
}

/// The number of the first row that comes out otherwise.
pub fn first_wrong(alloc: Global, rows: &[Row]) -> Result<Option<usize>, Fail> {
    for (number, row) in rows.iter().enumerate() {
        if !is_kept(alloc, row)? {
            return Ok(Some(number));
        }
    }
    Ok(None)
}
