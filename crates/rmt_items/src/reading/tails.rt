//! Tails of the parser's entries, each rule as soon as the last number that it speaks of is read.

#![tactic(auto, unfolding(crate::specs::ReadingTails::tail_entry_at, crate::specs::ReadingTails::field_at, crate::specs::ReadingTails::lengths_at, crate::specs::ReadingTails::tail_at, crate::specs::ReadingTails::tails_at))]

ghost use Rattle.std.specs.Prelude.{◌≡◌, ◌≤◌, slice_get, IfOk};
ghost use Rattle.rmt_items.specs.Readers.{Gives, kept, below, byte_at};
ghost use Rattle.rmt_items.specs.ReadingTails.{may_have_tail, need_of, tail_entry_at, field_at, lengths_fit, lengths_at, tail_at, next_entry, tails_at};

use crate::fault::Read;
use crate::reading::bounded::positive;
use crate::reading::items::{InOrder, items_of};
use crate::reading::number::{byte_of, kept, two_of};
use rmt_bits::sequence::Sequence;
use rmt_config::config::{ParserEntry, TailOf};
use std::alloc::Global;

/// Whether there is an entry of this number that moves the cursor behind all that it needs.
fn can_have_tail(entries: &[ParserEntry], entry: u16) -> bool
    ensures { result ≡ may_have_tail (slice_get entries.now entry) }
{
    match entries.get(entry as usize) {
        Some(entry) => entry.advance == entry.need,
        None => false,
    }
}

/// The bytes that an entry needs.
fn need(entries: &[ParserEntry], entry: u16) -> u8
    ensures { result ≡ need_of entries.now entry }
{
    match entries.get(entry as usize) {
        Some(entry) => entry.need,
        None => 0,
    }
}

fn tail_entry_of<'a>(entries: &[ParserEntry], least: u32, bytes: &'a [u8]) -> Read<'a, u16>
    ensures { Gives (λ x. (x.0, x.1.now)) result (tail_entry_at entries.now least bytes.now) }
{
    let (entry, rest) = two_of(bytes)?;
    kept(
        least <= entry as u32 && can_have_tail(entries, entry),
        entry,
        rest,
    )
}

fn header_of(headers: usize, bytes: &[u8]) -> Read<u8>
    ensures { Gives (λ x. (x.0, x.1.now)) result (kept (below headers) byte_at bytes.now) }
{
    let (header, rest) = byte_of(bytes)?;
    kept((header as usize) < headers, header, rest)
}

/// The first bit and the bits of the field that tells a tail's length.
fn field_of(need: u8, bytes: &[u8]) -> Read<(u16, u8)>
    ensures few { IfOk result (λ x. x.0.1 ≤ 8) }
    ensures read { Gives (λ x. (x.0, x.1.now)) result (field_at need bytes.now) }
{
    let (from, rest) = two_of(bytes)?;
    let (len, rest) = byte_of(rest)?;
    let fits = 1 <= len && len <= 8 && from as u32 + len as u32 <= 8 * need as u32;
    kept(fits, (from, len), rest)
}

/// Whether the greatest length, of a field whose bits are all 1, is 0 to 64 bytes.
fn is_length(len: u8, unit: u8, base: u8) -> bool
    requires { len ≤ 8 }
    ensures { result ≡ lengths_fit len (unit, base) }
{
    let greatest = ((1u32 << len) - 1) * unit as u32;
    base as u32 <= greatest && greatest <= base as u32 + 64
}

/// The unit and the base of lengths, which a field of `len` bits tells.
fn lengths_of(len: u8, bytes: &[u8]) -> Read<(u8, u8)>
    requires { len ≤ 8 }
    ensures { Gives (λ x. (x.0, x.1.now)) result (lengths_at len bytes.now) }
{
    let (unit, rest) = positive(bytes)?;
    let (base, rest) = byte_of(rest)?;
    kept(is_length(len, unit, base), (unit, base), rest)
}

/// Tails of some of these entries and of some of that many headers.
#[derive(Drop)]
struct TailsOf<'s> {
    entries: &'s [ParserEntry],
    headers: usize,
}

impl<'s> InOrder for TailsOf<'s> {
    type Item = TailOf;

    const LEAST_SIZE: usize = 8;

    ghost item_at = { λ list. tail_at list.entries.now list.headers };

    ghost after = { λ _. next_entry };

    fn item<'a>(&self, _alloc: Global, least: u32, bytes: &'a [u8]) -> Read<'a, TailOf> {
        let (entry, rest) = tail_entry_of(self.entries, least, bytes)?;
        let (header, rest) = header_of(self.headers, rest)?;
        let ((from, len), rest) = field_of(need(self.entries, entry), rest)?;
        let ((unit, base), rest) = lengths_of(len, rest)?;
        let tail = TailOf {
            entry,
            header,
            from,
            len,
            unit,
            base,
        };
        Ok((tail, rest))
    }

    fn least_after(&self, tail: &TailOf) -> u32 {
        tail.entry as u32 + 1
    }
}

/// At least one tail, behind their count.
pub fn tails_of<'a>(
    alloc: Global,
    entries: &[ParserEntry],
    headers: usize,
    bytes: &'a [u8],
) -> Read<'a, Sequence<TailOf>>
    ensures read { Gives (λ x. (x.0, x.1.now)) result (tails_at entries.now headers bytes.now) }
{
    let (count, rest) = two_of(bytes)?;
    let (count, rest) = kept(1 <= count, count, rest)?;
    items_of(alloc, &TailsOf { entries, headers }, count as u64, rest)
}
