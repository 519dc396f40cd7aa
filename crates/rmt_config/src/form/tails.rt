//! The rules of form of tails of the parser's entries.

ghost use Rattle.std.specs.Prelude.{◌≡◌, ◌<◌, Some, nat_lt, slice_get};
ghost use Rattle.std.specs.List.{list_all};
ghost use Rattle.rmt_config.specs.TailForm.{has_length_field, has_greatest_length, is_tail_of, tails_are_formed, tails_have_headers};
ghost use Rattle.rmt_config.specs.declared.config.TailOf.{TailOf};

use crate::config::{Config, ParserConfig, ParserEntry, TailOf};
use crate::form::search::items_rise;

/// Whether the field that tells a tail's length lies in the bytes that its entry needs.
fn has_field(entry: &ParserEntry, tail: TailOf) -> bool
    ensures { result ≡ has_length_field entry.now tail }
{
    1 <= tail.len && tail.len <= 8 && tail.from as u32 + tail.len as u32 <= 8 * entry.need as u32
}

/// Whether the greatest length of a tail, of a field of at most 8 bits, is one of 0 to 64 bytes.
fn is_short(tail: TailOf) -> bool
    requires { tail.len < 9 }
    ensures { result ≡ has_greatest_length tail }
{
    let greatest = ((1u32 << tail.len as u32) - 1) * tail.unit as u32;
    tail.base as u32 <= greatest && greatest <= tail.base as u32 + 64
}

fn fits_entry(entry: &ParserEntry, tail: TailOf) -> bool
    ensures { result ≡ is_tail_of tail (Some entry.now) }
{
    tail.header < 64
        && has_field(entry, tail)
        && 1 <= tail.unit
        && is_short(tail)
        && entry.advance == entry.need
}

fn tail_fits(entries: &[ParserEntry], tail: TailOf) -> bool
    ensures { result ≡ is_tail_of tail (slice_get entries.now tail.entry) }
{
    match entries.get(tail.entry as usize) {
        Some(entry) => fits_entry(entry, tail),
        None => false,
    }
}

fn each_tail_fits(entries: &[ParserEntry], tails: &[TailOf]) -> bool
    ensures { result ≡ list_all (λ (t : TailOf). is_tail_of t (slice_get entries.now t.entry)) tails.now }
{
    for tail in tails {
        if !tail_fits(entries, *tail) {
            return false;
        }
    }
    true
}

/// Whether the tails of the parser's entries fit.
pub fn tails_fit(parser: &ParserConfig) -> bool
    ensures { result ≡ tails_are_formed parser.now }
{
    let tails = parser.tails.as_slice();
    items_rise(0, tails) && tails.len() < 65536 && each_tail_fits(parser.entries.as_slice(), tails)
}

fn are_below(tails: &[TailOf], headers: usize) -> bool
    ensures { result ≡ list_all (λ (t : TailOf). nat_lt t.header headers) tails.now }
{
    tails.iter().all(|tail| (tail.header as usize) < headers)
}

/// Whether each tail is of one of the configuration's headers.
pub fn have_headers(config: &Config) -> bool
    ensures { result ≡ tails_have_headers config.now }
{
    are_below(config.parser.tails.as_slice(), config.headers.len())
}
