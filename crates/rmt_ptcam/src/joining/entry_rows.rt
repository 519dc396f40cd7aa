//! Entries with their tails: they are added, copied and joined.

ghost use Rattle.std.specs.Prelude.{◌≡◌, ◌≤◌, ◌<◌, ◌+◌, ◌*◌, ◌++◌, ◌∷◌, [], true, map, length, All, OnOk, IfOk, IfSome, option_map};
ghost use Rattle.rmt_config.specs.declared.config.TailOf.{TailOf};
ghost use Rattle.rmt_ptcam.specs.Fitting.{IsEntry};
ghost use Rattle.rmt_ptcam.specs.Adding.{Adds, HasPlace};
ghost use Rattle.rmt_ptcam.specs.Joining.{moved as moved_of, joined_entry as joined_entry_of, together, is_light};

use crate::joining::lookups::both;
use rmt_bits::sequence::Sequence;
use rmt_config::config::{Extract, ParserConfig, ParserEntry, TailOf};
use std::alloc::{AllocError, Global};

/// A parser without states.
pub fn empty_parser(alloc: Global) -> ParserConfig
    ensures states { result.states ≡ [] }
    ensures entries { result.entries ≡ [] }
    ensures tails { result.tails ≡ [] }
{
    ParserConfig {
        states: Sequence::new(alloc),
        entries: Sequence::new(alloc),
        tails: Sequence::new(alloc),
    }
}

/// Adds an entry with its tail behind those that stand.
pub fn push_row(
    entries: &mut Sequence<ParserEntry>,
    tails: &mut Sequence<TailOf>,
    entry: ParserEntry,
    tail: Option<TailOf>,
) -> Result<(), AllocError>
    requires { length entries.old < 65536 }
    ensures { OnOk result (Adds (record { entry = entry; tail = tail } ∷ []) entries.old entries.new tails.old tails.new) }
{
    if let Some(tail) = tail {
        tails.push(TailOf {
            entry: entries.len() as u16,
            header: tail.header,
            from: tail.from,
            len: tail.len,
            unit: tail.unit,
            base: tail.base,
        })?;
    }
    entries.push(entry)?;
    Ok(())
}

/// An extract so many bytes behind.
fn moved(extract: Extract, bytes: u8) -> Extract
    requires { HasPlace bytes extract }
    ensures { result ≡ moved_of bytes extract }
{
    match extract {
        Extract::Bits { from, lane } => Extract::Bits {
            from: from + 8 * u16::from(bytes),
            lane,
        },
        Extract::One { lane } => Extract::One { lane },
    }
}

/// Adds extracts, so many bytes behind.
fn push_moved(
    extracts: &mut Sequence<Extract>,
    others: &[Extract],
    bytes: u8,
) -> Result<(), AllocError>
    requires { All (HasPlace bytes) others.now }
    ensures { OnOk result (extracts.new ≡ extracts.old ++ map (moved_of bytes) others.now) }
{
    for extract in others {
        extracts.push(moved(*extract, bytes))?;
    }
    Ok(())
}

/// A copy of extracts.
pub fn copied_extracts(alloc: Global, extracts: &[Extract]) -> Result<Sequence<Extract>, AllocError>
    ensures { IfOk result (λ copy. copy ≡ extracts.now) }
{
    Ok(Sequence::from_vec(Vec::from_slice(alloc, extracts)?))
}

/// A copy of an entry.
pub fn copied_entry(alloc: Global, entry: &ParserEntry) -> Result<ParserEntry, AllocError>
    ensures { IfOk result (λ e. e ≡ entry.now) }
{
    let extracts = copied_extracts(alloc, entry.extracts.as_slice())?;
    Ok(ParserEntry {
        state: entry.state,
        value: entry.value,
        mask: entry.mask,
        need: entry.need,
        advance: entry.advance,
        next: entry.next,
        extracts,
    })
}

/// An entry joined to one of the next state; `to` is the lookups of both together.
pub fn joined_entry(
    alloc: Global,
    here: &[u8],
    there: &[u8],
    to: &[u8],
    first: &ParserEntry,
    second: &ParserEntry,
) -> Result<ParserEntry, AllocError>
    requires to { to.now ≡ together here.now first.now.advance there.now }
    requires first { first.now.advance ≤ first.now.need }
    requires second { IsEntry second.now }
    requires light { is_light first.now second.now ≡ true }
    ensures { IfOk result (λ e. e ≡ joined_entry_of here.now there.now first.now second.now) }
{
    let bytes = first.advance;
    let mut extracts = copied_extracts(alloc, first.extracts.as_slice())?;
    push_moved(&mut extracts, second.extracts.as_slice(), bytes)?;
    Ok(ParserEntry {
        state: first.state,
        value: both(here, bytes, there, to, first.value, second.value),
        mask: both(here, bytes, there, to, first.mask, second.mask),
        need: first.need + second.need,
        advance: bytes + second.advance,
        next: second.next,
        extracts,
    })
}

/// A tail so many bytes behind.
pub fn moved_tail(tail: Option<TailOf>, bytes: u8) -> Option<TailOf>
    requires { IfSome tail (λ (t : TailOf). t.from + 8 * bytes < 65536) }
    ensures { result ≡ option_map (λ (t : TailOf). record t { from = t.from + 8 * bytes }) tail }
{
    match tail {
        Some(tail) => Some(TailOf {
            entry: tail.entry,
            header: tail.header,
            from: tail.from + 8 * u16::from(bytes),
            len: tail.len,
            unit: tail.unit,
            base: tail.base,
        }),
        None => None,
    }
}
