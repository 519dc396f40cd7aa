//! A parser without the states that can't be met.

ghost use Rattle.std.specs.Prelude.{◌≡◌, ◌≤◌, ◌<◌, ◌+◌, ◌++◌, map, length, IfOk, OnOk};
ghost use Rattle.std.specs.List.{filter};
ghost use Rattle.rmt_bits.specs.Members.{is_among as is_among_of};
ghost use Rattle.rmt_ptcam.specs.Adding.{Adds};
ghost use Rattle.rmt_ptcam.specs.Joining.{IsGood, KeepsForm, Row, rows_of};
ghost use Rattle.rmt_ptcam.specs.Clustering.{with_next, met_states as met_states_of, number_in as number_in_of, renamed_next as renamed_next_of, renamed as renamed_of, states_kept as states_kept_of, compact as compact_of};

use crate::joining::copied;
use crate::joining::entry_rows::{copied_extracts, push_row};
use crate::joining::lookups::is_among;
use crate::parse::search::entry_tail;
use rmt_bits::answer::Bytes;
use rmt_bits::sequence::Sequence;
use rmt_config::config::{Next, ParserConfig, ParserEntry, ParserState, TailOf};
use std::alloc::{AllocError, Global};
use std::mem::drop;

/// Adds the state that is gone to, where it isn't there yet.
fn push_next(met: &mut Bytes, next: Next) -> Result<(), AllocError>
    ensures { OnOk result (met.new ≡ with_next met.old next) }
{
    if let Next::State(state) = next {
        if !is_among(met.as_slice(), state) {
            met.push(state)?;
        }
    }
    Ok(())
}

/// The states that can be met.
fn met_states(alloc: Global, entries: &[ParserEntry]) -> Result<Bytes, AllocError>
    ensures { IfOk result (λ met. met ≡ met_states_of entries.now) }
{
    let mut met = Bytes::new(alloc);
    met.push(0)?;
    for entry in entries {
        if is_among(met.as_slice(), entry.state) {
            push_next(&mut met, entry.next)?;
        }
    }
    Ok(met)
}

/// The number of a state among those that are met.
fn number_in(met: &[u8], state: u8) -> u8
    ensures { result ≡ number_in_of (is_among_of met.now) state }
{
    let mut count = 0;
    for other in 0..state {
        if is_among(met, other) {
            count += 1;
        }
    }
    count
}

fn renamed_next(met: &[u8], next: Next) -> Next
    ensures { result ≡ renamed_next_of (is_among_of met.now) next }
{
    match next {
        Next::Accept => Next::Accept,
        Next::Reject => Next::Reject,
        Next::State(state) => Next::State(number_in(met, state)),
    }
}

/// A copy of an entry by the new numbers.
fn renamed(alloc: Global, met: &[u8], entry: &ParserEntry) -> Result<ParserEntry, AllocError>
    ensures { IfOk result (λ e. e ≡ record entry.now { state = number_in_of (is_among_of met.now) entry.now.state; next = renamed_next_of (is_among_of met.now) entry.now.next }) }
{
    Ok(ParserEntry {
        state: number_in(met, entry.state),
        value: entry.value,
        mask: entry.mask,
        need: entry.need,
        advance: entry.advance,
        next: renamed_next(met, entry.next),
        extracts: copied_extracts(alloc, entry.extracts.as_slice())?,
    })
}

/// The states that are met.
fn states_kept(
    alloc: Global,
    met: &[u8],
    states: &[ParserState],
) -> Result<Sequence<ParserState>, AllocError>
    requires { length states.now ≤ 256 }
    ensures { IfOk result (λ kept. kept ≡ states_kept_of (is_among_of met.now) 0 states.now) }
{
    let mut kept = Sequence::new(alloc);
    for (number, state) in states.iter().enumerate() {
        if is_among(met, number as u8) {
            let lookups = copied(alloc, state.lookups.as_slice())?;
            kept.push(ParserState { lookups })?;
        }
    }
    Ok(kept)
}

/// Adds the rows of the states that are met, by the new numbers.
fn push_kept(
    alloc: Global,
    entries: &mut Sequence<ParserEntry>,
    tails: &mut Sequence<TailOf>,
    parser: &ParserConfig,
    met: &[u8],
) -> Result<(), AllocError>
    requires keeps { KeepsForm parser.now }
    requires few { length entries.old + length parser.now.entries ≤ 65536 }
    ensures { OnOk result (Adds (map (renamed_of (is_among_of met.now)) (filter (λ (x : Row). is_among_of met.now x.entry.state) (rows_of parser.now))) entries.old entries.new tails.old tails.new) }
{
    let others = parser.entries.as_slice();
    for number in 0..others.len() {
        let other = &others[number];
        if is_among(met, other.state) {
            let entry = renamed(alloc, met, other)?;
            push_row(entries, tails, entry, entry_tail(parser, number))?;
        }
    }
    Ok(())
}

/// A copy of a parser without the states that can't be met, the others numbered in order.
fn compact(alloc: Global, parser: &ParserConfig) -> Result<ParserConfig, AllocError>
    requires keeps { KeepsForm parser.now }
    requires some { 0 < length parser.now.states }
    requires few { length parser.now.states ≤ 256 }
    ensures given { IfOk result (λ q. q ≡ compact_of parser.now) }
    ensures good { IfOk result (IsGood parser.now) }
{
    let met = met_states(alloc, parser.entries.as_slice())?;
    let states = states_kept(alloc, met.as_slice(), parser.states.as_slice())?;
    let mut entries = Sequence::new(alloc);
    let mut tails = Sequence::new(alloc);
    push_kept(alloc, &mut entries, &mut tails, parser, met.as_slice())?;
    Ok(ParserConfig {
        states,
        entries,
        tails,
    })
}

/// The parser without the states that can't be met, the others numbered in order.
pub fn compacted(alloc: Global, parser: ParserConfig) -> Result<ParserConfig, AllocError>
    requires keeps { KeepsForm parser }
    requires some { 0 < length parser.states }
    requires few { length parser.states ≤ 256 }
    ensures given { IfOk result (λ q. q ≡ compact_of parser) }
    ensures good { IfOk result (IsGood parser) }
{
    let copy = compact(alloc, &parser);
    drop(parser);
    copy
}
