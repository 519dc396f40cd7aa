//! The parser: its states with their lookups, and its entries.

#![tactic(auto, unfolding(crate::specs::Reading::offset_at, crate::specs::Reading::state_at, crate::specs::Reading::states_at, crate::specs::Reading::entry_state_at, crate::specs::Reading::match_at, crate::specs::Reading::need_at, crate::specs::Reading::entry_head_at, crate::specs::Reading::later_state_at, crate::specs::Reading::next_at, crate::specs::Reading::bits_at, crate::specs::Reading::extract_at, crate::specs::Reading::entry_at, crate::specs::Reading::parser_at))]

ghost use Rattle.std.specs.Prelude.{◌≡◌, ◌-◌, ◌*◌, ◌<◌, ◌^◌};
ghost use Rattle.rmt_items.specs.Readers.{Gives, kept, listed, list_at, items_at, byte_at, number_at};
ghost use Rattle.rmt_items.specs.Reading.{offset_at, one_more, state_at, states_at, entry_state_at, match_fits, match_at, need_at, later_state_at, next_at, bits_at, extract_at, entry_head_at, entry_at, state_of, parser_at};
ghost use Rattle.rmt_config.specs.ParserForm.{lookups_of};

use crate::fault::{Read, ReadError, ReadFault};
use crate::reading::bounded::from_to;
use crate::reading::items::{InOrder, Item, items_of, list_of, list8_of};
use crate::reading::lane::{lane_of, lane_of_bits};
use crate::reading::number::{byte_of, fours_of, kept, two_of};
use rmt_bits::lane::Lane;
use rmt_bits::sequence::Sequence;
use rmt_config::config::{Extract, Next, ParserConfig, ParserEntry, ParserState};
use std::alloc::Global;

// ---- states

#[derive(Drop)]
struct Offsets;

impl InOrder for Offsets {
    type Item = u8;

    const LEAST_SIZE: usize = 1;

    ghost item_at = { λ _. offset_at };

    ghost after = { λ _. one_more };

    fn item<'a>(&self, _alloc: Global, least: u32, bytes: &'a [u8]) -> Read<'a, u8> {
        from_to(least, 128, bytes)
    }

    fn least_after(&self, offset: &u8) -> u32 {
        *offset as u32 + 1
    }
}

impl Item<()> for ParserState {
    const LEAST_SIZE: usize = 1;

    ghost item_at = { λ _. state_at };

    fn read(alloc: Global, _given: (), bytes: &[u8]) -> Read<ParserState> {
        let (count, rest) = byte_of(bytes)?;
        let (lookups, rest) = items_of(alloc, &Offsets, count as u64, rest)?;
        Ok((ParserState { lookups }, rest))
    }
}

fn states_of(alloc: Global, bytes: &[u8]) -> Read<Sequence<ParserState>>
    ensures { Gives (λ x. (x.0, x.1.now)) result (states_at bytes.now) }
{
    let (count, rest) = two_of(bytes)?;
    let (count, rest) = kept(1 <= count, count, rest)?;
    list_of(alloc, (), count as u64, rest)
}

// ---- when an entry is taken

fn entry_state_of(states: usize, least: u32, bytes: &[u8]) -> Read<u8>
    ensures { Gives (λ x. (x.0, x.1.now)) result (entry_state_at states least bytes.now) }
{
    from_to(least, states, bytes)
}

/// How many lookups a state has.
fn count_lookups(states: &[ParserState], state: u8) -> usize
    ensures { result ≡ lookups_of states.now state }
{
    match states.get(state as usize) {
        Some(state) => state.lookups.len(),
        None => 0,
    }
}

/// One more than the greatest number that stands in the bytes that fewer than four lookups leave.
fn absent_bits(lookups: usize) -> u64
    ensures is { result ≡ 2 ^ (8 * (4 - lookups)) }
    ensures some { 0 < result }
{
    match lookups {
        0 => 4294967296,
        1 => 16777216,
        2 => 65536,
        3 => 256,
        _ => 1,
    }
}

/// Whether a value lies in its mask, and the mask in the bytes of that many lookups.
fn is_match(lookups: usize, value: u32, mask: u32) -> bool
    ensures { result ≡ match_fits lookups (value, mask) }
{
    value & mask == value && mask as u64 % absent_bits(lookups) == 0
}

fn match_of(lookups: usize, bytes: &[u8]) -> Read<(u32, u32)>
    ensures { Gives (λ x. (x.0, x.1.now)) result (match_at lookups bytes.now) }
{
    let ((value, mask), rest) = fours_of(bytes)?;
    kept(is_match(lookups, value, mask), (value, mask), rest)
}

fn need_of(bytes: &[u8]) -> Read<(u8, u8)>
    ensures { Gives (λ x. (x.0, x.1.now)) result (need_at bytes.now) }
{
    let (need, rest) = byte_of(bytes)?;
    let (advance, rest) = byte_of(rest)?;
    kept(advance <= need, (need, advance), rest)
}

/// When an entry is taken, and how far it goes.
#[derive(Clone, Copy)]
struct EntryHead {
    state: u8,
    value: u32,
    mask: u32,
    need: u8,
    advance: u8,
}

fn entry_head_of<'a>(states: &[ParserState], least: u32, bytes: &'a [u8]) -> Read<'a, EntryHead>
    ensures { Gives (λ x. (x.0, x.1.now)) result (entry_head_at states.now least bytes.now) }
{
    let (state, rest) = entry_state_of(states.len(), least, bytes)?;
    let ((value, mask), rest) = match_of(count_lookups(states, state), rest)?;
    let ((need, advance), rest) = need_of(rest)?;
    let head = EntryHead {
        state,
        value,
        mask,
        need,
        advance,
    };
    Ok((head, rest))
}

// ---- what an entry does

fn later_state_of(states: usize, state: u8, bytes: &[u8]) -> Read<u8>
    ensures { Gives (λ x. (x.0, x.1.now)) result (later_state_at states state bytes.now) }
{
    let (to, rest) = byte_of(bytes)?;
    kept((to as usize) < states && state < to, to, rest)
}

fn next_of(states: usize, state: u8, bytes: &[u8]) -> Read<Next>
    ensures { Gives (λ x. (x.0, x.1.now)) result (next_at states state bytes.now) }
{
    match bytes {
        [] => Err(ReadError::Fault(ReadFault::Short)),
        [0, rest @ ..] => Ok((Next::Accept, rest)),
        [1, rest @ ..] => Ok((Next::Reject, rest)),
        [2, rest @ ..] => {
            let (to, rest) = later_state_of(states, state, rest)?;
            Ok((Next::State(to), rest))
        }
        _ => Err(ReadError::Fault(ReadFault::Form)),
    }
}

fn bits_of(need: u8, bytes: &[u8]) -> Read<(u16, Lane)>
    ensures { Gives (λ x. (x.0, x.1.now)) result (bits_at need bytes.now) }
{
    let (from, rest) = two_of(bytes)?;
    let (lane, rest) = lane_of(rest)?;
    kept(
        from as u32 + lane.len as u32 <= 8 * need as u32,
        (from, lane),
        rest,
    )
}

/// Within the bytes that an entry needs.
impl Item<u8> for Extract {
    const LEAST_SIZE: usize = 4;

    ghost item_at = { extract_at };

    fn read(_alloc: Global, need: u8, bytes: &[u8]) -> Read<Extract> {
        match bytes {
            [] => Err(ReadError::Fault(ReadFault::Short)),
            [0, rest @ ..] => {
                let ((from, lane), rest) = bits_of(need, rest)?;
                Ok((Extract::Bits { from, lane }, rest))
            }
            [1, rest @ ..] => {
                let (lane, rest) = lane_of_bits(1, rest)?;
                Ok((Extract::One { lane }, rest))
            }
            _ => Err(ReadError::Fault(ReadFault::Form)),
        }
    }
}

// ---- entries

#[derive(Drop)]
struct Entries<'s> {
    states: &'s [ParserState],
}

impl<'s> InOrder for Entries<'s> {
    type Item = ParserEntry;

    const LEAST_SIZE: usize = 13;

    ghost item_at = { λ list. entry_at list.states.now };

    ghost after = { λ _. state_of };

    fn item<'a>(&self, alloc: Global, least: u32, bytes: &'a [u8]) -> Read<'a, ParserEntry> {
        let (head, rest) = entry_head_of(self.states, least, bytes)?;
        let (next, rest) = next_of(self.states.len(), head.state, rest)?;
        let (extracts, rest) = list8_of(alloc, head.need, rest)?;
        let entry = ParserEntry {
            state: head.state,
            value: head.value,
            mask: head.mask,
            need: head.need,
            advance: head.advance,
            next,
            extracts,
        };
        Ok((entry, rest))
    }

    fn least_after(&self, entry: &ParserEntry) -> u32 {
        entry.state as u32
    }
}

fn entries_of<'a>(
    alloc: Global,
    states: &[ParserState],
    bytes: &'a [u8],
) -> Read<'a, Sequence<ParserEntry>>
    ensures { Gives (λ x. (x.0, x.1.now)) result (listed (number_at 2) (items_at (entry_at states.now) state_of 0) bytes.now) }
{
    let (count, rest) = two_of(bytes)?;
    items_of(alloc, &Entries { states }, count as u64, rest)
}

/// The states behind their count, and the entries behind theirs.
pub fn parser_of(alloc: Global, bytes: &[u8]) -> Read<ParserConfig>
    ensures read { Gives (λ x. (x.0, x.1.now)) result (parser_at bytes.now) }
{
    let (states, rest) = states_of(alloc, bytes)?;
    let (entries, rest) = entries_of(alloc, states.as_slice(), rest)?;
    let tails = Sequence::new(alloc);
    Ok((
        ParserConfig {
            states,
            entries,
            tails,
        },
        rest,
    ))
}
