//! The rules of form of the parser's states and entries.

ghost use Rattle.std.specs.Prelude.{◌≡◌, ◌==◌, ◌*◌, ◌-◌, ◌^◌, ◌%◌, map, nat_lt};
ghost use Rattle.std.specs.List.{list_all};
ghost use Rattle.rmt_config.specs.Order.{rises_from, never_falls_from};
ghost use Rattle.rmt_config.specs.ParserForm.{state_is_formed, states_are_formed, extract_is_formed, next_is_formed, lookups_of, match_is_formed, entry_is_formed, entries_are_formed, parser_is_formed};
ghost use Rattle.rmt_config.specs.declared.config.ParserEntry.{ParserEntry};

use crate::config::{Extract, Next, ParserConfig, ParserEntry, ParserState};
use crate::form::lane::{lane_fits, lane_fits_of};
use crate::form::number::{fits_byte, fits_four_bytes, fits_two_bytes};
use crate::form::tails::tails_fit;

fn offsets_rise(offsets: &[u8]) -> bool
    ensures { result ≡ rises_from 0 offsets.now }
{
    let mut least: u16 = 0;
    for offset in offsets {
        if (*offset as u16) < least {
            return false;
        }
        least = *offset as u16 + 1;
    }
    true
}

fn offsets_are_small(offsets: &[u8]) -> bool
    ensures { result ≡ list_all (λ offset. nat_lt offset 128) offsets.now }
{
    offsets.iter().all(|offset| *offset < 128)
}

fn state_fits(state: &ParserState) -> bool
    ensures { result ≡ state_is_formed state.now }
{
    offsets_rise(state.lookups.as_slice()) && offsets_are_small(state.lookups.as_slice())
}

fn each_state_fits(states: &[ParserState]) -> bool
    ensures { result ≡ list_all state_is_formed states.now }
{
    states.iter().all(state_fits)
}

fn states_fit(states: &[ParserState]) -> bool
    ensures { result ≡ states_are_formed states.now }
{
    1 <= states.len() && states.len() < 65536 && each_state_fits(states)
}

fn extract_fits(need: u8, extract: Extract) -> bool
    ensures { result ≡ extract_is_formed need extract }
{
    match extract {
        Extract::Bits { from, lane } => {
            fits_two_bytes(from)
                && lane_fits(lane)
                && from as u32 + lane.len as u32 <= 8 * need as u32
        }
        Extract::One { lane } => lane_fits_of(1, lane),
    }
}

fn extracts_fit(need: u8, extracts: &[Extract]) -> bool
    ensures { result ≡ list_all (extract_is_formed need) extracts.now }
{
    extracts.iter().all(|extract| extract_fits(need, *extract))
}

fn next_fits(states: usize, state: u8, next: Next) -> bool
    ensures { result ≡ next_is_formed states state next }
{
    match next {
        Next::Accept => true,
        Next::Reject => true,
        Next::State(to) => (to as usize) < states && fits_byte(to) && state < to,
    }
}

/// How many bytes the entries of a state look at; none where there is no such state.
fn count_lookups(states: &[ParserState], state: u8) -> usize
    ensures { result ≡ lookups_of states.now state }
{
    match states.get(state as usize) {
        Some(state) => state.lookups.len(),
        None => 0,
    }
}

/// Whether a mask has no bit of the bytes behind that many lookup bytes, of which the first is the highest of four.
fn masks_only(lookups: usize, mask: u32) -> bool
    ensures { result ≡ (mask % 2 ^ (8 * (4 - lookups)) == 0) }
{
    let absent = 4usize.saturating_sub(lookups) as u32;
    mask as u64 % (1u64 << (8 * absent)) == 0
}

fn match_fits(lookups: usize, entry: &ParserEntry) -> bool
    ensures { result ≡ match_is_formed lookups entry.now }
{
    fits_four_bytes(entry.mask)
        && entry.value & entry.mask == entry.value
        && masks_only(lookups, entry.mask)
}

fn entry_fits(states: &[ParserState], entry: &ParserEntry) -> bool
    ensures { result ≡ entry_is_formed states.now entry.now }
{
    (entry.state as usize) < states.len()
        && fits_byte(entry.state)
        && match_fits(count_lookups(states, entry.state), entry)
        && fits_byte(entry.need)
        && entry.advance <= entry.need
        && next_fits(states.len(), entry.state, entry.next)
        && entry.extracts.len() < 256
        && extracts_fit(entry.need, entry.extracts.as_slice())
}

fn each_entry_fits(states: &[ParserState], entries: &[ParserEntry]) -> bool
    ensures { result ≡ list_all (entry_is_formed states.now) entries.now }
{
    entries.iter().all(|entry| entry_fits(states, entry))
}

fn stand_by_state(entries: &[ParserEntry]) -> bool
    ensures { result ≡ never_falls_from 0 (map (λ (e : ParserEntry). e.state) entries.now) }
{
    let mut least = 0;
    for entry in entries {
        if entry.state < least {
            return false;
        }
        least = entry.state;
    }
    true
}

fn entries_fit(parser: &ParserConfig) -> bool
    ensures { result ≡ entries_are_formed parser.now }
{
    let entries = parser.entries.as_slice();
    entries.len() < 65536
        && each_entry_fits(parser.states.as_slice(), entries)
        && stand_by_state(entries)
}

/// Whether the states, the entries and the tails of the parser fit.
pub fn parser_fits(parser: &ParserConfig) -> bool
    ensures { result ≡ parser_is_formed parser.now }
{
    states_fit(parser.states.as_slice()) && entries_fit(parser) && tails_fit(parser)
}
