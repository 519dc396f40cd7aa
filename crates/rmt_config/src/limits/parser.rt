//! The limits of the parser.

ghost use Rattle.std.specs.Prelude.{◌≡◌};
ghost use Rattle.rmt_config.specs.Limits.{first_hit, lookups_hit, entry_hit, parser_limit_hit};

use crate::config::{ParserConfig, ParserEntry, ParserState};
use crate::limits::total::told_length;
use crate::limits::{LimitHit, over};

fn over_in_states(states: &[ParserState]) -> Option<LimitHit>
    ensures { result ≡ first_hit lookups_hit states.now }
{
    for state in states {
        if let Some(hit) = over(4, 4, 0, told_length(state.lookups.len())) {
            return Some(hit);
        }
    }
    None
}

fn over_in_entry(entry: &ParserEntry) -> Option<LimitHit>
    ensures { result ≡ entry_hit entry.now }
{
    match over(128, 5, 0, entry.need as u32) {
        Some(hit) => Some(hit),
        None => over(64, 5, 0, told_length(entry.extracts.len())),
    }
}

fn over_in_entries(entries: &[ParserEntry]) -> Option<LimitHit>
    ensures { result ≡ first_hit entry_hit entries.now }
{
    for entry in entries {
        if let Some(hit) = over_in_entry(entry) {
            return Some(hit);
        }
    }
    None
}

/// The first limit on the parser that is passed.
pub fn over_in_parser(parser: &ParserConfig) -> Option<LimitHit>
    ensures { result ≡ parser_limit_hit parser.now }
{
    if let Some(hit) = over(256, 3, 0, told_length(parser.entries.len())) {
        return Some(hit);
    }
    if let Some(hit) = over(256, 3, 0, told_length(parser.states.len())) {
        return Some(hit);
    }
    if let Some(hit) = over_in_states(parser.states.as_slice()) {
        return Some(hit);
    }
    over_in_entries(parser.entries.as_slice())
}
