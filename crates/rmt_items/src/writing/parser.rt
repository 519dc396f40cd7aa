//! The parser: its states, entries and extracts.

ghost use Rattle.std.specs.Prelude.{◌≡◌, ◌++◌, OnOk};
ghost use Rattle.rmt_config.specs.Spelling.{spelled_state, spelled_next, spelled_extract, spelled_entry_head, spelled_entry, spelled_parser, CountsFitState, CountsFitEntry, CountsFitParser};

use crate::writing::spelled::{Spelled, put_four, put_list8, put_list16, put_two};
use rmt_config::config::{Extract, Next, ParserConfig, ParserEntry, ParserState};
use std::alloc::AllocError;

impl Spelled for ParserState {
    ghost spelling = { spelled_state };

    ghost fits = { CountsFitState };

    fn put(&self, out: &mut Vec<u8>) -> Result<(), AllocError> {
        out.push(self.lookups.len() as u8)?;
        out.extend_from_slice(self.lookups.as_slice())
    }
}

fn put_next(out: &mut Vec<u8>, next: Next) -> Result<(), AllocError>
    ensures { OnOk result (out.new.items ≡ out.old.items ++ spelled_next next) }
{
    match next {
        Next::Accept => out.extend_from_slice(&[0]),
        Next::Reject => out.extend_from_slice(&[1]),
        Next::State(state) => out.extend_from_slice(&[2, state]),
    }
}

impl Spelled for Extract {
    ghost spelling = { spelled_extract };

    fn put(&self, out: &mut Vec<u8>) -> Result<(), AllocError> {
        match self {
            Extract::Bits { from, lane } => {
                out.push(0)?;
                put_two(out, *from)?;
                lane.put(out)
            }
            Extract::One { lane } => {
                out.push(1)?;
                lane.put(out)
            }
        }
    }
}

fn put_entry_head(out: &mut Vec<u8>, entry: &ParserEntry) -> Result<(), AllocError>
    ensures { OnOk result (out.new.items ≡ out.old.items ++ spelled_entry_head entry.now) }
{
    out.push(entry.state)?;
    put_four(out, entry.value)?;
    put_four(out, entry.mask)?;
    out.extend_from_slice(&[entry.need, entry.advance])
}

impl Spelled for ParserEntry {
    ghost spelling = { spelled_entry };

    ghost fits = { CountsFitEntry };

    fn put(&self, out: &mut Vec<u8>) -> Result<(), AllocError> {
        put_entry_head(out, self)?;
        put_next(out, self.next)?;
        put_list8(out, self.extracts.as_slice())
    }
}

/// The states and the entries of a parser, each list behind its count; its tails stand elsewhere.
pub fn put_parser(out: &mut Vec<u8>, parser: &ParserConfig) -> Result<(), AllocError>
    requires { CountsFitParser parser.now }
    ensures put { OnOk result (out.new.items ≡ out.old.items ++ spelled_parser parser.now) }
{
    put_list16(out, parser.states.as_slice())?;
    put_list16(out, parser.entries.as_slice())
}
