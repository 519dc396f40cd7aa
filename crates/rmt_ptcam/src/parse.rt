//! The parse of a whole frame.

ghost use Rattle.std.specs.Prelude.{◌≡◌, ◌≤◌, ℕ, length, slice_get, replicate};
ghost use Rattle.rmt_config.specs.Parser.{Parse, Reached, parse as parse_of, taken, entry_of, value_at, no_tail};
ghost use Rattle.rmt_ptcam.specs.Parsing.{StandsIn, standing, StepGives, StaysWithin, RunGives, ParsesTo};
ghost use Rattle.rmt_ptcam.specs.Fitting.{IsParser};

mod extract;
pub(crate) mod lookup_value;
pub(crate) mod search;
mod step;

use crate::parse::lookup_value::lookup;
use crate::parse::search::{entry_number, entry_tail};
use crate::parse::step::{Step, take_entry};
use rmt_config::config::ParserConfig;
use rmt_config::tails::Tails;
use rmt_config::vector::Vector;

/// How a parse ends.
#[derive(Clone, Copy, Debug, PartialEq, Eq)]
pub enum Parsed {
    /// The frame has fewer bytes than an entry or a tail takes.
    Short,
    /// The parser rejects it.
    Reject,
    /// It is accepted.
    Accept {
        /// The number of the byte with which the payload begins.
        used: u32,
    },
}

/// What a state looks up at a byte of the frame; a state that does not exist looks up nothing.
fn value_of(parser: &ParserConfig, frame: &[u8], state: u8, cursor: u32) -> u32
    requires { cursor ≤ 9216 }
    ensures { result ≡ value_at frame.now cursor (slice_get parser.now.states state) }
{
    match parser.states.get(usize::from(state)) {
        Some(state) => lookup(frame, cursor, state),
        None => 0,
    }
}

/// One state of the parser at a byte of the frame. `goes` stands for the states to come.
fn one_state(
    parser: &ParserConfig,
    frame: &[u8],
    state: u8,
    cursor: u32,
    vector: &mut Vector,
    tails: &mut Tails,
) -> Step
    requires stands { StandsIn cursor frame.now }
    requires fits { IsParser parser.now }
    ensures step { (goes : ℕ → Reached → Parse) →
        StepGives goes (taken goes parser.now frame.now
        (entry_of parser.now state (value_at frame.now cursor (slice_get parser.now.states state))) (standing vector.old tails.old cursor)) result vector.new tails.new }
    ensures within { StaysWithin (length frame.now) result }
{
    let value = value_of(parser, frame, state, cursor);
    match entry_number(parser, state, value) {
        Some(number) => {
            let tail = entry_tail(parser, number);
            let entries = parser.entries.as_slice();
            take_entry(&entries[number], tail, frame, cursor, vector, tails)
        }
        None => Step::Reject,
    }
}

/// The states of the parser, one after another.
fn run(parser: &ParserConfig, frame: &[u8], vector: &mut Vector, tails: &mut Tails) -> Parsed
    requires zero { vector.old ≡ replicate 224 0 }
    requires empty { tails.old ≡ replicate 64 no_tail }
    requires short { length frame.now ≤ 9216 }
    requires fits { IsParser parser.now }
    ensures { RunGives (parse_of parser.now frame.now) result vector.new tails.new }
{
    let mut state = 0;
    let mut cursor = 0;
    for _k in 0..parser.states.len() {
        match one_state(parser, frame, state, cursor, vector, tails) {
            Step::Short => return Parsed::Short,
            Step::Reject => return Parsed::Reject,
            Step::Accept { used } => return Parsed::Accept { used },
            Step::Go {
                state: next,
                cursor: at,
            } => {
                state = next;
                cursor = at;
            }
        }
    }
    Parsed::Reject
}

/// Parses a frame of at most 9,216 bytes: what the parser puts into the vector, which holds 0 elsewhere, and where the
/// tails of the headers stand in the frame. Where the frame is not accepted every word is 0 and every tail empty.
///
/// It takes no memory. Its cost grows with the states that the frame meets, their entries and the extracts that are
/// done; the entries and tails of a state are found by binary search.
pub fn parse_chip(
    parser: &ParserConfig,
    frame: &[u8],
    into: &mut Vector,
    tails: &mut Tails,
) -> Parsed
    requires short { length frame.now ≤ 9216 }
    requires fits { IsParser parser.now }
    // Short, rejected, or accepted with the payload, the vector and the tails that the chip's parse gives.
    ensures { ParsesTo (parse_of parser.now frame.now) result into.new tails.new }
{
    *into = Vector::new();
    *tails = Tails::new();
    let parsed = run(parser, frame, into, tails);
    if !matches!(parsed, Parsed::Accept { .. }) {
        *into = Vector::new();
        *tails = Tails::new();
    }
    parsed
}
