//! One entry of the parser.

ghost use Rattle.std.specs.Prelude.{◌≡◌, ◌+◌, ◌*◌, ◌<◌, ◌≤◌, ◌^◌, ℕ, List, length, Some};
ghost use Rattle.rmt_config.specs.declared.tails.TailAt.{TailAt};
ghost use Rattle.rmt_config.specs.Parser.{Parse, Reached, step as step_of, follow as follow_of, past_tail as past_tail_of, tail_length as tail_length_of};
ghost use Rattle.rmt_bits.specs.Bits.{bits_of_bytes as bits_of};
ghost use Rattle.rmt_ptcam.specs.Parsing.{StandsIn, standing, StepGives, StaysWithin};
ghost use Rattle.rmt_ptcam.specs.Fitting.{IsEntryWith};

use crate::parse::extract::extract_all;
use rmt_bits::bits::bits_of_bytes;
use rmt_config::config::{Next, ParserEntry, TailOf};
use rmt_config::tails::Tails;
use rmt_config::vector::Vector;

/// How one state of the parser ends.
#[derive(Clone, Copy)]
pub enum Step {
    Short,
    Reject,
    Accept { used: u32 },
    Go { state: u8, cursor: u32 },
}

/// Where the parser goes from a byte of the frame. `goes` stands for the states to come.
fn follow(next: Next, cursor: u32) -> Step
    ensures step { (goes : ℕ → Reached → Parse) (vector : List ℕ) (tails : List TailAt) →
        StepGives goes (follow_of goes next (standing vector tails cursor)) result vector tails }
    ensures within { (size : ℕ) → cursor ≤ size → StaysWithin size result }
{
    match next {
        Next::Accept => Step::Accept { used: cursor },
        Next::Reject => Step::Reject,
        Next::State(state) => Step::Go { state, cursor },
    }
}

/// The length of a tail, by packet bits of the window; `None` where it would be negative.
fn tail_length(window: &[u8], tail: TailOf) -> Option<u32>
    requires few_bits { tail.len ≤ 8 }
    requires within { tail.from + tail.len ≤ 8 * length window.now }
    ensures { result ≡ tail_length_of (bits_of window.now tail.from tail.len) tail.unit tail.base }
{
    let value = bits_of_bytes(window, u32::from(tail.from), tail.len) as u32;
    (value * u32::from(tail.unit)).checked_sub(u32::from(tail.base))
}

/// Past a tail at a byte of the frame, behind which `left` bytes of the frame are left that the entry doesn't need.
fn past_tail(
    window: &[u8],
    left: usize,
    tail: TailOf,
    next: Next,
    cursor: u32,
    tails: &mut Tails,
) -> Step
    requires header { tail.header < 64 }
    requires few_bits { tail.len ≤ 8 }
    requires within { tail.from + tail.len ≤ 8 * length window.now }
    requires short { cursor + left ≤ 9216 }
    ensures step { (goes : ℕ → Reached → Parse) (vector : List ℕ) →
        StepGives goes (past_tail_of (follow_of goes next) window.now left (Some tail) (standing vector tails.old cursor)) result vector tails.new }
    ensures within { (size : ℕ) → cursor + left ≤ size → StaysWithin size result }
{
    match tail_length(window, tail) {
        None => Step::Reject,
        Some(len) if left < len as usize => Step::Short,
        Some(len) => {
            tails.set(tail.header, cursor as u16, len as u16);
            follow(next, cursor + len)
        }
    }
}

/// What an entry with its tail does at a byte of the frame. `goes` stands for the states to come.
pub fn take_entry(
    entry: &ParserEntry,
    tail: Option<TailOf>,
    frame: &[u8],
    cursor: u32,
    vector: &mut Vector,
    tails: &mut Tails,
) -> Step
    requires stands { StandsIn cursor frame.now }
    requires fits { IsEntryWith entry.now tail }
    ensures step { (goes : ℕ → Reached → Parse) →
        StepGives goes (step_of goes frame.now tail (Some entry.now) (standing vector.old tails.old cursor)) result vector.new tails.new }
    ensures within { StaysWithin (length frame.now) result }
{
    let need = entry.need as usize;
    let end = cursor as usize + need;
    if frame.len() < end {
        return Step::Short;
    }
    let window = &frame[cursor as usize..end];
    extract_all(vector, window, entry.extracts.as_slice());
    let next = cursor + u32::from(entry.advance);
    match tail {
        None => follow(entry.next, next),
        Some(tail) => past_tail(window, frame.len() - end, tail, entry.next, next, tails),
    }
}
