//! Programs and frames by chance, from fixed seeds: both parsers and the plain run end alike.

ghost use Rattle.std.specs.Prelude.{◌+◌, ◌<◌, ◌≤◌, length};

use crate::joins::alike::both_parsed;
use crate::parsers::{Rule, parser_of};
use rmt_bits::answer::Verdict;
use rmt_entries::entries;
use rmt_plain::plain::Plain;
use rmt_ptcam::parse::Parsed;
use rmt_tests::fixtures::texts::program_of;
use std::alloc::{AllocError, Global};
use std::process::Abort;
use std::test::*;

/// Numbers by chance: a linear congruential generator, of which the high bits are taken.
#[derive(Drop)]
struct Chance {
    state: u64,
}

impl Chance {
    /// A number below another one.
    fn below(&mut self, end: u32) -> u32
        requires { 0 < end }
        ensures { result < end }
    {
        self.state = self
            .state
            .wrapping_mul(6364136223846793005)
            .wrapping_add(1442695040888963407);
        ((self.state >> 33) % u64::from(end)) as u32
    }
}

/// The fields of a header: a `k` by which it selects, and of those that may have a tail an `n`.
const FIELDS: [&str; 5] = [
    "k : 8;",
    "x : 12; k : 4;",
    "n : 4; k : 4;",
    "n : 2; k : 6;",
    "k : 4; n : 4; y : 8;",
];

/// Tails of those with an `n`.
const TAILS: [&str; 3] = ["", " tail n * 2 - 1;", " tail n * 1 - 0;"];

/// A case to the header so many behind the next one, or else to an end, where so many headers are left with this one.
fn push_target(out: &mut String, target: u32, number: u32, left: u32) -> Result<(), AllocError>
    requires there { target ≤ left }
    requires few { number + left ≤ 6 }
{
    if target + 1 < left {
        write!(out, "h{}; ", number + 1 + target)
    } else if target < left {
        out.push_str("accept; ")
    } else {
        out.push_str("reject; ")
    }
}

/// The header with this number, of so many.
fn push_header(
    out: &mut String,
    chance: &mut Chance,
    number: u32,
    count: u32,
) -> Result<(), AllocError>
    requires behind { number < count }
    requires few { count ≤ 6 }
{
    let left = count - number;
    let layout = chance.below(5) as usize;
    write!(out, "header h{number} {{ {}", FIELDS[layout])?;
    if layout >= 2 {
        out.push_str(TAILS[chance.below(3) as usize])?;
    }
    out.push_str(" } next (k) { 1 : ")?;
    push_target(out, chance.below(left + 1), number, left)?;
    out.push_str("2 : ")?;
    push_target(out, chance.below(left + 1), number, left)?;
    out.push_str("else : ")?;
    push_target(out, chance.below(left + 1), number, left)?;
    out.push_str("} ")
}

/// The text of a program with 3 to 6 headers.
fn program_text(alloc: Global, chance: &mut Chance) -> Result<String, AllocError> {
    let mut out = String::new(alloc);
    let count = 3 + chance.below(4);
    for number in 0..count {
        push_header(&mut out, chance, number, count)?;
    }
    out.push_str("control { }")?;
    Ok(out)
}

/// A frame of at most 60 bytes, each of two small digits.
fn frame_of(alloc: Global, chance: &mut Chance) -> Result<Vec<u8>, AllocError> {
    let mut frame = Vec::new(alloc);
    for _ in 0..20 + chance.below(41) {
        let high = chance.below(3) as u8;
        let low = chance.below(3) as u8;
        frame.push(16 * high + low)?;
    }
    Ok(frame)
}

/// The plain run of a text without entries.
fn plain_run(alloc: Global, text: &[u8]) -> Option<Plain>
    requires { length text.now < 4294967295 }
{
    let Ok(program) = program_of(alloc, text) else {
        return None;
    };
    let Ok(lists) = entries(alloc, &program, b"") else {
        return None;
    };
    Plain::new(alloc, program, lists).ok()
}

/// Whether a parse ends as the plain run does.
fn ends_as(parsed: Parsed, verdict: Verdict) -> bool {
    match parsed {
        Parsed::Short => verdict == Verdict::Short,
        Parsed::Reject => verdict == Verdict::Reject,
        Parsed::Accept { .. } => verdict != Verdict::Short && verdict != Verdict::Reject,
    }
}

/// How many frames end in each way, and how many programs have entries that are joined.
#[derive(Clone, Copy)]
struct Seen {
    short: usize,
    rejected: usize,
    accepted: usize,
    joined: usize,
}

fn see(seen: &mut Seen, parsed: Parsed) {
    match parsed {
        Parsed::Short => seen.short = seen.short.saturating_add(1),
        Parsed::Reject => seen.rejected = seen.rejected.saturating_add(1),
        Parsed::Accept { .. } => seen.accepted = seen.accepted.saturating_add(1),
    }
}

/// Compares the three on frames, each cut at each byte and whole.
fn compare(rt: &(impl Abort + AllocGlobal), chance: &mut Chance, text: &[u8], seen: &mut Seen) {
    assert!(rt; text.len() < 10000);
    let plain = parser_of(rt.alloc(), text, Rule::Plain).expect(rt, "a parser");
    let clustered = parser_of(rt.alloc(), text, Rule::Clustered).expect(rt, "a parser");
    let mut run = plain_run(rt.alloc(), text).expect(rt, "a program");
    if clustered.states.len() < plain.states.len() {
        seen.joined = seen.joined.saturating_add(1);
    }
    for _ in 0..3 {
        let frame = frame_of(rt.alloc(), chance).expect(rt, "memory");
        assert!(rt; frame.len() < 9217);
        for len in 1..frame.len() + 1 {
            let front = &frame.as_slice()[..len];
            let parsed = both_parsed(&plain, &clustered, front).expect(rt, "ends alike");
            let answer = run.packet(rt.alloc(), 0, front).expect(rt, "memory");
            assert!(rt; ends_as(parsed, answer.verdict));
            see(seen, parsed);
        }
    }
}

#[test]
fn programs_by_chance(rt: HostRuntime) -> Result<(), Fail> {
    let mut chance = Chance { state: 20 };
    let mut seen = Seen {
        short: 0,
        rejected: 0,
        accepted: 0,
        joined: 0,
    };
    for _ in 0..20 {
        let text = program_text(rt.alloc(), &mut chance)?;
        compare(&rt, &mut chance, text.as_bytes(), &mut seen);
    }
    assert!(rt; seen.short > 99 && seen.rejected > 99 && seen.accepted > 99 && seen.joined > 9);
    Ok(())
}
