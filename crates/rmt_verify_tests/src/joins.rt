//! Entries of parsers that are joined: each case in which one isn't, and beside it one that just is.

ghost use Rattle.std.specs.Prelude.{◌<◌};

mod alike;
mod hostile;
mod random;
mod replays;

use rmt_bits::answer::Bytes;
use rmt_bits::lane::Lane;
use rmt_bits::sequence::Sequence;
use rmt_config::config::{Extract, Next, ParserConfig, ParserEntry, ParserState, TailOf};
use rmt_config::form::parser::parser_fits;
use rmt_ptcam::fault::JoinFault;
use rmt_ptcam::join;
use rmt_ptcam::joining::count_in;
use std::alloc::{AllocError, Global};
use std::process::Abort;
use std::test::*;

/// A parser of three states: the first with one entry, the second the one to which it goes, and the third met by none.
#[derive(Clone, Copy)]
struct Shape {
    here: &'static [u8],
    mask: u32,
    need: u8,
    next: Next,
    extracts: usize,
    tail: Option<u16>,
    there: &'static [u8],
    entries: usize,
    last_mask: u32,
    next_need: u8,
    next_extracts: usize,
    filling: usize,
}

/// By how many bytes the first entry moves the cursor.
const ADVANCE: u8 = 14;

/// What is otherwise in a parser than in the one that is joined.
#[derive(Clone, Copy)]
enum Change {
    /// The lookups of the first state.
    Here(&'static [u8]),
    /// The mask of its entry.
    Mask(u32),
    /// The bytes that its entry needs.
    Need(u8),
    /// Where its entry goes.
    Next(Next),
    /// How many extracts its entry has.
    Extracts(usize),
    /// The number of an entry with a tail.
    Tail(u16),
    /// The lookups of the second state.
    There(&'static [u8]),
    /// How many entries the second state has.
    Entries(usize),
    /// The mask of its last entry.
    LastMask(u32),
    /// The bytes that its first entry needs.
    NextNeed(u8),
    /// How many extracts its first entry has.
    NextExtracts(usize),
    /// How many entries the third state has.
    Filling(usize),
}

fn changed(shape: Shape, change: Change) -> Shape {
    let mut shape = shape;
    match change {
        Change::Here(offsets) => shape.here = offsets,
        Change::Mask(mask) => shape.mask = mask,
        Change::Need(need) => shape.need = need,
        Change::Next(next) => shape.next = next,
        Change::Extracts(count) => shape.extracts = count,
        Change::Tail(entry) => shape.tail = Some(entry),
        Change::There(offsets) => shape.there = offsets,
        Change::Entries(count) => shape.entries = count,
        Change::LastMask(mask) => shape.last_mask = mask,
        Change::NextNeed(need) => shape.next_need = need,
        Change::NextExtracts(count) => shape.next_extracts = count,
        Change::Filling(count) => shape.filling = count,
    }
    shape
}

fn shape_of(changes: &[Change]) -> Shape {
    let mut shape = Shape {
        here: &[12],
        mask: 0xff000000,
        need: ADVANCE,
        next: Next::State(1),
        extracts: 1,
        tail: None,
        there: &[0],
        entries: 2,
        last_mask: 0,
        next_need: 8,
        next_extracts: 1,
        filling: 0,
    };
    for change in changes {
        shape = changed(shape, *change);
    }
    shape
}

fn lookups(alloc: Global, offsets: &[u8]) -> Result<ParserState, AllocError> {
    let lookups = Bytes::from_vec(Vec::from_slice(alloc, offsets)?);
    Ok(ParserState { lookups })
}

fn states_of(alloc: Global, shape: &Shape) -> Result<Sequence<ParserState>, AllocError> {
    let mut states = Sequence::new(alloc);
    states.push(lookups(alloc, shape.here)?)?;
    states.push(lookups(alloc, shape.there)?)?;
    states.push(lookups(alloc, &[])?)?;
    Ok(states)
}

/// So many extracts of one bit each.
fn extracts(alloc: Global, count: usize) -> Result<Sequence<Extract>, AllocError> {
    let lane = Lane {
        word: 0,
        low: 0,
        len: 1,
    };
    let mut list = Sequence::new(alloc);
    for _ in 0..count {
        list.push(Extract::One { lane })?;
    }
    Ok(list)
}

/// An entry that moves the cursor by all that it needs, and accepts.
fn accepting(
    alloc: Global,
    state: u8,
    mask: u32,
    need: u8,
    count: usize,
) -> Result<ParserEntry, AllocError> {
    Ok(ParserEntry {
        state,
        value: mask,
        mask,
        need,
        advance: need,
        next: Next::Accept,
        extracts: extracts(alloc, count)?,
    })
}

fn first_entry(alloc: Global, shape: &Shape) -> Result<ParserEntry, AllocError> {
    Ok(ParserEntry {
        state: 0,
        value: shape.mask,
        mask: shape.mask,
        need: shape.need,
        advance: ADVANCE,
        next: shape.next,
        extracts: extracts(alloc, shape.extracts)?,
    })
}

fn entries_of(alloc: Global, shape: &Shape) -> Result<Sequence<ParserEntry>, AllocError> {
    let mut entries = Sequence::new(alloc);
    entries.push(first_entry(alloc, shape)?)?;
    for left in (0..shape.entries).rev() {
        let mask = if left == 0 {
            shape.last_mask
        } else {
            0xff000000
        };
        let entry = if entries.len() == 1 {
            accepting(alloc, 1, mask, shape.next_need, shape.next_extracts)?
        } else {
            accepting(alloc, 1, mask, 8, 1)?
        };
        entries.push(entry)?;
    }
    for _ in 0..shape.filling {
        entries.push(accepting(alloc, 2, 0, 0, 0)?)?;
    }
    Ok(entries)
}

fn tails_of(alloc: Global, shape: &Shape) -> Result<Sequence<TailOf>, AllocError> {
    let mut tails = Sequence::new(alloc);
    if let Some(entry) = shape.tail {
        tails.push(TailOf {
            entry,
            header: 0,
            from: 0,
            len: 4,
            unit: 4,
            base: 4,
        })?;
    }
    Ok(tails)
}

fn parser_of_shape(alloc: Global, shape: &Shape) -> Result<ParserConfig, AllocError> {
    Ok(ParserConfig {
        states: states_of(alloc, shape)?,
        entries: entries_of(alloc, shape)?,
        tails: tails_of(alloc, shape)?,
    })
}

/// What comes of the first entry.
#[derive(Clone, Copy, Debug, PartialEq, Eq)]
enum Answer {
    /// The parser doesn't keep the rules of form.
    Ill,
    /// The entry can't be joined.
    Kept,
    /// It is joined, and so many entries stand.
    Joined(usize),
}

fn end_of_join(alloc: Global, parser: &ParserConfig) -> Result<Answer, JoinFault> {
    if !parser_fits(parser) || count_in(parser.entries.as_slice(), 0) == 0 {
        return Ok(Answer::Ill);
    }
    match join(alloc, parser, 0, 0)? {
        None => Ok(Answer::Kept),
        Some(joined) => Ok(Answer::Joined(joined.entries.len())),
    }
}

/// Changes, and what comes of the first entry.
type Row = (&'static [Change], Answer);

/// Compares what comes of each row.
fn compares(rt: &(impl Abort + AllocGlobal), rows: &[Row]) {
    for (changes, want) in rows {
        let parser = parser_of_shape(rt.alloc(), &shape_of(changes)).expect(rt, "memory");
        let got = end_of_join(rt.alloc(), &parser).expect(rt, "memory");
        assert!(rt; got == *want);
    }
}

/// Entries that go to no state, need more than they move, compare a byte behind that, or have a tail.
const FIRST: [Row; 13] = [
    (&[], Answer::Joined(4)),
    (&[Change::Next(Next::Accept)], Answer::Kept),
    (&[Change::Next(Next::Reject)], Answer::Kept),
    (
        &[Change::Next(Next::State(2)), Change::Filling(1)],
        Answer::Joined(4),
    ),
    (&[Change::Need(15)], Answer::Kept),
    (&[Change::Here(&[13])], Answer::Joined(4)),
    (&[Change::Here(&[14])], Answer::Kept),
    (
        &[Change::Here(&[14]), Change::Mask(0x01000000)],
        Answer::Kept,
    ),
    (&[Change::Here(&[14]), Change::Mask(0)], Answer::Joined(4)),
    (
        &[Change::Here(&[13, 15]), Change::Mask(0x80010000)],
        Answer::Kept,
    ),
    (
        &[Change::Here(&[13, 15]), Change::Mask(0x81000000)],
        Answer::Joined(4),
    ),
    (&[Change::Tail(0)], Answer::Kept),
    (&[Change::Tail(1)], Answer::Joined(4)),
];

/// States without an entry, or whose last entry compares something.
const NEXT: [Row; 5] = [
    (&[Change::Entries(0)], Answer::Kept),
    (&[Change::Entries(1)], Answer::Joined(2)),
    (&[Change::LastMask(0x01000000)], Answer::Kept),
    (
        &[Change::Entries(1), Change::LastMask(0x80000000)],
        Answer::Kept,
    ),
    (&[Change::Next(Next::State(2))], Answer::Kept),
];

/// Lookups of both states: 5 and 4 of them, also with one that both have, and one behind 128 bytes.
const LOOKUPS: [Row; 7] = [
    (&[Change::Here(&[0, 4, 8, 12])], Answer::Kept),
    (&[Change::Here(&[0, 4, 12])], Answer::Joined(4)),
    (&[Change::Here(&[0, 4, 12, 14])], Answer::Joined(4)),
    (
        &[Change::Here(&[11, 12]), Change::There(&[0, 1, 2])],
        Answer::Kept,
    ),
    (&[Change::There(&[0, 1, 2])], Answer::Joined(4)),
    (&[Change::There(&[114])], Answer::Kept),
    (&[Change::There(&[113])], Answer::Joined(4)),
];

/// Joined entries that need 128 bytes and more, and that have 64 extracts and more.
const HEAVY: [Row; 7] = [
    (&[Change::NextNeed(114)], Answer::Joined(4)),
    (&[Change::NextNeed(115)], Answer::Kept),
    (
        &[Change::Extracts(31), Change::NextExtracts(33)],
        Answer::Joined(4),
    ),
    (
        &[Change::Extracts(31), Change::NextExtracts(34)],
        Answer::Kept,
    ),
    (&[Change::Extracts(63)], Answer::Joined(4)),
    (&[Change::Extracts(64)], Answer::Kept),
    (
        &[Change::Extracts(65), Change::NextExtracts(0)],
        Answer::Kept,
    ),
];

/// Parsers that then have 16,384 entries, and one or two more.
const MANY: [Row; 4] = [
    (&[Change::Filling(16380)], Answer::Joined(16384)),
    (&[Change::Filling(16381)], Answer::Kept),
    (&[Change::Entries(8192)], Answer::Joined(16384)),
    (&[Change::Entries(8193)], Answer::Kept),
];

#[test]
fn first_entries(rt: HostRuntime) {
    compares(&rt, &FIRST);
}

#[test]
fn next_states(rt: HostRuntime) {
    compares(&rt, &NEXT);
}

#[test]
fn lookups_together(rt: HostRuntime) {
    compares(&rt, &LOOKUPS);
}

#[test]
fn heavy_entries(rt: HostRuntime) {
    compares(&rt, &HEAVY);
}

#[test]
fn many_entries(rt: HostRuntime) {
    compares(&rt, &MANY);
}
