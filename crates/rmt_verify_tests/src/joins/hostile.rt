//! As many joins as a list holds, all of which can be made, and as many entries as a parser holds.

use rmt_bits::answer::Bytes;
use rmt_bits::sequence::Sequence;
use rmt_config::config::{Next, ParserConfig, ParserEntry, ParserState};
use rmt_config::form::parser::parser_fits;
use rmt_ptcam::fault::JoinFault;
use rmt_ptcam::joins::Join;
use rmt_ptcam::replayed;
use std::alloc::{AllocError, Global};
use std::test::*;

/// How many entries the first state has.
const FIRST: u16 = 13107;

/// How many states stand behind it, each with one entry, to the next one.
const BEHIND: u8 = 5;

/// An entry that compares nothing and moves by no byte.
fn step_to(alloc: Global, state: u8, next: Next) -> ParserEntry {
    ParserEntry {
        state,
        value: 0,
        mask: 0,
        need: 0,
        advance: 0,
        next,
        extracts: Sequence::new(alloc),
    }
}

/// The parser of these states.
fn chain(alloc: Global) -> Result<ParserConfig, AllocError> {
    let mut states = Sequence::new(alloc);
    for _ in 0..BEHIND + 1 {
        let lookups = Bytes::new(alloc);
        states.push(ParserState { lookups })?;
    }
    let mut entries = Sequence::new(alloc);
    for _ in 0..FIRST {
        entries.push(step_to(alloc, 0, Next::State(1)))?;
    }
    for state in 1..BEHIND {
        entries.push(step_to(alloc, state, Next::State(state + 1)))?;
    }
    entries.push(step_to(alloc, BEHIND, Next::Accept))?;
    Ok(ParserConfig {
        states,
        entries,
        tails: Sequence::new(alloc),
    })
}

/// Each entry of the first state is joined to that of each state behind, one after another.
fn all_of_them(alloc: Global) -> Result<Vec<Join>, AllocError> {
    let mut joins = Vec::new(alloc);
    for entry in 0..FIRST {
        for _ in 0..BEHIND {
            joins.push(Join { state: 0, entry })?;
        }
    }
    Ok(joins)
}

/// How many states and entries stand behind joins, where they can be made.
fn counts_behind(
    alloc: Global,
    parser: ParserConfig,
    joins: &[Join],
) -> Result<Option<(usize, usize)>, JoinFault> {
    if !parser_fits(&parser) || parser.states.len() > 256 {
        return Ok(None);
    }
    match replayed(alloc, parser, joins)? {
        None => Ok(None),
        Some(behind) => Ok(Some((behind.states.len(), behind.entries.len()))),
    }
}

/// Entries of a first state, and as many of the last state but one of 256, which can't be met with most others.
fn far(alloc: Global) -> Result<ParserConfig, AllocError> {
    let mut states = Sequence::new(alloc);
    for _ in 0..256 {
        let lookups = Bytes::new(alloc);
        states.push(ParserState { lookups })?;
    }
    let mut entries = Sequence::new(alloc);
    for _ in 0..8191 {
        entries.push(step_to(alloc, 0, Next::State(254)))?;
    }
    for _ in 0..8191 {
        entries.push(step_to(alloc, 254, Next::State(255)))?;
    }
    Ok(ParserConfig {
        states,
        entries,
        tails: Sequence::new(alloc),
    })
}

#[test]
fn joins_without_end(rt: HostRuntime) -> Result<(), Fail> {
    let joins = all_of_them(rt.alloc())?;
    assert!(rt; joins.len() == 65535);
    let parser = chain(rt.alloc())?;
    let counts = counts_behind(rt.alloc(), parser, joins.as_slice()).expect(&rt, "memory");
    assert!(rt; counts == Some((1, usize::from(FIRST))));
    Ok(())
}

#[test]
fn one_join_more(rt: HostRuntime) -> Result<(), Fail> {
    let parser = chain(rt.alloc())?;
    let joins = [Join { state: 0, entry: 0 }; 6];
    let counts = counts_behind(rt.alloc(), parser, &joins).expect(&rt, "memory");
    assert!(rt; counts == None);
    Ok(())
}

#[test]
fn far_states(rt: HostRuntime) -> Result<(), Fail> {
    let parser = far(rt.alloc())?;
    let counts = counts_behind(rt.alloc(), parser, &[]).expect(&rt, "memory");
    assert!(rt; counts == Some((3, 16382)));
    Ok(())
}
