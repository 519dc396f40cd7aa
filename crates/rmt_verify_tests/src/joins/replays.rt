//! The joins of the clustered parser, made again on the plain one.

ghost use Rattle.std.specs.Prelude.{◌<◌, length};

use crate::parsers::{HEADERS, Rule, parser_of};
use rmt_bits::sequence::Sequence;
use rmt_config::config::ParserConfig;
use rmt_config::form::parser::parser_fits;
use rmt_phv::pack_fields;
use rmt_ptcam::fault::ParserFault;
use rmt_ptcam::joins::Join;
use rmt_ptcam::{joins_of, parser_need, replayed};
use rmt_tests::fixtures::texts::program_of;
use std::alloc::{AllocError, Global};
use std::test::*;

/// The joins of a text that means a program.
fn joins_of_text(alloc: Global, text: &[u8]) -> Result<Sequence<Join>, ParserFault>
    requires { length text.now < 4294967295 }
{
    let Ok(program) = program_of(alloc, text) else {
        return Err(ParserFault::NoMemory);
    };
    parser_need(&program)?;
    let Ok(places) = pack_fields(alloc, &program) else {
        return Err(ParserFault::NoMemory);
    };
    joins_of(alloc, &program, &places)
}

/// A parser written out.
fn written(alloc: Global, parser: &ParserConfig) -> Result<String, AllocError> {
    format!(in alloc; "{parser:?}")
}

/// The parser of a text behind joins on the plain one, written out, or `none`.
fn behind(alloc: Global, text: &[u8], joins: &[Join]) -> Result<String, ParserFault>
    requires { length text.now < 4294967295 }
{
    let plain = parser_of(alloc, text, Rule::Plain)?;
    if !parser_fits(&plain) || plain.states.len() > 256 {
        return Ok(String::from_str(alloc, "ill")?);
    }
    match replayed(alloc, plain, joins) {
        Ok(Some(parser)) => Ok(written(alloc, &parser)?),
        Ok(None) => Ok(String::from_str(alloc, "none")?),
        Err(_) => Err(ParserFault::NoMemory),
    }
}

#[test]
fn joins_made_again(rt: HostRuntime) -> Result<(), Fail> {
    let clustered = parser_of(rt.alloc(), HEADERS, Rule::Clustered)?;
    let want = written(rt.alloc(), &clustered)?;
    let joins = joins_of_text(rt.alloc(), HEADERS)?;
    let got = behind(rt.alloc(), HEADERS, joins.as_slice())?;
    assert!(rt; got.as_str() == want.as_str());
    assert!(rt; !joins.is_empty());
    Ok(())
}

/// With one of the joins left out another parser comes, or none.
#[test]
fn joins_left_out(rt: HostRuntime) -> Result<(), Fail> {
    let clustered = parser_of(rt.alloc(), HEADERS, Rule::Clustered)?;
    let want = written(rt.alloc(), &clustered)?;
    let joins = joins_of_text(rt.alloc(), HEADERS)?;
    for out in 0..joins.len() {
        let mut others = Vec::new(rt.alloc());
        for (number, join) in joins.as_slice().iter().enumerate() {
            if number != out {
                others.push(*join)?;
            }
        }
        let got = behind(rt.alloc(), HEADERS, others.as_slice())?;
        assert!(rt; got.as_str() != want.as_str());
    }
    Ok(())
}

/// Lists with an entry that isn't there, in a state that is and in one that isn't, and with one that goes to no state.
const ABSENT: [Join; 3] = [
    Join { state: 0, entry: 4 },
    Join { state: 6, entry: 0 },
    Join { state: 5, entry: 0 },
];

#[test]
fn joins_that_cannot_be_made(rt: HostRuntime) -> Result<(), Fail> {
    for &join in &ABSENT {
        let got = behind(rt.alloc(), HEADERS, &[join])?;
        assert!(rt; got.as_str() == "none");
    }
    Ok(())
}
