//! The plain and the clustered parser of one program, on whole and cut frames.

ghost use Rattle.std.specs.Prelude.{◌<◌, ◌≤◌, length};
ghost use Rattle.rmt_ptcam.specs.Fitting.{IsParser};

use crate::parsers::{Rule, parser_of};
use rmt_config::config::ParserConfig;
use rmt_config::tails::Tails;
use rmt_config::vector::Vector;
use rmt_ptcam::parse::Parsed;
use rmt_ptcam::parse_chip;
use std::test::*;

/// Whether all words of two vectors are equal.
fn words_agree(one: &Vector, other: &Vector) -> bool {
    for word in 0..224u8 {
        if one.get(word) != other.get(word) {
            return false;
        }
    }
    true
}

/// Whether all tails are equal.
fn tails_agree(one: &Tails, other: &Tails) -> bool {
    for header in 0..64u8 {
        if one.get(header) != other.get(header) {
            return false;
        }
    }
    true
}

/// How two parsers end on a frame, where they end alike in words and tails too.
pub(crate) fn both_parsed(one: &ParserConfig, other: &ParserConfig, frame: &[u8]) -> Option<Parsed>
    requires one { IsParser one.now }
    requires other { IsParser other.now }
    requires short { length frame.now ≤ 9216 }
{
    let mut words = Vector::new();
    let mut tails = Tails::new();
    let end = parse_chip(one, frame, &mut words, &mut tails);
    let mut other_words = Vector::new();
    let mut other_tails = Tails::new();
    let other_end = parse_chip(other, frame, &mut other_words, &mut other_tails);
    if end == other_end && words_agree(&words, &other_words) && tails_agree(&tails, &other_tails) {
        Some(end)
    } else {
        None
    }
}

/// A plain header, one with a tail, and both again: the first two are joined, and the last two.
const TWO_TAILS: &[u8] =
    b"header a { x : 8; kind : 8; } next (kind) { 1 : b; 2 : c; else : reject; } header b { n : 4; z : 4; tail n * 4 - 4; } next (z) { 1 : c; else : accept; } header c { k : 8; l : 8; } next (k) { 7 : d; else : accept; } header d { m : 3; y : 13; tail m * 2 - 1; } next accept; control { }";

/// A frame, how it parses whole, and before which length it is too short.
type Row = (&'static [u8], Parsed, usize);

/// Both tails; an empty one; none behind c; c alone, with and without d; a tail of fewer than 0 bytes, twice; no header.
const ROWS: [Row; 8] = [
    (
        &[
            9, 1, 0x21, 1, 2, 3, 4, 7, 0xbb, 0x60, 5, 1, 2, 3, 4, 5, 6, 7,
        ],
        Parsed::Accept { used: 16 },
        16,
    ),
    (
        &[9, 1, 0x11, 7, 0xbb, 0x3f, 0xff, 1, 2],
        Parsed::Accept { used: 8 },
        8,
    ),
    (
        &[9, 1, 0x22, 1, 7, 3, 4, 7, 0xbb, 0x60, 5],
        Parsed::Accept { used: 7 },
        7,
    ),
    (
        &[9, 2, 7, 0xbb, 0x40, 5, 1, 2, 3, 4],
        Parsed::Accept { used: 9 },
        9,
    ),
    (&[9, 2, 8, 0xbb, 0x40, 5], Parsed::Accept { used: 4 }, 4),
    (&[9, 1, 0x01, 7, 0xbb, 0x60, 5], Parsed::Reject, 3),
    (&[9, 1, 0x11, 7, 0xbb, 0x00, 5, 1], Parsed::Reject, 7),
    (&[9, 3, 0x11, 7, 0xbb], Parsed::Reject, 2),
];

/// Each frame, cut at each byte and whole.
#[test]
fn two_tails_joined(rt: HostRuntime) -> Result<(), Fail> {
    let plain = parser_of(rt.alloc(), TWO_TAILS, Rule::Plain)?;
    let clustered = parser_of(rt.alloc(), TWO_TAILS, Rule::Clustered)?;
    assert!(rt; (plain.states.len(), plain.entries.len()) == (4, 8));
    assert!(rt; (clustered.states.len(), clustered.entries.len()) == (2, 6));
    for &(frame, whole, enough) in &ROWS {
        assert!(rt; frame.len() < 9217);
        for len in 0..frame.len() + 1 {
            let want = if len < enough { Parsed::Short } else { whole };
            let got = both_parsed(&plain, &clustered, &frame[..len]);
            assert!(rt; got == Some(want));
        }
    }
    Ok(())
}
