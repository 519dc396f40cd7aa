//! Lanes that lie in words, apart from one another.

ghost use Rattle.std.specs.Prelude.{◌≢◌, ◌↔◌, All, IsTrue, map};
ghost use Rattle.rmt_bits.specs.declared.lane.Lane.{Lane};
ghost use Rattle.rmt_ast.specs.WellFormed.{AreDistinct};
ghost use Rattle.rmt_phv.specs.Places.{AreApart, LiesInWord, ShareNoWord};

use crate::all::{Test, TestOfTwo, all_pass, every_two};
use rmt_bits::lane::{Lane, word_size};
use rmt_phv::places::Lanes;

/// That a lane has bits, which lie in a word of the vector.
#[derive(Drop)]
pub struct InWord;

impl Test for InWord {
    type Item = Lane;

    ghost holds = { λ _. LiesInWord };

    fn passes(&self, lane: &Lane) -> bool {
        lane.word < 224
            && 1 <= lane.len
            && lane.low as u16 + lane.len as u16 <= word_size(lane.word) as u16
    }
}

/// That all lanes of a field are so.
#[derive(Drop)]
pub struct InWords;

impl Test for InWords {
    type Item = Lanes;

    ghost holds = { λ _. All LiesInWord };

    fn passes(&self, lanes: &Lanes) -> bool {
        all_pass(&InWord, lanes.as_slice())
    }
}

/// That two lanes have no bit in common.
#[derive(Drop)]
pub struct Apart;

impl TestOfTwo for Apart {
    ghost hold = { AreApart };

    fn pass(first: Lane, second: Lane) -> bool {
        first.word != second.word
            || first.low as u16 + first.len as u16 <= second.low as u16
            || second.low as u16 + second.len as u16 <= first.low as u16
    }
}

/// That two lanes lie in different words.
#[derive(Drop)]
pub struct InOthers;

impl TestOfTwo for InOthers {
    ghost hold = { λ first second. first.word ≢ second.word };

    fn pass(first: Lane, second: Lane) -> bool {
        first.word != second.word
    }
}

/// That the lanes of a field lie in different words.
#[derive(Drop)]
pub struct InDifferent;

impl Test for InDifferent {
    type Item = Lanes;

    ghost holds = { λ _ lanes. AreDistinct (map (λ (l : Lane). l.word) lanes) };

    fn passes(&self, lanes: &Lanes) -> bool {
        every_two::<InOthers>(lanes.as_slice())
    }
}

/// That a lane lies in another word than this one.
#[derive(Drop)]
struct NotIn {
    word: u8,
}

impl Test for NotIn {
    type Item = Lane;

    ghost holds = { λ test lane. test.word ≢ lane.word };

    fn passes(&self, lane: &Lane) -> bool {
        self.word != lane.word
    }
}

/// That a lane lies in another word than each of these.
#[derive(Drop)]
struct InNoWordOf<'a> {
    lanes: &'a [Lane],
}

impl<'a> Test for InNoWordOf<'a> {
    type Item = Lane;

    ghost holds = { λ test lane. All (λ (b : Lane). lane.word ≢ b.word) test.lanes.now };

    fn passes(&self, lane: &Lane) -> bool {
        all_pass(&NotIn { word: lane.word }, self.lanes)
    }
}

/// Whether no word holds lanes of both lists.
pub fn share_no_word(lanes: &[Lane], others: &[Lane]) -> bool
    ensures { IsTrue result ↔ ShareNoWord lanes.now others.now }
{
    all_pass(&InNoWordOf { lanes: others }, lanes)
}
