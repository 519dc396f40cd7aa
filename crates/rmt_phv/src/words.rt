//! What stands in the words of the header vector.

ghost use Rattle.std.specs.Prelude.{◌≡◌, ◌==◌, ◌<◌, ◌≤◌, ◌+◌, ◌++◌, ◌∷◌, [], ℕ, List, find, slice_index_or, IfSome, IsTrue};
ghost use Rattle.std.specs.List.{list_any};
ghost use Rattle.rmt_bits.specs.Words.{word_size as word_size_of};
ghost use Rattle.rmt_bits.specs.declared.lane.Lane.{Lane};
ghost use Rattle.rmt_ast.specs.declared.program.Program.{Program};
ghost use Rattle.rmt_phv.specs.Packing.{Piece, lane_for, pieces_at, words_for, serves as word_serves};
ghost use Rattle.rmt_phv.specs.WordsSoFar.{AreFilled, Packs};

use crate::piece::first_word;
use crate::sets::{insert_all, meets};
use crate::writers::ActionSet;
use rmt_bits::lane::{Lane, word_size};

/// What stands in a word.
#[derive(Clone, Copy)]
pub struct Word {
    /// How many of its bits are taken, from bit 0 on.
    used: u8,
    /// The actions that assign a field with a piece in the word.
    writers: ActionSet,
}

/// The words of the header vector.
#[derive(Drop)]
pub struct Words {
    words: [Word; 224],
}

impl Words {
    /// No bit is taken.
    pub fn new() -> Words
        ensures { (p : Program) → AreFilled p [] result.words }
    {
        Words {
            words: [Word {
                used: 0,
                writers: [0; 4],
            }; 224],
        }
    }

    /// The lane of the next piece of a field that has its pieces so far in these lanes and is assigned by these actions; its
    /// bits are taken from then on. `None`, and no change, where no word serves the piece.
    pub fn take(&mut self, len: u8, own: &[Lane], writers: &ActionSet) -> Option<Lane>
        ensures lane { (p : Program) (f : ℕ) (taken : List Piece) → Packs p f taken own.now writers.now self.old.words →
            result ≡ lane_for p f taken len }
        ensures taken { IfSome result (λ lane. (p : Program) (f : ℕ) (taken : List Piece) → Packs p f taken own.now writers.now self.old.words →
            AreFilled p (taken ++ pieces_at f (lane ∷ [])) self.new.words) }
        ensures kept { result ≡ None → self.new ≡ self.old }
    {
        let word = self.first_that_serves(len, own, writers)?;
        let taken = &mut self.words[word as usize];
        let low = taken.used;
        taken.used += len;
        insert_all(&mut taken.writers, writers);
        Some(Lane { word, low, len })
    }

    fn first_that_serves(&self, len: u8, own: &[Lane], writers: &ActionSet) -> Option<u8>
        ensures first { (p : Program) (f : ℕ) (taken : List Piece) → Packs p f taken own.now writers.now self.now.words →
            result ≡ find (word_serves p f taken len) (words_for len) }
        ensures exists { IfSome result (λ word. word < 224) }
        ensures room { IfSome result (λ word. (d : Word) → (slice_index_or self.now.words word d).used + len ≤ word_size_of word) }
    {
        for word in first_word(len)..224 {
            if self.serves(word, len, own, writers) {
                return Some(word);
            }
        }
        None
    }

    fn serves(&self, word: u8, len: u8, own: &[Lane], writers: &ActionSet) -> bool
        requires { word < 224 }
        ensures serves { (p : Program) (f : ℕ) (taken : List Piece) → Packs p f taken own.now writers.now self.now.words →
            result ≡ word_serves p f taken len word }
        ensures room { IsTrue result → (d : Word) → (slice_index_or self.now.words word d).used + len ≤ word_size_of word }
    {
        let at = &self.words[word as usize];
        if u16::from(at.used) + u16::from(len) > u16::from(word_size(word)) {
            return false;
        }
        if stands_in(own, word) {
            return false;
        }
        !meets(&at.writers, writers)
    }
}

/// Whether one of the lanes stands in the word.
fn stands_in(lanes: &[Lane], word: u8) -> bool
    ensures { result ≡ list_any (λ (l : Lane). l.word == word) lanes.now }
{
    lanes.iter().any(|lane| lane.word == word)
}
