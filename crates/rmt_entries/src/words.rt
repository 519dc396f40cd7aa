//! The words of a line, one after another.

ghost use Rattle.std.specs.Prelude.{◌≡◌, ◌==◌, ◌∷◌, [], length, IfNone, IfSome};
ghost use Rattle.rmt_entries.specs.Lines.{words};

use rmt_bits::cuts::cut;
use rmt_bits::lines::is_blank;
use std::marker::Model;

/// The words of a line that are not taken yet, as contracts see them.
#[derive(Drop)]
pub struct Words<'a> {
    rest: &'a [u8],
}

impl<'a> Model for Words<'a> {
    ghost use Rattle.std.specs.Prelude.{List, ℕ};
    ghost use Rattle.rmt_entries.specs.Lines.{words};

    ghost Value = { List (List ℕ) };

    ghost view = { λ w. words w.rest.now };
}

impl<'a> Words<'a> {
    /// All words of a line.
    pub fn of(line: &'a [u8]) -> Words<'a>
        ensures { result ≡ words line.now }
    {
        Words { rest: line }
    }

    /// Takes the next word.
    pub fn take(&mut self) -> Option<&'a [u8]>
        ensures none { IfNone result ((self.old ≡ []) × (self.new ≡ [])) }
        ensures some { IfSome result (λ word. self.old ≡ word.now ∷ self.new) }
    {
        let (word, behind) = next_word(self.rest);
        self.rest = behind;
        word
    }

    /// Whether all are taken.
    #[tactic(auto, using(crate::proofs::WordLaws::words_blank))]
    pub fn is_empty(&self) -> bool
        ensures { result ≡ (length self.now == 0) }
    {
        is_blank(self.rest)
    }
}

/// The first word of a line, and what stands behind it.
fn next_word(line: &[u8]) -> (Option<&[u8]>, &[u8])
    ensures none { IfNone result.0 ((words line.now ≡ []) × (words result.1.now ≡ [])) }
    ensures some { IfSome result.0 (λ word. words line.now ≡ word.now ∷ words result.1.now) }
{
    let mut rest = line;
    while !rest.is_empty() {
        let (word, behind) = cut(rest, b' ');
        rest = behind;
        if !word.is_empty() {
            return (Some(word), rest);
        }
    }
    (None, rest)
}
