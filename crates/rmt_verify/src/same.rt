//! Equal values.

ghost use Rattle.std.specs.Bool.{Decides};
ghost use Rattle.std.specs.Prelude.{◌≡◌, ◌↔◌, IsTrue};

use rmt_config::config::{ParserConfig, ParserEntry, ParserState};

/// What is compared.
pub trait Same {
    /// Whether it is the same value.
    fn is_same(&self, other: &Self) -> bool
        ensures { IsTrue result ↔ self.now ≡ other.now };
}

/// Whether lists have the same items in the same order.
pub fn are_same<T: Same>(items: &[T], others: &[T]) -> bool
    ensures { IsTrue result ↔ items.now ≡ others.now }
{
    if items.len() != others.len() {
        return false;
    }
    for (at, item) in items.iter().enumerate() {
        if !item.is_same(&others[at]) {
            return false;
        }
    }
    true
}

/// The same of lists of items whose own test of equality tells whether they are the same value.
pub fn are_equal<T: PartialEq>(items: &[T], others: &[T]) -> bool
    requires { (a b : T) → Decides (T.eq a b) (a ≡ b) }
    ensures { IsTrue result ↔ items.now ≡ others.now }
{
    items == others
}

impl Same for ParserState {
    fn is_same(&self, other: &ParserState) -> bool {
        are_equal(self.lookups.as_slice(), other.lookups.as_slice())
    }
}

impl Same for ParserEntry {
    fn is_same(&self, other: &ParserEntry) -> bool {
        self.state == other.state
            && self.value == other.value
            && self.mask == other.mask
            && self.need == other.need
            && self.advance == other.advance
            && self.next == other.next
            && are_equal(self.extracts.as_slice(), other.extracts.as_slice())
    }
}

impl Same for ParserConfig {
    fn is_same(&self, other: &ParserConfig) -> bool {
        are_same(self.states.as_slice(), other.states.as_slice())
            && are_same(self.entries.as_slice(), other.entries.as_slice())
            && are_equal(self.tails.as_slice(), other.tails.as_slice())
    }
}
