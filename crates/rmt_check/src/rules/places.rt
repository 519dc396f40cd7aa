//! The earlier of two places in a text, and the earliest place of the items beyond a limit.

ghost use Rattle.std.specs.Prelude.{◌≡◌, ◌++◌, List, drop, map};
ghost use Rattle.rmt_check.specs.Parts.{Position as PlaceValue};
ghost use Rattle.rmt_check.specs.Rules as rules;

use crate::names::labels::Labelled;
use crate::source::{AssignText, FieldText, MetaText, NodeText};
use rmt_lexer::position::Position;

/// What stands at a place, at which it is told that there is too much of it.
pub trait Placed {
    ghost place_of: { Self → PlaceValue };

    fn place(&self) -> Position
        ensures { result ≡ place_of self.now };
}

impl<T: Labelled> Placed for T {
    ghost place_of = { λ x. (T.ident_of x).place };

    fn place(&self) -> Position {
        self.ident().place
    }
}

impl Placed for MetaText {
    ghost place_of = { λ m. m.place };

    fn place(&self) -> Position {
        self.place
    }
}

impl Placed for AssignText {
    ghost place_of = { λ x. x.dest.place };

    fn place(&self) -> Position {
        self.dest.place
    }
}

impl Placed for FieldText {
    ghost place_of = { λ f. f.place };

    fn place(&self) -> Position {
        self.place
    }
}

impl Placed for NodeText {
    ghost place_of = { λ n. n.place };

    fn place(&self) -> Position {
        self.place
    }
}

/// Whether a place is before another.
fn is_before(a: Position, b: Position) -> bool
    ensures { result ≡ rules.is_before a b }
{
    a.line < b.line || (a.line == b.line && a.column < b.column)
}

/// The earlier of two places, where there are two.
#[tactic(auto, using(crate::proofs::Earliest::joins))]
pub fn earlier(a: Option<Position>, b: Option<Position>) -> Option<Position>
    ensures value { result ≡ rules.earlier a b }
    ensures joined { (xs ys : List PlaceValue) → a ≡ rules.earliest xs → b ≡ rules.earliest ys → result ≡ rules.earliest (xs ++ ys) }
{
    match (a, b) {
        (Some(first), Some(second)) if is_before(second, first) => b,
        (Some(_), _) => a,
        (None, _) => b,
    }
}

/// The place, where something is broken there.
pub fn place_when(broken: bool, place: Position) -> Option<Position>
    ensures { result ≡ rules.earliest (rules.when broken place) }
{
    if broken { Some(place) } else { None }
}

/// The items beyond the first so many.
pub fn beyond<T>(limit: usize, items: &[T]) -> &[T]
    ensures { result.now ≡ drop limit items.now }
{
    if limit < items.len() {
        &items[limit..]
    } else {
        &[]
    }
}

/// The earliest place of the items beyond the first so many.
pub fn earliest_beyond<T: Placed>(limit: usize, items: &[T]) -> Option<Position>
    ensures { result ≡ rules.earliest (map T.place_of (drop limit items.now)) }
{
    let further = beyond(limit, items);
    let mut first = None;
    for item in further {
        first = earlier(first, Some(item.place()));
    }
    first
}
