//! Tests that every item of a list is to pass, and tests of every two lanes.

ghost use Rattle.std.specs.Prelude.{◌↔◌, All, AllPairs, IsTrue};
ghost use Rattle.std.specs.List.{AllZip};
ghost use Rattle.rmt_bits.specs.declared.lane.Lane.{Lane};

use rmt_bits::lane::Lane;
use std::marker::PhantomData;

/// What is asked of an item.
pub trait Test {
    /// What it is asked of.
    type Item;

    /// That it holds of an item.
    ghost holds: { Self → Self.Item → Type 0 };

    /// Whether it does.
    fn passes(&self, item: &Self::Item) -> bool
        ensures { IsTrue result ↔ holds self.now item.now };
}

/// Whether a test holds of each of these items.
pub fn all_pass<T: Test>(test: &T, items: &[T::Item]) -> bool
    ensures { IsTrue result ↔ All (T.holds test.now) items.now }
{
    for item in items {
        if !test.passes(item) {
            return false;
        }
    }
    true
}

/// What is asked of two lanes.
pub trait TestOfTwo {
    /// That it holds of them.
    ghost hold: { Lane → Lane → Type 0 };

    /// Whether it does.
    fn pass(first: Lane, second: Lane) -> bool
        ensures { IsTrue result ↔ hold first second };
}

/// The same of lanes before another one.
#[derive(Drop)]
struct Before<P> {
    last: Lane,
    of: PhantomData<P>,
}

impl<P: TestOfTwo> Test for Before<P> {
    type Item = Lane;

    ghost holds = { λ test lane. P.hold lane test.last };

    fn passes(&self, lane: &Lane) -> bool {
        P::pass(*lane, self.last)
    }
}

/// Whether a test holds of each lane and each later one.
///
/// It ends at the first two of which it doesn't.
pub fn every_two<P: TestOfTwo>(lanes: &[Lane]) -> bool
    ensures { IsTrue result ↔ AllPairs P.hold lanes.now }
{
    for (at, lane) in lanes.iter().enumerate() {
        let before: Before<P> = Before {
            last: *lane,
            of: PhantomData,
        };
        if !all_pass(&before, &lanes[..at]) {
            return false;
        }
    }
    true
}

/// What is asked of items of two lists.
pub trait TestOfPair {
    /// Those of the one list.
    type Left;

    /// Those of the other one.
    type Right;

    /// That it holds of an item and the one at the same place.
    ghost fit: { Self → Self.Left → Self.Right → Type 0 };

    /// Whether it does.
    fn matches(&self, left: &Self::Left, right: &Self::Right) -> bool
        ensures { IsTrue result ↔ fit self.now left.now right.now };
}

/// Whether lists have the same length, and a test holds of each two items at one place.
pub fn all_match<T: TestOfPair>(test: &T, lefts: &[T::Left], rights: &[T::Right]) -> bool
    ensures { IsTrue result ↔ AllZip (T.fit test.now) lefts.now rights.now }
{
    if lefts.len() != rights.len() {
        return false;
    }
    for (at, left) in lefts.iter().enumerate() {
        if !test.matches(left, &rights[at]) {
            return false;
        }
    }
    true
}
