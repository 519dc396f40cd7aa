//! A search of a list for the earliest place at which one of its items breaks a rule.

ghost use Rattle.std.specs.Prelude.{◌≡◌, ◌++◌, IfOk, List, zip};
ghost use Rattle.std.specs.List.{flat_map};
ghost use Rattle.rmt_check.specs.Parts.{Position as PlaceValue};
ghost use Rattle.rmt_check.specs.Rules.{earliest};

use crate::rules::places::earlier;
use rmt_lexer::position::Position;
use std::alloc::{AllocError, Global};

/// The earliest place that is found, if there is one; the only fault is want of memory.
pub type Found = Result<Option<Position>, AllocError>;

/// The earlier of two places that are found, if there was memory to look for both.
pub fn earlier_found(a: Found, b: Found) -> Found
    ensures { (xs ys : List PlaceValue) → IfOk a (λ p. p ≡ earliest xs) → IfOk b (λ p. p ≡ earliest ys) → IfOk result (λ p. p ≡ earliest (xs ++ ys)) }
{
    let first = a?;
    let second = b?;
    Ok(earlier(first, second))
}

/// What may be wrong with an item of a text, which is looked at with what all items share.
pub trait Flaw<C, T> {
    ghost places: { C → T → List PlaceValue };

    /// The earliest place at which it is wrong.
    fn at(shared: &C, item: &T) -> Option<Position>
        ensures { result ≡ earliest (places shared.now item.now) };
}

/// The earliest place of a flaw in some items.
pub fn earliest_of<F, C, T>(shared: &C, items: &[T]) -> Option<Position>
where
    F: Flaw<C, T>,
    ensures { result ≡ earliest (flat_map (F.places shared.now) items.now) }
{
    let mut first = None;
    for item in items {
        first = earlier(first, F::at(shared, item));
    }
    first
}

/// The same, where what the items share is of no further use.
pub fn earliest_with<F, C: Drop, T>(shared: C, items: &[T]) -> Option<Position>
where
    F: Flaw<C, T>,
    ensures { result ≡ earliest (flat_map (F.places shared) items.now) }
{
    earliest_of::<F, _, _>(&shared, items)
}

/// A flaw that is found by means of memory.
pub trait TryFlaw<C, T> {
    ghost places: { C → T → List PlaceValue };

    /// The earliest place at which an item is wrong.
    fn at(alloc: Global, shared: &C, item: &T) -> Found
        ensures { IfOk result (λ p. p ≡ earliest (places shared.now item.now)) };
}

/// The earliest place of such a flaw in some items.
pub fn try_earliest_of<F, C, T>(alloc: Global, shared: &C, items: &[T]) -> Found
where
    F: TryFlaw<C, T>,
    ensures { IfOk result (λ p. p ≡ earliest (flat_map (F.places shared.now) items.now)) }
{
    let mut first = None;
    for item in items {
        first = earlier(first, F::at(alloc, shared, item)?);
    }
    Ok(first)
}

/// A flaw of an item with the one that stands beside it in another list.
pub trait PairFlaw<C, T, U> {
    ghost places: { C → T × U → List PlaceValue };

    /// The earliest place at which the two are wrong.
    fn at(shared: &C, item: &T, other: &U) -> Option<Position>
        ensures { result ≡ earliest (places shared.now (item.now, other.now)) };
}

/// The earliest place of such a flaw in two lists, as far as both go.
pub fn earliest_beside<F, C, T, U>(shared: &C, items: &[T], others: &[U]) -> Option<Position>
where
    F: PairFlaw<C, T, U>,
    ensures { result ≡ earliest (flat_map (F.places shared.now) (zip items.now others.now)) }
{
    let mut first = None;
    for number in 0..items.len().min(others.len()) {
        first = earlier(first, F::at(shared, &items[number], &others[number]));
    }
    first
}
