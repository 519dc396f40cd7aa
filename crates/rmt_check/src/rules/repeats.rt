//! Items that repeat an earlier one, found by a set of the keys that are seen.

ghost use Rattle.std.specs.Prelude.{◌≡◌, map, IfOk, IfErr};
ghost use Rattle.indexmap.specs.IndexSet.{IsEmpty};
ghost use Rattle.rmt_check.specs.Rules as rules;
ghost use Rattle.rmt_check.specs.Rules.{earliest, repeated_by};

use crate::names::labels::Labelled;
use crate::rules::places::{earlier, place_when};
use crate::rules::search::Found;
use indexmap::IndexSet;
use rmt_lexer::position::Position;
use std::alloc::Global;
use std::hash::Hash;

/// The earliest place of a key that repeats an earlier one, by a set that has seen none.
fn repeated_in<K: Eq + Hash + Copy>(seen: &mut IndexSet<K>, marks: &[(K, Position)]) -> Found
    requires { IsEmpty seen.old }
    ensures { IfOk result (λ p. p ≡ earliest (repeated_by (λ x y. K.eq x.0 y.0) (λ x. x.1) marks.now)) }
{
    let mut first = None;
    for mark in marks {
        let is_new = seen.insert(mark.0)?;
        first = earlier(first, place_when(!is_new, mark.1));
    }
    Ok(first)
}

/// The earliest place of a key that repeats an earlier one.
pub fn repeated<K: Eq + Hash + Copy>(alloc: Global, marks: &[(K, Position)]) -> Found
    ensures { IfOk result (λ p. p ≡ earliest (repeated_by (λ x y. K.eq x.0 y.0) (λ x. x.1) marks.now)) }
{
    let mut seen = IndexSet::new(alloc);
    repeated_in(&mut seen, marks)
}

/// The earliest place of a name that repeats an earlier one.
pub fn repeated_names<T: Labelled>(alloc: Global, items: &[T]) -> Found
    ensures { IfOk result (λ p. p ≡ earliest (rules.repeated (map T.ident_of items.now))) }
{
    let mut marks = Vec::new(alloc);
    for item in items {
        let ident = item.ident();
        marks.push((ident.name.as_slice(), ident.place))?;
    }
    repeated(alloc, marks.as_slice())
}
