//! Code 9: headers go on to later headers.

ghost use Rattle.std.specs.Prelude.{◌≡◌};
ghost use Rattle.std.specs.List.{flat_map};
ghost use Rattle.rmt_check.specs.Rules as rules;
ghost use Rattle.rmt_check.specs.Rules.{broken_9, earliest, targets};

use crate::names::lookup::Lookup;
use crate::rules::parts::target_names;
use crate::rules::places::{earlier, place_when};
use crate::rules::search::{Flaw, earliest_of};
use crate::source::{CaseText, HeaderText, Ident};
use rmt_lexer::position::Position;

fn is_at_most(number: Option<usize>, limit: usize) -> bool
    ensures { result ≡ rules.is_at_most number limit }
{
    match number {
        Some(found) => found <= limit,
        None => false,
    }
}

/// A header that is declared at or before the header of a number.
struct NotLater;

impl<'a, N: Lookup> Flaw<(&'a N, usize), Ident> for NotLater {
    ghost places = { λ c i. rules.not_later (N.text c.0.now) c.1 i };

    fn at(shared: &(&'a N, usize), ident: &Ident) -> Option<Position> {
        let (names, number) = *shared;
        let found = names.headers().number(ident.name.as_slice());
        place_when(is_at_most(found, number), ident.place)
    }
}

impl<'a, N: Lookup> Flaw<(&'a N, usize), CaseText> for NotLater {
    ghost places = { λ c x. flat_map (rules.not_later (N.text c.0.now) c.1) (rules.target_names x.target) };

    fn at(shared: &(&'a N, usize), case: &CaseText) -> Option<Position> {
        earliest_of::<NotLater, _, _>(shared, target_names(&case.target))
    }
}

/// Where a target of a header is declared at or before it.
fn early_target<N: Lookup>(names: &N, number: usize, header: &HeaderText) -> Option<Position>
    ensures { result ≡ earliest (flat_map (rules.not_later (N.text names.now) number) (targets header.now)) }
{
    let shared = (names, number);
    earlier(
        earliest_of::<NotLater, _, _>(&shared, header.cases.as_slice()),
        earliest_of::<NotLater, _, _>(&shared, target_names(&header.other)),
    )
}

/// Where a header goes on to itself or to one declared before.
pub fn target_not_later<N: Lookup>(names: &N) -> Option<Position>
    ensures { result ≡ earliest (broken_9 (N.text names.now)) }
{
    let headers = names.source().headers.as_slice();
    let mut first = None;
    for (number, header) in headers.iter().enumerate() {
        first = earlier(first, early_target(names, number, header));
    }
    first
}
