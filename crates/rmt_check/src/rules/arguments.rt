//! Code 17: the values of cases and the arguments of defaults.

ghost use Rattle.std.specs.Prelude.{◌≡◌};
ghost use Rattle.rmt_check.specs.Rules as rules;
ghost use Rattle.rmt_check.specs.Rules.{broken_17, earliest};

use crate::names::lookup::{Lookup, params};
use crate::rules::places::{earlier, place_when};
use crate::rules::same_width::too_wide;
use crate::rules::search::{Flaw, PairFlaw, earliest_beside, earliest_of};
use crate::source::{CaseText, Declared, HeaderText, Number, TableText};
use rmt_lexer::position::Position;

/// A case with another number of values than the select has names.
struct BadCase;

impl Flaw<HeaderText, CaseText> for BadCase {
    ghost places = { rules.bad_case };

    fn at(header: &HeaderText, case: &CaseText) -> Option<Position> {
        if header.select.len() == case.values.len() {
            return None;
        }
        match case.values.as_slice() {
            [first, ..] => Some(first.value.place),
            [] => None,
        }
    }
}

impl Flaw<(), HeaderText> for BadCase {
    ghost places = { λ _ h. rules.bad_cases h };

    fn at(_shared: &(), header: &HeaderText) -> Option<Position> {
        earliest_of::<BadCase, _, _>(header, header.cases.as_slice())
    }
}

/// An argument that does not fit the parameter beside it.
struct WideArgument;

impl PairFlaw<(), Declared, Number> for WideArgument {
    ghost places = { λ _ x. rules.too_wide x.0.width.value x.1 };

    fn at(_shared: &(), param: &Declared, argument: &Number) -> Option<Position> {
        too_wide(param.width.value, *argument)
    }
}

/// A default with another number of arguments than its action has parameters, or with one that does not fit.
struct BadDefault;

impl<N: Lookup> Flaw<N, TableText> for BadDefault {
    ghost places = { λ n t. rules.bad_default (N.text n) t };

    fn at(names: &N, table: &TableText) -> Option<Position> {
        let params = params(names, table.default.name.as_slice());
        let args = table.args.as_slice();
        earlier(
            place_when(params.len() != args.len(), table.default.place),
            earliest_beside::<WideArgument, _, _, _>(&(), params, args),
        )
    }
}

/// Where the values of a case, or the arguments of a default, are not as they have to be.
pub fn bad_arguments<N: Lookup>(names: &N) -> Option<Position>
    ensures { result ≡ earliest (broken_17 (N.text names.now)) }
{
    let source = names.source();
    earlier(
        earliest_of::<BadCase, _, _>(&(), source.headers.as_slice()),
        earliest_of::<BadDefault, _, _>(names, source.tables.as_slice()),
    )
}
