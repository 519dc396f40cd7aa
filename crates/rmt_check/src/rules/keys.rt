//! Code 14, the fields of keys and of selects, and code 15, the widths of keys.

ghost use Rattle.std.specs.Prelude.{◌≡◌, IfOk};
ghost use Rattle.rmt_check.specs.Names.{named, width_of};
ghost use Rattle.rmt_check.specs.Rules as rules;
ghost use Rattle.rmt_check.specs.Rules.{broken_14, broken_15, earliest};

use crate::names::lookup::{Lookup, key, width_of};
use crate::rules::name_twice::repeated_idents;
use crate::rules::parts::key_fields;
use crate::rules::places::{earlier, earliest_beyond, place_when};
use crate::rules::repeats::repeated;
use crate::rules::search::{Flaw, Found, TryFlaw, earliest_of, try_earliest_of};
use crate::rules::sums::{Wide, sum_up_to};
use crate::source::{FieldText, HeaderText, TableText};
use rmt_ast::program::Kind;
use rmt_lexer::position::Position;
use std::alloc::Global;

/// Where a prefix key has a second field.
fn further_prefix(kind: Kind, fields: &[FieldText]) -> Option<Position>
    ensures { result ≡ earliest (rules.further_prefix kind fields.now) }
{
    match kind {
        Kind::Prefix => earliest_beyond(1, fields),
        Kind::Keyless => None,
        Kind::Exact => None,
        Kind::Ternary => None,
    }
}

/// The earliest place of a field that is named again.
fn repeated_fields<N: Lookup>(alloc: Global, names: &N, fields: &[FieldText]) -> Found
    ensures { IfOk result (λ p. p ≡ earliest (rules.repeated_fields (N.text names.now) fields.now)) }
{
    let mut marks = Vec::new(alloc);
    for field in fields {
        marks.push((key(names, field), field.place))?;
    }
    repeated(alloc, marks.as_slice())
}

/// A prefix key with a second field, or a key with a field twice.
struct BadKey;

impl<N: Lookup> TryFlaw<N, TableText> for BadKey {
    ghost places = { λ n t. rules.bad_key_of (N.text n) t };

    fn at(alloc: Global, names: &N, table: &TableText) -> Found {
        match &table.key {
            Some(key) => {
                let fields = key.fields.as_slice();
                let further = further_prefix(key.kind, fields);
                let again = repeated_fields(alloc, names, fields)?;
                Ok(earlier(further, again))
            }
            None => Ok(None),
        }
    }
}

/// A select with a field twice.
struct RepeatedSelect;

impl TryFlaw<(), HeaderText> for RepeatedSelect {
    ghost places = { λ _ h. rules.repeated_select h };

    fn at(alloc: Global, _shared: &(), header: &HeaderText) -> Found {
        repeated_idents(alloc, header.select.as_slice())
    }
}

/// Where a prefix key has a second field, or a key or a select has a field twice.
pub fn key_kinds<N: Lookup>(alloc: Global, names: &N) -> Found
    ensures { IfOk result (λ p. p ≡ earliest (broken_14 (N.text names.now))) }
{
    let source = names.source();
    let headers = source.headers.as_slice();
    let tables = source.tables.as_slice();
    let selects = try_earliest_of::<RepeatedSelect, _, _>(alloc, &(), headers)?;
    let keys = try_earliest_of::<BadKey, _, _>(alloc, names, tables)?;
    Ok(earlier(selects, keys))
}

impl<N: Lookup> Wide<N> for FieldText {
    ghost width_in = { λ n f. width_of (N.text n) (named (N.text n) f) };

    fn width_in(&self, names: &N) -> u128 {
        width_of(names, self)
    }
}

/// A key of more than 640 bits.
struct LongKey;

impl<N: Lookup> Flaw<N, TableText> for LongKey {
    ghost places = { λ n t. rules.long_key (N.text n) t };

    fn at(names: &N, table: &TableText) -> Option<Position> {
        let bits = sum_up_to(641, names, key_fields(table));
        place_when(bits > 640, table.ident.place)
    }
}

/// Where a table's key is of more than 640 bits.
pub fn key_too_wide<N: Lookup>(names: &N) -> Option<Position>
    ensures { result ≡ earliest (broken_15 (N.text names.now)) }
{
    let source = names.source();
    earliest_of::<LongKey, _, _>(names, source.tables.as_slice())
}
