//! Code 5: names that are declared or listed twice.

ghost use Rattle.std.specs.Prelude.{◌≡◌, IfOk};
ghost use Rattle.std.specs.List.{flat_map};
ghost use Rattle.rmt_check.specs.Rules.{broken_5, declared_names, earliest, fields_twice, listed_twice, params_twice, repeated};

use crate::rules::parts::{listed, metadata};
use crate::rules::places::earliest_beyond;
use crate::rules::repeats::repeated_names;
use crate::rules::search::{Found, TryFlaw, earlier_found, try_earliest_of};
use crate::source::{ActionText, HeaderText, Ident, MetaText, Source, TableText};
use std::alloc::Global;

/// The earliest place of a name in a list that repeats an earlier one.
pub fn repeated_idents(alloc: Global, idents: &[Ident]) -> Found
    ensures { IfOk result (λ p. p ≡ earliest (repeated idents.now)) }
{
    repeated_names(alloc, idents)
}

/// A name that stands twice in a part of a text.
struct NameTwice;

impl TryFlaw<(), HeaderText> for NameTwice {
    ghost places = { λ _ h. fields_twice h };

    fn at(alloc: Global, _shared: &(), header: &HeaderText) -> Found {
        repeated_names(alloc, header.fields.as_slice())
    }
}

impl TryFlaw<(), ActionText> for NameTwice {
    ghost places = { λ _ a. params_twice a };

    fn at(alloc: Global, _shared: &(), action: &ActionText) -> Found {
        repeated_names(alloc, action.params.as_slice())
    }
}

impl TryFlaw<(), TableText> for NameTwice {
    ghost places = { λ _ t. listed_twice t };

    fn at(alloc: Global, _shared: &(), table: &TableText) -> Found {
        repeated_idents(alloc, listed(table))
    }
}

/// Where a metadata field is declared again, be it in another `meta`.
fn meta_field_twice(alloc: Global, metas: &[MetaText]) -> Found
    ensures { IfOk result (λ p. p ≡ earliest (repeated (declared_names (flat_map (λ m. m.fields) metas.now)))) }
{
    let fields = metadata(alloc, metas)?;
    repeated_names(alloc, fields.as_slice())
}

/// Where a name is declared again in its space, `meta` stands again, or a table lists an action twice.
pub fn name_twice(alloc: Global, source: &Source) -> Found
    ensures { IfOk result (λ p. p ≡ earliest (broken_5 source.now)) }
{
    let headers = source.headers.as_slice();
    let metas = source.metas.as_slice();
    let actions = source.actions.as_slice();
    let tables = source.tables.as_slice();
    let header = repeated_names(alloc, headers);
    let field = try_earliest_of::<NameTwice, _, _>(alloc, &(), headers);
    let meta = earliest_beyond(1, metas);
    let meta_field = meta_field_twice(alloc, metas);
    let action = repeated_names(alloc, actions);
    let param = try_earliest_of::<NameTwice, _, _>(alloc, &(), actions);
    let table = repeated_names(alloc, tables);
    let listed = try_earliest_of::<NameTwice, _, _>(alloc, &(), tables);
    let found = earlier_found(
        earlier_found(earlier_found(header, field), Ok(meta)),
        meta_field,
    );
    earlier_found(
        earlier_found(earlier_found(earlier_found(found, action), param), table),
        listed,
    )
}
