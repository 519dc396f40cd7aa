//! Code 16, how many actions a table lists, code 18, how many there are of other things, and code 19, that there is a
//! control.

ghost use Rattle.std.specs.Prelude.{◌≡◌, IfOk, drop, map};
ghost use Rattle.std.specs.List.{flat_map};
ghost use Rattle.rmt_check.specs.Rules.{bad_size_of, broken_16, broken_18, broken_19, declared_names, earliest, many_assigns, many_listed, many_params, places};

use crate::rules::parts::{listed, metadata, nodes_of};
use crate::rules::places::{earlier, earliest_beyond, place_when};
use crate::rules::search::{Flaw, Found, earliest_of};
use crate::source::{ActionText, MetaText, Source, TableText};
use rmt_lexer::position::Position;
use std::alloc::Global;

/// A list of more than 14 actions.
struct TooManyListed;

impl Flaw<(), TableText> for TooManyListed {
    ghost places = { λ _ t. many_listed t };

    fn at(_shared: &(), table: &TableText) -> Option<Position> {
        earliest_beyond(14, listed(table))
    }
}

/// Where a table lists more than 14 actions.
pub fn too_many_actions(source: &Source) -> Option<Position>
    ensures { result ≡ earliest (broken_16 source.now) }
{
    earliest_of::<TooManyListed, _, _>(&(), source.tables.as_slice())
}

/// A size of 0 or above 1,048,576.
struct BadSize;

impl Flaw<(), TableText> for BadSize {
    ghost places = { λ _ t. bad_size_of t };

    fn at(_shared: &(), table: &TableText) -> Option<Position> {
        match &table.key {
            Some(key) => {
                let size = key.size.value;
                place_when(!(size >= 1 && size <= 1048576), key.size.place)
            }
            None => None,
        }
    }
}

/// More than 16 parameters.
struct TooManyParams;

impl Flaw<(), ActionText> for TooManyParams {
    ghost places = { λ _ a. many_params a };

    fn at(_shared: &(), action: &ActionText) -> Option<Position> {
        earliest_beyond(16, action.params.as_slice())
    }
}

/// More than 64 assignments.
struct TooManyAssigns;

impl Flaw<(), ActionText> for TooManyAssigns {
    ghost places = { λ _ a. many_assigns a };

    fn at(_shared: &(), action: &ActionText) -> Option<Position> {
        earliest_beyond(64, action.assigns.as_slice())
    }
}

/// Where there are more than 256 metadata fields.
fn too_many_meta_fields(alloc: Global, metas: &[MetaText]) -> Found
    ensures { IfOk result (λ p. p ≡ earliest (places (drop 256 (declared_names (flat_map (λ m. m.fields) metas.now))))) }
{
    let fields = metadata(alloc, metas)?;
    Ok(earliest_beyond(256, fields.as_slice()))
}

/// Where a limit on a number is broken, be it of headers, actions, parameters, assignments, metadata fields, nodes
/// or entries of a table.
pub fn count_limit(alloc: Global, source: &Source) -> Found
    ensures { IfOk result (λ p. p ≡ earliest (broken_18 source.now)) }
{
    let headers = source.headers.as_slice();
    let metas = source.metas.as_slice();
    let actions = source.actions.as_slice();
    let no_header = place_when(headers.len() == 0, Position { line: 1, column: 1 });
    let header = earliest_beyond(64, headers);
    let action = earliest_beyond(256, actions);
    let param = earliest_of::<TooManyParams, _, _>(&(), actions);
    let assign = earliest_of::<TooManyAssigns, _, _>(&(), actions);
    let field = too_many_meta_fields(alloc, metas)?;
    let node = earliest_beyond(128, nodes_of(source));
    let size = earliest_of::<BadSize, _, _>(&(), source.tables.as_slice());
    let found = earlier(earlier(earlier(no_header, header), action), param);
    Ok(earlier(earlier(earlier(earlier(found, assign), field), node), size))
}

/// The end of the text, where there is no control.
pub fn no_control(source: &Source) -> Option<Position>
    ensures { result ≡ earliest (broken_19 source.now) }
{
    place_when(source.control.is_none(), source.end)
}
