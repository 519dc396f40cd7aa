//! The first entry of a table that matches a state.

ghost use Rattle.std.specs.Prelude.{◌≡◌, ◌∷◌, [], IfOk, OnOk, None, option_copied, option_and_then, slice_get};
ghost use Rattle.rmt_bits.specs.Grouping.{best_of};
ghost use Rattle.rmt_plain.specs.Grouping.{masked, marked_place, place_for as place_for_key};
ghost use Rattle.rmt_plain.specs.Running.{entry_for};

use crate::lookup::Lookup;
use crate::marks::{is_marked, total};
use crate::numbers::number_at;
use rmt_ast::entry::Entry;
use rmt_bits::groups::{Group, earlier, is_before, place};
use rmt_bits::places::place_of_one;
use std::alloc::{AllocError, Global};

/// The bits of a key that masks leave.
fn mask_key(
    wanted: &mut Vec<u128>,
    masks: &[u128],
    key: &[u32],
    state: &[u128],
) -> Result<(), AllocError>
    ensures { OnOk result (wanted.new.items ≡ masked masks.now key.now state.now) }
{
    wanted.clear();
    for i in 0..masks.len().min(key.len()) {
        wanted.push(number_at(state, key[i] as usize) & masks[i])?;
    }
    Ok(())
}

/// Room for the bits of a key. A key of one field needs none.
fn room_for(alloc: Global, key: &[u32]) -> Result<Vec<u128>, AllocError>
    ensures { IfOk result (λ room. room.items ≡ []) }
{
    if key.len() == 1 {
        return Ok(Vec::new(alloc));
    }
    Vec::with_capacity(alloc, key.len())
}

/// The place that a group has for a key of one field.
fn place_of_field(marks: &[bool], group: &Group, value: u128) -> Option<usize>
    ensures { result ≡ marked_place marks.now group.now (value ∷ []) }
{
    if is_marked(marks, value) {
        return place_of_one(&group.places, value);
    }
    None
}

/// The place that a group has for bits of a key.
fn place_of_bits(marks: &[bool], group: &Group, values: &[u128]) -> Option<usize>
    ensures { result ≡ marked_place marks.now group.now values.now }
{
    if is_marked(marks, total(values)) {
        return place(group, values);
    }
    None
}

/// The place that a group has for a key.
fn place_for(
    wanted: &mut Vec<u128>,
    marks: &[bool],
    group: &Group,
    key: &[u32],
    state: &[u128],
) -> Result<Option<usize>, AllocError>
    ensures { IfOk result (λ place. place ≡ place_for_key marks.now key.now state.now group.now) }
{
    if group.masks.len() == 1 && key.len() == 1 {
        let value = number_at(state, key[0] as usize) & group.masks[0];
        return Ok(place_of_field(marks, group, value));
    }
    mask_key(wanted, &group.masks, key, state)?;
    Ok(place_of_bits(marks, group, wanted))
}

/// The earliest place that the groups have for a key. Groups whose first entry stands behind it are
/// not looked at.
fn best_place(
    wanted: &mut Vec<u128>,
    marks: &[bool],
    groups: &[Group],
    key: &[u32],
    state: &[u128],
) -> Result<Option<usize>, AllocError>
    ensures { IfOk result (λ best. best ≡ best_of (place_for_key marks.now key.now state.now) groups.now None) }
{
    let mut best = None;
    for group in groups {
        if is_before(best, group.first) {
            return Ok(best);
        }
        best = earlier(best, place_for(wanted, marks, group, key, state)?);
    }
    Ok(best)
}

/// The entry at a place.
fn entry_at(entries: &[Entry], place: Option<usize>) -> Option<&Entry>
    ensures { option_copied result ≡ option_and_then (slice_get entries.now) place }
{
    match place {
        Some(place) => entries.get(place),
        None => None,
    }
}

/// The first entry that matches a state.
pub fn first_match<'a>(
    alloc: Global,
    lookup: &'a Lookup,
    key: &[u32],
    state: &[u128],
) -> Result<Option<&'a Entry>, AllocError>
    ensures { IfOk result (λ found. option_copied found ≡ entry_for key.now state.now lookup.now) }
{
    let mut wanted = room_for(alloc, key)?;
    let place = best_place(&mut wanted, &lookup.marks, &lookup.groups, key, state)?;
    Ok(entry_at(&lookup.entries, place))
}
