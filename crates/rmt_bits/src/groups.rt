//! Rows that compare the same bits of a key stand in a group, and are found by what these must be.

ghost use Rattle.std.specs.Prelude.{◌≡◌, ◌++◌, ◌∷◌, [], ℕ, List, None, length, IfOk, OnOk};
ghost use Rattle.rmt_bits.specs.Grouping.{Compared, place_in, PutAt, AreIndexed, Chosen, is_before as is_before_of, earlier as earlier_of};

use crate::places::{Places, no_places, place_of, put_place};
use std::alloc::{AllocError, Global};

/// The rows of some masks.
#[derive(Drop)]
pub struct Group {
    /// The bits that they compare, in the parts of a key.
    pub masks: Vec<u128>,
    /// The place of the first of them.
    pub first: usize,
    /// By what these bits must be, the place of the first that wants this.
    pub places: Places,
}

/// Groups by rising place of their first row, and their numbers by their masks.
#[derive(Drop)]
pub struct Grouping {
    /// The groups.
    pub groups: Vec<Group>,
    /// The number of a group, from 0 on, by its masks.
    pub index: Places,
}

/// No group so far. It takes no memory.
pub fn no_groups(alloc: Global) -> Grouping
    ensures { AreIndexed [] result }
{
    Grouping {
        groups: Vec::new(alloc),
        index: no_places(alloc),
    }
}

/// A group that has no row so far.
fn group_of(alloc: Global, masks: Vec<u128>, first: usize) -> Group
    ensures masks { result.masks.items ≡ masks.items }
    ensures first { result.first ≡ first }
    ensures empty { (values : List ℕ) → place_in result values ≡ None }
{
    Group {
        masks,
        first,
        places: no_places(alloc),
    }
}

/// The place of the first row of a group that wants these bits.
pub fn place(group: &Group, values: &[u128]) -> Option<usize>
    ensures { result ≡ place_in group.now values.now }
{
    place_of(&group.places, values)
}

/// Adds a row that wants these bits, at a place behind those of all others.
fn put(group: &mut Group, values: Vec<u128>, at: usize) -> Result<(), AllocError>
    ensures { OnOk result (PutAt values.items at group.old group.new) }
{
    match place(group, &values) {
        Some(_) => Ok(()),
        None => {
            put_place(&mut group.places, values, at)?;
            Ok(())
        }
    }
}

/// The number of the group of some masks; where there is none, of a new one, whose first row stands at a place.
fn choose(
    alloc: Global,
    grouping: &mut Grouping,
    masks: Vec<u128>,
    at: usize,
) -> Result<usize, AllocError>
    ensures { IfOk result (Chosen masks.items at grouping.old grouping.new) }
{
    if let Some(number) = place_of(&grouping.index, &masks) {
        return Ok(number);
    }
    let number = grouping.groups.len();
    let name = Vec::from_slice(alloc, &masks)?;
    put_place(&mut grouping.index, name, number)?;
    grouping.groups.push(group_of(alloc, masks, at))?;
    Ok(number)
}

/// Adds a row at a place behind those of all others.
pub fn add(
    alloc: Global,
    grouping: &mut Grouping,
    masks: Vec<u128>,
    values: Vec<u128>,
    at: usize,
) -> Result<(), AllocError>
    ensures { OnOk result ((es : List Compared) → length es ≡ at → AreIndexed es grouping.old →
        AreIndexed (es ++ record { masks = masks.items; values = values.items } ∷ []) grouping.new) }
{
    let number = choose(alloc, grouping, masks, at)?;
    if number < grouping.groups.len() {
        put(&mut grouping.groups[number], values, at)?;
    }
    Ok(())
}

/// Whether a place that was found comes before another.
pub fn is_before(found: Option<usize>, place: usize) -> bool
    ensures { result ≡ is_before_of found place }
{
    match found {
        Some(found) => found < place,
        None => false,
    }
}

/// The earlier of two places.
pub fn earlier(first: Option<usize>, second: Option<usize>) -> Option<usize>
    ensures { result ≡ earlier_of first second }
{
    match (first, second) {
        (Some(a), Some(b)) => Some(a.min(b)),
        (Some(a), None) => Some(a),
        (None, other) => other,
    }
}
