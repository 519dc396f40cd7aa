//! Places by lists of numbers, in ordered maps. A list of one number is found by the number
//! itself.

ghost use Rattle.std.specs.Prelude.{◌≡◌, ℕ, ◌∷◌, [], List, None, OnOk};
ghost use Rattle.rmt_bits.specs.Places.{HasPut, place_of};

use std::alloc::{AllocError, Global};
use std::collections::BTreeMap;

/// Places by lists of numbers.
#[derive(Drop)]
pub struct Places {
    /// Those of lists of one number, by that number.
    pub ones: BTreeMap<u128, usize>,
    /// Those of all other lists.
    pub others: BTreeMap<Vec<u128>, usize>,
}

/// No place so far. It takes no memory.
pub fn no_places(alloc: Global) -> Places
    ensures { (values : List ℕ) → place_of result values ≡ None }
{
    Places {
        ones: BTreeMap::new(alloc),
        others: BTreeMap::new(alloc),
    }
}

/// The place of a list of one number.
pub fn place_of_one(places: &Places, value: u128) -> Option<usize>
    ensures { result ≡ place_of places.now (value ∷ []) }
{
    places.ones.get(&value).copied()
}

/// The place of a list.
pub fn place_of(places: &Places, values: &[u128]) -> Option<usize>
    ensures { result ≡ place_of places.now values.now }
{
    if values.len() == 1 {
        return places.ones.get(&values[0]).copied();
    }
    places.others.get(values).copied()
}

/// Gives a list a place.
pub fn put_place(places: &mut Places, values: Vec<u128>, at: usize) -> Result<(), AllocError>
    ensures { OnOk result (HasPut values.items at places.old places.new) }
{
    if values.len() == 1 {
        places.ones.insert(values[0], at)?;
    } else {
        places.others.insert(values, at)?;
    }
    Ok(())
}
