//! A set of lists of numbers. Nearly each has a place of its own, one of a few that are found by its print; an ordered set
//! has those whose places others took, so that no choice of lists makes it slow.

ghost use Rattle.std.specs.Prelude.{◌≡◌, ◌<◌, ◌≤◌, ◌+◌, ◌*◌, ◌++◌, ◌∷◌, ℕ, List, Vec, cond, false, not, true, length, slice_index_or, IfOk, OnOk};
ghost use Rattle.std.specs.Global.{Global};
ghost use Rattle.std.specs.Str.{bytes_eq};
ghost use Rattle.rmt_entries.specs.KeySets.{IsWhole, apart, has, list_at, mixed, near, place_of, spot_in, spot_of};

use std::alloc::{AllocError, Global};
use std::collections::BTreeSet;
use std::marker::Model;

/// Odd numbers that spread the bits of a product.
const FIRST_FACTOR: u64 = 11400714819323198485;

const LAST_FACTOR: u64 = 13787848793156543929;

/// How many places a list may stand at.
const NEAR: usize = 8;

/// How far each of them is behind the one before. Lists whose last numbers differ in the lowest four bits alone stand side by
/// side, so that lists that follow each other share the memory that is looked at; behind places that are taken others follow.
const APART: usize = 16;

/// A set of lists of numbers. Contracts see whether it has a list.
#[derive(Drop)]
pub struct KeySet {
    /// For each place where its list begins in `held`, from 1 on; 0 where it has none.
    slots: Vec<u32>,
    /// Lists, each behind its length.
    held: Vec<u128>,
    /// The lists that found their places taken.
    crowded: BTreeSet<Vec<u128>>,
}

impl Model for KeySet {
    ghost use Rattle.std.specs.Prelude.{ℕ, List, Vec};
    ghost use Rattle.std.specs.Global.{Global};
    ghost use Rattle.std.specs.BTreeSet.{BTreeSet};
    ghost use Rattle.rmt_entries.specs.KeySets.{Stands};

    ghost Value = { List ℕ × (List ℕ × BTreeSet (Vec ℕ Global)) };

    ghost view = { λ s. (s.slots.items, (s.held.items, s.crowded)) };

    ghost invariant = { λ s. Stands s.slots.items s.held.items s.crowded };
}

impl KeySet {
    /// The empty set, with so many places. The only fault is want of memory.
    pub fn new(alloc: Global, places: usize) -> Result<KeySet, AllocError>
        requires { 0 < places }
        ensures { IfOk result (λ set. (key : Vec ℕ Global) → has set key ≡ false) }
    {
        Ok(KeySet {
            slots: vec![in alloc; 0u32; places.saturating_add(NEAR * APART)]?,
            held: Vec::new(alloc),
            crowded: BTreeSet::new(alloc),
        })
    }

    /// Adds a list, and answers whether it is new. The only fault is want of memory, which more numbers than have 32-bit
    /// places are taken for; then nothing is known of the set.
    pub fn insert(&mut self, key: &Vec<u128>) -> Result<bool, AllocError>
        ensures added { IfOk result (λ is_new. is_new ≡ not (has self.old key.now)) }
        ensures updates { OnOk result ((q : Vec ℕ Global) → has self.new q ≡ cond (bytes_eq key.now.items q.items) true (has self.old q)) }
    {
        match self.spot_of(key.as_slice()) {
            Spot::Free(place) => {
                let begin = self.held.len();
                if begin >= u32::MAX as usize {
                    return Err(AllocError);
                }
                put_list(&mut self.held, key.as_slice())?;
                self.slots[place] = begin as u32 + 1;
                Ok(true)
            }
            Spot::Held => Ok(false),
            Spot::Crowded => {
                let copy = copy_of(key)?;
                Ok(self.crowded.insert(copy)?)
            }
        }
    }

    /// Where a list belongs.
    fn spot_of(&self, key: &[u128]) -> Spot
        ensures { result ≡ spot_in self.now key.now }
    {
        let home = place_of(self.slots.len() - NEAR * APART, key);
        spot_from(self.slots.as_slice(), self.held.as_slice(), home, key)
    }
}

/// Where a list belongs.
#[derive(Clone, Copy)]
enum Spot {
    /// At this place, which is free.
    Free(usize),
    /// Where it stands.
    Held,
    /// Among those whose places are taken.
    Crowded,
}

/// Where a list belongs, the first of whose places is this one.
fn spot_from(slots: &[u32], held: &[u128], home: usize, key: &[u128]) -> Spot
    requires room { home + near * apart ≤ length slots.now }
    requires whole { IsWhole slots.now held.now }
    ensures { result ≡ spot_of slots.now held.now near home key.now }
{
    let mut place = home;
    let mut left = NEAR;
    while left > 0 {
        let slot = slots[place];
        if slot == 0 {
            return Spot::Free(place);
        }
        if is_list_at(held, slot as usize - 1, key) {
            return Spot::Held;
        }
        place += APART;
        left -= 1;
    }
    Spot::Crowded
}

/// A print with one more number, of which the lowest four bits are those of the number.
fn mixed(print: u64, number: u128) -> u64
    ensures { result ≡ mixed print number }
{
    let low = (number % (1 << 64)) as u64;
    let high = (number >> 64) as u64;
    let product = print
        .wrapping_add(low / 16 * 16)
        .wrapping_add(high)
        .wrapping_mul(FIRST_FACTOR);
    let spread = product ^ (product >> 32);
    spread.wrapping_mul(16).wrapping_add(low % 16)
}

/// The place of a list among so many.
pub fn place_of(places: usize, key: &[u128]) -> usize
    requires { 0 < places }
    ensures place { result ≡ place_of places key.now }
    ensures within { result < places }
{
    let mut print = 0u64;
    for number in key {
        print = mixed(print, *number);
    }
    let first = (print / 16).wrapping_mul(LAST_FACTOR) >> 32;
    ((first + print % 16) % places as u64) as usize
}

/// Adds a list behind its length.
pub fn put_list(held: &mut Vec<u128>, key: &[u128]) -> Result<(), AllocError>
    ensures put { OnOk result (held.new.items ≡ held.old.items ++ length key.now ∷ key.now) }
    ensures kept { (rest : List ℕ) × (held.new.items ≡ held.old.items ++ rest) }
{
    held.push(key.len() as u128)?;
    held.extend_from_slice(key)
}

/// A copy of a list. The only fault is want of memory.
fn copy_of(key: &Vec<u128>) -> Result<Vec<u128>, AllocError>
    ensures { IfOk result (λ copy. copy.items ≡ key.now.items) }
{
    let copy = key.clone()?;
    Ok(copy)
}

/// Whether a list is the one that stands behind its length at a place.
pub fn is_list_at(held: &[u128], at: usize, key: &[u128]) -> bool
    requires { at + 1 + slice_index_or held.now at 0 ≤ length held.now }
    ensures { result ≡ bytes_eq key.now (list_at held.now at) }
{
    let count = held[at] as usize;
    key == &held[at + 1..at + 1 + count]
}
