//! What a table holds, found by keys.

ghost use Rattle.std.specs.Prelude.{◌≡◌, ◌<◌, ◌&&◌, ◌++◌, ◌∷◌, [], IsTrue, IfNone, IfOk, OnOk, OnErr, List, slice_get};
ghost use Rattle.rmt_ast.specs.Changes.{key_of_entry, is_held};
ghost use Rattle.rmt_lists.specs.Entries.{Entry, EntryKey, has_keys_once, without};
ghost use Rattle.rmt_lists.specs.Holding.{Holds, keyed_numbers, spelled};
ghost use Rattle.rmt_lists.specs.Running.{refusal_of};

use crate::key_numbers::KeyNumbers;
use rmt_ast::program::{Kind, Test};
use std::alloc::{AllocError, Global};

/// The entries of a table by their keys.
#[derive(Drop)]
pub struct Held {
    /// The numbers of the entries with a key, by rising number.
    pub numbers: KeyNumbers,
    /// How many entries there are.
    pub count: u32,
}

impl Held {
    /// No entry, with places for so many keys. The only fault is want of memory.
    pub fn new(alloc: Global, places: usize) -> Result<Held, AllocError>
        requires { 0 < places }
        ensures { IfOk result (λ held. Holds held []) }
    {
        Ok(Held {
            numbers: KeyNumbers::new(alloc, places)?,
            count: 0,
        })
    }

    /// The least number of an entry with a key.
    pub fn first(&self, key: &Vec<u128>) -> Option<u32>
        ensures { (es : List Entry) (k : EntryKey) → Holds self.now es → key.now.items ≡ spelled k →
            result ≡ slice_get (keyed_numbers k es) 0 }
    {
        self.numbers.first(key)
    }

    /// Adds the number of an entry that stands behind the others. The only fault is want of memory.
    pub fn push(&mut self, alloc: Global, key: Vec<u128>, number: u32) -> Result<(), AllocError>
        requires few { self.old.count < 4294967295 }
        ensures held { OnOk result ((es : List Entry) (e : Entry) → Holds self.old es → key.items ≡ spelled (key_of_entry e) →
            e.number ≡ number → Holds self.new (es ++ e ∷ [])) }
        ensures kept { OnErr result ((es : List Entry) → Holds self.old es → Holds self.new es) }
    {
        self.numbers.push(alloc, key, number)?;
        self.count += 1;
        Ok(())
    }

    /// Takes away the entry of the least number with a key, which there is.
    pub fn pop(&mut self, key: &Vec<u128>)
        requires some { 0 < self.old.count }
        ensures { (es : List Entry) (k : EntryKey) → Holds self.old es → key.now.items ≡ spelled k → IsTrue (is_held k es) →
            Holds self.new (without k es) }
    {
        self.numbers.pop(key);
        self.count -= 1;
    }
}

/// The code that stands against an entry with a key in a table of this kind and size, which has these entries, where so
/// many additions were taken of those that there may be.
pub fn refusal_of(
    held: &Held,
    terms: (Kind, u32),
    most: u32,
    taken: u32,
    key: &Vec<u128>,
) -> Option<u8>
    ensures refusal { (es : List Entry) (k : EntryKey) → Holds held.now es → key.now.items ≡ spelled k →
        result ≡ refusal_of terms.0 terms.1 most taken k es }
    ensures room { IfNone result (held.now.count < 4294967295) }
    ensures few { IfNone result (taken < most) }
{
    let (kind, size) = terms;
    if is_repeated(held, kind, key) {
        return Some(6);
    }
    if size <= held.count {
        return Some(7);
    }
    if most <= taken {
        return Some(9);
    }
    None
}

/// Whether a table of this kind has a key that it may have once alone.
fn is_repeated(held: &Held, kind: Kind, key: &Vec<u128>) -> bool
    ensures { (es : List Entry) (k : EntryKey) → Holds held.now es → key.now.items ≡ spelled k →
        result ≡ (has_keys_once kind && is_held k es) }
{
    if has_keys_once(kind) {
        held.first(key).is_some()
    } else {
        false
    }
}

/// Whether a table of this kind holds each key once.
fn has_keys_once(kind: Kind) -> bool
    ensures { result ≡ has_keys_once kind }
{
    matches!(kind, Kind::Exact | Kind::Prefix)
}

/// A key as numbers, in which no two keys are alike. The only fault is want of memory.
pub fn spelled(alloc: Global, tests: &[Test], rank: u32) -> Result<Vec<u128>, AllocError>
    ensures { IfOk result (λ key. key.items ≡ spelled (record { tests = tests.now; rank = rank })) }
{
    let mut key = Vec::with_capacity(alloc, tests.len().saturating_mul(2).saturating_add(1))?;
    key.push(u128::from(rank))?;
    for test in tests {
        key.push(test.value)?;
        key.push(test.mask)?;
    }
    Ok(key)
}
