//! Numbers by lists of numbers, their keys. Nearly each key has a place of its own, found by its print; an ordered map has
//! the keys whose place another one took, and further numbers of a key, so that no choice of keys makes it slow.

ghost use Rattle.std.specs.Prelude.{◌≡◌, ◌≢◌, ◌<◌, ◌≤◌, ◌+◌, ◌-◌, ◌++◌, ◌∷◌, [], None, true, IfOk, OnOk, OnErr, Vec as Words, bytes_eq, drop, if◌then◌else◌, length, slice_get, slice_index_or};
ghost use Rattle.std.specs.Global.{Global as Memory};
ghost use Rattle.rmt_entries.specs.KeySets.{is_at, place_of};
ghost use Rattle.rmt_lists.specs.KeyNumbers.{listed, numbers_at, placed, queued};

use rmt_entries::key_set::{is_list_at, place_of, put_list};
use std::alloc::{AllocError, Global};
use std::collections::{BTreeMap, VecDeque};
use std::marker::Model;

/// Numbers by keys. Contracts see those at each key, in the order in which they came.
#[derive(Drop)]
pub struct KeyNumbers {
    /// For each place where its key begins in `keys`, from 1 on; 0 where it has none.
    slots: Vec<u32>,
    /// For each place the first number of its key, unless it went.
    firsts: Vec<Option<u32>>,
    /// Keys, each behind its length.
    keys: Vec<u128>,
    /// The numbers of the keys that found their place taken, and further numbers. A key that has none any more may stay.
    crowded: BTreeMap<Vec<u128>, VecDeque<u32>>,
}

impl Model for KeyNumbers {
    ghost use Rattle.std.specs.Prelude.{ℕ, List, Option};
    ghost use Rattle.rmt_lists.specs.KeyNumbers.{Stand, pairs_of};

    ghost Value = { List ℕ × (List (Option ℕ) × (List ℕ × List (List ℕ × List ℕ))) };

    ghost view = { λ n. (n.slots.items, (n.firsts.items, (n.keys.items, pairs_of n.crowded))) };

    ghost invariant = { λ n. Stand n.slots.items n.firsts.items n.keys.items (pairs_of n.crowded) };
}

impl KeyNumbers {
    /// No numbers, with so many places. The only fault is want of memory.
    pub fn new(alloc: Global, places: usize) -> Result<KeyNumbers, AllocError>
        requires { 0 < places }
        ensures { IfOk result (λ numbers. (q : Words _ Memory) → numbers_at numbers q ≡ []) }
    {
        Ok(KeyNumbers {
            slots: vec![in alloc; 0u32; places]?,
            firsts: vec![in alloc; None; places]?,
            keys: Vec::new(alloc),
            crowded: BTreeMap::new(alloc),
        })
    }

    /// The first number at a key.
    pub fn first(&self, key: &Vec<u128>) -> Option<u32>
        ensures { result ≡ slice_get (numbers_at self.now key.now) 0 }
    {
        let place = place_of(self.slots.len(), key.as_slice());
        if self.slots[place] == 0 {
            return None;
        }
        match self.own_at(place, key.as_slice()) {
            Some(number) => Some(number),
            None => first_queued(&self.crowded, key),
        }
    }

    /// Adds a number behind those at a key. The only fault is want of memory, which more numbers in keys than have 32-bit
    /// places are taken for.
    pub fn push(&mut self, alloc: Global, key: Vec<u128>, number: u32) -> Result<(), AllocError>
        ensures pushed { OnOk result ((q : Words _ Memory) → numbers_at self.new q ≡
            numbers_at self.old q ++ (if bytes_eq key.items q.items then number ∷ [] else [])) }
        ensures kept { OnErr result ((q : Words _ Memory) → numbers_at self.new q ≡ numbers_at self.old q) }
    {
        let place = place_of(self.slots.len(), key.as_slice());
        let slot = self.slots[place];
        if slot > 0 {
            let first = self.firsts[place];
            if is_emptied(self.keys.as_slice(), slot, first, &self.crowded, &key) {
                self.firsts[place] = Some(number);
                return Ok(());
            }
            return push_queued(alloc, &mut self.crowded, key, number);
        }
        let begin = self.keys.len();
        if begin >= u32::MAX as usize {
            return Err(AllocError);
        }
        put_list(&mut self.keys, key.as_slice())?;
        self.firsts[place] = Some(number);
        self.slots[place] = begin as u32 + 1;
        Ok(())
    }

    /// Takes away the first number at a key, if there is one.
    pub fn pop(&mut self, key: &Vec<u128>)
        ensures { (q : Words _ Memory) → numbers_at self.new q ≡
            (if bytes_eq key.now.items q.items then drop 1 (numbers_at self.old q) else numbers_at self.old q) }
    {
        let place = place_of(self.slots.len(), key.as_slice());
        match self.own_at(place, key.as_slice()) {
            Some(_) => self.firsts[place] = None,
            None => pop_queued(&mut self.crowded, key),
        }
    }

    /// The first number of a key's place, if the place is that of the key.
    fn own_at(&self, place: usize, key: &[u128]) -> Option<u32>
        requires own { place ≡ place_of (length self.now.0) key.now }
        requires within { place < length self.now.0 }
        ensures { listed result ≡ placed self.now.0 self.now.1.0 self.now.1.1.0 key.now }
    {
        let slot = self.slots[place];
        if slot > 0 && is_list_at(self.keys.as_slice(), slot as usize - 1, key) {
            self.firsts[place]
        } else {
            None
        }
    }
}

/// Whether a place is that of a key, all numbers of which went.
fn is_emptied(
    keys: &[u128],
    slot: u32,
    first: Option<u32>,
    queues: &BTreeMap<Vec<u128>, VecDeque<u32>>,
    key: &Vec<u128>,
) -> bool
    requires { slot ≢ 0 → slot + slice_index_or keys.now (slot - 1) 0 ≤ length keys.now }
    ensures { result ≡ true → (is_at keys.now slot key.now.items ≡ true) × ((first ≡ None) × (queued queues.now key.now ≡ [])) }
{
    slot > 0
        && first.is_none()
        && is_list_at(keys, slot as usize - 1, key.as_slice())
        && first_queued(queues, key).is_none()
}

/// The first number at a key of an ordered map.
fn first_queued(queues: &BTreeMap<Vec<u128>, VecDeque<u32>>, key: &Vec<u128>) -> Option<u32>
    ensures { result ≡ slice_get (queued queues.now key.now) 0 }
{
    match queues.get(key) {
        Some(queue) => queue.front().copied(),
        None => None,
    }
}

/// Adds a number at the end of those at a key of an ordered map. The only fault is want of memory.
fn push_queued(
    alloc: Global,
    queues: &mut BTreeMap<Vec<u128>, VecDeque<u32>>,
    key: Vec<u128>,
    number: u32,
) -> Result<(), AllocError>
    ensures pushed { OnOk result ((q : Words _ Memory) → queued queues.new q ≡
        queued queues.old q ++ (if bytes_eq key.items q.items then number ∷ [] else [])) }
    ensures kept { OnErr result ((q : Words _ Memory) → queued queues.new q ≡ queued queues.old q) }
{
    if let Some(queue) = queues.get_mut(&key) {
        queue.push_back(number)?;
        return Ok(());
    }
    let mut queue = VecDeque::new(alloc);
    queue.push_back(number)?;
    queues.insert(key, queue)?;
    Ok(())
}

/// Takes away the first number at a key of an ordered map, if there is one.
fn pop_queued(queues: &mut BTreeMap<Vec<u128>, VecDeque<u32>>, key: &Vec<u128>)
    ensures { (q : Words _ Memory) → queued queues.new q ≡
        (if bytes_eq key.now.items q.items then drop 1 (queued queues.old q) else queued queues.old q) }
{
    if let Some(queue) = queues.get_mut(key) {
        queue.pop_front();
    }
}
