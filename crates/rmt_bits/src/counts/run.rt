//! A run of counters.

ghost use Rattle.std.specs.Prelude.{◌≡◌, ◌+◌, ◌<◌, ◌≤◌, ◌++◌, ℕ, [], length, insert, slice_index_or, vec_len, vec_capacity, IfOk};
ghost use Rattle.rmt_bits.specs.Counting.{BeginsWith, with_packet, counted, AreRising, zero_count, with_count};

use crate::answer::Count;
use std::alloc::{AllocError, Global};
use std::marker::Model;

/// How many counters a run has when it is cut in two.
pub const LENGTH: usize = 256;

/// Some counters by rising number, with memory for 256. Contracts see them as a list.
#[derive(Drop)]
pub struct Run {
    /// The least number, where there is one; kept here too, so that a search over runs reads no counter.
    first: u32,
    counts: Vec<Count>,
}

impl Model for Run {
    ghost use Rattle.std.specs.Prelude.{List, ◌≤◌, vec_capacity};
    ghost use Rattle.rmt_bits.specs.declared.answer.Count.{Count};
    ghost use Rattle.rmt_bits.specs.Counting.{BeginsWith};

    ghost Value = { List Count };

    ghost view = { λ r. r.counts.items };

    ghost invariant = { λ r. (256 ≤ vec_capacity r.counts) × BeginsWith r.first r.counts.items };
}

impl Run {
    ghost use Rattle.rmt_bits.specs.declared.answer.Count.{Count as CountOf};

    /// A run without counters.
    pub fn new(alloc: Global) -> Result<Run, AllocError>
        ensures { IfOk result (λ run. run ≡ []) }
    {
        let counts = Vec::with_capacity(alloc, LENGTH)?;
        Ok(Run { first: 0, counts })
    }

    /// Its counters.
    pub fn as_slice(&self) -> &[Count]
        ensures { result.now ≡ self.now }
    {
        self.counts.as_slice()
    }

    /// How many counters it has.
    pub fn len(&self) -> usize
        ensures { result ≡ length self.now }
    {
        self.counts.len()
    }

    /// The least number.
    pub fn first(&self) -> u32
        requires { 0 < length self.now }
        ensures { (d : CountOf) → result ≡ (slice_index_or self.now 0 d).entry }
    {
        self.first
    }

    /// Counts a hit of the entry of a number, where it has a counter.
    pub fn hit(&mut self, number: u32, bytes: u64)
        ensures { AreRising self.old → self.new ≡ counted bytes self.old number }
    {
        count_hit(&mut self.counts, self.first, number, bytes);
    }

    /// Adds a counter for a number that has none, for which there is memory.
    pub fn add(&mut self, number: u32)
        requires { length self.old < 256 }
        ensures { AreRising self.old → self.new ≡ with_count number self.old }
    {
        let found = self
            .counts
            .binary_search_by_key(&number, |count| count.entry);
        if let Err(place) = found {
            insert_count(&mut self.counts, place, number);
            if place == 0 {
                self.first = number;
            }
        }
    }

    /// Moves its upper half to another run.
    pub fn halve(&mut self, upper: &mut Run)
        requires { length self.old ≡ 256 }
        ensures all { self.new ++ upper.new ≡ self.old }
        ensures lower { length self.new ≡ 128 }
        ensures upper { length upper.new ≡ 128 }
    {
        upper.counts.truncate(0);
        fill_from(&mut upper.counts, &self.counts[128..]);
        upper.first = upper.counts[0].entry;
        self.counts.truncate(128);
    }
}

/// One more packet, of so many bytes.
fn count_packet(count: Count, bytes: u64) -> Count
    ensures { result ≡ with_packet bytes count }
{
    Count {
        entry: count.entry,
        packets: count.packets.wrapping_add(1) % (1 << 48),
        bytes: count.bytes.wrapping_add(bytes),
    }
}

/// Counts a hit of the entry of a number, where it has a counter. Where the numbers go on from the first without a gap, as
/// they mostly do, the counter stands as far behind the first as its number is above it; else it is searched for.
fn count_hit(counts: &mut [Count], first: u32, number: u32, bytes: u64)
    ensures counts { AreRising counts.old → counts.new ≡ counted bytes counts.old number }
    ensures begins { (n : ℕ) → BeginsWith n counts.old → BeginsWith n counts.new }
{
    let near = number.saturating_sub(first) as usize;
    if near < counts.len() && counts[near].entry == number {
        counts[near] = count_packet(counts[near], bytes);
        return;
    }
    if let Ok(place) = counts.binary_search_by_key(&number, |count| count.entry) {
        counts[place] = count_packet(counts[place], bytes);
    }
}

/// Puts a counter at a place, for which there is memory.
fn insert_count(counts: &mut Vec<Count>, place: usize, number: u32)
    requires inside { place ≤ vec_len counts.old }
    requires room { vec_len counts.old < vec_capacity counts.old }
    ensures items { counts.new.items ≡ insert counts.old.items place (zero_count number) }
    ensures capacity { vec_capacity counts.new ≡ vec_capacity counts.old }
{
    let count = Count {
        entry: number,
        packets: 0,
        bytes: 0,
    };
    match counts.insert(place, count) {
        Ok(()) => {}
        Err(_) => unreachable!(),
    }
}

/// Adds counters at the end, for which there is memory.
fn fill_from(counts: &mut Vec<Count>, more: &[Count])
    requires { vec_len counts.old + length more.now ≤ vec_capacity counts.old }
    ensures items { counts.new.items ≡ counts.old.items ++ more.now }
    ensures capacity { vec_capacity counts.old ≤ vec_capacity counts.new }
{
    match counts.extend_from_slice(more) {
        Ok(()) => {}
        Err(_) => unreachable!(),
    }
}
