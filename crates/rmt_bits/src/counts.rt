//! The counters of entries.

ghost use Rattle.std.specs.Prelude.{◌≡◌, ◌+◌, ◌<◌, ◌≤◌, [], length, drop, All};

mod run;
mod runs;

use crate::answer::Count;
use run::{LENGTH, Run};
use runs::{run_for, run_from, split};
use std::alloc::{AllocError, Global};
use std::marker::Model;

/// More counters than any memory has.
const MOST: usize = 1 << 60;

/// A counter for each of some numbers of entries, by rising number. Contracts see it as the list of
/// the counts, with how many more numbers there is room for. The counters stand in runs of up to 255
/// in their order; a run that gets longer is cut in two, for which a free one is kept ready.
#[derive(Drop)]
pub struct Counts {
    runs: Vec<Run>,
    free: Vec<Run>,
    size: usize,
    room: usize,
    alloc: Global,
}

impl Model for Counts {
    ghost use Rattle.rmt_bits.specs.Counts.{Counters};
    ghost use Rattle.rmt_bits.specs.Counting.{joined};

    ghost Value = { Counters };

    ghost use Rattle.rmt_bits.specs.Keeping.{AreKept};

    ghost view = { λ c. record { counts = joined c.runs.items; room = c.room } };

    ghost invariant = { AreKept };
}

impl Counts {
    ghost use Rattle.std.specs.Prelude.{ℕ, List, ◌∷◌, ◌++◌, slice_get, option_copied, IfOk, OnOk, OnErr};
    ghost use Rattle.rmt_bits.specs.declared.answer.Count.{Count as CountOf};
    ghost use Rattle.rmt_bits.specs.Counts.{Hit, counts as counts_of};
    ghost use Rattle.rmt_bits.specs.Counting.{with_count, zero_count, hits_among};

    /// No counters, and no room for any. It takes no memory.
    pub fn new(alloc: Global) -> Counts
        ensures { result ≡ record { counts = []; room = 0 } }
    {
        Counts {
            runs: Vec::new(alloc),
            free: Vec::new(alloc),
            size: 0,
            room: 0,
            alloc,
        }
    }

    /// A counter for each of these numbers, all 0.
    pub fn of(alloc: Global, numbers: &[u32]) -> Result<Counts, AllocError>
        ensures { IfOk result (λ counters. counters.counts ≡ counts_of numbers.now []) }
    {
        let mut counts = Counts::new(alloc);
        counts.reserve(numbers.len())?;
        counts.add_all(numbers);
        Ok(counts)
    }

    /// Adds a counter for each of these numbers that has none, for which there is room. It takes no memory.
    fn add_all(&mut self, numbers: &[u32])
        requires none { self.old.counts ≡ [] }
        requires room { length numbers.now ≤ self.old.room }
        ensures { self.new.counts ≡ counts_of numbers.now [] }
    {
        for number in numbers {
            self.add(*number);
        }
    }

    /// How many counters there are.
    pub fn len(&self) -> usize
        ensures { result ≡ length self.now.counts }
    {
        self.size
    }

    /// For how many more numbers there is room.
    pub fn spare(&self) -> usize
        ensures { result ≡ self.now.room }
    {
        self.room
    }

    /// The counter at a place by rising number, from 0 on; None behind the last.
    pub fn get(&self, at: usize) -> Option<&Count>
        ensures { slice_get self.now.counts at ≡ option_copied result }
    {
        self.run_at(at).first()
    }

    /// Some counters from a place on, in their order; none only where none stands there or behind it.
    /// To go over all counters: start at 0, and each time go on behind those that were given.
    pub fn run_at(&self, at: usize) -> &[Count]
        ensures next { result.now ≡ [] → length self.now.counts ≤ at }
        ensures stretch { (rest : List CountOf) × (drop at self.now.counts ≡ result.now ++ rest) }
    {
        run_from(&self.runs, at)
    }

    /// Makes room for so many more numbers. Without memory all is as before.
    pub fn reserve(&mut self, more: usize) -> Result<(), AllocError>
        ensures counts { self.new.counts ≡ self.old.counts }
        ensures kept { self.old.room ≤ self.new.room }
        ensures ok { OnOk result (more ≤ self.new.room) }
        ensures err { OnErr result (self.new ≡ self.old) }
    {
        let before = self.spare();
        while self.spare() < more {
            if let Err(refused) = self.grow() {
                self.room = before;
                return Err(refused);
            }
        }
        Ok(())
    }

    /// Makes room for 128 more numbers. Without memory all is as before.
    fn grow(&mut self) -> Result<(), AllocError>
        ensures counts { self.new.counts ≡ self.old.counts }
        ensures ok { OnOk result (self.new.room ≡ self.old.room + 128) }
        ensures err { OnErr result (self.new.room ≡ self.old.room) }
    {
        if self.size > MOST || self.room > MOST || self.free.len() > MOST {
            return Err(AllocError);
        }
        self.runs.reserve(self.free.len() + 2)?;
        if self.runs.is_empty() {
            let first = Run::new(self.alloc)?;
            self.runs.push(first)?;
        }
        let run = Run::new(self.alloc)?;
        self.free.push(run)?;
        self.room += 128;
        Ok(())
    }

    /// Adds a counter, which is 0, for a number above all others. Without memory the list is as before.
    pub fn push(&mut self, number: u32) -> Result<(), AllocError>
        requires { All (λ (count : CountOf). count.entry < number) self.old.counts }
        ensures ok { OnOk result (self.new.counts ≡ self.old.counts ++ zero_count number ∷ []) }
        ensures err { OnErr result (self.new ≡ self.old) }
    {
        self.reserve(1)?;
        self.add(number);
        Ok(())
    }

    /// Adds a counter, which is 0, for a number that has none. There must be room. It takes no memory.
    pub fn add(&mut self, number: u32)
        requires { 0 < self.old.room }
        ensures counts { self.new.counts ≡ with_count number self.old.counts }
        ensures stands { (numbers : List ℕ) (hits : List Hit) → self.old.counts ≡ counts_of numbers hits →
            self.new.counts ≡ counts_of (number ∷ numbers) (hits_among numbers hits) }
        ensures room { self.new.room + length self.new.counts ≡ self.old.room + length self.old.counts }
        ensures once { length self.new.counts ≤ length self.old.counts + 1 }
    {
        let at = run_for(&self.runs, number);
        let run = &mut self.runs[at];
        let before = run.len();
        run.add(number);
        let size = run.len();
        let more = size - before;
        self.size += more;
        self.room -= more;
        if size == LENGTH {
            split(&mut self.runs, &mut self.free, at);
        }
    }

    /// Counts a hit of the entry of a number, where it has a counter, by a packet of so many bytes: one
    /// packet more modulo 2^48, and so many bytes more modulo 2^64. It takes no memory.
    pub fn hit(&mut self, number: u32, bytes: u64)
        ensures counts { (numbers : List ℕ) (hits : List Hit) → self.old.counts ≡ counts_of numbers hits →
            self.new.counts ≡ counts_of numbers (hits ++ record { number = number; bytes = bytes } ∷ []) }
        ensures room { self.new.room ≡ self.old.room }
    {
        if !self.runs.is_empty() {
            let at = run_for(&self.runs, number);
            let run = &mut self.runs[at];
            run.hit(number, bytes);
        }
    }
}
