//! Runs of counters, one after another.

ghost use Rattle.std.specs.Prelude.{◌≡◌, ◌+◌, ◌<◌, ◌≤◌, ◌++◌, List, [], ◌∷◌, length, take, drop, All, slice_index_or, vec_len, vec_capacity};
ghost use Rattle.rmt_bits.specs.declared.answer.Count.{Count as CountOf};
ghost use Rattle.rmt_bits.specs.Counting.{AreRising, joined, sizes_of};

use super::run::Run;
use crate::answer::Count;

/// The run in which a number stands, or among whose numbers it would stand.
pub fn run_for(runs: &[Run], number: u32) -> usize
    requires some { 0 < length runs.now }
    requires filled { All (λ n. 0 < n) (drop 1 (sizes_of runs.now)) }
    requires rising { AreRising (joined runs.now) }
    ensures inside { result < length runs.now }
    ensures below { All (λ (c : CountOf). c.entry < number) (joined (take result runs.now)) }
    ensures above { All (λ (c : CountOf). number < c.entry) (joined (drop (result + 1) runs.now)) }
{
    let mut low = 0;
    let mut high = runs.len();
    while high - low > 1 {
        let middle = low + (high - low) / 2;
        if number < runs[middle].first() {
            high = middle;
        } else {
            low = middle;
        }
    }
    low
}

/// The counters of the run that has the one at a place, from there on; none where none stands at the
/// place or behind it.
pub fn run_from(runs: &[Run], at: usize) -> &[Count]
    ensures next { result.now ≡ [] → length (joined runs.now) ≤ at }
    ensures stretch { (rest : List CountOf) × (drop at (joined runs.now) ≡ result.now ++ rest) }
{
    let mut left = at;
    for run in runs {
        let counts = run.as_slice();
        if left < counts.len() {
            return &counts[left..];
        }
        left -= counts.len();
    }
    &[]
}

/// Cuts a full run in two, for which a free one is taken.
pub fn split(runs: &mut Vec<Run>, free: &mut Vec<Run>, at: usize)
    requires inside { at < vec_len runs.old }
    requires full { length (slice_index_or runs.old.items at []) ≡ 256 }
    requires one { 0 < vec_len free.old }
    requires room { vec_len runs.old < vec_capacity runs.old }
    ensures counts { joined runs.new.items ≡ joined runs.old.items }
    ensures sizes { sizes_of runs.new.items
        ≡ take at (sizes_of runs.old.items) ++ 128 ∷ 128 ∷ drop (at + 1) (sizes_of runs.old.items) }
    ensures len { vec_len runs.new ≡ vec_len runs.old + 1 }
    ensures free { vec_len free.new + 1 ≡ vec_len free.old }
    ensures capacity { vec_capacity runs.old ≤ vec_capacity runs.new }
{
    if let Some(mut upper) = free.pop() {
        let lower = &mut runs[at];
        lower.halve(&mut upper);
        match runs.insert(at + 1, upper) {
            Ok(()) => {}
            Err(_) => unreachable!(),
        }
    }
}
