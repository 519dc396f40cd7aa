//! What the parts of a stage take together, and what more fits beside them.

ghost use Rattle.std.specs.Prelude.{◌≡◌, ℕ, ◌+◌, ◌-◌, ◌*◌, ◌≤◌, ◌<◌, ◌^◌, List, [], ◌∷◌, ◌++◌, true};
ghost use Rattle.rmt_config.specs.LimitSteps.{Marks};
ghost use Rattle.rmt_config.specs.Limits.{told as told_of};
ghost use Rattle.rmt_place.specs.Needs.{Standing, keeps_limits, sums_of};
ghost use Rattle.rmt_place.specs.Placing.{fitting, hit_beside};
ghost use Rattle.rmt_place.specs.Steps.{Holds, IsWithin, IsSmall, numbers_of, are_kept, passed_of};

use crate::demand::Demand;
use rmt_config::limits::LimitHit;
use rmt_config::limits::marks::{count_word_bits, no_marks};

/// The most that a stage takes of what limits 6 to 13 count.
pub const MOST: [u64; 8] = [106, 16, 640, 640, 16, 32, 1280, 16];

/// What the parts of a stage take together.
#[derive(Clone, Copy)]
pub struct Load {
    /// SRAM blocks.
    pub sram: u64,
    /// TCAM blocks.
    pub tcam: u64,
    /// The words that exact keys read, as a mark for each word.
    pub exact: [bool; 256],
    /// The words that prefix and ternary keys and gates read, as a mark for each word.
    pub ternary: [bool; 256],
    /// Slots.
    pub slots: u64,
    /// Instructions.
    pub instructions: u64,
    /// Bits of data.
    pub held: u64,
    /// Gates.
    pub gates: u64,
}

/// What a stage takes in which nothing stands.
pub fn nothing() -> Load
    ensures { Holds [] result }
{
    Load {
        sram: 0,
        tcam: 0,
        exact: no_marks(),
        ternary: no_marks(),
        slots: 0,
        instructions: 0,
        held: 0,
        gates: 0,
    }
}

/// What a stage takes with some quanta of one more node.
pub fn with_quanta(load: &Load, demand: &Demand, quanta: u64) -> Load
    requires within { IsWithin load.now }
    requires quanta { quanta ≤ 2 ^ 32 }
    ensures holds { (xs : List Standing) → Holds xs load.now → Holds (xs ++ record { demand = demand.now; quanta = quanta } ∷ []) result }
    ensures sram { result.sram ≡ load.now.sram + quanta * demand.now.sram }
    ensures tcam { result.tcam ≡ load.now.tcam + quanta * demand.now.tcam }
    ensures small { IsSmall demand.now }
{
    Load {
        sram: load.sram + product(quanta, demand.sram),
        tcam: load.tcam + product(quanta, demand.tcam),
        exact: with_words(&load.exact, demand.exact_words.as_slice()),
        ternary: with_words(&load.ternary, demand.ternary_words.as_slice()),
        slots: load.slots + demand.slots as u64,
        instructions: load.instructions + demand.instructions as u64,
        held: load.held + demand.held as u64,
        gates: load.gates + demand.gates as u64,
    }
}

/// A product that is not large.
fn product(quanta: u64, each: u32) -> u64
    requires { quanta ≤ 2 ^ 32 }
    ensures value { result ≡ quanta * each }
    ensures small { result ≤ 2 ^ 64 - 2 ^ 32 }
    ensures each { each < 2 ^ 32 }
{
    quanta * each as u64
}

/// The marks of some more words.
fn with_words(marks: &[bool; 256], words: &[u8]) -> [bool; 256]
    ensures { (ns : List ℕ) → Marks ns marks.now → Marks (ns ++ words.now) result }
{
    let mut all = *marks;
    for word in words {
        all[*word as usize] = true;
    }
    all
}

/// What limits 6 to 13 count of a stage.
pub fn sums(load: &Load) -> [u64; 8]
    ensures { (xs : List Standing) → Holds xs load.now → result ≡ numbers_of xs }
{
    [
        load.sram,
        load.tcam,
        count_word_bits(&load.exact) as u64,
        count_word_bits(&load.ternary) as u64,
        load.slots,
        load.instructions,
        load.held,
        load.gates,
    ]
}

/// Whether sums keep limits 6 to 13.
pub fn keep(sums: &[u64; 8]) -> bool
    ensures { result ≡ are_kept MOST sums.now }
{
    for (at, most) in MOST.iter().enumerate() {
        if *most < sums[at] {
            return false;
        }
    }
    true
}

/// The most quanta of a node that fit beside what a stage takes, of those that are left.
pub fn most_that_fit(load: &Load, demand: &Demand, left: u32) -> u32
    requires { IsWithin load.now }
    ensures value { (xs : List Standing) → Holds xs load.now → result ≡ fitting xs demand.now left }
    ensures few { result ≤ left }
{
    if !keep(&sums(&with_quanta(load, demand, 1))) {
        return 0;
    }
    let by_sram = most_of(106 - load.sram as u32, demand.sram, left);
    most_of(16 - load.tcam as u32, demand.tcam, by_sram)
}

/// How many of those that are left fit into so much room.
fn most_of(room: u32, each: u32, left: u32) -> u32
    ensures few { result ≤ left }
    ensures fit { result * each ≤ room }
    ensures most { (q : ℕ) → result < q → q ≤ left → room < q * each }
{
    if each == 0 {
        return left;
    }
    left.min(room / each)
}

/// Why one more quantum of a node doesn't fit in a stage, beside those that it takes there.
pub fn hit(load: &Load, demand: &Demand, taken: u32, stage: u8) -> Option<LimitHit>
    requires { IsWithin load.now }
    ensures { (xs : List Standing) → Holds xs load.now → keeps_limits xs ≡ true → (left : ℕ) → taken ≡ fitting xs demand.now left → result ≡ hit_beside stage xs demand.now taken }
{
    let have = if taken == 0 {
        sums(load)
    } else {
        sums(&with_quanta(load, demand, taken as u64))
    };
    let more = sums(&with_quanta(load, demand, taken as u64 + 1));
    passed(&have, &more, stage)
}

/// The first of limits 6 to 13 that sums pass, with what they are without one more quantum, and what that needs.
fn passed(have: &[u64; 8], more: &[u64; 8], stage: u8) -> Option<LimitHit>
    ensures { result ≡ passed_of stage 6 MOST have.now more.now }
{
    for (at, most) in MOST.iter().enumerate() {
        if *most < more[at] {
            return Some(LimitHit {
                limit: at as u8 + 6,
                stage,
                sum: told(have[at]),
                need: told(more[at].saturating_sub(have[at])),
            });
        }
    }
    None
}

/// A number, where 4,294,967,295 stands for any that is at least that.
fn told(number: u64) -> u32
    ensures { result ≡ told_of number }
{
    number.min(4294967295) as u32
}
