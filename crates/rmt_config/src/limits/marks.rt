//! Sets of bytes, as a mark for each byte.

ghost use Rattle.std.specs.Prelude.{◌≡◌, ◌++◌, List, [], ◌∷◌, ℕ, length, map};
ghost use Rattle.std.specs.List.{sum_by};
ghost use Rattle.rmt_bits.specs.Words.{word_size};
ghost use Rattle.rmt_config.specs.TableForm.{node_of};
ghost use Rattle.rmt_config.specs.Resources.{words_of, exact_words, ternary_words, distinct};
ghost use Rattle.rmt_config.specs.LimitSteps.{Marks, marked_sum};
ghost use Rattle.rmt_config.specs.declared.config.GateTest.{GateTest};

use crate::config::{GateTest, Memory, Unit};
use rmt_bits::lane::Lane;

/// No byte is marked.
pub fn no_marks() -> [bool; 256]
    ensures { Marks [] result }
{
    [false; 256]
}

fn mark(marks: &mut [bool; 256], byte: u8)
    ensures { (ns : List ℕ) → Marks ns marks.old → Marks (ns ++ byte ∷ []) marks.new }
{
    marks[byte as usize] = true;
}

fn mark_lanes(marks: &mut [bool; 256], lanes: &[Lane])
    ensures { (ns : List ℕ) → Marks ns marks.old → Marks (ns ++ words_of lanes.now) marks.new }
{
    for lane in lanes {
        mark(marks, lane.word);
    }
}

fn mark_tests(marks: &mut [bool; 256], tests: &[GateTest])
    ensures { (ns : List ℕ) → Marks ns marks.old → Marks (ns ++ map (λ (test : GateTest). test.lane.word) tests.now) marks.new }
{
    for test in tests {
        mark(marks, test.lane.word);
    }
}

/// Marks the words that a unit reads over the exact crossbar.
pub fn mark_exact(marks: &mut [bool; 256], unit: &Unit)
    ensures { (ns : List ℕ) → Marks ns marks.old → Marks (ns ++ exact_words unit.now) marks.new }
{
    if let Unit::Slot(slot) = unit {
        if let Memory::Exact { .. } = &slot.memory {
            mark_lanes(marks, slot.keys.as_slice());
        }
    }
}

/// Marks the words that a unit reads over the ternary crossbar.
pub fn mark_ternary(marks: &mut [bool; 256], unit: &Unit)
    ensures { (ns : List ℕ) → Marks ns marks.old → Marks (ns ++ ternary_words unit.now) marks.new }
{
    match unit {
        Unit::Gate(gate) => mark_tests(marks, gate.tests.as_slice()),
        Unit::Slot(slot) => {
            if let Memory::Ternary { .. } = &slot.memory {
                mark_lanes(marks, slot.keys.as_slice());
            }
        }
    }
}

fn node_number(unit: &Unit) -> u8
    ensures { result ≡ node_of unit.now }
{
    match unit {
        Unit::Gate(gate) => gate.node,
        Unit::Slot(slot) => slot.node,
    }
}

/// Marks the nodes of units.
pub fn mark_nodes(marks: &mut [bool; 256], units: &[Unit])
    ensures { (ns : List ℕ) → Marks ns marks.old → Marks (ns ++ map node_of units.now) marks.new }
{
    for unit in units {
        mark(marks, node_number(unit));
    }
}

/// How many bytes are marked.
pub fn count_marks(marks: &[bool; 256]) -> u32
    ensures { (ns : List ℕ) → Marks ns marks.now → result ≡ length (distinct ns) }
{
    let mut count: u32 = 0;
    for mark in marks {
        if *mark {
            count += 1;
        }
    }
    count
}

/// The bits of a word. A number that is no word's counts as a word of 32 bits.
pub fn bits_of(word: usize) -> u32
    ensures { result ≡ word_size word }
{
    if word < 64 {
        8
    } else if word < 160 {
        16
    } else {
        32
    }
}

/// The bits of the words that are marked.
pub fn count_word_bits(marks: &[bool; 256]) -> u32
    ensures { (ns : List ℕ) → Marks ns marks.now → result ≡ sum_by word_size (distinct ns) }
{
    let mut bits: u32 = 0;
    for (word, mark) in marks.iter().enumerate() {
        if *mark {
            bits += bits_of(word);
        }
    }
    bits
}
