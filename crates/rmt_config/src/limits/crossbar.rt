//! The words that the units of a stage read over its two crossbars.

ghost use Rattle.std.specs.Prelude.{◌≡◌, ◌++◌, List, ℕ};
ghost use Rattle.rmt_config.specs.LimitSteps.{Marks, words_over};
ghost use Rattle.rmt_config.specs.Resources.{crossbar_bits, exact_words, ternary_words};

use crate::config::Unit;
use crate::limits::marks::{count_word_bits, mark_exact, mark_ternary, no_marks};

/// A crossbar of a stage.
#[derive(Clone, Copy)]
enum Crossbar {
    /// That over which exact keys are read.
    Exact,
    /// That over which prefix and ternary keys and gates are read.
    Ternary,
}

/// Marks the words that a unit reads over a crossbar.
fn mark(crossbar: Crossbar, marks: &mut [bool; 256], unit: &Unit)
    ensures { (ns : List ℕ) → Marks ns marks.old → Marks (ns ++ words_over crossbar unit.now) marks.new }
{
    match crossbar {
        Crossbar::Exact => mark_exact(marks, unit),
        Crossbar::Ternary => mark_ternary(marks, unit),
    }
}

/// The bits of the words that units read over a crossbar, each word once.
fn bits_over(crossbar: Crossbar, units: &[Unit]) -> u32
    ensures { result ≡ crossbar_bits (words_over crossbar) units.now }
{
    let mut marks = no_marks();
    for unit in units {
        mark(crossbar, &mut marks, unit);
    }
    count_word_bits(&marks)
}

/// The bits of the words that exact keys read, each word once.
pub fn exact_bits(units: &[Unit]) -> u32
    ensures { result ≡ crossbar_bits exact_words units.now }
{
    bits_over(Crossbar::Exact, units)
}

/// The bits of the words that prefix and ternary keys and gates read, each word once.
pub fn ternary_bits(units: &[Unit]) -> u32
    ensures { result ≡ crossbar_bits ternary_words units.now }
{
    bits_over(Crossbar::Ternary, units)
}
