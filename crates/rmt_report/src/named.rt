//! The words of the header vector that a configuration names.

ghost use Rattle.std.specs.Prelude.{◌≡◌, ◌==◌, ◌∷◌, ℕ, List, [], count_by};
ghost use Rattle.std.specs.List.{flat_map};
ghost use Rattle.rmt_bits.specs.Words.{word_size};
ghost use Rattle.rmt_config.specs.Resources.{distinct};
ghost use Rattle.rmt_config.specs.LimitSteps.{Marks};
ghost use Rattle.rmt_report.specs.NamedWords.{named_words, lane_words, extract_words, test_words, source_words, operation_words, vliw_words, unit_words, stage_words, header_words, entry_words};
ghost use Rattle.rmt_report.specs.Marked.{MarksAlso};
ghost use Rattle.rmt_report.specs.WordCounts.{counts_of};

use rmt_bits::lane::Lane;
use rmt_config::config::{
    Config, Extract, GateTest, Operation, OutHeader, ParserEntry, Source, Stage, Unit, Vliw,
};
use rmt_config::limits::marks::{bits_of, no_marks};

/// How many words of each size are named, each word counted once.
#[derive(Clone, Copy, Debug, PartialEq, Eq)]
pub struct WordCounts {
    /// Words of 8 bits, at most 64.
    pub bytes: u32,
    /// Words of 16 bits, at most 96.
    pub halves: u32,
    /// Words of 32 bits, at most 64 where the rules of form are kept.
    pub wholes: u32,
}

/// What names words of the header vector.
pub trait NamesWords {
    /// The words that it names, as often as it names them.
    ghost named: { Self → List ℕ };

    /// Marks these words, and leaves the other marks.
    fn mark(&self, marks: &mut [bool; 256])
        ensures { MarksAlso (named self.now) marks.old marks.new };
}

fn mark_all<T: NamesWords>(marks: &mut [bool; 256], items: &[T])
    ensures { MarksAlso (flat_map T.named items.now) marks.old marks.new }
{
    for item in items {
        item.mark(marks);
    }
}

fn mark_word(marks: &mut [bool; 256], word: u8)
    ensures { MarksAlso (word ∷ []) marks.old marks.new }
{
    marks[word as usize] = true;
}

impl NamesWords for Lane {
    ghost named = { lane_words };

    fn mark(&self, marks: &mut [bool; 256]) {
        mark_word(marks, self.word);
    }
}

impl NamesWords for Extract {
    ghost named = { extract_words };

    fn mark(&self, marks: &mut [bool; 256]) {
        match self {
            Extract::Bits { lane, .. } => lane.mark(marks),
            Extract::One { lane } => lane.mark(marks),
        }
    }
}

impl NamesWords for ParserEntry {
    ghost named = { entry_words };

    fn mark(&self, marks: &mut [bool; 256]) {
        mark_all(marks, self.extracts.as_slice());
    }
}

impl NamesWords for OutHeader {
    ghost named = { header_words };

    fn mark(&self, marks: &mut [bool; 256]) {
        self.valid.mark(marks);
        mark_all(marks, self.pieces.as_slice());
    }
}

impl NamesWords for GateTest {
    ghost named = { test_words };

    fn mark(&self, marks: &mut [bool; 256]) {
        self.lane.mark(marks);
    }
}

impl NamesWords for Unit {
    ghost named = { unit_words };

    fn mark(&self, marks: &mut [bool; 256]) {
        match self {
            Unit::Gate(gate) => mark_all(marks, gate.tests.as_slice()),
            Unit::Slot(slot) => mark_all(marks, slot.keys.as_slice()),
        }
    }
}

impl NamesWords for Source {
    ghost named = { source_words };

    fn mark(&self, marks: &mut [bool; 256]) {
        if let Source::Word { word, .. } = self {
            mark_word(marks, *word);
        }
    }
}

impl NamesWords for Operation {
    ghost named = { operation_words };

    fn mark(&self, marks: &mut [bool; 256]) {
        mark_word(marks, self.word);
        self.left.mark(marks);
        self.right.mark(marks);
    }
}

impl NamesWords for Vliw {
    ghost named = { vliw_words };

    fn mark(&self, marks: &mut [bool; 256]) {
        mark_all(marks, self.ops.as_slice());
    }
}

impl NamesWords for Stage {
    ghost named = { stage_words };

    fn mark(&self, marks: &mut [bool; 256]) {
        mark_all(marks, self.units.as_slice());
        mark_all(marks, self.code.as_slice());
    }
}

impl NamesWords for Config {
    ghost named = { named_words };

    fn mark(&self, marks: &mut [bool; 256]) {
        self.in_port.mark(marks);
        self.out_port.mark(marks);
        self.drop.mark(marks);
        mark_all(marks, self.headers.as_slice());
        mark_all(marks, self.parser.entries.as_slice());
        mark_all(marks, self.stages.as_slice());
    }
}

fn named_marks(config: &Config) -> [bool; 256]
    ensures { Marks (named_words config.now) result }
{
    let mut marks = no_marks();
    config.mark(&mut marks);
    marks
}

fn count_of_size(marks: &[bool; 256], size: u32) -> u32
    ensures { (ns : List ℕ) → Marks ns marks.now → result ≡ count_by (λ word. word_size word == size) (distinct ns) }
{
    let mut count: u32 = 0;
    for (word, mark) in marks.iter().enumerate() {
        if *mark && bits_of(word) == size {
            count += 1;
        }
    }
    count
}

/// How many words of each size a configuration names.
pub fn word_counts(config: &Config) -> WordCounts
    ensures { result ≡ counts_of config.now }
{
    let marks = named_marks(config);
    WordCounts {
        bytes: count_of_size(&marks, 8),
        halves: count_of_size(&marks, 16),
        wholes: count_of_size(&marks, 32),
    }
}
