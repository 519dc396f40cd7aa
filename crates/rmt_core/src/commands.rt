//! The words of a command line.

ghost use Rattle.std.specs.Prelude.{◌≡◌, ◌≤◌, SomeIff, string_bytes};
ghost use Rattle.rmt_bits.specs.Digits.{number_of_digits};
ghost use Rattle.rmt_core.specs.Commands.{budget_of, command_of, compile_of, cycle_of, every_of, improve_of, is_number, probe_of, sample_number_of, switch_of, with_five, with_four, with_one, with_three, words_of};
ghost use Rattle.rmt_core.specs.CommandReading.{seen};

use rmt_bits::digits::{are_digits, number_up_to};

/// The most digits of a cycle.
const CYCLE_DIGITS: usize = 9;

/// The greatest number of so many digits.
const LAST_CYCLE: u32 = 999_999_999;

/// The most digits of a budget.
const BUDGET_DIGITS: usize = 4;

/// The greatest budget.
const BUDGET_MOST: u32 = 1_000;

/// The most digits of the number of a sample.
const SAMPLE_DIGITS: usize = 6;

/// The greatest number of a sample.
const SAMPLE_MOST: u32 = 100_000;

/// The most digits of a number of cycles.
const EVERY_DIGITS: usize = 6;

/// The greatest number of cycles.
const EVERY_MOST: u32 = 999_999;

/// The names that `switch` is given.
#[derive(Clone, Copy)]
pub struct SwitchNames<'a> {
    /// The image.
    pub image: &'a String,
    /// The group text.
    pub groups: &'a String,
    /// The capture file.
    pub capture: &'a String,
    /// What the names of the ports' captures begin with.
    pub out: &'a String,
}

/// A command, with the names of its files.
#[derive(Clone, Copy)]
pub enum Command<'a> {
    /// `compile PROGRAM ENTRIES IMAGE`
    Compile {
        program: &'a String,
        entries: &'a String,
        image: &'a String,
    },
    /// `compile PROGRAM ENTRIES IMAGE MAP`
    CompileMap {
        program: &'a String,
        entries: &'a String,
        image: &'a String,
        map: &'a String,
    },
    /// `improve PROGRAM ENTRIES IMAGE BUDGET`
    Improve {
        program: &'a String,
        entries: &'a String,
        image: &'a String,
        budget: u32,
    },
    /// `sim IMAGE PACKETS`
    Sim {
        image: &'a String,
        packets: &'a String,
    },
    /// `probe IMAGE PACKETS CYCLE`
    Probe {
        image: &'a String,
        packets: &'a String,
        cycle: u32,
    },
    /// `plain PROGRAM ENTRIES PACKETS`
    Plain {
        program: &'a String,
        entries: &'a String,
        packets: &'a String,
    },
    /// `report IMAGE`
    Report {
        image: &'a String,
    },
    /// `sample N`
    Sample {
        number: u32,
    },
    /// `switch IMAGE GROUPS CAPTURE OUT EVERY`
    Switch {
        names: SwitchNames<'a>,
        every: u32,
    },
    /// `verify PROGRAM ENTRIES IMAGE MAP`
    Verify {
        program: &'a String,
        entries: &'a String,
        image: &'a String,
        map: &'a String,
    },
    /// The words are of no command.
    Unknown,
}

/// The command that the words are.
pub fn command_from(words: &Vec<String>) -> Command<'_>
    ensures { seen result ≡ command_of (words_of words.now.items) }
{
    match words.as_slice() {
        [word, first, second, third, fourth, fifth] => {
            with_five(word, first, second, third, fourth, fifth)
        }
        [word, first, second, third, fourth] => with_four(word, first, second, third, fourth),
        [word, first, second, third] => with_three(word, first, second, third),
        [word, image, packets] if word.as_str() == "sim" => Command::Sim { image, packets },
        [word, first] => with_one(word, first),
        _ => Command::Unknown,
    }
}

/// The command of a word with one word behind it.
fn with_one<'a>(word: &String, first: &'a String) -> Command<'a>
    ensures { seen result ≡ with_one (string_bytes word.now) (string_bytes first.now) }
{
    match word.as_str() {
        "report" => Command::Report { image: first },
        "sample" => match sample_number_from(first.as_bytes()) {
            Some(number) => Command::Sample { number },
            None => Command::Unknown,
        },
        _ => Command::Unknown,
    }
}

/// The number of a sample that a word says, if it is 1 to 6 decimal digits and from 1 to 100,000.
fn sample_number_from(word: &[u8]) -> Option<u32>
    ensures { result ≡ sample_number_of word.now }
{
    if !is_number(SAMPLE_DIGITS, word) {
        return None;
    }
    match number_from(SAMPLE_MOST, word) {
        Some(number) if 1 <= number => Some(number),
        _ => None,
    }
}

/// Whether a word is decimal digits, at least one and at most so many.
fn is_number(most: usize, word: &[u8]) -> bool
    ensures { result ≡ is_number most word.now }
{
    1 <= word.len() && word.len() <= most && are_digits(word)
}

/// The command of a word with five words behind it.
fn with_five<'a>(
    word: &String,
    first: &'a String,
    second: &'a String,
    third: &'a String,
    fourth: &'a String,
    fifth: &String,
) -> Command<'a>
    ensures { seen result ≡ with_five (string_bytes word.now) (string_bytes first.now)
        (string_bytes second.now) (string_bytes third.now) (string_bytes fourth.now)
        (string_bytes fifth.now) }
{
    let names = SwitchNames {
        image: first,
        groups: second,
        capture: third,
        out: fourth,
    };
    match word.as_str() {
        "switch" => switch_from(names, fifth),
        _ => Command::Unknown,
    }
}

/// The command `switch`, where the last word is a number of cycles.
fn switch_from<'a>(names: SwitchNames<'a>, every: &String) -> Command<'a>
    ensures { seen result ≡ switch_of (string_bytes names.entry.image.now)
        (string_bytes names.entry.groups.now) (string_bytes names.entry.capture.now)
        (string_bytes names.entry.out.now) (every_of (string_bytes every.now)) }
{
    match every_from(every.as_bytes()) {
        Some(every) => Command::Switch { names, every },
        None => Command::Unknown,
    }
}

/// The number of cycles that a word says, if it is 1 to 6 decimal digits and at least 1.
fn every_from(word: &[u8]) -> Option<u32>
    ensures { result ≡ every_of word.now }
{
    if !is_number(EVERY_DIGITS, word) {
        return None;
    }
    match number_from(EVERY_MOST, word) {
        Some(number) if 1 <= number => Some(number),
        _ => None,
    }
}

/// The command of a word with four words behind it.
fn with_four<'a>(
    word: &String,
    first: &'a String,
    second: &'a String,
    third: &'a String,
    fourth: &'a String,
) -> Command<'a>
    ensures { seen result ≡ with_four (string_bytes word.now) (string_bytes first.now)
        (string_bytes second.now) (string_bytes third.now) (string_bytes fourth.now) }
{
    match word.as_str() {
        "compile" => compile_from(first, second, third, fourth),
        "improve" => improve_from(first, second, third, fourth),
        "verify" => Command::Verify {
            program: first,
            entries: second,
            image: third,
            map: fourth,
        },
        _ => Command::Unknown,
    }
}

/// The command `compile` with a map, where image and map are not one word.
fn compile_from<'a>(
    program: &'a String,
    entries: &'a String,
    image: &'a String,
    map: &'a String,
) -> Command<'a>
    ensures { seen result ≡ compile_of (string_bytes program.now) (string_bytes entries.now)
        (string_bytes image.now) (string_bytes map.now) }
{
    if image.as_str() == map.as_str() {
        return Command::Unknown;
    }
    Command::CompileMap {
        program,
        entries,
        image,
        map,
    }
}

/// The command `improve`, where the last word is a budget.
fn improve_from<'a>(
    program: &'a String,
    entries: &'a String,
    image: &'a String,
    budget: &String,
) -> Command<'a>
    ensures { seen result ≡ improve_of (string_bytes program.now) (string_bytes entries.now)
        (string_bytes image.now) (budget_of (string_bytes budget.now)) }
{
    match budget_from(budget.as_bytes()) {
        Some(budget) => Command::Improve {
            program,
            entries,
            image,
            budget,
        },
        None => Command::Unknown,
    }
}

/// The budget that a word says, if it is 1 to 4 decimal digits and from 1 to 1,000.
fn budget_from(word: &[u8]) -> Option<u32>
    ensures { result ≡ budget_of word.now }
{
    if !is_number(BUDGET_DIGITS, word) {
        return None;
    }
    match number_from(BUDGET_MOST, word) {
        Some(number) if 1 <= number => Some(number),
        _ => None,
    }
}

/// The command of a word with three words behind it.
fn with_three<'a>(
    word: &String,
    first: &'a String,
    second: &'a String,
    third: &'a String,
) -> Command<'a>
    ensures { seen result ≡ with_three (string_bytes word.now) (string_bytes first.now)
        (string_bytes second.now) (string_bytes third.now) }
{
    match word.as_str() {
        "compile" => Command::Compile {
            program: first,
            entries: second,
            image: third,
        },
        "plain" => Command::Plain {
            program: first,
            entries: second,
            packets: third,
        },
        "probe" => probe_from(first, second, third),
        _ => Command::Unknown,
    }
}

/// The command `probe`, where the last word is a cycle.
fn probe_from<'a>(image: &'a String, packets: &'a String, cycle: &String) -> Command<'a>
    ensures { seen result ≡ probe_of (string_bytes image.now) (string_bytes packets.now)
        (cycle_of (string_bytes cycle.now)) }
{
    match cycle_from(cycle.as_bytes()) {
        Some(cycle) => Command::Probe {
            image,
            packets,
            cycle,
        },
        None => Command::Unknown,
    }
}

/// The cycle that a word says, if it is 1 to 9 decimal digits.
#[tactic(auto, using(crate::proofs::CycleWords::says_cycle))]
fn cycle_from(word: &[u8]) -> Option<u32>
    ensures { result ≡ cycle_of word.now }
{
    if !is_number(CYCLE_DIGITS, word) {
        return None;
    }
    number_from(LAST_CYCLE, word)
}

/// The number that decimal digits say, or None where it is above `last`.
fn number_from(last: u32, digits: &[u8]) -> Option<u32>
    ensures { SomeIff result (number_of_digits 10 digits.now ≤ last)
        (number_of_digits 10 digits.now) }
{
    match number_up_to(u128::from(last), 10, digits) {
        Some(number) => Some(number as u32),
        None => None,
    }
}
