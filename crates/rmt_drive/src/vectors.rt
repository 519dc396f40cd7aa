//! The text of the vectors in flight.

ghost use Rattle.std.specs.Prelude.{◌≡◌, ◌+◌, ◌<◌, ◌++◌, List, slice_index, OnOk};
ghost use Rattle.rmt_config.specs.declared.config.Config.{Config};
ghost use Rattle.rmt_config.specs.ChipRun.{latency_of};
ghost use Rattle.rmt_config.specs.RunInputs.{Input};
ghost use Rattle.rmt_chip.specs.Stands.{Stands, in_flight};
ghost use Rattle.rmt_drive.specs.ChipText.{flying_below, line_at};
ghost use Rattle.rmt_drive.specs.ProbeText.{hex_text, word_text, words_below, vector_line};

use crate::numbers::add_number;
use rmt_bits::lane::word_size;
use rmt_chip::chip::Chip;
use rmt_config::vector::Vector;
use std::alloc::AllocError;

/// How many words a vector has.
const WORDS: u8 = 224;

/// The hexadecimal digits, by their values.
const DIGITS: &[u8; 16] = b"0123456789abcdef";

/// Appends so many of a number's lowest hexadecimal digits.
fn add_hex(count: u8, value: u32, text: &mut Vec<u8>) -> Result<(), AllocError>
    requires { count < 9 }
    ensures { OnOk result (text.new.items ≡ text.old.items ++ hex_text count value) }
{
    let mut places = count;
    while places > 0 {
        places -= 1;
        let digit = (value >> (4 * places)) % 16;
        text.push(DIGITS[digit as usize])?;
    }
    Ok(())
}

/// Appends a word that is not 0 with its number.
fn add_word(word: u8, value: u32, text: &mut Vec<u8>) -> Result<(), AllocError>
    requires { word < 224 }
    ensures { OnOk result (text.new.items ≡ text.old.items ++ word_text word value) }
{
    if value == 0 {
        return Ok(());
    }
    text.push(b' ')?;
    add_number(u64::from(word), text)?;
    text.push(b':')?;
    add_hex(word_size(word) / 4, value, text)
}

/// Appends the words of a vector.
fn add_words(words: &Vector, text: &mut Vec<u8>) -> Result<(), AllocError>
    ensures { OnOk result (text.new.items ≡ text.old.items ++ words_below (λ w. slice_index words.now w) 224) }
{
    for word in 0..WORDS {
        add_word(word, words.get(word), text)?;
    }
    Ok(())
}

/// Appends the line of a packet of this number and age.
fn add_line(number: u64, age: u16, words: &Vector, text: &mut Vec<u8>) -> Result<(), AllocError>
    ensures { OnOk result (text.new.items ≡ text.old.items ++ vector_line number age (λ w. slice_index words.now w)) }
{
    add_number(number, text)?;
    text.push(b' ')?;
    add_number(u64::from(age), text)?;
    add_words(words, text)?;
    text.push(b'\n')?;
    Ok(())
}

/// Appends the line of the packet of this age, if one is in flight.
fn add_age(chip: &Chip, age: u16, text: &mut Vec<u8>) -> Result<(), AllocError>
    ensures { OnOk result ((c : Config) (made : List Input) → Stands c made chip.now →
        text.new.items ≡ text.old.items ++ line_at c age (in_flight c made age)) }
{
    match chip.probe(age) {
        Some(seen) => add_line(seen.number, age, seen.words, text),
        None => Ok(()),
    }
}

/// Appends the lines of the packets in flight, the oldest first.
pub fn add_vectors(chip: &Chip, text: &mut Vec<u8>) -> Result<(), AllocError>
    ensures { OnOk result ((c : Config) (made : List Input) → Stands c made chip.now →
        text.new.items ≡ text.old.items ++ flying_below c made (latency_of c.stages + 1)) }
{
    let mut below = u32::from(chip.latency()) + 1;
    while below > 0 {
        below -= 1;
        add_age(chip, below as u16, text)?;
    }
    Ok(())
}
