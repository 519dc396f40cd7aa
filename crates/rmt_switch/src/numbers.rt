//! The numbers that a line says.

ghost use Rattle.std.specs.Prelude.{◌≡◌, IfOk};
ghost use Rattle.rmt_switch.specs.GroupText.{numbers_of, port_of};

use rmt_bits::cuts::cut;
use rmt_bits::digits::decimal;
use rmt_bits::sequence::Sequence;
use std::alloc::{AllocError, Global};

/// The number below 512 that a word says.
fn port_of(word: &[u8]) -> Option<u16>
    ensures { result ≡ port_of word.now }
{
    match decimal(511, word) {
        Some(value) => Some(value as u16),
        None => None,
    }
}

/// The numbers below 512 that the words of a line say; None where a word says none.
pub fn numbers_of(alloc: Global, line: &[u8]) -> Result<Option<Sequence<u16>>, AllocError>
    ensures { IfOk result (λ numbers. numbers ≡ numbers_of line.now) }
{
    let mut numbers = Sequence::new(alloc);
    let mut rest = line;
    while !rest.is_empty() {
        let (word, behind) = cut(rest, b' ');
        if !word.is_empty() {
            let Some(number) = port_of(word) else {
                return Ok(None);
            };
            numbers.push(number)?;
        }
        rest = behind;
    }
    Ok(Some(numbers))
}
