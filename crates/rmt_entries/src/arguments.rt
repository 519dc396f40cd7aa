//! The arguments that the words of a line say.

ghost use Rattle.std.specs.Prelude.{◌≡◌, IfOk};
ghost use Rattle.rmt_entries.specs.Entries.{arguments};
ghost use Rattle.rmt_entries.specs.Keys.{read_each};
ghost use Rattle.rmt_entries.specs.Numbers.{number_of_width};
ghost use Rattle.rmt_entries.specs.Taken.{AreNarrow, IsTaken};

use crate::numbers::number_of_width;
use crate::words::Words;
use rmt_bits::sequence::Sequence;
use std::alloc::{AllocError, Global};

/// The numbers that the next words say, one for each width; None where the words are too few or one is no number that
/// fits.
fn numbers_of(
    alloc: Global,
    widths: &[u8],
    words: &mut Words<'_>,
) -> Result<Option<Sequence<u128>>, AllocError>
    requires { AreNarrow widths.now }
    ensures { IfOk result (λ numbers. IsTaken numbers words.new (read_each number_of_width widths.now words.old)) }
{
    let mut numbers = Sequence::from_vec(Vec::with_capacity(alloc, widths.len())?);
    for width in widths {
        let Some(word) = words.take() else {
            return Ok(None);
        };
        let Some(number) = number_of_width(*width, word) else {
            return Ok(None);
        };
        numbers.push(number)?;
    }
    Ok(Some(numbers))
}

/// The arguments that the rest of a line says, by the widths of the parameters; None where they are too few or too
/// many, or one is no number that fits. The only fault is want of memory.
pub fn arguments(
    alloc: Global,
    params: &[u8],
    words: &mut Words<'_>,
) -> Result<Option<Sequence<u128>>, AllocError>
    requires { AreNarrow params.now }
    ensures { IfOk result (λ args. args ≡ arguments params.now words.old) }
{
    let args = numbers_of(alloc, params, words)?;
    Ok(if words.is_empty() { args } else { None })
}
