//! Which numbers of a list may stand in it twice.

ghost use Rattle.std.specs.Prelude.{◌≡◌, ◌<◌, [], IfOk, length};
ghost use Rattle.std.specs.List.{filter};
ghost use Rattle.rmt_config.specs.Marks.{RepeatsAreIn, is_marked};
ghost use Rattle.rmt_config.specs.Order.{are_new};

use crate::form::names::marks::{is_marked, mark, marks_of, no_marks};
use std::alloc::{AllocError, Global};

/// The numbers whose place was marked by one before them: each that stands twice is among them. The table has at least
/// some 8 bits for each number, so that of those that differ few share their place.
fn met_again(alloc: Global, numbers: &[u64]) -> Result<Vec<u64>, AllocError>
    ensures { IfOk result (λ again. RepeatsAreIn again.items numbers.now) }
{
    let mut marks = no_marks(alloc, numbers.len() / 8)?;
    let mut again = Vec::new(alloc);
    for number in numbers {
        if is_marked(marks.as_slice(), *number) {
            again.push(*number)?;
        } else {
            mark(marks.as_mut_slice(), *number);
        }
    }
    Ok(again)
}

/// Those of the numbers that are marked.
fn marked(alloc: Global, words: &[u64], numbers: &[u64]) -> Result<Vec<u64>, AllocError>
    requires { 0 < length words.now }
    ensures { IfOk result (λ found. found.items ≡ filter (is_marked words.now) numbers.now) }
{
    let mut found = Vec::new(alloc);
    for number in numbers {
        if is_marked(words, *number) {
            found.push(*number)?;
        }
    }
    Ok(found)
}

/// The numbers of a list that may stand in it twice: they are new one after another just where those of the list are.
/// The time is that of two looks at each number. Beside the numbers that do stand twice they are few, where the low bits
/// of the numbers are spread evenly: less than one in six.
pub fn may_repeat(alloc: Global, numbers: &[u64]) -> Result<Vec<u64>, AllocError>
    ensures { IfOk result (λ some. are_new [] some.items ≡ are_new [] numbers.now) }
{
    let again = met_again(alloc, numbers)?;
    let words = marks_of(alloc, again.as_slice())?;
    marked(alloc, words.as_slice(), numbers)
}
