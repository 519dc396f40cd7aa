//! Marks by lists of numbers: the lists that entries want are marked, and a list without its mark is none of them. So a
//! map is asked for few of the lists that no entry wants.

ghost use Rattle.std.specs.Prelude.{◌≡◌, length, true, slice_set, IfOk};
ghost use Rattle.rmt_plain.specs.Grouping.{AreMarks};
ghost use Rattle.rmt_plain.specs.Marks.{total_of, slot_of, slots_for, is_marked as is_marked_of};

use crate::grouping::values;
use crate::numbers::put_at;
use rmt_ast::entry::Entry;
use std::alloc::{AllocError, Global};

/// Slots for each entry: the more there are, the fewer lists have the mark of another.
const SLOTS: usize = 16;

/// The sum of numbers, modulo 2^128.
pub fn total(values: &[u128]) -> u128
    ensures { result ≡ total_of values.now }
{
    let mut total = 0u128;
    for value in values {
        total = total.wrapping_add(*value);
    }
    total
}

/// The slot of a sum, among so many.
fn slot(slots: usize, total: u128) -> usize
    ensures { result ≡ slot_of slots total }
{
    let folded = ((total >> 64) as u64).wrapping_add((total % (1 << 64)) as u64);
    let spread = folded.wrapping_mul(0x9e37_79b9_7f4a_7c15) >> 32;
    (spread.wrapping_mul(slots as u64) >> 32) as usize
}

/// Whether lists of a sum are marked.
pub fn is_marked(marks: &[bool], total: u128) -> bool
    ensures { result ≡ is_marked_of marks.now total }
{
    match marks.get(slot(marks.len(), total)) {
        Some(mark) => *mark,
        None => true,
    }
}

/// Marks the lists of a sum.
fn mark(marks: &mut [bool], total: u128)
    ensures { marks.new ≡ slice_set marks.old (slot_of (length marks.old) total) true }
{
    let slot = slot(marks.len(), total);
    put_at(marks, slot, true);
}

/// The marks of what entries want.
pub fn marks_of(alloc: Global, entries: &[Entry]) -> Result<Vec<bool>, AllocError>
    ensures { IfOk result (λ marks. AreMarks (slots_for (length entries.now)) entries.now marks.items) }
{
    let mut marks = vec![in alloc; false; entries.len().saturating_mul(SLOTS)]?;
    for at in 0..entries.len() {
        let values = values(alloc, entries[at].tests.as_slice())?;
        mark(&mut marks, total(&values));
    }
    Ok(marks)
}
