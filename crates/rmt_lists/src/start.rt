//! What a run begins with.

ghost use Rattle.std.specs.Prelude.{◌≡◌, ◌<◌, ◌≤◌, ◌+◌, All, IfOk, fold, length, max};
ghost use Rattle.rmt_lists.specs.Entries.{Entry, entry_numbers, flat_map, next_number};
ghost use Rattle.rmt_lists.specs.Holding.{Holds};
ghost use Rattle.rmt_lists.specs.Stands.{AreHeld};

use crate::held::{Held, spelled};
use rmt_ast::entry::Entry;
use rmt_bits::sequence::Sequence;
use std::alloc::{AllocError, Global};

/// One more than the greatest number of these entries, and at least `next`.
fn next_behind(next: u64, entries: &[Entry]) -> u64
    requires { next ≤ 4294967296 }
    ensures { result ≡ fold (λ next n. max next (n + 1)) next (entry_numbers entries.now) }
{
    let mut next = next;
    for entry in entries {
        next = next.max(u64::from(entry.number) + 1);
    }
    next
}

/// One more than the greatest number that an entry has, and 0 where there is none.
pub fn next_number(lists: &[Sequence<Entry>]) -> u64
    requires { All (λ n. n < 4293918720) (flat_map entry_numbers lists.now) }
    ensures { result ≡ next_number lists.now }
{
    let mut next = 0;
    for list in lists {
        next = next_behind(next, list.as_slice());
    }
    next
}

/// The entries of a table by their keys. The only fault is want of memory.
fn held_in(alloc: Global, entries: &[Entry]) -> Result<Held, AllocError>
    requires { length entries.now ≤ 1048576 }
    ensures { IfOk result (λ held. Holds held entries.now) }
{
    let mut held = Held::new(alloc, 4 * entries.len() + 1)?;
    for entry in entries {
        let key = spelled(alloc, entry.tests.as_slice(), entry.rank)?;
        held.push(alloc, key, entry.number)?;
    }
    Ok(held)
}

/// The entries of each table by their keys. The only fault is want of memory.
pub fn held_of(alloc: Global, lists: &[Sequence<Entry>]) -> Result<Vec<Held>, AllocError>
    requires { All (λ es. length es ≤ 1048576) lists.now }
    ensures { IfOk result (λ held. AreHeld held.items lists.now) }
{
    let mut held = Vec::new(alloc);
    for list in lists {
        held.push(held_in(alloc, list.as_slice())?)?;
    }
    Ok(held)
}
