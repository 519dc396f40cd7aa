//! The counters of the entries of counted tables.

ghost use Rattle.std.specs.Prelude.{◌≡◌, ◌≤◌, ◌++◌, ℕ, List, [], length, All, if◌then◌else◌, IfOk, OnOk};
ghost use Rattle.rmt_bits.specs.Counts.{Hit, counts, hits_by};
ghost use Rattle.rmt_ast.specs.Answers.{counted_numbers, entry_numbers, is_counted as is_counted_of};
ghost use Rattle.rmt_plain.specs.Counters.{IsThereIfHit};

use rmt_ast::entry::{Entry, EntryLists};
use rmt_ast::program::{Program, What};
use rmt_bits::counts::Counts;
use rmt_bits::sequence::Sequence;
use std::alloc::{AllocError, Global};

/// Counts the hits of a packet of so many bytes. It takes no memory.
pub fn count(counters: &mut Counts, hits: &[u32], bytes: u64)
    ensures { (numbers : List ℕ) (before : List Hit) → counters.old.counts ≡ counts numbers before →
        counters.new.counts ≡ counts numbers (before ++ hits_by bytes hits.now) }
{
    for number in hits {
        counters.hit(*number, bytes);
    }
}

/// Whether the table of a node is counted.
fn is_counted(program: &Program, what: What) -> bool
    ensures { result ≡ is_counted_of program.now what }
{
    match what {
        What::Apply(table) => match program.tables.get(table as usize) {
            Some(table) => table.counted,
            None => false,
        },
        What::Gate { .. } => false,
    }
}

/// Adds the numbers of entries.
fn push_numbers(numbers: &mut Vec<u32>, entries: &[Entry]) -> Result<(), AllocError>
    ensures { OnOk result (numbers.new.items ≡ numbers.old.items ++ entry_numbers entries.now) }
{
    for entry in entries {
        numbers.push(entry.number)?;
    }
    Ok(())
}

/// Adds the numbers of the entries of a node, where its table is counted.
fn push_counted(
    numbers: &mut Vec<u32>,
    program: &Program,
    what: What,
    entries: &[Entry],
) -> Result<(), AllocError>
    ensures { OnOk result (numbers.new.items
        ≡ numbers.old.items ++ (if is_counted_of program.now what then entry_numbers entries.now else [])) }
{
    if is_counted(program, what) {
        return push_numbers(numbers, entries);
    }
    Ok(())
}

/// The numbers of the entries of counted tables, node by node.
pub fn numbers_of(
    alloc: Global,
    program: &Program,
    lists: &[Sequence<Entry>],
) -> Result<Vec<u32>, AllocError>
    ensures { IfOk result (λ numbers. numbers.items
        ≡ counted_numbers program.now program.now.nodes lists.now) }
{
    let mut numbers = Vec::new(alloc);
    let nodes = program.nodes.as_slice();
    for i in 0..nodes.len().min(lists.len()) {
        push_counted(&mut numbers, program, nodes[i].what, lists[i].as_slice())?;
    }
    Ok(numbers)
}

/// The counters before the first packet.
pub fn first_counters(
    alloc: Global,
    program: &Program,
    entries: &EntryLists,
) -> Result<Counts, AllocError>
    ensures { IfOk result (λ counters. counters.counts
        ≡ counts (counted_numbers program.now program.now.nodes entries.now) []) }
{
    let numbers = numbers_of(alloc, program, entries.as_slice())?;
    Counts::of(alloc, &numbers)
}

/// Adds a counter, which is 0, for each of these numbers that has none, for which there is room. A
/// number without one was not hit. It takes no memory.
pub fn add_counters(counters: &mut Counts, numbers: &[u32])
    requires { length numbers.now ≤ counters.old.room }
    ensures { (before : List ℕ) (hits : List Hit) → counters.old.counts ≡ counts before hits →
        All (IsThereIfHit before hits) numbers.now →
        counters.new.counts ≡ counts (before ++ numbers.now) hits }
{
    for number in numbers {
        counters.add(*number);
    }
}
