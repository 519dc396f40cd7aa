//! The tables as a commit leaves them.

ghost use Rattle.std.specs.Prelude.{◌≡◌, ◌<◌, ◌≤◌, ◌+◌, ℕ, [], All, AllPairs, IfOk, IfSome, IsTrue, OnErr, OnOk, Some, filter, length, not, slice_get, vec_capacity};
ghost use Rattle.rmt_bits.specs.Members.{is_among};
ghost use Rattle.rmt_lists.specs.Entries.{Entry as EntryOf, entry_numbers, flat_map, list_of};
ghost use Rattle.rmt_lists.specs.declared.held.Held.{Held as HeldOf};
ghost use Rattle.rmt_lists.specs.Settled.{Extends, ExtendsInPart, keeps};
ghost use Rattle.rmt_lists.specs.Stands.{AreSlots, left_at, somes};

use crate::held::Held;
use rmt_ast::entry::{Entry, EntryLists};
use rmt_bits::sequence::Sequence;
use std::alloc::{AllocError, Global};
use std::collections::BTreeSet;
use std::mem::replace;

/// An equal entry. The only fault is want of memory.
pub fn copied(alloc: Global, entry: &Entry) -> Result<Entry, AllocError>
    ensures { IfOk result (λ copy. copy ≡ entry.now) }
{
    Ok(Entry {
        table: entry.table,
        number: entry.number,
        tests: Sequence::from_vec(Vec::from_slice(alloc, entry.tests.as_slice())?),
        rank: entry.rank,
        action: entry.action,
        args: Sequence::from_vec(Vec::from_slice(alloc, entry.args.as_slice())?),
    })
}

/// How many entries come.
pub fn come_count(come: &[Option<Entry>]) -> usize
    ensures { result ≡ length (somes come.now) }
{
    let mut count = 0;
    for place in come {
        if place.is_some() {
            count += 1;
        }
    }
    count
}

/// The entries that come, by rising number, moved out of their places to where there is room for them.
pub fn come_of(come: &mut [Option<Entry>], mut entries: Vec<Entry>) -> Sequence<Entry>
    requires empty { entries.items ≡ [] }
    requires room { length (somes come.old) ≤ vec_capacity entries }
    ensures { result ≡ somes come.old }
{
    for place in come.iter_mut() {
        if let Some(entry) = place.take() {
            entries.push_reserved(entry);
        }
    }
    Sequence::from_vec(entries)
}

/// The numbers of a set, by rising number. The only fault is want of memory.
pub fn gone_of(alloc: Global, gone: &BTreeSet<u32>) -> Result<Sequence<u32>, AllocError>
    ensures numbers { IfOk result (λ numbers. numbers ≡ gone.now.keys) }
    ensures rise { OnOk result (AllPairs (λ (a b : ℕ). a < b) gone.now.keys) }
{
    let mut numbers = Sequence::from_vec(Vec::with_capacity(alloc, gone.len())?);
    for number in gone {
        numbers.push(*number)?;
    }
    Ok(numbers)
}

/// Puts entries behind those of their tables. The only fault is want of memory, and then some of them are put.
fn add_each(
    alloc: Global,
    lists: &mut Vec<Sequence<Entry>>,
    come: &[Option<Entry>],
) -> Result<(), AllocError>
    requires tables { All (λ (e : EntryOf). e.table < length lists.old.items) (somes come.now) }
    ensures added { OnOk result (Extends lists.old.items (somes come.now) lists.new.items) }
    ensures some { OnErr result (ExtendsInPart lists.old.items come.now lists.new.items) }
{
    for place in come {
        if let Some(entry) = place {
            let copy = copied(alloc, entry)?;
            lists[entry.table as usize].push(copy)?;
        }
    }
    Ok(())
}

/// Whether an entry stays: it is below a number, and not among those that go.
fn keeps(gone: &BTreeSet<u32>, limit: u64, entry: &Entry) -> bool
    ensures { result ≡ keeps gone.now.keys limit entry.now }
{
    u64::from(entry.number) < limit && !gone.contains(&entry.number)
}

/// Keeps the entries of a list that stay.
fn keep(alloc: Global, list: &mut Sequence<Entry>, gone: &BTreeSet<u32>, limit: u64)
    ensures { list.new ≡ filter (keeps gone.now.keys limit) list.old }
{
    let mut entries = replace(list, Sequence::new(alloc)).into_vec();
    entries.retain(|entry| keeps(gone, limit, entry));
    *list = Sequence::from_vec(entries);
}

/// Keeps the entries of all lists that stay.
fn keep_each(alloc: Global, lists: &mut Vec<Sequence<Entry>>, gone: &BTreeSet<u32>, limit: u64)
    ensures count { length lists.new.items ≡ length lists.old.items }
    ensures kept { (m : ℕ) → list_of lists.new.items m ≡ filter (keeps gone.now.keys limit) (list_of lists.old.items m) }
{
    for at in 0..lists.len() {
        keep(alloc, &mut lists[at], gone, limit);
    }
}

/// How many entries of a list go, where what its table holds says it.
fn going(list: &Sequence<Entry>, held: &[Held], node: usize) -> Option<usize>
    ensures { IfSome result (λ n. (h : HeldOf) × (slice_get held.now node ≡ Some h) × (h.count + n ≡ length list.now)) }
{
    match held.get(node) {
        Some(held) => list.len().checked_sub(held.count as usize),
        None => None,
    }
}

/// The place of the entry of a number in a list by rising number, where it is found.
fn place_of(entries: &[Entry], number: u32) -> Option<usize>
    ensures { IfSome result (λ at. (e : EntryOf) × (slice_get entries.now at ≡ Some e) × (e.number ≡ number)) }
{
    let at = entries.partition_point(|entry| entry.number < number);
    match entries.get(at) {
        Some(entry) => {
            if entry.number == number {
                Some(at)
            } else {
                None
            }
        }
        None => None,
    }
}

/// The place of an entry that goes in a list by rising number, where one is found.
fn place_among(entries: &[Entry], gone: &BTreeSet<u32>) -> Option<usize>
    ensures { IfSome result (λ at. (e : EntryOf) × (slice_get entries.now at ≡ Some e) × IsTrue (is_among gone.now.keys e.number)) }
{
    for number in gone {
        if let Some(at) = place_of(entries, *number) {
            return Some(at);
        }
    }
    None
}

/// Takes the one entry of a list away that goes. A number is above all.
fn take_one(alloc: Global, list: &mut Sequence<Entry>, gone: &BTreeSet<u32>, above: u64)
    requires one { length (filter (λ (e : EntryOf). not (is_among gone.now.keys e.number)) list.old) + 1 ≡ length list.old }
    ensures { All (λ (e : EntryOf). e.number < above) list.old →
        list.new ≡ filter (λ (e : EntryOf). not (is_among gone.now.keys e.number)) list.old }
{
    match place_among(list.as_slice(), gone) {
        Some(at) => {
            let mut entries = replace(list, Sequence::new(alloc)).into_vec();
            entries.remove(at);
            *list = Sequence::from_vec(entries);
        }
        None => keep(alloc, list, gone, above),
    }
}

/// Takes the entries of a table away that go, where any go. A number is above all.
fn take_from(
    alloc: Global,
    list: &mut Sequence<Entry>,
    gone: &BTreeSet<u32>,
    held: &[Held],
    node: usize,
    above: u64,
)
    requires counts { (h : HeldOf) → slice_get held.now node ≡ Some h →
        h.count ≡ length (filter (λ (e : EntryOf). not (is_among gone.now.keys e.number)) list.old) }
    ensures { All (λ (e : EntryOf). e.number < above) list.old →
        list.new ≡ filter (λ (e : EntryOf). not (is_among gone.now.keys e.number)) list.old }
{
    match going(list, held, node) {
        Some(0) => {}
        Some(1) => take_one(alloc, list, gone, above),
        _ => keep(alloc, list, gone, above),
    }
}

/// Takes the entries away that go. Lists of which none goes are not gone through. A number is above all.
fn take_gone(
    alloc: Global,
    lists: &mut Vec<Sequence<Entry>>,
    gone: &BTreeSet<u32>,
    held: &[Held],
    above: u64,
)
    requires counts { (m : ℕ) (h : HeldOf) → slice_get held.now m ≡ Some h →
        h.count ≡ length (filter (λ (e : EntryOf). not (is_among gone.now.keys e.number)) (list_of lists.old.items m)) }
    ensures count { length lists.new.items ≡ length lists.old.items }
    ensures left { (m : ℕ) → All (λ (e : EntryOf). e.number < above) (list_of lists.old.items m) →
        list_of lists.new.items m ≡ filter (λ (e : EntryOf). not (is_among gone.now.keys e.number)) (list_of lists.old.items m) }
{
    for at in 0..lists.len() {
        take_from(alloc, &mut lists[at], gone, held, at, above);
    }
}

/// Puts entries that come behind those of their tables, and takes those away that go. The only fault is want of
/// memory, and then all is as before.
pub fn settle(
    alloc: Global,
    last: &mut EntryLists,
    gone: &BTreeSet<u32>,
    come: &[Option<Entry>],
    held: &[Held],
    first: u64,
) -> Result<(), AllocError>
    requires counts { (m : ℕ) (h : HeldOf) → slice_get held.now m ≡ Some h →
        h.count ≡ length (left_at last.old gone.now.keys come.now m) }
    requires slots { AreSlots (length last.old) first come.now }
    requires old { All (λ n. n < first) (flat_map entry_numbers last.old) }
    requires gone_old { All (λ n. n < first) gone.now.keys }
    requires few { first + length come.now ≤ 4294967296 }
    ensures count { OnOk result (length last.new ≡ length last.old) }
    ensures left { OnOk result ((m : ℕ) → list_of last.new m ≡ left_at last.old gone.now.keys come.now m) }
    ensures kept { OnErr result (last.new ≡ last.old) }
{
    let mut lists = replace(last, EntryLists::new(alloc)).into_vec();
    match add_each(alloc, &mut lists, come) {
        Ok(()) => {
            take_gone(alloc, &mut lists, gone, held, first + come.len() as u64);
            *last = EntryLists::from_vec(lists);
            Ok(())
        }
        Err(error) => {
            keep_each(alloc, &mut lists, &BTreeSet::new(alloc), first);
            *last = EntryLists::from_vec(lists);
            Err(error)
        }
    }
}
