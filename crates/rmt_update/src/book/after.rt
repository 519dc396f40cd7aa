//! The entry lists behind a commit.

ghost use Rattle.std.specs.Prelude.{◌≡◌, ◌<◌, ℕ, All, IfOk, List, OnOk, length, map};
ghost use Rattle.std.specs.BTreeSet.{contains};
ghost use Rattle.std.specs.List.{range_with_len};
ghost use Rattle.std.specs.Ordering.{nat_cmp};
ghost use Rattle.rmt_bits.specs.Members.{is_among};
ghost use Rattle.rmt_ast.specs.declared.entry.Entry.{Entry as EntryOf};
ghost use Rattle.rmt_config.specs.NamesForm.{by_number};
ghost use Rattle.rmt_update.specs.After.{AreOrders, left_of, with_come, without_gone};
ghost use Rattle.rmt_book.specs.Numbered.{IsOrder};
ghost use Rattle.rmt_update.specs.Planned.{changed_lists};
ghost use Rattle.rmt_book.specs.Seen.{HaveNumbers};

use crate::book::adding::add_made;
use crate::book::number_set::number_set;
use rmt_ast::entry::{Entry, EntryLists};
use rmt_bits::sequence::Sequence;
use rmt_book::ordered::{Ordered, in_order, put};
use rmt_lists::lists::Changes;
use rmt_lists::settle::copied;
use std::alloc::{AllocError, Global};
use std::collections::BTreeSet;

/// The entries of a list of which these numbers are none. The only fault is want of memory.
fn left_in(
    alloc: Global,
    gone: &BTreeSet<u32>,
    list: Sequence<Entry>,
) -> Result<Ordered, AllocError>
    ensures { IfOk result (λ ordered. (numbers : List ℕ) → ((n : ℕ) → contains nat_cmp gone.now n ≡ is_among numbers n) →
        HaveNumbers (without_gone numbers list) → IsOrder (without_gone numbers list) ordered) }
{
    let mut ordered = Ordered::new(alloc);
    for entry in list.into_vec() {
        if !gone.contains(&entry.number) {
            put(&mut ordered, entry)?;
        }
    }
    Ok(ordered)
}

/// Those of each list. The only fault is want of memory.
fn left_in_all(
    alloc: Global,
    gone: &BTreeSet<u32>,
    lists: EntryLists,
) -> Result<Vec<Ordered>, AllocError>
    ensures count { IfOk result (λ orders. length orders.items ≡ length lists) }
    ensures left { IfOk result (λ orders. (numbers : List ℕ) → ((n : ℕ) → contains nat_cmp gone.now n ≡ is_among numbers n) →
        ((n : ℕ) → n < length lists → HaveNumbers (left_of numbers lists n)) → AreOrders (left_of numbers lists) orders.items) }
{
    let mut orders = Vec::with_capacity(alloc, lists.len())?;
    for list in lists.into_vec() {
        add_made(&mut orders, left_in(alloc, gone, list))?;
    }
    Ok(orders)
}

/// Puts entries that come to those of their tables. The only fault is want of memory.
fn put_all(alloc: Global, orders: &mut Vec<Ordered>, come: &[Entry]) -> Result<(), AllocError>
    requires { All (λ (e : EntryOf). e.table < length orders.old.items) come.now }
    ensures count { length orders.new.items ≡ length orders.old.items }
    ensures put { OnOk result ((own : ℕ → List EntryOf) → AreOrders own orders.old.items →
        ((n : ℕ) → n < length orders.old.items → HaveNumbers (with_come own come.now n)) → AreOrders (with_come own come.now) orders.new.items) }
{
    for entry in come {
        let copy = copied(alloc, entry)?;
        put(&mut orders[entry.table as usize], copy)?;
    }
    Ok(())
}

/// The entries of each node by number. The only fault is want of memory.
fn in_order_all(alloc: Global, orders: Vec<Ordered>) -> Result<EntryLists, AllocError>
    ensures { IfOk result (λ lists. (own : ℕ → List EntryOf) → AreOrders own orders.items →
        lists ≡ map (λ n. by_number (own n)) (range_with_len 0 (length orders.items))) }
{
    let mut lists = Vec::new(alloc);
    for ordered in orders {
        add_made(&mut lists, in_order(alloc, ordered))?;
    }
    Ok(EntryLists::from_vec(lists))
}

/// The entry lists behind a commit. The only fault is want of memory.
pub fn lists_after(
    alloc: Global,
    lists: EntryLists,
    changes: &Changes,
) -> Result<EntryLists, AllocError>
    requires tables { All (λ (e : EntryOf). e.table < length lists) changes.now.come }
    requires numbers { (n : ℕ) → n < length lists → HaveNumbers (with_come (left_of changes.now.gone lists) changes.now.come n) }
    ensures { IfOk result (λ after. after ≡ changed_lists lists changes.now) }
{
    let gone = number_set(alloc, changes.gone.as_slice())?;
    let mut orders = left_in_all(alloc, &gone, lists)?;
    put_all(alloc, &mut orders, changes.come.as_slice())?;
    in_order_all(alloc, orders)
}
