//! The rows of the entries of a prefix or ternary table, where each stands behind those that go first.

ghost use Rattle.std.specs.Prelude.{◌≡◌, ◌≤◌, ◌<◌, ◌^◌, ◌⊎◌, All, IfOk, count_by, length, map, nat_lt};
ghost use Rattle.std.specs.List.Sorted.{IsNonDecreasingBy, IsPermutation};
ghost use Rattle.rmt_ast.specs.RowOrder.{goes_first};
ghost use Rattle.rmt_ast.specs.declared.entry.Entry.{Entry as EntryOf};
ghost use Rattle.rmt_book.specs.Spots.{order_by, rank_by};

use rmt_ast::entry::Entry;
use rmt_ast::program::Kind;
use std::alloc::{AllocError, Global};

/// What entries of a kind are put into rows by: the falling length of a prefix, or the rising priority.
fn rank_of(kind: Kind, rank: u32) -> u32
    ensures { result ≡ rank_by kind rank }
{
    match kind {
        Kind::Prefix => u32::MAX - rank,
        Kind::Ternary | Kind::Exact | Kind::Keyless => rank,
    }
}

/// A number by which entries of a kind are put into rows: by that, and then by entry number.
fn order_of(kind: Kind, entry: &Entry) -> u64
    ensures order { result ≡ order_by kind entry.now }
    ensures rank { entry.now.rank < 2 ^ 32 }
    ensures number { entry.now.number < 2 ^ 32 }
{
    let rank = entry.rank;
    let number = entry.number;
    rank_of(kind, rank) as u64 * (1 << 32) + number as u64
}

/// That number of each entry.
fn orders_of(alloc: Global, kind: Kind, entries: &[Entry]) -> Result<Vec<u64>, AllocError>
    ensures orders { IfOk result (λ orders. orders.items ≡ map (order_by kind) entries.now) }
    ensures ranks { IfOk result (λ orders. All (λ (e : EntryOf). e.rank < 2 ^ 32) entries.now) }
    ensures numbers { IfOk result (λ orders. All (λ (e : EntryOf). e.number < 2 ^ 32) entries.now) }
{
    let mut orders = Vec::with_capacity(alloc, entries.len())?;
    for entry in entries {
        orders.push(order_of(kind, entry))?;
    }
    Ok(orders)
}

/// Numbers by rising size.
fn sorted(alloc: Global, numbers: &[u64]) -> Result<Vec<u64>, AllocError>
    ensures same { IfOk result (λ sorted. IsPermutation numbers.now sorted.items) }
    ensures sorted { IfOk result (λ sorted. IsNonDecreasingBy (λ n. n) sorted.items) }
{
    let mut sorted = Vec::from_slice(alloc, numbers)?;
    sorted.sort_unstable();
    Ok(sorted)
}

/// How many of rising numbers are less than one.
fn below(sorted: &[u64], number: u64) -> usize
    requires { IsNonDecreasingBy (λ n. n) sorted.now }
    ensures count { result ≡ count_by (λ n. nat_lt n number) sorted.now }
    ensures within { result ≤ length sorted.now }
{
    sorted.partition_point(|n| *n < number)
}

/// How many of rising numbers are less than each number.
fn counts(alloc: Global, numbers: &[u64], sorted: &[u64]) -> Result<Vec<u32>, AllocError>
    requires sorted { IsNonDecreasingBy (λ n. n) sorted.now }
    requires few { length sorted.now < 2 ^ 32 }
    ensures { IfOk result (λ counts. counts.items ≡ map (λ o. count_by (λ n. nat_lt n o) sorted.now) numbers.now) }
{
    let mut counts = Vec::with_capacity(alloc, numbers.len())?;
    for number in numbers {
        let count = below(sorted, *number);
        counts.push(count as u32)?;
    }
    Ok(counts)
}

/// The rows of the entries of a prefix or ternary table, in the order of the entries: how many go first. The only fault
/// is want of memory.
pub fn rows_of(alloc: Global, kind: Kind, entries: &[Entry]) -> Result<Vec<u32>, AllocError>
    requires kind { (kind ≡ Kind.Prefix) ⊎ (kind ≡ Kind.Ternary) }
    requires few { length entries.now < 2 ^ 32 }
    ensures { IfOk result (λ rows. rows.items ≡ map (λ e. count_by (λ f. goes_first kind f e) entries.now) entries.now) }
{
    let orders = orders_of(alloc, kind, entries)?;
    let sorted = sorted(alloc, orders.as_slice())?;
    let rows = counts(alloc, orders.as_slice(), sorted.as_slice())?;
    Ok(rows)
}
