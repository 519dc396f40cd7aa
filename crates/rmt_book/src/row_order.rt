//! The rows of a prefix or ternary table, in the order of their precedence.

ghost use Rattle.std.specs.Prelude.{◌≡◌, ◌⊎◌, ◌<◌, ◌≤◌, ◌+◌, ℕ, Some, None, IfSome, IfNone, true};
ghost use Rattle.std.specs.BTreeMap.{get};
ghost use Rattle.std.specs.BTreeSet.{contains};
ghost use Rattle.std.specs.Ordering.{nat_cmp};
ghost use Rattle.std.specs.declared.cmp.Ordering.TheVariants.{Less};
ghost use Rattle.rmt_ast.specs.RankPairs.{pair_cmp};
ghost use Rattle.rmt_book.specs.RowOrder.{AreInOrder, IsFirstFit, key_by};

use rmt_ast::program::Kind;
use std::collections::{BTreeMap, BTreeSet};

/// What entries are put in order by: a rank, the least first, and then the number.
pub type RowKey = (u32, u32);

/// The rows of the entries of a table that a version sees, over its parts in order, and those that are free.
#[derive(Drop)]
pub struct RowOrder {
    /// The row of each entry.
    pub rows: BTreeMap<RowKey, u32>,
    /// The rows that the version doesn't see.
    pub free: BTreeSet<u32>,
}

/// What an entry of a prefix or ternary table is put in order by.
pub fn row_key(kind: Kind, rank: u32, number: u32) -> RowKey
    ensures { result ≡ key_by kind rank number }
{
    match kind {
        Kind::Prefix => (4_294_967_295 - rank, number),
        Kind::Keyless | Kind::Exact | Kind::Ternary => (rank, number),
    }
}

/// The least row behind all entries that go before a key.
fn least_behind(rows: &BTreeMap<RowKey, u32>, key: RowKey) -> u32
    requires few { (k : ℕ × ℕ) (row : ℕ) → get pair_cmp rows.now k ≡ Some row → row < 2147483648 }
    requires order { AreInOrder rows.now }
    ensures behind { (k : ℕ × ℕ) (row : ℕ) → get pair_cmp rows.now k ≡ Some row → pair_cmp k key ≡ Less → row < result }
    ensures least { (result ≡ 0) ⊎ ((k : ℕ × ℕ) × (row : ℕ) × (get pair_cmp rows.now k ≡ Some row) × (pair_cmp k key ≡ Less) × (result ≡ row + 1)) }
{
    match rows.range(..key).next_back() {
        Some((_, row)) => *row + 1,
        None => 0,
    }
}

/// The row of the first entry that goes after a key.
fn first_after(rows: &BTreeMap<RowKey, u32>, key: RowKey) -> Option<u32>
    requires new { get pair_cmp rows.now key ≡ None }
    requires order { AreInOrder rows.now }
    ensures all { (k : ℕ × ℕ) (row : ℕ) → get pair_cmp rows.now k ≡ Some row → pair_cmp key k ≡ Less → (first : ℕ) × (result ≡ Some first) × (first ≤ row) }
    ensures first { IfSome result (λ first. (k : ℕ × ℕ) × (get pair_cmp rows.now k ≡ Some first) × (pair_cmp key k ≡ Less)) }
{
    match rows.range(key..).next() {
        Some((_, row)) => Some(*row),
        None => None,
    }
}

/// The first free row from a row on.
fn first_free(free: &BTreeSet<u32>, low: u32) -> Option<u32>
    ensures found { IfSome result (λ row. (low ≤ row) × (contains nat_cmp free.now row ≡ true) × ((i : ℕ) → low ≤ i → i < row → contains nat_cmp free.now i ≡ true → ⊥)) }
    ensures none { IfNone result ((i : ℕ) → low ≤ i → contains nat_cmp free.now i ≡ true → ⊥) }
{
    free.range(low..).next().copied()
}

impl RowOrder {
    /// The first free row that lies behind all entries that go before a key, and before all that go after it.
    pub fn row_for(&self, key: RowKey) -> Option<u32>
        requires few { (k : ℕ × ℕ) (row : ℕ) → get pair_cmp self.now.rows k ≡ Some row → row < 2147483648 }
        requires new { get pair_cmp self.now.rows key ≡ None }
        requires order { AreInOrder self.now.rows }
        ensures { IsFirstFit self.now.rows self.now.free key result }
    {
        let row = first_free(&self.free, least_behind(&self.rows, key))?;
        match first_after(&self.rows, key) {
            Some(after) if after <= row => None,
            _ => Some(row),
        }
    }
}
