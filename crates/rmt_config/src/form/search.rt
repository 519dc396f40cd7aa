//! Lists in rising order, as those of rows of memory and of listed cells, and the search in them.

ghost use Rattle.std.specs.Prelude.{◌≡◌, ℕ, ◌+◌, ◌*◌, ◌<◌, ◌≤◌, length, map, IsTrue, slice_index_or};
ghost use Rattle.rmt_config.specs.Order.{rises_from};
ghost use Rattle.rmt_config.specs.StageForm.{is_listed, srow_number, trow_number};
ghost use Rattle.rmt_config.specs.declared.config.SramRow.{SramRow};
ghost use Rattle.rmt_config.specs.declared.config.TcamRow.{TcamRow};
ghost use Rattle.rmt_config.specs.declared.config.CellNumber.{CellNumber};

use crate::config::{CellNumber, Operation, SramRow, Stage, TailOf, TcamRow};

/// What stands in a list by rising numbers: a row, by its block and its row in it, a listed cell, an operation, by its
/// word, a stage, by its start, a tail, by its entry, or a number by itself.
pub trait Numbered {
    /// Its number.
    ghost place_of: { Self → ℕ };

    /// Its number.
    fn place(&self) -> u32
        ensures { result ≡ place_of self.now };
}

/// A row of memory, and the bits that may be set only in entries of listed cells.
pub trait MemoryRow: Numbered {
    /// Those bits.
    ghost bits_of: { Self → ℕ };

    /// Those bits.
    fn bits(&self) -> u128
        ensures { result ≡ bits_of self.now };
}

impl MemoryRow for SramRow {
    ghost bits_of = { λ r. r.bits };

    fn bits(&self) -> u128 {
        self.bits
    }
}

impl MemoryRow for TcamRow {
    ghost bits_of = { λ r. r.mask };

    fn bits(&self) -> u128 {
        self.mask as u128
    }
}

impl Numbered for SramRow {
    ghost place_of = { srow_number };

    fn place(&self) -> u32 {
        1024 * self.block as u32 + self.row as u32
    }
}

impl Numbered for TcamRow {
    ghost place_of = { trow_number };

    fn place(&self) -> u32 {
        2048 * self.block as u32 + self.row as u32
    }
}

impl Numbered for CellNumber {
    ghost place_of = { λ n. n.cell };

    fn place(&self) -> u32 {
        self.cell
    }
}

impl Numbered for Operation {
    ghost place_of = { λ op. op.word };

    fn place(&self) -> u32 {
        self.word as u32
    }
}

impl Numbered for Stage {
    ghost place_of = { λ stage. stage.start };

    fn place(&self) -> u32 {
        self.start as u32
    }
}

impl Numbered for TailOf {
    ghost place_of = { λ tail. tail.entry };

    fn place(&self) -> u32 {
        self.entry as u32
    }
}

impl Numbered for u32 {
    ghost place_of = { λ n. n };

    fn place(&self) -> u32 {
        *self
    }
}

/// The index of the first item whose number is at least this one, where that of all items before `low` is smaller, and
/// that of none from `high` on.
fn first_between<T: Numbered>(items: &[T], place: u64, low: usize, high: usize) -> usize
    requires rising { IsTrue (rises_from 0 (map T.place_of items.now)) }
    requires order { low ≤ high }
    requires within { high ≤ length items.now }
    requires below { (k : ℕ) (d : T) → k < low → T.place_of (slice_index_or items.now k d) < place }
    requires above { (k : ℕ) (d : T) → high ≤ k → k < length items.now → place ≤ T.place_of (slice_index_or items.now k d) }
    ensures within { result ≤ length items.now }
    ensures below { (k : ℕ) (d : T) → k < result → T.place_of (slice_index_or items.now k d) < place }
    ensures above { (k : ℕ) (d : T) → result ≤ k → k < length items.now → place ≤ T.place_of (slice_index_or items.now k d) }
{
    let mut low = low;
    let mut high = high;
    while low < high {
        let middle = low + (high - low) / 2;
        if (items[middle].place() as u64) < place {
            low = middle + 1;
        } else {
            high = middle;
        }
    }
    low
}

/// The index of the first item whose number is at least this one.
pub fn first_from<T: Numbered>(items: &[T], place: u64) -> usize
    requires { IsTrue (rises_from 0 (map T.place_of items.now)) }
    ensures within { result ≤ length items.now }
    ensures below { (k : ℕ) (d : T) → k < result → T.place_of (slice_index_or items.now k d) < place }
    ensures above { (k : ℕ) (d : T) → result ≤ k → k < length items.now → place ≤ T.place_of (slice_index_or items.now k d) }
{
    first_between(items, place, 0, items.len())
}

/// The same, where the numbers of all items before `from` are smaller. Steps of twice the length each lead there.
fn first_behind<T: Numbered>(items: &[T], place: u64, from: usize) -> usize
    requires rising { IsTrue (rises_from 0 (map T.place_of items.now)) }
    requires within { from ≤ length items.now }
    requires below { (k : ℕ) (d : T) → k < from → T.place_of (slice_index_or items.now k d) < place }
    ensures within { result ≤ length items.now }
    ensures below { (k : ℕ) (d : T) → k < result → T.place_of (slice_index_or items.now k d) < place }
    ensures above { (k : ℕ) (d : T) → result ≤ k → k < length items.now → place ≤ T.place_of (slice_index_or items.now k d) }
{
    let mut low = from;
    let mut high = from;
    let mut step = 1usize;
    while high < items.len() && (items[high].place() as u64) < place {
        low = high + 1;
        high = low + (items.len() - low).min(step);
        step = step.saturating_mul(2);
    }
    first_between(items, place, low, high)
}

/// The same, looked for first at a place near which the last one was found, and then behind it.
pub fn first_near<T: Numbered>(items: &[T], place: u64, near: usize) -> usize
    requires { IsTrue (rises_from 0 (map T.place_of items.now)) }
    ensures within { result ≤ length items.now }
    ensures below { (k : ℕ) (d : T) → k < result → T.place_of (slice_index_or items.now k d) < place }
    ensures above { (k : ℕ) (d : T) → result ≤ k → k < length items.now → place ≤ T.place_of (slice_index_or items.now k d) }
{
    if near >= items.len() {
        return first_from(items, place);
    }
    let here = items[near].place() as u64;
    if here == place {
        return near;
    }
    if here > place {
        return first_from(items, place);
    }
    first_behind(items, place, near + 1)
}

/// Whether items rise by their numbers, from that one on.
pub fn items_rise<T: Numbered>(first: u32, items: &[T]) -> bool
    ensures { result ≡ rises_from first (map T.place_of items.now) }
{
    let mut least = first as u64;
    for item in items {
        let place = item.place() as u64;
        if place < least {
            return false;
        }
        least = place + 1;
    }
    true
}

/// Whether a cell is among those that are listed, looked for first near the place where the last one was found.
pub fn is_cell_listed(numbers: &[CellNumber], cell: u64, near: &mut usize) -> bool
    requires { IsTrue (rises_from 0 (map (λ (n : CellNumber). n.cell) numbers.now)) }
    ensures { result ≡ is_listed cell (map (λ (n : CellNumber). n.cell) numbers.now) }
{
    let at = first_near(numbers, cell, *near);
    *near = at;
    at < numbers.len() && numbers[at].cell as u64 == cell
}
