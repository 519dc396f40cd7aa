//! Whether the bits that are set in rows of memory stand in entries of cells that a slot lists.

ghost use Rattle.std.specs.Prelude.{◌≡◌, ℕ, ◌+◌, ◌-◌, ◌*◌, ◌/◌, ◌%◌, ◌^◌, ◌<◌, ◌≤◌, ◌↔◌, length, map, slice_range, IsTrue, All};
ghost use Rattle.rmt_bits.specs.Bits.{slice as slice_of};
ghost use Rattle.rmt_config.specs.Order.{rises_from};
ghost use Rattle.rmt_config.specs.Layouts.{IsLayout, listed_cells, is_told as is_told_of, RowTold, BlocksTold};
ghost use Rattle.rmt_config.specs.ListedCells.{CellsRise};

use crate::config::CellNumber;
use crate::form::layout::{CellLayout, joined};
use crate::form::search::{MemoryRow, first_from, is_cell_listed};
use rmt_bits::bits::slice;

/// The cells that a slot lists, and the layout of their entries.
#[derive(Clone, Copy)]
struct Listed<'a> {
    layout: CellLayout,
    numbers: &'a [CellNumber],
}

/// Whether what stands at a position of a row of a unit is an entry of a listed cell.
fn is_told(listed: &Listed, unit: u64, row: u64, position: u64, near: &mut usize) -> bool
    requires listed { CellsRise listed.now }
    requires unit { unit < listed.now.layout.quanta * listed.now.layout.units }
    requires row { row < listed.now.layout.rows }
    ensures { result ≡ is_told_of listed.now.layout (listed_cells listed.now.numbers.now) unit row position }
{
    let layout = &listed.layout;
    if position >= layout.per {
        return false;
    }
    let high = joined(unit % layout.units, layout.rows, row);
    let index = joined(high, layout.per, position);
    if index >= joined(layout.ways, layout.way, 0) {
        return false;
    }
    let high = joined(index / layout.way, layout.quanta, unit / layout.units);
    is_cell_listed(
        listed.numbers,
        joined(high, layout.way, index % layout.way),
        near,
    )
}

/// The bits of a number from one up to another.
fn piece(bits: u128, from: u64, to: u64) -> u128
    requires order { from ≤ to }
    requires within { to ≤ 112 }
    ensures { result ≡ slice_of bits from (to - from) }
{
    slice(bits, from as u8, (to - from) as u8)
}

/// Whether each bit that is set in a row of the block at a place of a unit stands in an entry of a listed cell.
fn row_is_told(
    listed: &Listed,
    unit: u64,
    place: u64,
    row: u64,
    bits: u128,
    near: &mut usize,
) -> bool
    requires listed { CellsRise listed.now }
    requires unit { unit < listed.now.layout.quanta * listed.now.layout.units }
    requires place { place < listed.now.layout.side }
    requires row { row < listed.now.layout.rows }
    ensures { IsTrue result ↔ RowTold listed.now.layout (listed_cells listed.now.numbers.now) unit place row bits }
{
    let layout = &listed.layout;
    let start = joined(place, layout.bits, 0);
    let end = start + layout.bits;
    let mut position = start / layout.entry;
    let mut low = joined(position, layout.entry, 0);
    while low < end {
        let from = low.max(start) - start;
        let to = (low + layout.entry).min(end) - start;
        if piece(bits, from, to) != 0 && !is_told(listed, unit, row, position, near) {
            return false;
        }
        position += 1;
        low += layout.entry;
    }
    true
}

/// The same of each of these rows of the block.
fn rows_are_told<R: MemoryRow>(
    listed: &Listed,
    unit: u64,
    place: u64,
    rows: &[R],
    near: &mut usize,
) -> bool
    requires listed { CellsRise listed.now }
    requires unit { unit < listed.now.layout.quanta * listed.now.layout.units }
    requires place { place < listed.now.layout.side }
    ensures { let l = listed.now.layout in IsTrue result ↔ All (λ x. RowTold l (listed_cells listed.now.numbers.now) unit place (R.place_of x % l.rows) (R.bits_of x)) rows.now }
{
    for row in rows {
        let at = row.place() as u64 % listed.layout.rows;
        if !row_is_told(listed, unit, place, at, row.bits(), near) {
            return false;
        }
    }
    true
}

/// The rows from one place up to another.
fn run_of<R: MemoryRow>(rows: &[R], first: usize, end: usize) -> &[R]
    requires order { first ≤ end }
    requires within { end ≤ length rows.now }
    ensures { result.now ≡ slice_range rows.now first end }
{
    &rows[first..end]
}

/// The same of all rows of the block that a list has at a place.
fn block_is_told<R: MemoryRow>(
    listed: &Listed,
    at: u64,
    block: u8,
    rows: &[R],
    near: &mut usize,
) -> bool
    requires listed { CellsRise listed.now }
    requires at { at < listed.now.layout.quanta * listed.now.layout.units * listed.now.layout.side }
    requires order { IsTrue (rises_from 0 (map R.place_of rows.now)) }
    ensures { let l = listed.now.layout in IsTrue result
        ↔ All (λ x. R.place_of x / l.rows ≡ block → RowTold l (listed_cells listed.now.numbers.now) (at / l.side) (at % l.side) (R.place_of x % l.rows) (R.bits_of x)) rows.now }
{
    let layout = &listed.layout;
    let first = first_from(rows, joined(block as u64, layout.rows, 0));
    let end = first_from(rows, joined(block as u64 + 1, layout.rows, 0));
    let run = run_of(rows, first, end);
    rows_are_told(listed, at / layout.side, at % layout.side, run, near)
}

/// The same of all rows of the blocks of a list.
pub fn blocks_are_told<R: MemoryRow>(
    layout: &CellLayout,
    numbers: &[CellNumber],
    blocks: &[u8],
    rows: &[R],
) -> bool
    requires layout { IsLayout layout.now }
    requires blocks { length blocks.now ≤ layout.now.quanta * layout.now.units * layout.now.side }
    requires rise { IsTrue (rises_from 0 (listed_cells numbers.now)) }
    requires order { IsTrue (rises_from 0 (map R.place_of rows.now)) }
    ensures { IsTrue result
        ↔ BlocksTold layout.now (λ x. R.place_of x / layout.now.rows) (λ x. R.place_of x % layout.now.rows) R.bits_of (listed_cells numbers.now) rows.now blocks.now }
{
    let listed = Listed {
        layout: *layout,
        numbers,
    };
    let mut at: u64 = 0;
    let mut near = 0;
    for block in blocks {
        if !block_is_told(&listed, at, *block, rows, &mut near) {
            return false;
        }
        at += 1;
    }
    true
}
