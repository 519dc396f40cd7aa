//! The keys of entries of exact parts, read from rows of memory as bytes.

ghost use Rattle.std.specs.Prelude.{◌≡◌, ◌+◌, ◌-◌, ◌*◌, ◌/◌, ◌%◌, ◌^◌, ◌<◌, ◌≤◌, ◌++◌, length, drop, OnOk};
ghost use Rattle.rmt_bits.specs.Bits.{slice as slice_of, bytes_of};
ghost use Rattle.rmt_config.specs.Cells.{sram_row, unit_row, blocks_at};
ghost use Rattle.rmt_config.specs.Layouts.{IsInSram, quantum_of, local_of, unit_of, row_of, position_of, entry_in};
ghost use Rattle.rmt_config.specs.MemoryRules.{SramRows};
ghost use Rattle.rmt_config.specs.BlockCounts.{divided_up};

use crate::config::SramRow;
use crate::form::layout::{CellLayout, joined};
use crate::form::sram::{Near, row_bits};
use rmt_bits::bits::slice;
use std::alloc::AllocError;

/// Where an entry begins: its unit, the row there, and its lowest bit in the row.
#[derive(Clone, Copy)]
pub struct Spot {
    pub unit: u64,
    pub row: u64,
    pub low: u64,
}

/// Where the entry of a cell stands.
pub fn spot_of(layout: &CellLayout, cell: u64) -> Spot
    requires layout { IsInSram layout.now }
    requires cell { cell < layout.now.ways * layout.now.quanta * layout.now.way }
    ensures unit { let l = layout.now in result.unit ≡ unit_of l (quantum_of l cell) (local_of l cell) }
    ensures row { let l = layout.now in result.row ≡ row_of l (local_of l cell) }
    ensures low { let l = layout.now in result.low ≡ position_of l (local_of l cell) * l.entry }
{
    let quantum = cell / layout.way % layout.quanta;
    let local = joined(
        cell / layout.way / layout.quanta,
        layout.way,
        cell % layout.way,
    );
    let in_unit = joined(layout.rows, layout.per, 0);
    Spot {
        unit: joined(quantum, layout.units, local / in_unit),
        row: local % in_unit / layout.per,
        low: joined(local % layout.per, layout.entry, 0),
    }
}

/// A row of blocks side by side, whose bits are read from the rows of the stage.
#[derive(Clone, Copy)]
pub struct UnitRow<'a> {
    pub rows: &'a [SramRow],
    pub blocks: &'a [u8],
    pub row: u64,
}

/// The `len` bits from one on, 1 to 64, of a row of blocks side by side. The rows are looked for first near the places
/// where the last ones were found.
pub fn bits_at(unit: &UnitRow, bit: u64, len: u64, near: &mut Near) -> u64
    requires rows { SramRows unit.now.rows.now }
    requires row { unit.now.row < 1024 }
    requires some { 0 < len }
    requires most { len ≤ 64 }
    requires within { bit + len ≤ 112 * length unit.now.blocks.now }
    ensures { result ≡ slice_of (unit_row 112 (sram_row unit.now.rows.now) unit.now.row unit.now.blocks.now) bit len }
{
    let block = bit / 112;
    let low = bit % 112;
    let first = row_bits(
        unit.rows,
        unit.blocks[block as usize],
        block,
        unit.row,
        near,
    );
    if low + len <= 112 {
        return slice(first, low as u8, len as u8) as u64;
    }
    let here = 112 - low;
    let next = unit.blocks[block as usize + 1];
    let second = row_bits(unit.rows, next, block + 1, unit.row, near);
    let high = slice(second, 0, (len - here) as u8) as u64;
    (high << here) + slice(first, low as u8, here as u8) as u64
}

/// The last of the eight bytes of a number.
pub fn lowest(bytes: &[u8], count: u64) -> &[u8]
    requires all { length bytes.now ≡ 8 }
    requires few { count ≤ 8 }
    ensures { result.now ≡ drop (8 - count) bytes.now }
{
    &bytes[8 - count as usize..]
}

/// Adds the lowest bytes of a number, the highest first.
fn push_bytes(into: &mut Vec<u8>, bits: u64, count: u64) -> Result<(), AllocError>
    requires { count ≤ 8 }
    ensures { OnOk result (into.new.items ≡ into.old.items ++ bytes_of count bits) }
{
    let bytes = bits.to_be_bytes();
    into.extend_from_slice(&bytes[8 - count as usize..])
}

/// Adds `len` bits of a row of blocks side by side as bytes, the highest first, with zero bits on top.
pub fn push_bits(
    into: &mut Vec<u8>,
    unit: &UnitRow,
    low: u64,
    len: u64,
    near: &mut Near,
) -> Result<(), AllocError>
    requires rows { SramRows unit.now.rows.now }
    requires row { unit.now.row < 1024 }
    requires within { low + len ≤ 112 * length unit.now.blocks.now }
    requires few { low + len < 2 ^ 32 }
    ensures { OnOk result (into.new.items ≡ into.old.items ++ bytes_of (divided_up len 8) (slice_of (unit_row 112 (sram_row unit.now.rows.now) unit.now.row unit.now.blocks.now) low len)) }
{
    let mut left = (len + 7) / 8;
    while left > 0 {
        let count = left.min(8);
        left -= count;
        let up = 8 * left;
        let some = (len - up).min(8 * count);
        let bits = bits_at(unit, low + up, some, near);
        push_bytes(into, bits, count)?;
    }
    Ok(())
}

/// The bytes at a place, where there are so many at each: the blocks of a unit, or the key of a cell.
pub fn piece_at(bytes: &[u8], size: u64, at: u64) -> &[u8]
    requires { (at + 1) * size ≤ length bytes.now }
    ensures value { result.now ≡ blocks_at bytes.now size at }
    ensures size { length result.now ≡ size }
{
    let from = (at * size) as usize;
    &bytes[from..from + size as usize]
}

/// Adds `len` bits of the entry of a cell, from the bit `from` on, as bytes, the highest first.
pub fn push_entry(
    into: &mut Vec<u8>,
    layout: &CellLayout,
    blocks: &[u8],
    rows: &[SramRow],
    cell: u64,
    from: u64,
    len: u64,
    near: &mut Near,
) -> Result<(), AllocError>
    requires rows { SramRows rows.now }
    requires layout { IsInSram layout.now }
    requires blocks { length blocks.now ≡ layout.now.quanta * layout.now.units * layout.now.side }
    requires cell { cell < layout.now.ways * layout.now.quanta * layout.now.way }
    requires bits { from + len ≤ layout.now.entry }
    ensures { OnOk result (into.new.items ≡ into.old.items ++ bytes_of (divided_up len 8)
        (slice_of (entry_in layout.now (sram_row rows.now) blocks.now (quantum_of layout.now cell) (local_of layout.now cell)) from len)) }
{
    let spot = spot_of(layout, cell);
    let unit = UnitRow {
        rows,
        blocks: piece_at(blocks, layout.side, spot.unit),
        row: spot.row,
    };
    push_bits(into, &unit, spot.low + from, len, near)
}
