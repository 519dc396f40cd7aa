//! The rules on the keys in a part of an exact table.

ghost use Rattle.std.specs.Prelude.{◌≡◌, ℕ, ◌+◌, ◌*◌, ◌/◌, ◌%◌, ◌^◌, ◌<◌, ◌≤◌, ◌==◌, ◌++◌, length, IfOk, OnOk};
ghost use Rattle.rmt_bits.specs.Bits.{bytes_of, number_of};
ghost use Rattle.rmt_bits.specs.Hash.{hash_row as hash_row_of};
ghost use Rattle.rmt_config.specs.Cells.{blocks_at, cell_of, entry_at, sram_row};
ghost use Rattle.rmt_config.specs.ExactCells.{CellsAdded, CellsRead};
ghost use Rattle.rmt_config.specs.MemoryRules.{SramRows};
ghost use Rattle.rmt_config.specs.BlockCounts.{divided_up as divided_up_of};

use crate::config::{CellNumber, SramRow};
pub use crate::form::lane::key_bits;
use crate::form::layout::divided_up;
use crate::form::names::key_bytes::{UnitRow, bits_at, lowest, piece_at, push_bits};
use crate::form::names::key_prints::put_kept;
use crate::form::sram::Near;
use rmt_bits::hash::hash_row;
use std::alloc::AllocError;

/// The listed cells of an exact part, and what they are read from: the rows of its stage, and its blocks, `width` of them
/// side by side. A row has `per` cells, each a head of 8 bits and a key of `bits` bits, and each of the four ways from the
/// first on has `quanta` times 1,024 rows.
#[derive(Clone, Copy)]
pub struct ExactCells<'a> {
    pub seed: u8,
    pub numbers: &'a [CellNumber],
    pub rows: &'a [SramRow],
    pub blocks: &'a [u8],
    pub width: u8,
    pub per: u16,
    pub quanta: u8,
    pub first_way: u8,
    pub bits: u64,
}

/// Where a cell of a part lies: its way, its row in the way, and its position in the row.
#[derive(Clone, Copy)]
struct Place {
    way: u32,
    row: u32,
    position: u32,
}

/// The row of a cell, counted over all ways. Nothing is divided where it is the row near which it is looked for, or the
/// one behind that.
fn row_near(per: u32, cell: u32, near: u32) -> u32
    requires { 0 < per }
    ensures { result ≡ cell / per }
{
    let start = u64::from(near) * u64::from(per);
    if start <= u64::from(cell) {
        let past = u64::from(cell) - start;
        if past < u64::from(per) {
            return near;
        }
        if past - u64::from(per) < u64::from(per) {
            return near + 1;
        }
    }
    cell / per
}

/// The way of a row that is counted over all ways, where each has so many.
fn way_of(rows: u32, row: u32) -> u32
    requires some { 0 < rows }
    requires few { rows < 2 ^ 30 }
    requires within { row < 4 * rows }
    ensures value { result ≡ row / rows }
    ensures four { result < 4 }
{
    if row < rows {
        0
    } else if row < 2 * rows {
        1
    } else if row < 3 * rows {
        2
    } else {
        3
    }
}

/// Where the cell of a number lies. Its row, counted over all ways, is looked for first at the last one, and kept there.
fn place_of(per: u16, quanta: u8, cell: u32, near: &mut u32) -> Place
    requires per { 0 < per }
    requires quanta { 0 < quanta }
    requires within { cell < 4096 * quanta * per }
    ensures way { result.way ≡ (cell_of (1024 * quanta) per cell).way }
    ensures row { result.row ≡ (cell_of (1024 * quanta) per cell).row }
    ensures position { result.position ≡ (cell_of (1024 * quanta) per cell).position }
    ensures four { result.way < 4 }
    ensures low { result.row < 1024 * quanta }
    ensures inside { result.position < per }
{
    let per = u32::from(per);
    let rows = 1024 * u32::from(quanta);
    let row = row_near(per, cell, *near);
    *near = row;
    let way = way_of(rows, row);
    Place {
        way,
        row: row - way * rows,
        position: cell - row * per,
    }
}

/// Whether the row of a key in the way of a place is that of the place.
fn stands_at(seed: u8, first_way: u8, quanta: u8, key: &[u8], place: Place) -> bool
    requires quanta { 0 < quanta }
    requires ways { first_way + 3 < 256 }
    requires four { place.way < 4 }
    ensures { result ≡ (hash_row_of seed (first_way + place.way) key.now (1024 * quanta) == place.row) }
{
    let way = first_way + place.way as u8;
    hash_row(seed, way, key, 1024 * quanta as u32) == place.row
}

/// The row of blocks side by side in which a place lies.
fn unit_at<'a>(cells: &ExactCells<'a>, place: Place) -> UnitRow<'a>
    requires cells { CellsRead cells.now }
    requires four { place.way < 4 }
    requires low { place.row < 1024 * cells.now.quanta }
    ensures rows { result.rows.now ≡ cells.now.rows.now }
    ensures rise { SramRows result.rows.now }
    ensures blocks { result.blocks.now ≡ blocks_at cells.now.blocks.now cells.now.width (place.row / 1024 * 4 + place.way) }
    ensures row { result.row ≡ place.row % 1024 }
    ensures size { length result.blocks.now ≡ cells.now.width }
{
    let unit = place.row / 1024 * 4 + place.way;
    UnitRow {
        rows: cells.rows,
        blocks: piece_at(cells.blocks, cells.width as u64, unit as u64),
        row: place.row as u64 % 1024,
    }
}

/// Adds the key of a cell as bytes, the highest first.
fn put_key(
    keys: &mut Vec<u8>,
    cells: &ExactCells,
    place: Place,
    near: &mut Near,
) -> Result<(), AllocError>
    requires cells { CellsRead cells.now }
    requires four { place.way < 4 }
    requires low { place.row < 1024 * cells.now.quanta }
    requires fits { place.position * (cells.now.bits + 8) + (cells.now.bits + 8) ≤ 112 * cells.now.width }
    ensures { OnOk result (keys.new.items ≡ keys.old.items ++ bytes_of (divided_up_of cells.now.bits 8)
        (entry_at (sram_row cells.now.rows.now) cells.now.blocks.now cells.now.width cells.now.bits (record { way = place.way; row = place.row; position = place.position }) / 256)) }
{
    let unit = unit_at(cells, place);
    let low = place.position as u64 * (cells.bits + 8) + 8;
    push_bits(keys, &unit, low, cells.bits, near)
}

/// The key of a cell, of at most 64 bits.
fn short_key(cells: &ExactCells, place: Place, near: &mut Near) -> u64
    requires cells { CellsRead cells.now }
    requires short { cells.now.bits ≤ 64 }
    requires four { place.way < 4 }
    requires low { place.row < 1024 * cells.now.quanta }
    requires fits { place.position * (cells.now.bits + 8) + (cells.now.bits + 8) ≤ 112 * cells.now.width }
    ensures value { let p = cells.now in result
        ≡ entry_at (sram_row p.rows.now) p.blocks.now p.width p.bits (record { way = place.way; row = place.row; position = place.position }) / 256 }
    ensures bytes { number_of (bytes_of (divided_up_of cells.now.bits 8) result) ≡ result }
{
    if cells.bits == 0 {
        return 0;
    }
    let unit = unit_at(cells, place);
    let low = place.position as u64 * (cells.bits + 8) + 8;
    bits_at(&unit, low, cells.bits, near)
}

/// Whether each cell of a part with keys of at most 64 bits is one in which its key may stand; where it is, what is kept
/// of their keys is added. Each key is read as one number.
fn put_short_keys(cells: &ExactCells, whole: bool, kept: &mut Vec<u64>) -> Result<bool, AllocError>
    requires cells { CellsRead cells.now }
    requires short { cells.now.bits ≤ 64 }
    ensures { IfOk result (CellsAdded cells.now whole cells.now.numbers.now kept.old.items kept.new.items) }
{
    let mut near = Near::new();
    let mut near_row = 0;
    let size = divided_up(cells.bits, 8);
    let numbers = cells.numbers;
    for number in numbers {
        let place = place_of(cells.per, cells.quanta, number.cell, &mut near_row);
        let key = short_key(cells, place, &mut near);
        let all = key.to_be_bytes();
        let bytes = lowest(&all, size);
        if !stands_at(cells.seed, cells.first_way, cells.quanta, bytes, place) {
            return Ok(false);
        }
        put_kept(kept, whole, bytes, Some(key))?;
    }
    Ok(true)
}

/// The same of keys of more than 64 bits, which are read piece by piece.
fn put_long_keys(cells: &ExactCells, whole: bool, kept: &mut Vec<u64>) -> Result<bool, AllocError>
    requires cells { CellsRead cells.now }
    requires long { 64 < cells.now.bits }
    ensures { IfOk result (CellsAdded cells.now whole cells.now.numbers.now kept.old.items kept.new.items) }
{
    let mut near = Near::new();
    let mut near_row = 0;
    let mut key = Vec::new(*kept.allocator());
    let numbers = cells.numbers;
    for number in numbers {
        let place = place_of(cells.per, cells.quanta, number.cell, &mut near_row);
        key.clear();
        put_key(&mut key, cells, place, &mut near)?;
        let bytes = key.as_slice();
        if !stands_at(cells.seed, cells.first_way, cells.quanta, bytes, place) {
            return Ok(false);
        }
        put_kept(kept, whole, bytes, None)?;
    }
    Ok(true)
}

/// Whether each cell of a part is one in which its key may stand; where it is, what is kept of their keys is added.
pub fn put_keys(cells: &ExactCells, whole: bool, kept: &mut Vec<u64>) -> Result<bool, AllocError>
    requires { CellsRead cells.now }
    ensures { IfOk result (CellsAdded cells.now whole cells.now.numbers.now kept.old.items kept.new.items) }
{
    if cells.bits <= 64 {
        put_short_keys(cells, whole, kept)
    } else {
        put_long_keys(cells, whole, kept)
    }
}
