//! The cells of exact parts.

ghost use Rattle.std.specs.Prelude.{◌≡◌, ◌+◌, ◌*◌, ◌-◌, ◌/◌, ◌%◌, ◌^◌, ◌<◌, ◌≤◌, length};
ghost use Rattle.rmt_bits.specs.Bits.{number_of};
ghost use Rattle.rmt_config.specs.BlockCounts.{divided_up};
ghost use Rattle.rmt_pack.specs.Rows.{blocks_of};
ghost use Rattle.rmt_pack.specs.Head.{number_of_head};
ghost use Rattle.rmt_pack.specs.Shape.{IsShape, cells_in};
ghost use Rattle.rmt_pack.specs.Cells.{place_of as cell_place_of, entry_of, HoldsCell, OtherEntriesStay, RecordsStay, PutsEntry};

use crate::head::{Head, byte_of, head_from};
use crate::rows::Rows;
use crate::run::{read_run, write_run};
use crate::shape::Shape;
use crate::spots::{Spot, blocks_from, place_of};

/// Where the entry of a cell begins.
fn spot_of(shape: &Shape, cell: u32) -> Spot
    requires shape { IsShape shape.now }
    requires exact { shape.now.memory ≡ 1 }
    requires cell { cell < cells_in shape.now }
    ensures first { let c = cell_place_of shape.now cell in result.first ≡ (c.row / 1024 * 4 + c.way) * shape.now.width }
    ensures row { result.row ≡ (cell_place_of shape.now cell).row % 1024 }
    ensures low { result.low ≡ (cell_place_of shape.now cell).position * (shape.now.key + 8) }
    ensures rows { result.row < 1024 }
    ensures there { result.first + shape.now.width ≤ length shape.now.keys }
    ensures room { result.low + (shape.now.key + 8) ≤ 112 * shape.now.width }
{
    let place = place_of(shape, cell);
    let unit = place.row / 1024 * 4 + place.way;
    Spot {
        first: unit as usize * shape.width as usize,
        row: (place.row % 1024) as u16,
        low: place.position * (shape.key as u32 + 8),
    }
}

/// Writes a head and a key, as bytes, highest first, into a cell of an exact part.
pub fn write_cell(rows: &mut Rows, shape: &Shape, cell: u32, head: Head, key: &[u8])
    requires shape { IsShape shape.now }
    requires exact { shape.now.memory ≡ 1 }
    requires cell { cell < cells_in shape.now }
    requires visible { head.visible < 4 }
    requires code { head.code < 32 }
    requires key { length key.now ≡ divided_up shape.now.key 8 }
    requires small { number_of key.now < 2 ^ shape.now.key }

    // A cell reads back.
    ensures holds { HoldsCell (blocks_of rows.new) shape.now cell head key.now }
    ensures entry { entry_of (blocks_of rows.new) shape.now cell ≡ number_of_head head + 256 * number_of key.now }

    // All else stays.
    ensures others { OtherEntriesStay (blocks_of rows.old) (blocks_of rows.new) shape.now cell }
    ensures records { RecordsStay (blocks_of rows.old) (blocks_of rows.new) shape.now }
    ensures bits { PutsEntry (blocks_of rows.old) (blocks_of rows.new) shape.now cell (number_of_head head + 256 * number_of key.now) }
{
    let spot = spot_of(shape, cell);
    let blocks = blocks_from(shape.keys.as_slice(), spot.first, shape.width as usize);
    write_run(rows, blocks, spot.row, spot.low + 8, shape.key as u32, key);
    write_run(rows, blocks, spot.row, spot.low, 8, &[byte_of(head)]);
}

/// Reads a cell of an exact part: its head, and its key into bytes, highest first; what they held before is lost.
pub fn read_cell(rows: &Rows, shape: &Shape, cell: u32, key: &mut [u8]) -> Head
    requires shape { IsShape shape.now }
    requires exact { shape.now.memory ≡ 1 }
    requires cell { cell < cells_in shape.now }
    requires key { length key.old ≡ divided_up shape.now.key 8 }
    ensures { HoldsCell (blocks_of rows.now) shape.now cell result key.new }
{
    let spot = spot_of(shape, cell);
    let blocks = blocks_from(shape.keys.as_slice(), spot.first, shape.width as usize);
    read_run(rows, blocks, spot.row, spot.low + 8, shape.key as u32, key);
    let mut head = [0];
    read_run(rows, blocks, spot.row, spot.low, 8, &mut head);
    head_from(head[0])
}
