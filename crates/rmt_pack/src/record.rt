//! The records of cells of exact parts and of rows of ternary parts.

ghost use Rattle.std.specs.Prelude.{◌≡◌, ◌≢◌, ◌+◌, ◌*◌, ◌-◌, ◌/◌, ◌%◌, ◌^◌, ◌<◌, ◌≤◌, length, take, drop, All, AllPairs};
ghost use Rattle.rmt_bits.specs.Bits.{number_of};
ghost use Rattle.rmt_config.specs.BlockCounts.{divided_up as divided_up_of, record_width as record_width_of, records_a_row as records_a_row_of, record_units as record_units_of};
ghost use Rattle.rmt_pack.specs.Rows.{blocks_of};
ghost use Rattle.rmt_pack.specs.Shape.{IsShape, cells_in};
ghost use Rattle.rmt_pack.specs.Cells.{record_of, HoldsRecord, EntriesStay, OtherRecordsStay, PutsRecord, quantum_in, index_in, thousands_in};

use crate::rows::Rows;
use crate::run::{read_run, write_run};
use crate::shape::{EXACT, Shape};
use crate::spots::{Spot, blocks_from, place_of};
use rmt_config::form::layout::{divided_up, record_width, records_a_row};

/// A quantum of a part, and the number of a cell or row in it.
#[derive(Clone, Copy)]
struct InQuantum {
    quantum: u64,
    index: u64,
}

/// The quantum in which a cell or row stands.
fn quantum_of(shape: &Shape, cell: u32) -> InQuantum
    requires shape { IsShape shape.now }
    requires cell { cell < cells_in shape.now }
    ensures quantum { result.quantum ≡ quantum_in shape.now cell }
    ensures index { result.index ≡ index_in shape.now cell }
    ensures quanta { result.quantum < shape.now.quanta }
    ensures indices { result.index < 1024 * thousands_in shape.now }
{
    if shape.memory == EXACT {
        let place = place_of(shape, cell);
        InQuantum {
            quantum: (place.row / 1024) as u64,
            index: ((place.way * 1024 + place.row % 1024) * shape.per as u32
                + place.position) as u64,
        }
    } else {
        InQuantum {
            quantum: (cell / 2048) as u64,
            index: (cell % 2048) as u64,
        }
    }
}

/// How many times 1,024 cells or rows a quantum has.
fn thousands_of(shape: &Shape) -> u64
    ensures value { result ≡ thousands_in shape.now }
    ensures few { result < 2 ^ 18 }
{
    if shape.memory == EXACT {
        4 * shape.per as u64
    } else {
        2
    }
}

/// Where the record of a cell or row begins.
fn spot_of(shape: &Shape, cell: u32) -> Spot
    requires shape { IsShape shape.now }
    requires cell { cell < cells_in shape.now }
    requires some { 0 < shape.now.held }
    ensures first { let q = records_a_row_of shape.now.held in
        result.first ≡ (quantum_in shape.now cell * record_units_of (thousands_in shape.now) shape.now.held + index_in shape.now cell / (1024 * q)) * record_width_of shape.now.held }
    ensures row { let q = records_a_row_of shape.now.held in result.row ≡ index_in shape.now cell % (1024 * q) / q }
    ensures low { result.low ≡ index_in shape.now cell % records_a_row_of shape.now.held * shape.now.held }
    ensures rows { result.row < 1024 }
    ensures there { result.first + record_width_of shape.now.held ≤ length shape.now.records }
    ensures room { result.low + shape.now.held ≤ 112 * record_width_of shape.now.held }
{
    let held = shape.held as u64;
    let per = records_a_row(held);
    let at = quantum_of(shape, cell);
    let units = divided_up(thousands_of(shape), per);
    let unit = at.quantum * units + at.index / (1024 * per);
    Spot {
        first: (unit * record_width(held)) as usize,
        row: (at.index % (1024 * per) / per) as u16,
        low: (at.index % per * held) as u32,
    }
}

/// The blocks side by side of a record, from one on.
fn record_blocks(shape: &Shape, first: usize) -> &[u8]
    requires shape { IsShape shape.now }
    requires there { first + record_width_of shape.now.held ≤ length shape.now.records }
    ensures part { result.now ≡ take (record_width_of shape.now.held) (drop first shape.now.records) }
    ensures many { length result.now ≡ record_width_of shape.now.held }
    ensures in_sram { All (λ block. block < 106) result.now }
    ensures apart { AllPairs ◌≢◌ result.now }
{
    blocks_from(
        shape.records.as_slice(),
        first,
        record_width(shape.held as u64) as usize,
    )
}

/// Puts bytes into the record of a cell or row; a record of no bits has no place.
fn put_record(rows: &mut Rows, shape: &Shape, cell: u32, held: &[u8])
    requires shape { IsShape shape.now }
    requires cell { cell < cells_in shape.now }
    requires held { length held.now ≡ divided_up_of shape.now.held 8 }
    requires small { number_of held.now < 2 ^ shape.now.held }
    ensures bits { PutsRecord (blocks_of rows.old) (blocks_of rows.new) shape.now cell (number_of held.now) }
    ensures fits { shape.now.held < 2 ^ 16 }
{
    if shape.held == 0 {
        return;
    }
    let spot = spot_of(shape, cell);
    let blocks = record_blocks(shape, spot.first);
    write_run(rows, blocks, spot.row, spot.low, shape.held as u32, held);
}

/// Writes the record of a cell or row, as bytes, highest first.
pub fn write_record(rows: &mut Rows, shape: &Shape, cell: u32, held: &[u8])
    requires shape { IsShape shape.now }
    requires cell { cell < cells_in shape.now }
    requires held { length held.now ≡ divided_up_of shape.now.held 8 }
    requires small { number_of held.now < 2 ^ shape.now.held }

    // A record reads back.
    ensures holds { HoldsRecord (blocks_of rows.new) shape.now cell held.now }
    ensures record { record_of (blocks_of rows.new) shape.now cell ≡ number_of held.now }

    // All else stays.
    ensures others { OtherRecordsStay (blocks_of rows.old) (blocks_of rows.new) shape.now cell }
    ensures entries { EntriesStay (blocks_of rows.old) (blocks_of rows.new) shape.now }
    ensures bits { PutsRecord (blocks_of rows.old) (blocks_of rows.new) shape.now cell (number_of held.now) }
{
    put_record(rows, shape, cell, held);
}

/// Reads the record of a cell or row into bytes, highest first; what they held before is lost.
pub fn read_record(rows: &Rows, shape: &Shape, cell: u32, held: &mut [u8])
    requires shape { IsShape shape.now }
    requires cell { cell < cells_in shape.now }
    requires held { length held.old ≡ divided_up_of shape.now.held 8 }
    ensures { HoldsRecord (blocks_of rows.now) shape.now cell held.new }
{
    if shape.held == 0 {
        return;
    }
    let spot = spot_of(shape, cell);
    let blocks = record_blocks(shape, spot.first);
    read_run(rows, blocks, spot.row, spot.low, shape.held as u32, held);
}
