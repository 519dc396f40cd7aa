//! What rows of SRAM hold, read from lists of rows that rise by block and row.

ghost use Rattle.std.specs.Prelude.{◌≡◌, ◌+◌, ◌-◌, ◌*◌, ◌/◌, ◌%◌, ◌^◌, ◌<◌};
ghost use Rattle.rmt_config.specs.Cells.{sram_row};
ghost use Rattle.rmt_config.specs.MemoryRules.{SramRows};

use crate::config::SramRow;
use crate::form::search::{Numbered, first_near};

/// Where rows were found last among those of all blocks: one place for each block of a unit, which blocks that are a
/// multiple of eight apart share.
#[derive(Clone, Copy)]
pub struct Near {
    places: [usize; 8],
}

impl Near {
    /// No row was found so far.
    pub fn new() -> Near {
        Near { places: [0; 8] }
    }
}

/// What a row of an SRAM block holds, looked for first near the place where the last row of the block was found; a row
/// that isn't listed is 0. The block is the one of its unit with the number `at`.
pub fn row_bits(rows: &[SramRow], block: u8, at: u64, row: u64, near: &mut Near) -> u128
    requires rows { SramRows rows.now }
    requires row { row < 1024 }
    ensures { result ≡ sram_row rows.now block row }
{
    let number = block as u64 * 1024 + row;
    let place = (at % 8) as usize;
    let found = first_near(rows, number, near.places[place]);
    near.places[place] = found;
    if found < rows.len() && rows[found].place() as u64 == number {
        rows[found].bits
    } else {
        0
    }
}

/// The 8 bits from one on of two rows side by side.
pub fn byte_of_two(first: u128, second: u128, at: u64) -> u8
    requires first { first < 2 ^ 112 }
    requires at { at < 112 }
    ensures { result ≡ (second % 256 * 2 ^ (112 - at) + first / 2 ^ at) % 256 }
{
    let low = first >> at;
    let high = (second % 256) << (112 - at);
    ((high + low) % 256) as u8
}
