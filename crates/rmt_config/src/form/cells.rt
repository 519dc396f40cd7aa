//! The heads of listed cells, read from the rows of their blocks.

ghost use Rattle.std.specs.Prelude.{◌≡◌, ℕ, ◌+◌, ◌*◌, ◌%◌, ◌<◌, ◌≤◌, length, All, nat_lt};
ghost use Rattle.std.specs.List.{list_all};
ghost use Rattle.rmt_bits.specs.Bits.{slice as slice_of};
ghost use Rattle.rmt_config.specs.Cells.{sram_row, unit_row, blocks_at};
ghost use Rattle.rmt_config.specs.CellForm.{head_is_formed};
ghost use Rattle.rmt_config.specs.Layouts.{listed_cells, quantum_of, local_of, entry_in, heads_hold, cells_hold};
ghost use Rattle.rmt_config.specs.HeadedEntries.{EntriesStand};
ghost use Rattle.rmt_config.specs.declared.config.CellNumber.{CellNumber};

use crate::config::{CellNumber, SramRow};
use crate::form::layout::{CellLayout, joined};
use crate::form::names::key_bytes::spot_of;
use crate::form::search::items_rise;
use crate::form::sram::{Near, byte_of_two, row_bits};

/// Entries that begin with a head: their layout, the blocks in which they stand, and the rows of their stage.
#[derive(Clone, Copy)]
pub struct Entries<'a> {
    pub layout: CellLayout,
    pub blocks: &'a [u8],
    pub rows: &'a [SramRow],
}

/// What the head of an occupied cell says: its visible bits, and that it runs one of so many instructions from the first
/// on.
#[derive(Clone, Copy)]
pub struct HeadRule {
    pub visible: u8,
    pub first: u32,
    pub actions: u8,
}

/// The 8 bits from one on of a row of a unit.
fn head_at(entries: &Entries, unit: u64, row: u64, bit: u64, near: &mut Near) -> u8
    requires entries { EntriesStand entries.now }
    requires unit { (unit + 1) * entries.now.layout.side ≤ length entries.now.blocks.now }
    requires bit { bit + 8 ≤ 112 * entries.now.layout.side }
    requires row { row < 1024 }
    ensures { result ≡ slice_of (unit_row 112 (sram_row entries.now.rows.now) row (blocks_at entries.now.blocks.now entries.now.layout.side unit)) bit 8 }
{
    let block = bit / 112;
    let at = joined(unit, entries.layout.side, block) as usize;
    let first = row_bits(entries.rows, entries.blocks[at], block, row, near);
    let second = if block + 1 < entries.layout.side {
        row_bits(entries.rows, entries.blocks[at + 1], block + 1, row, near)
    } else {
        0
    };
    byte_of_two(first, second, bit % 112)
}

/// The head of a cell.
fn head_of(entries: &Entries, cell: u64, near: &mut Near) -> u8
    requires entries { EntriesStand entries.now }
    requires cell { cell < entries.now.layout.ways * entries.now.layout.quanta * entries.now.layout.way }
    ensures { let l = entries.now.layout in result ≡ entry_in l (sram_row entries.now.rows.now) entries.now.blocks.now (quantum_of l cell) (local_of l cell) % 256 }
{
    let spot = spot_of(&entries.layout, cell);
    head_at(entries, spot.unit, spot.row, spot.low, near)
}

/// Whether a head is that of an occupied cell, as a rule says.
fn head_fits(head: u8, rule: HeadRule) -> bool
    requires { rule.first < 65536 }
    ensures { result ≡ head_is_formed rule.visible rule.first rule.actions head }
{
    let code = (head / 8 % 32) as u32;
    head % 2 == 1
        && head / 2 % 4 == rule.visible
        && rule.first <= code
        && code < rule.first + rule.actions as u32
}

/// Whether the heads of all listed cells are as a rule says.
fn heads_fit(entries: &Entries, numbers: &[CellNumber], rule: HeadRule) -> bool
    requires entries { EntriesStand entries.now }
    requires cells { All (λ (n : CellNumber). n.cell < entries.now.layout.ways * entries.now.layout.quanta * entries.now.layout.way) numbers.now }
    requires first { rule.first < 65536 }
    ensures { result ≡ heads_hold entries.now.layout (sram_row entries.now.rows.now) entries.now.blocks.now rule.visible rule.first rule.actions (listed_cells numbers.now) }
{
    let mut near = Near::new();
    for number in numbers {
        if !head_fits(head_of(entries, number.cell as u64, &mut near), rule) {
            return false;
        }
    }
    true
}

/// Whether all listed cells are below a count.
fn cells_fit(numbers: &[CellNumber], count: u64) -> bool
    ensures { result ≡ list_all (λ n. nat_lt n count) (listed_cells numbers.now) }
{
    for number in numbers {
        if number.cell as u64 >= count {
            return false;
        }
    }
    true
}

/// Whether the listed cells rise, are cells of the memory, and have heads as a rule says.
pub fn cells_are_formed(entries: &Entries, numbers: &[CellNumber], rule: HeadRule) -> bool
    requires entries { EntriesStand entries.now }
    requires first { rule.first < 65536 }
    ensures { result ≡ cells_hold entries.now.layout (sram_row entries.now.rows.now) entries.now.blocks.now rule.visible rule.first rule.actions numbers.now }
{
    let layout = &entries.layout;
    let count = joined(joined(layout.ways, layout.quanta, 0), layout.way, 0);
    if !items_rise(0, numbers) || !cells_fit(numbers, count) {
        return false;
    }
    heads_fit(entries, numbers, rule)
}
