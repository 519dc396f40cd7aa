//! The rules of form on the rows of a stage: each there, of a block that a slot lists, not all zero, and in order.

ghost use Rattle.std.specs.Prelude.{◌≡◌, ℕ, ◌<◌, ◌||◌, length, map, false, slice_index_or};
ghost use Rattle.std.specs.List.{flat_map, list_all};
ghost use Rattle.rmt_config.specs.StageForm.{is_listed, memory_sram_blocks, memory_tcam_blocks, sram_blocks, tcam_blocks, srow_is_formed, trow_is_formed, rows_are_formed};
ghost use Rattle.rmt_config.specs.declared.config.Memory.{Memory};
ghost use Rattle.rmt_config.specs.declared.config.Unit.{Unit};

use crate::config::{Memory, SramRow, Stage, TcamRow, Unit};
use crate::form::search::items_rise;

/// Marks the blocks of a list in a table of all blocks.
fn mark(table: &mut [bool], blocks: &[u8])
    requires { length table.old ≡ 256 }
    ensures { (b : ℕ) → b < 256 → slice_index_or table.new b false ≡ (slice_index_or table.old b false || is_listed b blocks.now) }
{
    for block in blocks {
        table[*block as usize] = true;
    }
}

/// Marks the SRAM blocks of a memory whose rows may be listed.
fn mark_sram_of(table: &mut [bool], memory: &Memory)
    requires { length table.old ≡ 256 }
    ensures { (b : ℕ) → b < 256 → slice_index_or table.new b false ≡ (slice_index_or table.old b false || is_listed b (memory_sram_blocks memory.now)) }
{
    match memory {
        Memory::Without => {}
        Memory::Exact { keys, records, .. } => {
            mark(table, keys.as_slice());
            mark(table, records.as_slice());
        }
        Memory::Ternary { records, .. } => mark(table, records.as_slice()),
    }
}

/// Marks the TCAM blocks of a memory.
fn mark_tcam_of(table: &mut [bool], memory: &Memory)
    requires { length table.old ≡ 256 }
    ensures { (b : ℕ) → b < 256 → slice_index_or table.new b false ≡ (slice_index_or table.old b false || is_listed b (memory_tcam_blocks memory.now)) }
{
    if let Memory::Ternary { keys, .. } = memory {
        mark(table, keys.as_slice());
    }
}

/// Marks the SRAM blocks of the slots among units.
fn mark_sram(table: &mut [bool], units: &[Unit])
    requires { length table.old ≡ 256 }
    ensures { (b : ℕ) → b < 256 → slice_index_or table.new b false ≡ (slice_index_or table.old b false || is_listed b (flat_map sram_blocks units.now)) }
{
    for unit in units {
        if let Unit::Slot(slot) = unit {
            mark_sram_of(table, &slot.memory);
        }
    }
}

/// Marks the TCAM blocks of the slots among units.
fn mark_tcam(table: &mut [bool], units: &[Unit])
    requires { length table.old ≡ 256 }
    ensures { (b : ℕ) → b < 256 → slice_index_or table.new b false ≡ (slice_index_or table.old b false || is_listed b (flat_map tcam_blocks units.now)) }
{
    for unit in units {
        if let Unit::Slot(slot) = unit {
            mark_tcam_of(table, &slot.memory);
        }
    }
}

/// Whether each SRAM row is there, is of a block that a slot of the units lists, and is not all zero.
fn srows_fit(units: &[Unit], rows: &[SramRow]) -> bool
    ensures { result ≡ list_all (srow_is_formed units.now) rows.now }
{
    let mut table = [false; 256];
    mark_sram(&mut table, units);
    for row in rows {
        if row.row >= 1024 || !table[row.block as usize] || row.bits == 0 {
            return false;
        }
    }
    true
}

/// Whether each TCAM row is there, is of a block that a slot of the units lists, and has a mask, and no bit of its value outside it.
fn trows_fit(units: &[Unit], rows: &[TcamRow]) -> bool
    ensures { result ≡ list_all (trow_is_formed units.now) rows.now }
{
    let mut table = [false; 256];
    mark_tcam(&mut table, units);
    for row in rows {
        if row.row >= 2048
            || !table[row.block as usize]
            || row.mask == 0
            || row.value & row.mask != row.value
        {
            return false;
        }
    }
    true
}

/// Whether the rows of a stage keep the rules of form.
pub fn rows_fit(stage: &Stage) -> bool
    ensures { result ≡ rows_are_formed stage.now }
{
    let units = stage.units.as_slice();
    let srows = stage.srows.as_slice();
    let trows = stage.trows.as_slice();
    srows_fit(units, srows)
        && items_rise(0, srows)
        && trows_fit(units, trows)
        && items_rise(0, trows)
}
