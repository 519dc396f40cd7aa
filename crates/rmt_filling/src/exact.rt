//! What the memory of an exact part holds.

ghost use Rattle.std.specs.Prelude.{◌≡◌, ◌≢◌, ◌+◌, ◌*◌, ◌<◌, ◌≤◌, ◌++◌, ℕ, All, Contains, OnOk, length, map, sum};
ghost use Rattle.std.specs.List.{AllZip};
ghost use Rattle.rmt_ast.specs.declared.program.Test.{Test};
ghost use Rattle.rmt_ast.specs.State.{width_of};
ghost use Rattle.rmt_ast.specs.WellFormed.{Fits, IsTest};
ghost use Rattle.rmt_pack.specs.Placements.{data_bits as bits_of_data, key_bits as bits_of_key};
ghost use Rattle.rmt_pack.specs.Rows.{blocks_of};
ghost use Rattle.rmt_pack.specs.Shape.{IsShape, cells_in};
ghost use Rattle.rmt_config.specs.Rooms.{args_as_one, tests_as_one};
ghost use Rattle.rmt_filling.specs.Holding.{ExactSo, PutsCell, exact_part, head_for};
ghost use Rattle.rmt_filling.specs.Rooms.{CanBeWritten, StandApart};

use crate::data::widths_of;
use crate::entries::{PartEntries, PlacedEntry, placed_entry};
use crate::held::held_bits;
use crate::shapes::exact_shape;
use rmt_ast::program::Kind;
use rmt_bits::answer::Bytes;
use rmt_pack::cell::write_cell;
use rmt_pack::encoding::{args_bytes, tests_bytes};
use rmt_pack::head::Head;
use rmt_pack::need::key_bits;
use rmt_pack::record::write_record;
use rmt_pack::rows::Rows;
use rmt_pack::shape::Shape;
use std::alloc::{AllocError, Global};

/// Writes an entry into its cell of an exact part.
fn write_exact(
    alloc: Global,
    sram: &mut Rows,
    shape: &Shape,
    cell: u32,
    widths: &[u8],
    placed: &PlacedEntry,
) -> Result<(), AllocError>
    requires shape { IsShape shape.now }
    requires exact { shape.now.memory ≡ 1 }
    requires cell { cell < cells_in shape.now }
    requires code { placed.now.code < 32 }
    requires key { shape.now.key ≡ sum widths.now }
    requires held { sum placed.now.params.now ≤ shape.now.held }
    requires widths { All (λ w. w ≤ 128) widths.now }
    requires params { All (λ w. w ≤ 128) placed.now.params.now }
    requires tests { AllZip IsTest widths.now placed.now.entry.now.tests }
    requires args { AllZip Fits placed.now.params.now placed.now.entry.now.args }
    ensures { OnOk result (PutsCell (blocks_of sram.old) (blocks_of sram.new) shape.now cell
        (head_for placed.now.code + 256 * tests_as_one (λ (t : Test). t.value) widths.now placed.now.entry.now.tests) (args_as_one placed.now.params.now placed.now.entry.now.args)) }
{
    let key = tests_bytes(alloc, widths, placed.entry.tests.as_slice(), false)?;
    let held = args_bytes(
        alloc,
        shape.held as u32,
        0,
        placed.params,
        placed.entry.args.as_slice(),
    )?;
    let head = Head {
        occupied: true,
        visible: 3,
        code: placed.code,
    };
    write_cell(sram, shape, cell, head, key.as_slice());
    write_record(sram, shape, cell, held.as_slice());
    Ok(())
}

/// Writes entries into the cells of an exact part.
fn write_cells(
    alloc: Global,
    sram: &mut Rows,
    part: &PartEntries,
    shape: &Shape,
    widths: &[u8],
) -> Result<(), AllocError>
    requires part { CanBeWritten part.now.program.now part.now.table.now part.now.entries.now part.now.first }
    requires stands { StandApart (length part.now.entries.now) (cells_in shape.now) part.now.stands.now }
    requires shape { IsShape shape.now }
    requires exact { shape.now.memory ≡ 1 }
    requires key { shape.now.key ≡ bits_of_key part.now.program.now part.now.table.now }
    requires held { shape.now.held ≡ bits_of_data part.now.program.now part.now.table.now }
    requires widths { widths.now ≡ map (width_of part.now.program.now) part.now.table.now.key }
    requires zeros { (b r : ℕ) → Contains (shape.now.keys ++ shape.now.records) b → blocks_of sram.old b r ≡ 0 }
    ensures holds { OnOk result (ExactSo part.now.program.now part.now.table.now part.now.entries.now part.now.first (blocks_of sram.new) shape.now part.now.stands.now) }
    ensures others { OnOk result ((b r : ℕ) → (Contains (shape.now.keys ++ shape.now.records) b → ⊥) → blocks_of sram.new b r ≡ blocks_of sram.old b r) }
{
    for stand in part.stands {
        let placed = placed_entry(part, stand.entry as usize);
        write_exact(alloc, sram, shape, stand.cell, widths, &placed)?;
    }
    Ok(())
}

/// Writes entries into an exact part.
pub fn write_exact_part(
    alloc: Global,
    sram: &mut Rows,
    part: &PartEntries,
    width: u8,
    per: u16,
    quanta: u8,
    keys: &Bytes,
    records: &Bytes,
) -> Result<(), AllocError>
    requires part { CanBeWritten part.now.program.now part.now.table.now part.now.entries.now part.now.first }
    requires kind { part.now.table.now.kind ≢ Kind.Keyless }
    requires shape { IsShape (exact_part (bits_of_key part.now.program.now part.now.table.now) (bits_of_data part.now.program.now part.now.table.now) width per quanta keys.now records.now) }
    requires stands { StandApart (length part.now.entries.now) (4096 * quanta * per) part.now.stands.now }
    requires zeros { (b r : ℕ) → Contains (keys.now ++ records.now) b → blocks_of sram.old b r ≡ 0 }
    ensures holds { OnOk result (ExactSo part.now.program.now part.now.table.now part.now.entries.now part.now.first (blocks_of sram.new)
        (exact_part (bits_of_key part.now.program.now part.now.table.now) (bits_of_data part.now.program.now part.now.table.now) width per quanta keys.now records.now) part.now.stands.now) }
    ensures others { OnOk result ((b r : ℕ) → (Contains (keys.now ++ records.now) b → ⊥) → blocks_of sram.new b r ≡ blocks_of sram.old b r) }
{
    let widths = widths_of(alloc, part.program, part.table.key.as_slice())?;
    let key = key_bits(part.program, part.table) as u16;
    let held = held_bits(part.program, part.table);
    let shape = exact_shape(alloc, key, held, width, per, quanta, keys, records)?;
    let widths = widths.as_slice();
    write_cells(alloc, sram, part, &shape, widths)?;
    Ok(())
}
