//! What the memory of a ternary part holds.

ghost use Rattle.std.specs.Prelude.{◌≡◌, ◌≢◌, ◌+◌, ◌*◌, ◌^◌, ◌<◌, ◌≤◌, ℕ, All, Contains, IfOk, OnOk, length, map, sum};
ghost use Rattle.std.specs.List.{AllZip};
ghost use Rattle.rmt_ast.specs.State.{width_of};
ghost use Rattle.rmt_ast.specs.WellFormed.{Fits};
ghost use Rattle.rmt_bits.specs.Bits.{number_of};
ghost use Rattle.rmt_config.specs.BlockCounts.{divided_up};
ghost use Rattle.rmt_config.specs.Rooms.{args_as_one};
ghost use Rattle.rmt_pack.specs.Cells.{PutsRecord};
ghost use Rattle.rmt_pack.specs.Placements.{data_bits as bits_of_data, key_bits as bits_of_key};
ghost use Rattle.rmt_pack.specs.Rows.{blocks_of};
ghost use Rattle.rmt_pack.specs.Shape.{IsShape, cells_in};
ghost use Rattle.rmt_filling.specs.Holding.{AreKeyBlocks, TernarySo, head_for, ternary_part};
ghost use Rattle.rmt_filling.specs.Listing.{masks_of, values_of};
ghost use Rattle.rmt_filling.specs.Rooms.{CanBeWritten, StandApart};

use crate::data::widths_of;
use crate::entries::{PartEntries, PlacedEntry, placed_entry};
use crate::held::held_bits;
use crate::shapes::ternary_shape;
use crate::tcam::TcamRows;
use crate::words::write_tests;
use rmt_ast::program::Kind;
use rmt_bits::answer::Bytes;
use rmt_bits::bits::bytes_of_bits;
use rmt_pack::encoding::args_bytes;
use rmt_pack::fault::PackFault;
use rmt_pack::need::key_bits;
use rmt_pack::record::write_record;
use rmt_pack::rows::Rows;
use rmt_pack::shape::Shape;
use std::alloc::{AllocError, Global};

/// Puts the head of an entry into the last byte, which is 0. Its instruction has this number in the stage.
fn put_head(bytes: &mut [u8], code: u8)
    requires some { 1 ≤ length bytes.old }
    requires few { length bytes.old < 2 ^ 16 }
    requires code { code < 32 }
    ensures { (n : ℕ) → number_of bytes.old ≡ 2 ^ 8 * n → number_of bytes.new ≡ head_for code + 256 * n }
{
    let behind = bytes.len() as u32 * 8 - 8;
    bytes_of_bits(7 + 8 * code as u128, 8, bytes, behind);
}

/// A record of so many bits as bytes: a head, and then arguments of these widths side by side. The instruction has this number in the stage.
fn headed_bytes(
    alloc: Global,
    bits: u32,
    code: u8,
    widths: &[u8],
    args: &[u128],
) -> Result<Vec<u8>, AllocError>
    requires bits { bits < 2 ^ 16 }
    requires room { 8 + sum widths.now ≤ bits }
    requires code { code < 32 }
    requires widths { All (λ w. w ≤ 128) widths.now }
    requires fit { AllZip Fits widths.now args.now }
    ensures len { IfOk result (λ bytes. length bytes.items ≡ divided_up bits 8) }
    ensures value { IfOk result (λ bytes. number_of bytes.items ≡ head_for code + 256 * args_as_one widths.now args.now) }
{
    let mut bytes = args_bytes(alloc, bits, 8, widths, args)?;
    put_head(&mut bytes, code);
    Ok(bytes)
}

/// Writes the head and the data of an entry into its record of a ternary part.
fn write_head(
    alloc: Global,
    sram: &mut Rows,
    shape: &Shape,
    cell: u32,
    placed: &PlacedEntry,
) -> Result<(), AllocError>
    requires shape { IsShape shape.now }
    requires cell { cell < cells_in shape.now }
    requires code { placed.now.code < 32 }
    requires held { 8 + sum placed.now.params.now ≤ shape.now.held }
    requires params { All (λ w. w ≤ 128) placed.now.params.now }
    requires args { AllZip Fits placed.now.params.now placed.now.entry.now.args }
    ensures { OnOk result (PutsRecord (blocks_of sram.old) (blocks_of sram.new) shape.now cell (head_for placed.now.code + 256 * args_as_one placed.now.params.now placed.now.entry.now.args)) }
{
    let held = headed_bytes(
        alloc,
        shape.held as u32,
        placed.code,
        placed.params,
        placed.entry.args.as_slice(),
    )?;
    write_record(sram, shape, cell, held.as_slice());
    Ok(())
}

/// Writes entries into the rows of a ternary part with these TCAM blocks.
fn write_rows(
    alloc: Global,
    sram: &mut Rows,
    tcam: &mut TcamRows,
    part: &PartEntries,
    shape: &Shape,
    blocks: &[u8],
    widths: &Bytes,
) -> Result<(), PackFault>
    requires part { CanBeWritten part.now.program.now part.now.table.now part.now.entries.now part.now.first }
    requires stands { StandApart (length part.now.entries.now) (cells_in shape.now) part.now.stands.now }
    requires shape { IsShape shape.now }
    requires ternary { shape.now.memory ≡ 2 }
    requires key { shape.now.key ≡ bits_of_key part.now.program.now part.now.table.now }
    requires held { shape.now.held ≡ bits_of_data part.now.program.now part.now.table.now + 8 }
    requires widths { widths.now ≡ map (width_of part.now.program.now) part.now.table.now.key }
    requires blocks { AreKeyBlocks (bits_of_key part.now.program.now part.now.table.now) shape.now.quanta blocks.now }
    requires zeros { (b r : ℕ) → Contains shape.now.records b → blocks_of sram.old b r ≡ 0 }
    requires zero_values { (b r : ℕ) → Contains blocks.now b → values_of tcam.old b r ≡ 0 }
    requires zero_masks { (b r : ℕ) → Contains blocks.now b → masks_of tcam.old b r ≡ 0 }
    ensures holds { OnOk result (TernarySo part.now.program.now part.now.table.now part.now.entries.now part.now.first
        (record { sram = blocks_of sram.new; values = values_of tcam.new; masks = masks_of tcam.new }) shape.now blocks.now part.now.stands.now) }
    ensures others { OnOk result ((b r : ℕ) → (Contains shape.now.records b → ⊥) → blocks_of sram.new b r ≡ blocks_of sram.old b r) }
    ensures other_values { OnOk result ((b r : ℕ) → (Contains blocks.now b → ⊥) → values_of tcam.new b r ≡ values_of tcam.old b r) }
    ensures other_masks { OnOk result ((b r : ℕ) → (Contains blocks.now b → ⊥) → masks_of tcam.new b r ≡ masks_of tcam.old b r) }
{
    for stand in part.stands {
        let placed = placed_entry(part, stand.entry as usize);
        write_tests(alloc, tcam, blocks, stand.cell, widths, &placed.entry.tests)?;
        write_head(alloc, sram, shape, stand.cell, &placed)?;
    }
    Ok(())
}

/// Writes entries into a ternary part.
pub fn write_ternary_part(
    alloc: Global,
    sram: &mut Rows,
    tcam: &mut TcamRows,
    part: &PartEntries,
    quanta: u8,
    keys: &Bytes,
    records: &Bytes,
) -> Result<(), PackFault>
    requires part { CanBeWritten part.now.program.now part.now.table.now part.now.entries.now part.now.first }
    requires kind { part.now.table.now.kind ≢ Kind.Keyless }
    requires shape { IsShape (ternary_part (bits_of_key part.now.program.now part.now.table.now) (bits_of_data part.now.program.now part.now.table.now) quanta records.now) }
    requires keys { AreKeyBlocks (bits_of_key part.now.program.now part.now.table.now) quanta keys.now }
    requires stands { StandApart (length part.now.entries.now) (2048 * quanta) part.now.stands.now }
    requires zeros { (b r : ℕ) → Contains records.now b → blocks_of sram.old b r ≡ 0 }
    requires zero_values { (b r : ℕ) → Contains keys.now b → values_of tcam.old b r ≡ 0 }
    requires zero_masks { (b r : ℕ) → Contains keys.now b → masks_of tcam.old b r ≡ 0 }
    ensures holds { OnOk result (TernarySo part.now.program.now part.now.table.now part.now.entries.now part.now.first
        (record { sram = blocks_of sram.new; values = values_of tcam.new; masks = masks_of tcam.new })
        (ternary_part (bits_of_key part.now.program.now part.now.table.now) (bits_of_data part.now.program.now part.now.table.now) quanta records.now) keys.now part.now.stands.now) }
    ensures others { OnOk result ((b r : ℕ) → (Contains records.now b → ⊥) → blocks_of sram.new b r ≡ blocks_of sram.old b r) }
    ensures other_values { OnOk result ((b r : ℕ) → (Contains keys.now b → ⊥) → values_of tcam.new b r ≡ values_of tcam.old b r) }
    ensures other_masks { OnOk result ((b r : ℕ) → (Contains keys.now b → ⊥) → masks_of tcam.new b r ≡ masks_of tcam.old b r) }
{
    let widths = widths_of(alloc, part.program, part.table.key.as_slice())?;
    let key = key_bits(part.program, part.table) as u16;
    let held = held_bits(part.program, part.table);
    let shape = ternary_shape(alloc, key, held, quanta, records)?;
    let keys = keys.as_slice();
    write_rows(alloc, sram, tcam, part, &shape, keys, &widths)?;
    Ok(())
}
