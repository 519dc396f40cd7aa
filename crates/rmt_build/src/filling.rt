//! What the memories of a stage hold.

ghost use Rattle.std.specs.Prelude.{◌≡◌, ◌+◌, ◌<◌, ◌≤◌, ℕ, All, AllPairs, Contains, IfOk, OnOk, length, sum_by};
ghost use Rattle.rmt_config.specs.Cells.{cells_in as cells_in_memory};
ghost use Rattle.rmt_config.specs.Instructions.{unit_instructions};
ghost use Rattle.rmt_config.specs.StageForm.{memory_sram_blocks, memory_tcam_blocks};
ghost use Rattle.rmt_pack.specs.Placements.{data_bits as bits_of_data, key_bits as bits_of_key};
ghost use Rattle.rmt_pack.specs.Rows.{blocks_of};
ghost use Rattle.rmt_filling.specs.Holding.{Held};
ghost use Rattle.rmt_filling.specs.Listing.{ListsSram, ListsTcam, masks_of, values_of};
ghost use Rattle.rmt_filling.specs.Rooms.{CanBeWritten, HasBlocks, StandApart};
ghost use Rattle.rmt_build.specs.HeldParts.{PartHolds};
ghost use Rattle.rmt_build.specs.Plans.{IsPlanned};
ghost use Rattle.rmt_build.specs.Written.{SlotFits, SlotWritten, UnitFits, UnitsApart, UnitsWritten};

use crate::planned::PlannedTable;
use crate::tables::applied;
use crate::units::stands_in;
use rmt_bits::sequence::Sequence;
use rmt_config::config::{Memory, SlotUnit, SramRow, TcamRow, Unit};
use rmt_filling::entries::PartEntries;
use rmt_filling::exact::write_exact_part;
use rmt_filling::listing::{sram_rows, tcam_rows};
use rmt_filling::plan::PlannedStage;
use rmt_filling::tcam::TcamRows;
use rmt_filling::ternary::write_ternary_part;
use rmt_pack::fault::PackFault;
use rmt_pack::rows::Rows;
use std::alloc::Global;

/// The rows of a stage's memories that aren't 0.
#[derive(Drop)]
pub struct StageRows {
    /// Those of its SRAM blocks.
    pub srows: Sequence<SramRow>,
    /// Those of its TCAM blocks.
    pub trows: Sequence<TcamRow>,
}

/// Writes entries into a part with this memory.
fn write_part(
    alloc: Global,
    sram: &mut Rows,
    tcam: &mut TcamRows,
    part: &PartEntries,
    memory: &Memory,
) -> Result<(), PackFault>
    requires part { CanBeWritten part.now.program.now part.now.table.now part.now.entries.now part.now.first }
    requires blocks { HasBlocks part.now.program.now part.now.table.now memory.now }
    requires stands { StandApart (length part.now.entries.now) (cells_in_memory memory.now) part.now.stands.now }
    requires zeros { (b r : ℕ) → Contains (memory_sram_blocks memory.now) b → blocks_of sram.old b r ≡ 0 }
    requires zero_values { (b r : ℕ) → Contains (memory_tcam_blocks memory.now) b → values_of tcam.old b r ≡ 0 }
    requires zero_masks { (b r : ℕ) → Contains (memory_tcam_blocks memory.now) b → masks_of tcam.old b r ≡ 0 }
    ensures holds { OnOk result (PartHolds part.now.program.now part.now.table.now part.now.entries.now part.now.stands.now part.now.first (bits_of_key part.now.program.now part.now.table.now) (bits_of_data part.now.program.now part.now.table.now)
        (record { sram = blocks_of sram.new; values = values_of tcam.new; masks = masks_of tcam.new }) memory.now) }
    ensures others { OnOk result ((b r : ℕ) → (Contains (memory_sram_blocks memory.now) b → ⊥) → blocks_of sram.new b r ≡ blocks_of sram.old b r) }
    ensures other_values { OnOk result ((b r : ℕ) → (Contains (memory_tcam_blocks memory.now) b → ⊥) → values_of tcam.new b r ≡ values_of tcam.old b r) }
    ensures other_masks { OnOk result ((b r : ℕ) → (Contains (memory_tcam_blocks memory.now) b → ⊥) → masks_of tcam.new b r ≡ masks_of tcam.old b r) }
{
    match memory {
        Memory::Without => Ok(()),
        Memory::Exact {
            width,
            per,
            quanta,
            keys,
            records,
            ..
        } => {
            write_exact_part(alloc, sram, part, *width, *per, *quanta, keys, records)?;
            Ok(())
        }
        Memory::Ternary {
            quanta,
            keys,
            records,
            ..
        } => {
            write_ternary_part(alloc, sram, tcam, part, *quanta, keys, records)?;
            Ok(())
        }
    }
}

/// Writes the entries of a slot. Its first instruction has this number in the stage.
fn write_slot(
    alloc: Global,
    sram: &mut Rows,
    tcam: &mut TcamRows,
    planned: &PlannedStage,
    slot: &SlotUnit,
    first: u8,
) -> Result<(), PackFault>
    requires planned { IsPlanned planned.now.program.now planned.now.entries.now planned.now.plan.now planned.now.stage }
    requires slot { SlotFits planned.now.program.now planned.now.entries.now planned.now.plan.now planned.now.stage slot.now }
    requires few { first + slot.now.actions ≤ 32 }
    requires zeros { (b r : ℕ) → Contains (memory_sram_blocks slot.now.memory) b → blocks_of sram.old b r ≡ 0 }
    requires zero_values { (b r : ℕ) → Contains (memory_tcam_blocks slot.now.memory) b → values_of tcam.old b r ≡ 0 }
    requires zero_masks { (b r : ℕ) → Contains (memory_tcam_blocks slot.now.memory) b → masks_of tcam.old b r ≡ 0 }
    ensures written { OnOk result (SlotWritten planned.now.program.now planned.now.entries.now planned.now.plan.now planned.now.stage first
        (record { sram = blocks_of sram.new; values = values_of tcam.new; masks = masks_of tcam.new }) slot.now) }
    ensures others { OnOk result ((b r : ℕ) → (Contains (memory_sram_blocks slot.now.memory) b → ⊥) → blocks_of sram.new b r ≡ blocks_of sram.old b r) }
    ensures other_values { OnOk result ((b r : ℕ) → (Contains (memory_tcam_blocks slot.now.memory) b → ⊥) → values_of tcam.new b r ≡ values_of tcam.old b r) }
    ensures other_masks { OnOk result ((b r : ℕ) → (Contains (memory_tcam_blocks slot.now.memory) b → ⊥) → masks_of tcam.new b r ≡ masks_of tcam.old b r) }
{
    let node = slot.node as usize;
    let program = planned.program;
    if let Some(table) = applied(program, &program.nodes.as_slice()[node]) {
        let own = planned.entries.as_slice()[node].as_slice();
        let placed = PlannedTable {
            planned,
            table,
            node: slot.node as u32,
        };
        let stands = stands_in(alloc, &placed)?;
        let stands = stands.as_slice();
        let part = PartEntries {
            program,
            table,
            entries: own,
            stands,
            first,
        };
        write_part(alloc, sram, tcam, &part, &slot.memory)?;
        return Ok(());
    }
    Ok(())
}

/// Writes the entries of the units of a stage into its memories, which are all 0.
///
/// # Errors
///
/// For want of memory alone.
fn write_units(
    alloc: Global,
    sram: &mut Rows,
    tcam: &mut TcamRows,
    planned: &PlannedStage,
    units: &[Unit],
) -> Result<(), PackFault>
    requires planned { IsPlanned planned.now.program.now planned.now.entries.now planned.now.plan.now planned.now.stage }
    requires units { All (UnitFits planned.now.program.now planned.now.entries.now planned.now.plan.now planned.now.stage) units.now }
    requires apart { AllPairs UnitsApart units.now }
    requires few { sum_by unit_instructions units.now ≤ 32 }
    requires zeros { (b r : ℕ) → blocks_of sram.old b r ≡ 0 }
    requires zero_values { (b r : ℕ) → values_of tcam.old b r ≡ 0 }
    requires zero_masks { (b r : ℕ) → masks_of tcam.old b r ≡ 0 }
    ensures { OnOk result (UnitsWritten planned.now.program.now planned.now.entries.now planned.now.plan.now planned.now.stage units.now (length units.now)
        (record { sram = blocks_of sram.new; values = values_of tcam.new; masks = masks_of tcam.new })) }
{
    let mut first = 0;
    for unit in units {
        match unit {
            Unit::Gate(_) => {}
            Unit::Slot(slot) => {
                write_slot(alloc, sram, tcam, planned, slot, first)?;
                first += slot.actions + 1;
            }
        }
    }
    Ok(())
}

/// The rows of a stage with these units, in which their entries are written.
///
/// # Errors
///
/// For want of memory alone.
pub fn rows_of(
    alloc: Global,
    planned: &PlannedStage,
    units: &[Unit],
) -> Result<StageRows, PackFault>
    requires planned { IsPlanned planned.now.program.now planned.now.entries.now planned.now.plan.now planned.now.stage }
    requires units { All (UnitFits planned.now.program.now planned.now.entries.now planned.now.plan.now planned.now.stage) units.now }
    requires apart { AllPairs UnitsApart units.now }
    requires few { sum_by unit_instructions units.now ≤ 32 }
    ensures { IfOk result (λ rows. (h : Held) × UnitsWritten planned.now.program.now planned.now.entries.now planned.now.plan.now planned.now.stage units.now (length units.now) h
        × ListsSram h.sram rows.srows × ListsTcam h.values h.masks rows.trows) }
{
    let mut sram = Rows::new(alloc)?;
    let mut tcam = TcamRows::new(alloc)?;
    write_units(alloc, &mut sram, &mut tcam, planned, units)?;
    let srows = sram_rows(alloc, &sram)?;
    let trows = tcam_rows(alloc, &tcam)?;
    Ok(StageRows { srows, trows })
}
