//! The memories of all stages, with room for all cells.

ghost use Rattle.std.specs.Prelude.{◌≡◌, IfOk, ℕ, Some, slice_get};
ghost use Rattle.rmt_config.specs.declared.config.Config.{Config};
ghost use Rattle.rmt_config.specs.declared.config.SlotUnit.{SlotUnit};
ghost use Rattle.rmt_config.specs.declared.config.Unit.TheVariants.{Slot};
ghost use Rattle.rmt_config.specs.RunCells.{RunCells, own_cells, with_write};
ghost use Rattle.rmt_memory.specs.Memories.{SlotFormed};
ghost use Rattle.rmt_memory.specs.Memory.{MemoryFits, MemoriesFit, UnitHeld, StageHeld};
ghost use Rattle.rmt_memory.specs.StageMemories.{SlotsFormed, AllSlotsFormed, MemoriesOf, MemoriesHold};
ghost use Rattle.rmt_memory.specs.Writable.{IsTaken};

use crate::memory::SlotMemory;
use rmt_config::cell_write::CellWrite;
use rmt_config::config::{Stage, Unit};
use std::alloc::{AllocError, Global};

/// The memory of a unit; a gate has one without cells.
fn lay_unit(alloc: Global, stage: &Stage, unit: &Unit) -> Result<SlotMemory, AllocError>
    requires { (s : SlotUnit) → unit.now ≡ Slot s → SlotFormed stage.now s }
    ensures fits { IfOk result (λ memory. MemoryFits unit.now memory) }
    ensures held { IfOk result (λ memory. (c : Config) (k place : ℕ) → slice_get c.stages k ≡ Some stage.now → slice_get stage.now.units place ≡ Some unit.now →
        UnitHeld (own_cells c) k place unit.now memory) }
{
    match unit {
        Unit::Gate(_) => Ok(SlotMemory::empty(alloc)),
        Unit::Slot(slot) => SlotMemory::lay(alloc, stage, slot),
    }
}

/// The memory of each unit of a stage.
fn lay_stage(alloc: Global, stage: &Stage) -> Result<Vec<SlotMemory>, AllocError>
    requires { SlotsFormed stage.now }
    ensures fit { IfOk result (λ memories. MemoriesFit stage.now memories.items) }
    ensures held { IfOk result (λ memories. (c : Config) (k : ℕ) → slice_get c.stages k ≡ Some stage.now → StageHeld (own_cells c) k stage.now memories.items) }
{
    let units = stage.units.as_slice();
    let mut memories = Vec::with_capacity(alloc, units.len())?;
    for unit in units {
        memories.push(lay_unit(alloc, stage, unit)?)?;
    }
    Ok(memories)
}

/// The memory of each unit of each stage, whose slots keep the rules of form.
pub fn lay_all(alloc: Global, stages: &[Stage]) -> Result<Vec<Vec<SlotMemory>>, AllocError>
    requires { AllSlotsFormed stages.now }
    ensures fit { IfOk result (λ memories. MemoriesOf stages.now memories.items) }
    ensures hold { IfOk result (λ memories. (c : Config) → c.stages ≡ stages.now → MemoriesHold c (own_cells c) memories.items) }
{
    let mut memories = Vec::with_capacity(alloc, stages.len())?;
    for stage in stages {
        memories.push(lay_stage(alloc, stage)?)?;
    }
    Ok(memories)
}

/// Puts a changed cell into the memory of its slot. It takes no memory.
pub fn write_cell(stages: &[Stage], memories: &mut [Vec<SlotMemory>], write: &CellWrite)
    requires fit { MemoriesOf stages.now memories.old }
    requires taken { IsTaken stages.now write.now }
    ensures fit { MemoriesOf stages.now memories.new }
    ensures hold { (c : Config) (cells : RunCells) → c.stages ≡ stages.now → MemoriesHold c cells memories.old → MemoriesHold c (with_write c cells write.now) memories.new }
{
    let stage = write.stage as usize;
    let unit = write.unit as usize;
    if let Unit::Slot(slot) = &stages[stage].units.as_slice()[unit] {
        memories[stage][unit].write(slot, write);
    }
}
