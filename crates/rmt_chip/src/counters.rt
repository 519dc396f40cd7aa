//! The counters of the entries in counted slots.

ghost use Rattle.std.specs.Prelude.{◌≡◌, ◌+◌, ◌≤◌, ◌++◌, ◌⊎◌, ◌∷◌, [], ℕ, List, All, Contains, length, map, if◌then◌else◌, IfOk, OnOk};
ghost use Rattle.std.specs.List.{flat_map};
ghost use Rattle.rmt_bits.specs.Counts.{counts};
ghost use Rattle.rmt_config.specs.ChipRun.{counted_numbers, unit_numbers};
ghost use Rattle.rmt_config.specs.RunInputs.{Writes, numbers_brought};
ghost use Rattle.rmt_bits.specs.declared.answer.Count.{Count};
ghost use Rattle.rmt_bits.specs.Counts.{Hit};
ghost use Rattle.rmt_chip.specs.Counting.{AreAmong};

use rmt_bits::counts::Counts;
use rmt_config::cell_write::CellWrite;
use rmt_config::config::{Config, Unit};
use std::alloc::{AllocError, Global};

/// Adds the numbers of a unit's entries, where it counts them.
fn push_unit(numbers: &mut Vec<u32>, unit: &Unit) -> Result<(), AllocError>
    ensures { OnOk result (numbers.new.items ≡ numbers.old.items ++ unit_numbers unit.now) }
{
    match unit {
        Unit::Slot(slot) => {
            if slot.counted {
                for cell in slot.numbers.as_slice() {
                    numbers.push(cell.number)?;
                }
                return Ok(());
            }
            Ok(())
        }
        Unit::Gate(_) => Ok(()),
    }
}

/// Adds the numbers of the entries of all units of a stage.
fn push_units(numbers: &mut Vec<u32>, units: &[Unit]) -> Result<(), AllocError>
    ensures { OnOk result (numbers.new.items ≡ numbers.old.items ++ flat_map unit_numbers units.now) }
{
    for unit in units {
        push_unit(numbers, unit)?;
    }
    Ok(())
}

/// The numbers of the entries in counted slots, stage by stage.
fn numbers_of(alloc: Global, config: &Config) -> Result<Vec<u32>, AllocError>
    ensures { IfOk result (λ numbers. numbers.items ≡ counted_numbers config.now) }
{
    let mut numbers = Vec::new(alloc);
    for stage in config.stages.as_slice() {
        push_units(&mut numbers, stage.units.as_slice())?;
    }
    Ok(numbers)
}

/// The counters before the first packet, which are all 0.
pub fn first_counters(alloc: Global, config: &Config) -> Result<Counts, AllocError>
    ensures { IfOk result (λ counters. counters.counts ≡ counts (counted_numbers config.now) []) }
{
    let numbers = numbers_of(alloc, config)?;
    Counts::of(alloc, &numbers)
}

/// Whether a changed cell brings its number into a counted slot.
fn brings(config: &Config, write: &CellWrite) -> bool
    ensures { numbers_brought config.now (Writes write.now) ≡ (if result then write.now.number ∷ [] else []) }
{
    if write.visible == 0 {
        return false;
    }
    let Some(stage) = config.stages.as_slice().get(usize::from(write.stage)) else {
        return false;
    };
    match stage.units.as_slice().get(usize::from(write.unit)) {
        Some(Unit::Slot(slot)) => slot.counted,
        _ => false,
    }
}

/// A counter for the number that a changed cell brings, where it has none yet; there must be room for it.
/// It takes no memory.
pub fn bring(counters: &mut Counts, config: &Config, write: &CellWrite)
    requires room { All (λ n. Contains (map (λ (count : Count). count.entry) counters.old.counts) n ⊎ (1 ≤ counters.old.room))
        (numbers_brought config.now (Writes write.now)) }
    ensures counts { (numbers : List ℕ) (hits : List Hit) → counters.old.counts ≡ counts numbers hits → AreAmong numbers hits →
        counters.new.counts ≡ counts (numbers ++ numbers_brought config.now (Writes write.now)) hits }
    ensures spare { counters.new.room + length counters.new.counts ≡ counters.old.room + length counters.old.counts }
    ensures falls { counters.old.room ≤ counters.new.room + 1 }
{
    if brings(config, write) {
        if counters.spare() > 0 {
            counters.add(write.number);
        }
    }
}
