//! That no entry has two numbers.

ghost use Rattle.std.specs.Prelude.{◌≡◌, ◌++◌, map, IfOk, OnOk};
ghost use Rattle.std.specs.List.{flat_map};
ghost use Rattle.rmt_config.specs.declared.config.CellNumber.{CellNumber};
ghost use Rattle.rmt_config.specs.CellForm.{numbers_of_unit, numbers_of_stage, entry_numbers, entries_are_numbered};

use crate::config::{CellNumber, Config, Stage, Unit};
use crate::form::search::items_rise;
use std::alloc::{AllocError, Global};

/// Adds the numbers of the entries of listed cells.
pub fn put_numbers(numbers: &mut Vec<u32>, cells: &[CellNumber]) -> Result<(), AllocError>
    ensures { OnOk result (numbers.new.items ≡ numbers.old.items ++ map (λ (n : CellNumber). n.number) cells.now) }
{
    for cell in cells {
        numbers.push(cell.number)?;
    }
    Ok(())
}

fn put_unit_numbers(numbers: &mut Vec<u32>, unit: &Unit) -> Result<(), AllocError>
    ensures { OnOk result (numbers.new.items ≡ numbers.old.items ++ numbers_of_unit unit.now) }
{
    match unit {
        Unit::Gate(_) => Ok(()),
        Unit::Slot(slot) => put_numbers(numbers, slot.numbers.as_slice()),
    }
}

fn put_units_numbers(numbers: &mut Vec<u32>, units: &[Unit]) -> Result<(), AllocError>
    ensures { OnOk result (numbers.new.items ≡ numbers.old.items ++ flat_map numbers_of_unit units.now) }
{
    for unit in units {
        put_unit_numbers(numbers, unit)?;
    }
    Ok(())
}

fn put_stages_numbers(numbers: &mut Vec<u32>, stages: &[Stage]) -> Result<(), AllocError>
    ensures { OnOk result (numbers.new.items ≡ numbers.old.items ++ flat_map numbers_of_stage stages.now) }
{
    for stage in stages {
        put_units_numbers(numbers, stage.units.as_slice())?;
    }
    Ok(())
}

fn number_list(alloc: Global, config: &Config) -> Result<Vec<u32>, AllocError>
    ensures { IfOk result (λ numbers. numbers.items ≡ entry_numbers config.now) }
{
    let mut numbers = Vec::new(alloc);
    put_stages_numbers(&mut numbers, config.stages.as_slice())?;
    Ok(numbers)
}

/// Whether no entry number stands twice. The time is that of sorting the numbers, and the memory that of a list of
/// them.
pub fn numbers_are_distinct(alloc: Global, config: &Config) -> Result<bool, AllocError>
    ensures { IfOk result (λ distinct. distinct ≡ entries_are_numbered config.now) }
{
    let mut numbers = number_list(alloc, config)?;
    numbers.sort_unstable();
    Ok(items_rise(0, numbers.as_slice()))
}
