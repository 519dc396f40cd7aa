//! What the units of a stage take together, and the most that one of them takes.

ghost use Rattle.std.specs.Prelude.{◌≡◌, length};
ghost use Rattle.std.specs.List.{sum_by};
ghost use Rattle.rmt_config.specs.Resources.{memory_sram, memory_width, unit_width, greatest_by};
ghost use Rattle.rmt_config.specs.Limits.{told};
ghost use Rattle.rmt_config.specs.LimitSteps.{taken_by};
ghost use Rattle.rmt_config.specs.declared.config.Unit.TheVariants.{Slot};
ghost use Rattle.rmt_config.specs.StageForm.{memory_tcam_blocks};

use crate::config::{Memory, SlotUnit, Unit};

/// What units take of a stage.
#[derive(Clone, Copy, PartialEq, Eq)]
pub enum Resource {
    /// SRAM blocks, as often as they are listed.
    Sram,
    /// TCAM blocks, as often as they are listed.
    Tcam,
    Slots,
    /// One for each action of a slot, and its default's.
    Instructions,
    /// The data bits of an entry of a slot.
    DataBits,
    Gates,
}

/// A length as it is told: 4,294,967,295 where it is greater.
pub fn told_length(length: usize) -> u32
    ensures { result ≡ told length }
{
    if length < 4294967295 {
        length as u32
    } else {
        4294967295
    }
}

fn count_sram(memory: &Memory) -> u32
    ensures { result ≡ told (length (memory_sram memory.now)) }
{
    match memory {
        Memory::Without => 0,
        Memory::Exact {
            keys,
            records,
            counters,
            ..
        } => {
            let data = told_length(records.len()).saturating_add(told_length(counters.len()));
            told_length(keys.len()).saturating_add(data)
        }
        Memory::Ternary {
            records,
            counters,
            ..
        } => told_length(records.len()).saturating_add(told_length(counters.len())),
    }
}

fn count_tcam(memory: &Memory) -> u32
    ensures { result ≡ told (length (memory_tcam_blocks memory.now)) }
{
    match memory {
        Memory::Ternary { keys, .. } => told_length(keys.len()),
        _ => 0,
    }
}

fn width_of(memory: &Memory) -> u8
    ensures { result ≡ memory_width memory.now }
{
    match memory {
        Memory::Exact { width, .. } => *width,
        _ => 0,
    }
}

fn taken_by_slot(resource: Resource, slot: &SlotUnit) -> u32
    ensures { result ≡ told (taken_by resource (Slot slot.now)) }
{
    match resource {
        Resource::Sram => count_sram(&slot.memory),
        Resource::Tcam => count_tcam(&slot.memory),
        Resource::Slots => 1,
        Resource::Instructions => slot.actions as u32 + 1,
        Resource::DataBits => slot.held as u32,
        Resource::Gates => 0,
    }
}

fn taken(resource: Resource, unit: &Unit) -> u32
    ensures { result ≡ told (taken_by resource unit.now) }
{
    match unit {
        Unit::Gate(_) => match resource {
            Resource::Gates => 1,
            _ => 0,
        },
        Unit::Slot(slot) => taken_by_slot(resource, slot),
    }
}

/// How much the units of a stage take together.
pub fn total(resource: Resource, units: &[Unit]) -> u32
    ensures { result ≡ told (sum_by (taken_by resource) units.now) }
{
    let mut sum: u32 = 0;
    for unit in units {
        sum = sum.saturating_add(taken(resource, unit));
    }
    sum
}

fn width(unit: &Unit) -> u8
    ensures { result ≡ unit_width unit.now }
{
    match unit {
        Unit::Gate(_) => 0,
        Unit::Slot(slot) => width_of(&slot.memory),
    }
}

/// The greatest number of blocks side by side.
pub fn greatest_width(units: &[Unit]) -> u8
    ensures { result ≡ greatest_by unit_width units.now }
{
    let mut most: u8 = 0;
    for unit in units {
        most = most.max(width(unit));
    }
    most
}
