//! The parts of a table, and the numbers of the entries in them.

ghost use Rattle.std.specs.Prelude.{◌≡◌, ◌++◌, ◌<◌, length, IfOk, OnOk};
ghost use Rattle.rmt_config.specs.Rooms.{parts_among, parts_of as parts_of_node};
ghost use Rattle.rmt_config.specs.PartsTold.{parts_at, listed_numbers as listed_numbers_of};

use crate::config::{Config, SlotUnit, Unit};
use crate::form::numbers::put_numbers;
use rmt_ast::names::TableName;
use std::alloc::{AllocError, Global};

/// A part of a table: the number of its stage, the place of its slot there, and the number of the slot's first
/// instruction.
#[derive(Clone, Copy)]
pub struct Part<'a> {
    pub at: usize,
    pub place: usize,
    pub first: u128,
    pub slot: &'a SlotUnit,
}

/// A table of a configuration, its parts in the order of their stages, and the numbers of the entries in them, by part
/// and cell.
#[derive(Clone, Copy)]
pub struct TableParts<'a> {
    pub config: &'a Config,
    pub table: &'a TableName,
    pub parts: &'a [Part<'a>],
    pub numbers: &'a [u32],
}

/// Adds the parts of a node's table among the units of a stage.
fn put_parts<'a>(
    parts: &mut Vec<Part<'a>>,
    node: u32,
    at: usize,
    units: &'a [Unit],
) -> Result<(), AllocError>
    ensures { OnOk result (parts_at parts.new.items ≡ parts_at parts.old.items ++ parts_among node at 0 0 units.now) }
{
    let mut first: u128 = 0;
    for (place, unit) in units.iter().enumerate() {
        match unit {
            Unit::Gate(_) => {}
            Unit::Slot(slot) => {
                if u32::from(slot.node) == node {
                    parts.push(Part {
                        at,
                        place,
                        first,
                        slot,
                    })?;
                }
                first += u128::from(slot.actions) + 1;
            }
        }
    }
    Ok(())
}

/// The parts of the table of a node, in the order of their stages.
pub fn parts_of<'a>(
    alloc: Global,
    config: &'a Config,
    node: u32,
) -> Result<Vec<Part<'a>>, AllocError>
    ensures { IfOk result (λ parts. parts_at parts.items ≡ parts_of_node config.now node) }
{
    let mut parts = Vec::new(alloc);
    for (at, stage) in config.stages.as_slice().iter().enumerate() {
        put_parts(&mut parts, node, at, stage.units.as_slice())?;
    }
    Ok(parts)
}

/// The numbers of the entries of parts, by part and cell.
pub fn listed_numbers(alloc: Global, parts: &[Part]) -> Result<Vec<u32>, AllocError>
    ensures { IfOk result (λ numbers. numbers.items ≡ listed_numbers_of (parts_at parts.now)) }
{
    let mut numbers = Vec::new(alloc);
    for part in parts {
        put_numbers(&mut numbers, part.slot.numbers.as_slice())?;
    }
    Ok(numbers)
}
