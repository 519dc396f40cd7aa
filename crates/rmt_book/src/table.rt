//! The cells of a table.

ghost use Rattle.std.specs.Prelude.{◌≡◌, ℕ, IfOk, IsTrue, sum, unwrap_or};
ghost use Rattle.std.specs.BTreeMap.{get};
ghost use Rattle.std.specs.Ordering.{nat_cmp};
ghost use Rattle.rmt_book.specs.Formed.{MemoryIsFormed, PartStands, WaysLow, bits_of_lanes, has_key_bits, has_parts, is_of_kind, items_are_formed, part_at, rank_told, table_is_formed};
ghost use Rattle.rmt_book.specs.Listed.{AreListed, IsListed};

use crate::kept::Kept;
use crate::parts::cell_of;
use crate::ranks::{rank_of, ranks_told};
use crate::shape::{PartShape, shape_of};
use rmt_ast::names::TableName;
use rmt_config::config::Config;
use rmt_config::form::names::part_list::{Part, parts_of};
use std::alloc::{AllocError, Global};
use std::collections::BTreeMap;

/// A part of a table with its occupied cells.
#[derive(Drop)]
pub struct PartCells {
    /// The number of its stage.
    pub stage: usize,
    /// The place of its slot in the stage.
    pub place: usize,
    /// The number of the slot's first instruction in the stage.
    pub first: u128,
    /// What is kept of the slot's memory.
    pub shape: PartShape,
    /// The occupied cells, found by their numbers in the part.
    pub cells: BTreeMap<u32, Kept>,
}

/// A table with its occupied cells.
#[derive(Drop)]
pub struct TableCells {
    /// The table, with the ranks that it began with.
    pub name: TableName,
    /// Its parts, in the order of their stages.
    pub parts: Vec<PartCells>,
}

/// The cells that a part lists, with the ranks of their entries. The only fault is want of memory.
fn part_cells(
    alloc: Global,
    config: &Config,
    table: &TableName,
    told: &BTreeMap<u32, u32>,
    part: &Part,
) -> Result<PartCells, AllocError>
    requires formed { IsTrue (table_is_formed table.now) }
    requires told { (n : ℕ) → unwrap_or (get nat_cmp told.now n) 0 ≡ rank_told table.now.ranks n }
    requires stands { PartStands config.now (part_at part.now) }
    requires memory { MemoryIsFormed config.now }
    requires kind { IsTrue (is_of_kind table.now.kind part.now.slot.now.memory) }
    requires bits { sum table.now.keys ≡ bits_of_lanes part.now.slot.now.keys }
    requires ways { WaysLow part.now.slot.now.memory }
    ensures { IfOk result (IsListed config.now table.now (part_at part.now)) }
{
    let mut cells = BTreeMap::new(alloc);
    for number in part.slot.numbers.as_slice() {
        let mut kept = cell_of(alloc, config, part, *number)?;
        kept.rank = rank_of(table, told, &kept);
        cells.insert(number.cell, kept)?;
    }
    Ok(PartCells {
        stage: part.at,
        place: part.place,
        first: part.first,
        shape: shape_of(part.slot),
        cells,
    })
}

/// The cells that the parts of a table list, with the ranks of their entries. The only fault is want of memory.
pub fn cells_of(
    alloc: Global,
    config: &Config,
    table: &TableName,
) -> Result<Vec<PartCells>, AllocError>
    requires formed { IsTrue (table_is_formed table.now) }
    requires items { IsTrue (items_are_formed config.now) }
    requires memory { MemoryIsFormed config.now }
    requires has { IsTrue (has_parts config.now table.now) }
    requires bits { IsTrue (has_key_bits config.now table.now) }
    ensures { IfOk result (λ parts. AreListed config.now table.now parts.items) }
{
    let told = ranks_told(alloc, table.ranks.as_slice())?;
    let found = parts_of(alloc, config, table.node)?;
    let mut parts = Vec::with_capacity(alloc, found.len())?;
    for part in found.as_slice() {
        parts.push(part_cells(alloc, config, table, &told, part)?)?;
    }
    Ok(parts)
}
