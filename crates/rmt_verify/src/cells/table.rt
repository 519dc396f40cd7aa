//! The cells of the parts of a table, against its entries.

ghost use Rattle.std.specs.Prelude.{◌≡◌, ◌↔◌, All, Contains, IfOk, IsTrue, List, slice_index_or, sum};
ghost use Rattle.rmt_config.specs.PartStands.{PartStands};
ghost use Rattle.rmt_config.specs.PartsTold.{part_at, parts_at};
ghost use Rattle.rmt_config.specs.Rooms.{PartAt, parts_of as parts_of_node};
ghost use Rattle.rmt_refine.specs.declared.map.CellOf.{CellOf as CellOfMap};
ghost use Rattle.rmt_verify.specs.CellsHeld.{CellHeld, TableHeld, told_at};
ghost use Rattle.rmt_verify.specs.TableKnown.{CellKnown, PartKnown, TableKnown};
ghost use Rattle.rmt_verify.specs.Told.{AreTold};

use crate::cells::content::{ExactMemory, TernaryMemory, WantedEntry, exact_holds, ternary_holds};
use crate::cells::entries::{entry_of, keep_order};
use crate::cells::told::is_told;
use crate::fault::VerifyFault;
use rmt_ast::entry::Entry;
use rmt_ast::program::{Program, Table};
use rmt_bits::answer::Bytes;
use rmt_config::config::{CellNumber, Config, Memory, Stage};
use rmt_config::form::names::part_list::{Part, listed_numbers, parts_of};
use rmt_refine::map::CellOf;
use std::alloc::Global;
use std::collections::BTreeMap;

/// A table whose cells are looked at.
#[derive(Drop)]
pub struct TableAt<'a> {
    pub program: &'a Program,
    pub config: &'a Config,
    /// What the map tells of each entry.
    pub told: &'a BTreeMap<u32, CellOf>,
    /// The number of its node.
    pub node: u32,
    pub table: &'a Table,
    /// The widths of its key's fields.
    pub widths: &'a Bytes,
    /// Its entries.
    pub entries: &'a [Entry],
}

/// The stage in which a part stands.
fn stage_of<'a>(config: &'a Config, part: &Part) -> &'a Stage
    requires { PartStands config.now (part_at part.now) }
    ensures { result.now ≡ slice_index_or config.now.stages part.now.at result.now }
{
    &config.stages.as_slice()[part.at]
}

/// Whether a listed cell of a part holds the entry of its number, where the map tells so.
fn holds_entry(
    alloc: Global,
    at: &TableAt,
    part: &Part,
    own: &CellNumber,
    entry: &Entry,
) -> Result<bool, VerifyFault>
    requires known { CellKnown at.now.program.now at.now.config.now at.now.node at.now.table.now at.now.widths.now at.now.entries.now (part_at part.now) own.now }
    requires entry { Contains at.now.entries.now entry.now }
    requires number { entry.now.number ≡ own.now.number }
    ensures { IfOk result (λ holds. (cells : List CellOfMap) → Contains cells (told_at (part_at part.now) own.now)
        → (IsTrue holds ↔ CellHeld at.now.program.now at.now.config.now cells at.now.table.now at.now.entries.now (part_at part.now) own.now)) }
{
    let action = at.table.actions.as_slice()[entry.action as usize];
    let params = &at.program.actions.as_slice()[action as usize].params;
    let code = part.first + entry.action as u128;
    let stage = stage_of(at.config, part);
    let wanted = WantedEntry {
        cell: own.cell,
        entry,
        widths: at.widths,
        params,
        code,
    };
    match &part.slot.memory {
        Memory::Without => Ok(false),
        Memory::Exact {
            width,
            per,
            quanta,
            first_way,
            keys,
            records,
            ..
        } => exact_holds(
            alloc,
            at.config.seed,
            stage.srows.as_slice(),
            part.slot,
            &ExactMemory {
                width: *width,
                per: *per,
                quanta: *quanta,
                first_way: *first_way,
                keys: keys.as_slice(),
                records: records.as_slice(),
            },
            &wanted,
        ),
        Memory::Ternary {
            quanta,
            keys,
            records,
            ..
        } => ternary_holds(
            alloc,
            stage,
            part.slot,
            &TernaryMemory {
                quanta: *quanta,
                keys: keys.as_slice(),
                records: records.as_slice(),
            },
            &wanted,
        ),
    }
}

/// Whether a listed cell of a part holds the entry of its number, and the map tells so.
fn cell_holds(
    alloc: Global,
    at: &TableAt,
    part: &Part,
    own: &CellNumber,
) -> Result<bool, VerifyFault>
    requires known { CellKnown at.now.program.now at.now.config.now at.now.node at.now.table.now at.now.widths.now at.now.entries.now (part_at part.now) own.now }
    ensures { IfOk result (λ holds. (cells : List CellOfMap) → AreTold cells at.now.told.now
        → (IsTrue holds ↔ CellHeld at.now.program.now at.now.config.now cells at.now.table.now at.now.entries.now (part_at part.now) own.now)) }
{
    let cell = CellOf {
        entry: own.number,
        stage: part.at as u32,
        cell: own.cell,
    };
    if !is_told(at.told, cell) {
        return Ok(false);
    }
    match entry_of(at.entries, own.number) {
        Some(entry) => holds_entry(alloc, at, part, own, entry),
        None => Ok(false),
    }
}

/// Whether each listed cell of a part holds the entry of its number, and the map tells so.
fn part_holds(alloc: Global, at: &TableAt, part: &Part) -> Result<bool, VerifyFault>
    requires known { TableKnown at.now.program.now at.now.config.now at.now.node at.now.table.now at.now.widths.now at.now.entries.now }
    requires part { PartKnown at.now.config.now at.now.table.now (sum at.now.widths.now) (part_at part.now) }
    ensures { IfOk result (λ holds. (cells : List CellOfMap) → AreTold cells at.now.told.now
        → (IsTrue holds ↔ All (CellHeld at.now.program.now at.now.config.now cells at.now.table.now at.now.entries.now (part_at part.now)) part.now.slot.now.numbers)) }
{
    for own in part.slot.numbers.as_slice() {
        if !cell_holds(alloc, at, part, own)? {
            return Ok(false);
        }
    }
    Ok(true)
}

/// Whether each listed cell of some parts holds the entry of its number, and the map tells so.
fn parts_hold(alloc: Global, at: &TableAt, parts: &[Part]) -> Result<bool, VerifyFault>
    requires known { TableKnown at.now.program.now at.now.config.now at.now.node at.now.table.now at.now.widths.now at.now.entries.now }
    requires parts { All (PartKnown at.now.config.now at.now.table.now (sum at.now.widths.now)) (parts_at parts.now) }
    ensures { IfOk result (λ hold. (cells : List CellOfMap) → AreTold cells at.now.told.now
        → (IsTrue hold ↔ All (λ (part : PartAt). All (CellHeld at.now.program.now at.now.config.now cells at.now.table.now at.now.entries.now part) part.slot.numbers) (parts_at parts.now))) }
{
    for part in parts {
        if !part_holds(alloc, at, part)? {
            return Ok(false);
        }
    }
    Ok(true)
}

/// Whether the cells of some parts, which are all of the table's, hold its entries, as many as there are and in the order
/// of their rows.
fn all_hold(alloc: Global, at: &TableAt, parts: &[Part]) -> Result<bool, VerifyFault>
    requires known { TableKnown at.now.program.now at.now.config.now at.now.node at.now.table.now at.now.widths.now at.now.entries.now }
    requires all { parts_at parts.now ≡ parts_of_node at.now.config.now at.now.node }
    requires parts { All (PartKnown at.now.config.now at.now.table.now (sum at.now.widths.now)) (parts_at parts.now) }
    requires told { (cells : List CellOfMap) × AreTold cells at.now.told.now }
    ensures { IfOk result (λ hold. (cells : List CellOfMap) → AreTold cells at.now.told.now
        → (IsTrue hold ↔ TableHeld at.now.program.now at.now.config.now cells at.now.node at.now.table.now at.now.entries.now)) }
{
    if !parts_hold(alloc, at, parts)? {
        return Ok(false);
    }
    let numbers = listed_numbers(alloc, parts)?;
    let numbers = numbers.as_slice();
    if numbers.len() != at.entries.len() {
        return Ok(false);
    }
    Ok(keep_order(at.table.kind, at.entries, numbers))
}

/// Whether the cells of the parts of a table hold its entries, as many as there are and in the order of their rows.
pub fn table_holds(alloc: Global, at: &TableAt) -> Result<bool, VerifyFault>
    requires known { TableKnown at.now.program.now at.now.config.now at.now.node at.now.table.now at.now.widths.now at.now.entries.now }
    requires parts { All (PartKnown at.now.config.now at.now.table.now (sum at.now.widths.now)) (parts_of_node at.now.config.now at.now.node) }
    requires told { (cells : List CellOfMap) × AreTold cells at.now.told.now }
    ensures { IfOk result (λ holds. (cells : List CellOfMap) → AreTold cells at.now.told.now
        → (IsTrue holds ↔ TableHeld at.now.program.now at.now.config.now cells at.now.node at.now.table.now at.now.entries.now)) }
{
    let parts = parts_of(alloc, at.config, at.node)?;
    all_hold(alloc, at, parts.as_slice())
}
