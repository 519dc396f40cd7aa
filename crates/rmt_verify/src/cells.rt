//! Fourth part: the cells hold the entries.

ghost use Rattle.std.specs.Prelude.{◌≡◌, ◌<◌, ◌↔◌, ℕ, All, IfOk, IsOkUnless, IsTrue, List, Some, length, map, option_copied};
ghost use Rattle.rmt_ast.specs.State.{width_of};
ghost use Rattle.rmt_refine.specs.Units.{table_at as table_at_of};
ghost use Rattle.rmt_refine.specs.declared.map.CellOf.{CellOf as CellOfMap};
ghost use Rattle.rmt_verify.specs.CellsHeld.{TablesHeld};
ghost use Rattle.rmt_verify.specs.Given.{CellsCarried, IsGiven, KeepsApart, OutOfMemory, UnitsCarried, own_view};
ghost use Rattle.rmt_verify.specs.TableKnown.{NodeKnown};
ghost use Rattle.rmt_verify.specs.Told.{AreTold};

mod content;
mod entries;
mod fields;
mod sram;
mod table;
mod tcam;
mod told;

use crate::checked::Checked;
use crate::fault::VerifyFault;
use entries::are_as_many;
use rmt_ast::program::{Program, Table, What};
use rmt_bits::answer::Bytes;
use rmt_bits::sequence::Sequence;
use rmt_refine::map::CellOf;
use std::alloc::{AllocError, Global};
use std::collections::BTreeMap;
use table::{TableAt, table_holds};
use told::told_of;

/// The table that a node applies, by the node's number.
pub fn table_at(program: &Program, node: usize) -> Option<&Table>
    ensures { option_copied result ≡ table_at_of program.now node }
{
    match program.nodes.get(node) {
        Some(node) => match node.what {
            What::Apply(table) => program.tables.get(table as usize),
            What::Gate { .. } => None,
        },
        None => None,
    }
}

/// The widths of the fields of a table's key.
fn widths_of(alloc: Global, program: &Program, table: &Table) -> Result<Bytes, AllocError>
    requires { All (λ f. f < length program.now.fields) table.now.key }
    ensures { IfOk result (λ widths. widths ≡ map (width_of program.now) table.now.key) }
{
    let mut widths = Sequence::new(alloc);
    for field in table.key.as_slice() {
        widths.push(program.fields.as_slice()[*field as usize].width)?;
    }
    Ok(widths)
}

/// Whether the cells of the table that a node applies, if it applies one, hold the table's entries.
fn node_holds(
    alloc: Global,
    given: &Checked,
    told: &BTreeMap<u32, CellOf>,
    node: usize,
) -> Result<bool, VerifyFault>
    requires given { IsGiven given.now.program.now given.now.entries.now given.now.config.now }
    requires node { node < length given.now.program.now.nodes }
    requires known { NodeKnown given.now.program.now given.now.config.now node }
    requires told { (cells : List CellOfMap) × AreTold cells told.now }
    ensures { IfOk result (λ holds. (cells : List CellOfMap) → AreTold cells told.now
        → (IsTrue holds ↔ TablesHeld given.now.program.now given.now.config.now cells given.now.entries.now node)) }
{
    let program = given.program;
    let Some(table) = table_at(program, node) else {
        return Ok(true);
    };
    let Some(list) = given.entries.get(node) else {
        return Ok(true);
    };
    let widths = widths_of(alloc, program, table)?;
    table_holds(
        alloc,
        &TableAt {
            program,
            config: given.config,
            told,
            node: node as u32,
            table,
            widths: &widths,
            entries: list.as_slice(),
        },
    )
}

/// Whether the cells of each table hold the table's entries.
fn nodes_hold(
    alloc: Global,
    given: &Checked,
    told: &BTreeMap<u32, CellOf>,
) -> Result<bool, VerifyFault>
    requires given { IsGiven given.now.program.now given.now.entries.now given.now.config.now }
    requires known { (n : ℕ) → NodeKnown given.now.program.now given.now.config.now n }
    requires told { (cells : List CellOfMap) × AreTold cells told.now }
    ensures { IfOk result (λ hold. (cells : List CellOfMap) → AreTold cells told.now
        → (IsTrue hold ↔ ((n : ℕ) → TablesHeld given.now.program.now given.now.config.now cells given.now.entries.now n))) }
{
    for node in 0..given.program.nodes.len() {
        if !node_holds(alloc, given, told, node)? {
            return Ok(false);
        }
    }
    Ok(true)
}

/// Whether the cells of a configuration, whose units are those of a program's nodes, hold the entries of the program, and
/// a map tells of each cell once and of no other one: each occupied cell holds the entry of its number, with its key, its
/// mask, its instruction and its arguments; each entry stands in one cell, in which its key is looked for; and an entry
/// that goes before another stands before it.
///
/// The time is that of going over the occupied cells, and of finding each one's rows, its entry and what the map tells of
/// it; and over the units once a node.
///
/// # Errors
///
/// For want of memory.
pub fn cells_hold(alloc: Global, given: &Checked) -> Result<bool, VerifyFault>
    requires given { IsGiven given.now.program.now given.now.entries.now given.now.config.now }
    // As the first part says.
    requires places { KeepsApart given.now.program.now given.now.map.now.places }
    // As the third part says.
    requires units { UnitsCarried given.now.program.now given.now.map.now.places given.now.map.now.placement.parts given.now.map.now.starts given.now.config.now }
    ensures exact { IfOk result (λ hold. IsTrue hold
        ↔ CellsCarried given.now.program.now given.now.config.now (own_view given.now.config.now) given.now.map.now.cells given.now.entries.now) }
    ensures only_memory { IsOkUnless result OutOfMemory.NoMemory }
{
    let cells = given.map.cells.as_slice();
    if !are_as_many(cells.len(), given.entries.as_slice()) {
        return Ok(false);
    }
    match told_of(alloc, cells)? {
        Some(told) => nodes_hold(alloc, given, &told),
        None => Ok(false),
    }
}
