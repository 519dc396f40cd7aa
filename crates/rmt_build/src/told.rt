//! The cells of which a map tells.

ghost use Rattle.std.specs.Prelude.{◌≡◌, ◌++◌, ◌<◌, ◌≤◌, IfOk, OnOk, Some, map, length};
ghost use Rattle.rmt_build.specs.Words.{AreEntries, IsProgram, table_at, cells_planned, node_planned, part_planned, IsPlan, IsPlanned, cell_told};

use crate::parts::quanta_in;
use crate::planned::{PlannedProgram, PlannedTable};
use crate::tables::applied;
use crate::units::stands_in;
use rmt_bits::sequence::Sequence;
use rmt_config::config::CellNumber;
use rmt_filling::numbers::numbers_of;
use rmt_filling::plan::PlannedStage;
use rmt_refine::map::CellOf;
use std::alloc::{AllocError, Global};

/// Adds the cells of a stage in which entries of these numbers stand.
fn push_numbers(
    cells: &mut Sequence<CellOf>,
    stage: u32,
    numbers: &[CellNumber],
) -> Result<(), AllocError>
    ensures { OnOk result (cells.new ≡ cells.old ++ map (cell_told stage) numbers.now) }
{
    for number in numbers {
        cells.push(CellOf {
            entry: number.number,
            stage,
            cell: number.cell,
        })?;
    }
    Ok(())
}

/// Adds the cells of the part of a node's table in a stage, if it has one there.
fn push_part(
    alloc: Global,
    cells: &mut Sequence<CellOf>,
    own: &PlannedTable,
) -> Result<(), AllocError>
    requires planned { IsPlanned own.now.planned.now.program.now own.now.planned.now.entries.now own.now.planned.now.plan.now own.now.planned.now.stage }
    requires table { table_at own.now.planned.now.program.now own.now.node ≡ Some own.now.table.now }
    requires node { own.now.node < length own.now.planned.now.program.now.nodes }
    ensures { OnOk result (cells.new ≡ cells.old
        ++ part_planned own.now.planned.now.program.now own.now.planned.now.entries.now own.now.planned.now.plan.now own.now.table.now own.now.node own.now.planned.now.stage) }
{
    let planned = own.planned;
    let node = own.node;
    let parts = planned.plan.placement.parts.as_slice();
    if quanta_in(parts, node, planned.stage) == 0 {
        return Ok(());
    }
    let stands = stands_in(alloc, own)?;
    let list = planned.entries.as_slice()[node as usize].as_slice();
    let numbers = numbers_of(alloc, stands.as_slice(), list)?;
    push_numbers(cells, planned.stage, numbers.as_slice())
}

/// Adds the cells of a node, stage by stage.
fn push_node(
    alloc: Global,
    cells: &mut Sequence<CellOf>,
    whole: &PlannedProgram,
    node: u32,
) -> Result<(), AllocError>
    requires program { IsProgram whole.now.program.now }
    requires entries { AreEntries whole.now.program.now whole.now.entries.now }
    requires plan { IsPlan whole.now.program.now whole.now.entries.now whole.now.plan.now }
    requires node { node < length whole.now.program.now.nodes }
    requires stages { length whole.now.plan.now.starts ≤ 32 }
    ensures { OnOk result (cells.new ≡ cells.old ++ node_planned whole.now.program.now whole.now.entries.now whole.now.plan.now node) }
{
    let nodes = whole.program.nodes.as_slice();
    let Some(table) = applied(whole.program, &nodes[node as usize]) else {
        return Ok(());
    };
    for stage in 0..whole.plan.starts.len() as u32 {
        let planned = PlannedStage {
            program: whole.program,
            entries: whole.entries,
            plan: whole.plan,
            stage,
        };
        let own = PlannedTable {
            planned: &planned,
            table,
            node,
        };
        push_part(alloc, cells, &own)?;
    }
    Ok(())
}

/// The cells in which the entries of a program stand by a plan, by node, stage and cell.
pub fn cells_of(alloc: Global, whole: &PlannedProgram) -> Result<Sequence<CellOf>, AllocError>
    requires program { IsProgram whole.now.program.now }
    requires entries { AreEntries whole.now.program.now whole.now.entries.now }
    requires plan { IsPlan whole.now.program.now whole.now.entries.now whole.now.plan.now }
    requires stages { length whole.now.plan.now.starts ≤ 32 }
    ensures { IfOk result (λ cells. cells ≡ cells_planned whole.now.program.now whole.now.entries.now whole.now.plan.now) }
{
    let mut cells = Sequence::new(alloc);
    for node in 0..whole.program.nodes.len() as u32 {
        push_node(alloc, &mut cells, whole, node)?;
    }
    Ok(cells)
}
