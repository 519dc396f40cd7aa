//! The instructions of the slots of a stage, against those of their tables.

ghost use Rattle.std.specs.Prelude.{◌≡◌, ◌↔◌, ◌<◌, ◌+◌, ◌^◌, ◌≤◌, ℕ, All, IfOk, IsTrue, length, Some, slice_get};
ghost use Rattle.rmt_ast.specs.WellFormed.{IsTable};
ghost use Rattle.rmt_config.specs.Life.{code_at as code_at_of};
ghost use Rattle.rmt_config.specs.Instructions.{unit_instructions};
ghost use Rattle.rmt_config.specs.StageForm.{stage_is_formed};
ghost use Rattle.rmt_vliw.specs.Coded.{IsCodeOf, TableCoded};
ghost use Rattle.rmt_verify.specs.StageCode.{CodingKnown, StageCoded, UnitCoded};
ghost use Rattle.rmt_verify.specs.WordsRise.{CodeRises};

use crate::cells::table_at;
use crate::fault::VerifyFault;
use crate::instructions::one::{Coding, is_of_action, is_of_default};
use rmt_ast::program::Table;
use rmt_config::config::{Operation, Stage, Unit};
use std::alloc::Global;

/// Instructions of a stage that are looked at, from the number `first` on.
#[derive(Drop)]
struct CodeFrom<'a> {
    coding: &'a Coding<'a>,
    stage: &'a Stage,
    first: u64,
}

/// The operations of an instruction of a stage, by its number; none of one that there isn't.
fn code_at(stage: &Stage, at: u64) -> &[Operation]
    ensures { result.now ≡ code_at_of stage.now at }
{
    match stage.code.get(at as usize) {
        Some(own) => own.ops.as_slice(),
        None => &[],
    }
}

/// Whether the instructions from one on are those of the actions of a table's list.
fn actions_hold(alloc: Global, from: &CodeFrom, actions: &[u32]) -> Result<bool, VerifyFault>
    requires coding { CodingKnown from.now.coding.now.program.now from.now.coding.now.folded.now from.now.coding.now.places.now }
    requires actions { All (λ a. a < length from.now.coding.now.program.now.actions) actions.now }
    requires few { length actions.now ≤ 14 }
    requires rises { CodeRises from.now.stage.now }
    requires first { from.now.first < 2 ^ 32 }
    ensures { IfOk result (λ holds. IsTrue holds ↔
        ((i action : ℕ) → slice_get actions.now i ≡ Some action → IsCodeOf from.now.coding.now.program.now from.now.coding.now.places.now action (code_at_of from.now.stage.now (from.now.first + i)))) }
{
    let coding = from.coding;
    let folded = coding.folded;
    for (at, action) in actions.iter().enumerate() {
        let own = &folded[*action as usize];
        let ops = code_at(from.stage, from.first + at as u64);
        if !is_of_action(alloc, coding, own, ops)? {
            return Ok(false);
        }
    }
    Ok(true)
}

/// Whether the instructions from one on are those of a table.
fn table_holds(alloc: Global, from: &CodeFrom, table: &Table) -> Result<bool, VerifyFault>
    requires coding { CodingKnown from.now.coding.now.program.now from.now.coding.now.folded.now from.now.coding.now.places.now }
    requires table { IsTable from.now.coding.now.program.now table.now }
    requires rises { CodeRises from.now.stage.now }
    requires first { from.now.first < 2 ^ 32 }
    ensures { IfOk result (λ holds. IsTrue holds ↔ TableCoded from.now.coding.now.program.now from.now.coding.now.places.now table.now from.now.first from.now.stage.now) }
{
    let actions = table.actions.as_slice();
    if !actions_hold(alloc, from, actions)? {
        return Ok(false);
    }
    let coding = from.coding;
    let folded = coding.folded;
    let own = &folded[table.default as usize];
    let ops = code_at(from.stage, from.first + actions.len() as u64);
    is_of_default(alloc, coding, own, &table.args, ops)
}

/// Whether the instructions from one on are those of a unit's table, where the unit is of one.
fn unit_holds(alloc: Global, from: &CodeFrom, unit: &Unit) -> Result<bool, VerifyFault>
    requires coding { CodingKnown from.now.coding.now.program.now from.now.coding.now.folded.now from.now.coding.now.places.now }
    requires rises { CodeRises from.now.stage.now }
    requires first { from.now.first < 2 ^ 32 }
    ensures { IfOk result (λ holds. IsTrue holds ↔ UnitCoded from.now.coding.now.program.now from.now.coding.now.places.now from.now.stage.now from.now.first unit.now) }
{
    match unit {
        Unit::Gate(_) => Ok(true),
        Unit::Slot(slot) => match table_at(from.coding.program, slot.node as usize) {
            Some(table) => table_holds(alloc, from, table),
            None => Ok(true),
        },
    }
}

/// How many instructions a unit has.
fn instructions_of(unit: &Unit) -> u64
    ensures value { result ≡ unit_instructions unit.now }
    ensures few { result ≤ 256 }
{
    match unit {
        Unit::Gate(_) => 0,
        Unit::Slot(slot) => slot.actions as u64 + 1,
    }
}

/// Whether each unit of a stage that is of a table has the table's instructions.
pub fn stage_code_holds(alloc: Global, coding: &Coding, stage: &Stage) -> Result<bool, VerifyFault>
    requires coding { CodingKnown coding.now.program.now coding.now.folded.now coding.now.places.now }
    requires formed { IsTrue (stage_is_formed stage.now) }
    ensures { IfOk result (λ holds. IsTrue holds ↔ StageCoded coding.now.program.now coding.now.places.now stage.now) }
{
    let mut first: u64 = 0;
    for unit in stage.units.as_slice() {
        let from = CodeFrom {
            coding,
            stage,
            first,
        };
        if !unit_holds(alloc, &from, unit)? {
            return Ok(false);
        }
        first += instructions_of(unit);
    }
    Ok(true)
}
