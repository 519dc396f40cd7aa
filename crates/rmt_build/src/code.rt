//! The instructions of a stage.

ghost use Rattle.std.specs.Prelude.{◌≡◌, ◌++◌, ◌<◌, ℕ, List, IfOk, OnOk};
ghost use Rattle.std.specs.List.{AllZip};
ghost use Rattle.rmt_build.specs.Words.{DoUnit, DoUnits, IsPlanned, UnitCarried, Vliw, nodes_in};

use crate::tables::applied;
use rmt_bits::sequence::Sequence;
use rmt_config::config::{Unit, Vliw};
use rmt_filling::plan::PlannedStage;
use rmt_filling::table_code::push_table;
use rmt_vliw::fault::VliwFault;
use std::alloc::Global;

/// Adds the instructions of a unit of a stage; a gate has none.
fn push_unit(
    alloc: Global,
    code: &mut Sequence<Vliw>,
    planned: &PlannedStage,
    unit: &Unit,
) -> Result<(), VliwFault>
    requires planned { IsPlanned planned.now.program.now planned.now.entries.now planned.now.plan.now planned.now.stage }
    requires unit { (n : ℕ) × UnitCarried planned.now.program.now planned.now.plan.now.places planned.now.plan.now.placement.parts planned.now.stage n unit.now }
    ensures { OnOk result ((own : List Vliw) × (code.new ≡ code.old ++ own) × DoUnit planned.now.program.now planned.now.plan.now.places unit.now own) }
{
    let program = planned.program;
    match unit {
        Unit::Slot(slot) => match applied(program, &program.nodes.as_slice()[slot.node as usize]) {
            Some(table) => push_table(alloc, code, program, planned.plan, table),
            None => Ok(()),
        },
        Unit::Gate(_) => Ok(()),
    }
}

/// The instructions of the units of a stage, in their order.
pub fn code_of(
    alloc: Global,
    planned: &PlannedStage,
    units: &[Unit],
) -> Result<Sequence<Vliw>, VliwFault>
    requires planned { IsPlanned planned.now.program.now planned.now.entries.now planned.now.plan.now planned.now.stage }
    requires units { AllZip (UnitCarried planned.now.program.now planned.now.plan.now.places planned.now.plan.now.placement.parts planned.now.stage)
        (nodes_in planned.now.program.now planned.now.plan.now.placement.parts planned.now.stage) units.now }
    ensures { IfOk result (DoUnits planned.now.program.now planned.now.plan.now.places units.now) }
{
    let mut code = Sequence::new(alloc);
    for unit in units {
        push_unit(alloc, &mut code, planned, unit)?;
    }
    Ok(code)
}
