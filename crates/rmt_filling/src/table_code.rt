//! The instructions of a table.

ghost use Rattle.std.specs.Prelude.{◌≡◌, ◌++◌, List, OnOk};
ghost use Rattle.rmt_ast.specs.WellFormed.{IsProgram, IsTable};
ghost use Rattle.rmt_config.specs.declared.config.Vliw.{Vliw};
ghost use Rattle.rmt_phv.specs.Places.{KeepsApart};
ghost use Rattle.rmt_vliw.specs.Folding.{AreFoldings};
ghost use Rattle.rmt_filling.specs.TableCode.{DoTable};

use crate::plan::Plan;
use rmt_ast::program::{Program, Table};
use rmt_bits::sequence::Sequence;
use rmt_config::config::Vliw;
use rmt_vliw::fault::VliwFault;
use rmt_vliw::{default_instruction, instruction};
use std::alloc::Global;

/// Adds the instructions of a table: one for each action of its list, and then its default's.
pub fn push_table(
    alloc: Global,
    code: &mut Sequence<Vliw>,
    program: &Program,
    plan: &Plan,
    table: &Table,
) -> Result<(), VliwFault>
    requires program { IsProgram program.now }
    requires folded { AreFoldings program.now plan.now.folded }
    requires places { KeepsApart program.now plan.now.places }
    requires table { IsTable program.now table.now }
    ensures { OnOk result ((own : List Vliw) × (code.new ≡ code.old ++ own) × DoTable program.now plan.now.places table.now own) }
{
    let folded = plan.folded.as_slice();
    for action in table.actions.as_slice() {
        let own = &folded[*action as usize];
        code.push(instruction(alloc, program, own, &plan.places)?)?;
    }
    let own = &folded[table.default as usize];
    code.push(default_instruction(alloc, program, own, &table.args, &plan.places)?)?;
    Ok(())
}
