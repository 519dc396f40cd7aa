//! Fifth part: every action of the program folds, and the instructions are those of the tables' actions and defaults.

ghost use Rattle.std.specs.Prelude.{◌↔◌, All, IfOk, IsOkUnless, IsTrue};
ghost use Rattle.std.specs.List.{list_all};
ghost use Rattle.rmt_config.specs.StageForm.{stage_is_formed};
ghost use Rattle.rmt_refine.specs.Code.{CodeCarried};
ghost use Rattle.rmt_verify.specs.Given.{IsPlaced, OutOfMemory};
ghost use Rattle.rmt_verify.specs.Instructions.{IsCoded};
ghost use Rattle.rmt_verify.specs.StageCode.{CodingKnown, StageCoded};

mod foldings;
mod one;
mod tables;

use crate::fault::VerifyFault;
use foldings::foldings_of;
use one::Coding;
use rmt_ast::program::Program;
use rmt_config::config::{Config, Stage};
use rmt_phv::places::Places;
use std::alloc::Global;
use tables::stage_code_holds;

/// Whether each stage has the instructions of its tables.
fn all_code_holds(alloc: Global, coding: &Coding, stages: &[Stage]) -> Result<bool, VerifyFault>
    requires coding { CodingKnown coding.now.program.now coding.now.folded.now coding.now.places.now }
    requires formed { IsTrue (list_all stage_is_formed stages.now) }
    ensures { IfOk result (λ holds. IsTrue holds ↔ All (StageCoded coding.now.program.now coding.now.places.now) stages.now) }
{
    for stage in stages {
        if !stage_code_holds(alloc, coding, stage)? {
            return Ok(false);
        }
    }
    Ok(true)
}

/// Whether every action of a program folds, and each part of a table in a formed configuration has the table's
/// instructions: one for each action of its list and then its default's, each the one that the action has at these places.
///
/// The time is that of folding each action once, and of making the instructions of each part.
///
/// # Errors
///
/// For want of memory.
pub fn code_holds(
    alloc: Global,
    program: &Program,
    places: &Places,
    config: &Config,
) -> Result<bool, VerifyFault>
    // As the first part says of the places.
    requires placed { IsPlaced program.now places.now config.now }
    ensures exact { IfOk result (λ holds. IsTrue holds ↔ IsCoded program.now places.now config.now) }
    // Then each instruction does what its action says.
    ensures carries { IfOk result (λ holds. IsTrue holds → CodeCarried program.now places.now config.now) }
    ensures only_memory { IsOkUnless result OutOfMemory.NoMemory }
{
    match foldings_of(alloc, program)? {
        Some(folded) => all_code_holds(
            alloc,
            &Coding {
                program,
                folded: folded.as_slice(),
                places,
            },
            config.stages.as_slice(),
        ),
        None => Ok(false),
    }
}
