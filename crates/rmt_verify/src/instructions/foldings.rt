//! The actions of a program, all of them folded.

ghost use Rattle.std.specs.Prelude.{IfOk, MatchOption};
ghost use Rattle.rmt_vliw.specs.Coded.{ActionsFold};
ghost use Rattle.rmt_verify.specs.Given.{IsProgram};
ghost use Rattle.rmt_verify.specs.StageCode.{AreFoldings};

use crate::fault::VerifyFault;
use rmt_ast::program::Program;
use rmt_bits::fault::OutOfMemory;
use rmt_bits::sequence::Sequence;
use rmt_vliw::fault::ActionDeep;
use rmt_vliw::fold_action;
use rmt_vliw::folded::Folded;
use std::alloc::Global;

/// What each action of a program folds to, by its number; None where one doesn't fold.
pub fn foldings_of(
    alloc: Global,
    program: &Program,
) -> Result<Option<Sequence<Folded>>, VerifyFault>
    requires { IsProgram program.now }
    ensures { IfOk result (λ all. MatchOption all (ActionsFold program.now → ⊥) (AreFoldings program.now)) }
{
    let mut folded = Sequence::new(alloc);
    for action in 0..program.actions.len() {
        match fold_action(alloc, program, action as u32) {
            Ok(own) => folded.push(own)?,
            Err(ActionDeep::NoMemory) => return Err(OutOfMemory::NoMemory),
            Err(ActionDeep::At { .. }) => return Ok(None),
        }
    }
    Ok(Some(folded))
}
