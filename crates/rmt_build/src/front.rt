//! What a program becomes before its nodes are placed.

ghost use Rattle.std.specs.Prelude.{◌≡◌, ◌≢◌, ℕ, List, Some, None, Err, IfOk, MatchResult};
ghost use Rattle.rmt_build.specs.Words.{IsProgram, LimitHit, AreFoldings, first_deep, IsFront, first_refusal};

use crate::fault::NoFit;
use rmt_ast::deps::Deps;
use rmt_ast::program::Program;
use rmt_bits::sequence::Sequence;
use rmt_config::config::ParserConfig;
use rmt_deps::dependencies;
use rmt_phv::pack_fields;
use rmt_phv::places::Places;
use rmt_ptcam::{clustered_parser, parser_need};
use rmt_vliw::fault::ActionDeep;
use rmt_vliw::fold_action;
use rmt_vliw::folded::Folded;
use std::alloc::Global;

/// What a program becomes before its nodes are placed: what each action folds to, the places of its fields, its parser, and
/// which nodes wait for which.
#[derive(Drop)]
pub struct Front {
    pub folded: Sequence<Folded>,
    pub places: Places,
    pub parser: ParserConfig,
    pub deps: Deps,
}

/// What a program becomes before its nodes are placed.
///
/// # Errors
///
/// The first refusal of the program, if it is one of its parser, its actions or its fields.
pub fn front_of(alloc: Global, program: &Program) -> Result<Front, NoFit>
    requires { IsProgram program.now }
    ensures front { IfOk result (IsFront program.now) }
    ensures early { (fault : NoFit) → result ≡ Err fault → fault ≢ NoFit.NoMemory → first_refusal program.now ≡ Some fault }
    ensures no_stage { (node : ℕ) (hits : List LimitHit) → result ≢ Err (NoFit.Stage node hits) }
    ensures no_load { (node members cells : ℕ) → result ≢ Err (NoFit.Load node members cells) }
{
    parser_need(program)?;
    let folded = fold_all(alloc, program)?;
    let places = pack_fields(alloc, program)?;
    let parser = clustered_parser(alloc, program, &places)?;
    let deps = dependencies(alloc, program, &places)?;
    Ok(Front {
        folded,
        places,
        parser,
        deps,
    })
}

/// What each action of a program folds to, used or not, by its number.
///
/// # Errors
///
/// Of the first action that doesn't fold, the first field whose value takes more than one operation.
pub fn fold_all(alloc: Global, program: &Program) -> Result<Sequence<Folded>, ActionDeep>
    requires { IsProgram program.now }
    ensures folded { IfOk result (AreFoldings program.now) }
    // Which action is refused, unless memory runs out.
    ensures refused { result ≢ Err ActionDeep.NoMemory →
        MatchResult result (λ _. first_deep 0 program.now.actions ≡ None) (λ deep. first_deep 0 program.now.actions ≡ Some deep) }
{
    let mut folded = Sequence::new(alloc);
    for action in 0..program.actions.len() {
        match fold_action(alloc, program, action as u32) {
            Ok(own) => folded.push(own)?,
            Err(deep) => return Err(deep),
        }
    }
    Ok(folded)
}
