//! One instruction, against that of an action or of a default.

ghost use Rattle.std.specs.Prelude.{◌↔◌, ℕ, [], IfOk, IsTrue, map};
ghost use Rattle.std.specs.List.{AllZip};
ghost use Rattle.rmt_ast.specs.WellFormed.{Fits};
ghost use Rattle.rmt_vliw.specs.Operations.{IsInstruction, given, operations_of};
ghost use Rattle.rmt_verify.specs.StageCode.{CodingKnown, IsFolding};
ghost use Rattle.rmt_verify.specs.WordsRise.{WordsRise};

use crate::fault::VerifyFault;
use crate::same::are_equal;
use rmt_ast::program::Program;
use rmt_bits::sequence::Sequence;
use rmt_config::config::Operation;
use rmt_phv::places::Places;
use rmt_vliw::folded::Folded;
use rmt_vliw::{default_instruction, instruction};
use std::alloc::Global;

/// What the instructions of a stage are looked at with.
#[derive(Drop)]
pub struct Coding<'a> {
    pub program: &'a Program,
    /// What each of its actions folds to.
    pub folded: &'a [Folded],
    /// The places of its fields.
    pub places: &'a Places,
}

/// Whether operations, which stand by rising word, are those of an action that folds so.
pub fn is_of_action(
    alloc: Global,
    coding: &Coding,
    folded: &Folded,
    ops: &[Operation],
) -> Result<bool, VerifyFault>
    requires coding { CodingKnown coding.now.program.now coding.now.folded.now coding.now.places.now }
    requires folded { (n : ℕ) × IsFolding coding.now.program.now n folded.now }
    requires rise { WordsRise ops.now }
    ensures { IfOk result (λ is. IsTrue is ↔ IsInstruction (operations_of coding.now.places.now folded.now.params folded.now.values) ops.now) }
{
    let own = instruction(alloc, coding.program, folded, coding.places)?;
    Ok(are_equal(own.ops.as_slice(), ops))
}

/// Whether operations, which stand by rising word, are those of a default with these arguments, whose action folds so.
pub fn is_of_default(
    alloc: Global,
    coding: &Coding,
    folded: &Folded,
    args: &Sequence<u128>,
    ops: &[Operation],
) -> Result<bool, VerifyFault>
    requires coding { CodingKnown coding.now.program.now coding.now.folded.now coding.now.places.now }
    requires folded { (n : ℕ) × IsFolding coding.now.program.now n folded.now }
    requires args { AllZip Fits folded.now.params args.now }
    requires rise { WordsRise ops.now }
    ensures { IfOk result (λ is. IsTrue is ↔ IsInstruction (operations_of coding.now.places.now [] (map (given args.now) folded.now.values)) ops.now) }
{
    let own = default_instruction(alloc, coding.program, folded, args, coding.places)?;
    Ok(are_equal(own.ops.as_slice(), ops))
}
