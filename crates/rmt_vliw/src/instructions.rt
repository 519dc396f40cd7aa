//! Instructions: one operation for each piece of each field that an action writes.

ghost use Rattle.std.specs.Prelude.{◌≡◌, ◌≤◌, ◌++◌, ℕ, true, false, [], IfOk, OnOk, map, sum, All};
ghost use Rattle.std.specs.List.{AllZip};
ghost use Rattle.rmt_ast.specs.declared.program.Assign.{Assign};
ghost use Rattle.rmt_ast.specs.WellFormed.{IsProgram, Fits};
ghost use Rattle.rmt_phv.specs.Places.{KeepsApart};
ghost use Rattle.rmt_config.specs.CodeForm.{vliw_is_formed};
ghost use Rattle.rmt_vliw.specs.Folding.{IsFolding};
ghost use Rattle.rmt_vliw.specs.Operations.{operations_of, given as given_of, given_operand as operand_of, given_expr as expr_of, IsInstruction};
ghost use Rattle.rmt_vliw.specs.Effects.{Does, DoesWith};

use crate::fault::VliwFault;
use crate::folded::Folded;
use crate::operation::push_operations;
use rmt_ast::program::{Assign, Expr, Leaf, Program};
use rmt_bits::sequence::Sequence;
use rmt_config::config::{Operation, Vliw};
use rmt_phv::places::Places;
use std::alloc::{AllocError, Global};

/// An operand with the argument in the place of a parameter.
fn given_operand(args: &[u128], leaf: Leaf) -> Leaf
    ensures { result ≡ operand_of args.now leaf }
{
    match leaf {
        Leaf::Param(param) => match args.get(param as usize) {
            Some(arg) => Leaf::Number(*arg),
            None => Leaf::Number(0),
        },
        Leaf::Field(_) | Leaf::Number(_) => leaf,
    }
}

/// A value with arguments in the place of parameters.
fn given(args: &[u128], value: &Assign) -> Assign
    ensures { result ≡ given_of args.now value.now }
{
    let expr = match value.expr {
        Expr::One(leaf) => Expr::One(given_operand(args, leaf)),
        Expr::Two(op, left, right) => {
            Expr::Two(op, given_operand(args, left), given_operand(args, right))
        }
    };
    Assign {
        dest: value.dest,
        expr,
    }
}

/// The instruction of these operations.
fn sorted(mut ops: Vec<Operation>) -> Vliw
    ensures { IsInstruction ops.items result.ops }
{
    ops.sort_unstable_by_key(|op| op.word);
    Vliw {
        ops: Sequence::from_vec(ops),
    }
}

/// The instruction of an action, for these places of the fields.
///
/// It has one operation for each piece of each field that the action writes, by rising word. A piece of a field is read
/// in the field's own lane; parameters lie in the data of the entry from bit 0 upward in their order, and a piece of
/// one is that much higher; a number is cut to its piece.
///
/// `folded` must be what an action of the program folds to.
///
/// # Errors
///
/// For want of memory alone.
pub fn instruction(
    alloc: Global,
    program: &Program,
    folded: &Folded,
    places: &Places,
) -> Result<Vliw, VliwFault>
    requires program { IsProgram program.now }
    requires folded { (n : ℕ) × IsFolding program.now n folded.now }
    requires places { KeepsApart program.now places.now }
    // One operation a piece, by rising word.
    ensures pieces { IfOk result (λ v. IsInstruction (operations_of places.now folded.now.params folded.now.values) v.ops) }
    // With the arguments in the record it does to the lanes what the action does to a state, and to no other bit anything.
    ensures does { IfOk result (λ v. (n : ℕ) → IsFolding program.now n folded.now → Does program.now places.now n folded.now v.ops) }
    // It is formed in each slot whose data have room for the parameters.
    ensures formed { IfOk result (λ v. (held : ℕ) → sum folded.now.params ≤ held →
        vliw_is_formed (record { held = held; is_default = false }) v ≡ true) }
{
    let mut ops = Vec::new(alloc);
    for value in folded.values.as_slice() {
        push_operations(&mut ops, places, folded.params.as_slice(), value)?;
    }
    Ok(sorted(ops))
}

/// The instruction of a table's default with its arguments, for these places of the fields.
///
/// It is that of the action with the arguments in the place of the parameters, so it reads no data of an entry.
///
/// `folded` must be what an action of the program folds to, and the arguments as many as its parameters, each of which
/// fits its parameter.
///
/// # Errors
///
/// For want of memory alone.
pub fn default_instruction(
    alloc: Global,
    program: &Program,
    folded: &Folded,
    args: &Sequence<u128>,
    places: &Places,
) -> Result<Vliw, VliwFault>
    requires program { IsProgram program.now }
    requires folded { (n : ℕ) × IsFolding program.now n folded.now }
    requires args { AllZip Fits folded.now.params args.now }
    requires places { KeepsApart program.now places.now }
    // One operation a piece, by rising word.
    ensures pieces { IfOk result (λ v. IsInstruction (operations_of places.now [] (map (given_of args.now) folded.now.values)) v.ops) }
    // It does to the lanes what the action does to a state, and to no other bit anything.
    ensures does { IfOk result (λ v. (n : ℕ) → IsFolding program.now n folded.now → DoesWith program.now places.now n args.now folded.now v.ops) }
    // It is formed as a default in each slot.
    ensures formed { IfOk result (λ v. (held : ℕ) → vliw_is_formed (record { held = held; is_default = true }) v ≡ true) }
{
    let mut ops = Vec::new(alloc);
    for value in folded.values.as_slice() {
        let value = given(args.as_slice(), value);
        push_operations(&mut ops, places, &[], &value)?;
    }
    Ok(sorted(ops))
}
