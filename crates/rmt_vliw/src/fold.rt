//! Folding: the assignments of an action, one after another, become one value for each field that they write.

ghost use Rattle.std.specs.Prelude.{◌≡◌, ◌≢◌, ◌<◌, [], length, fold, IfOk, Err, Some, slice_get};
ghost use Rattle.rmt_ast.specs.declared.program.Action.{Action};
ghost use Rattle.rmt_ast.specs.WellFormed.{IsProgram};
ghost use Rattle.rmt_vliw.specs.Folding.{folded_of, folded_or_fault, IsFolding, Means};
ghost use Rattle.rmt_vliw.specs.Known.{known_after, told_values, told_of};

use crate::fault::ActionDeep;
use crate::folded::Folded;
use crate::value::{Value, assign};
use rmt_ast::program::{Action, Assign, Program};
use rmt_bits::answer::Bytes;
use rmt_bits::sequence::Sequence;
use std::alloc::{AllocError, Global};

/// A list of bytes with the same bytes.
fn copied(alloc: Global, bytes: &Bytes) -> Result<Bytes, AllocError>
    ensures { IfOk result (λ copy. copy ≡ bytes.now) }
{
    Ok(Bytes::from_vec(bytes.as_slice().to_vec(alloc)?))
}

/// What the fields are after these assignments.
fn values_after(alloc: Global, assigns: &[Assign]) -> Result<Vec<Value>, AllocError>
    ensures { IfOk result (λ values. values.items ≡ fold known_after [] assigns.now) }
{
    let mut values = Vec::new(alloc);
    for next in assigns {
        assign(&mut values, next)?;
    }
    Ok(values)
}

/// The values as assignments, where each takes at most one operation.
fn folded_or_fault(
    alloc: Global,
    action: u32,
    values: &[Value],
) -> Result<Sequence<Assign>, ActionDeep>
    ensures { result ≢ Err ActionDeep.NoMemory → result ≡ told_of action (told_values values.now) }
{
    let mut assigns = Sequence::new(alloc);
    for value in values {
        let Some(expr) = value.expr else {
            let field = value.field;
            return Err(ActionDeep::At { action, field });
        };
        let dest = value.field;
        assigns.push(Assign { dest, expr })?;
    }
    Ok(assigns)
}

/// What an action of the program folds to.
///
/// The assignments are taken in order, each with what the earlier ones left in the place of the fields that it reads. So
/// each field that is written has one value over the fields as they were before the action. Nothing is simplified, and
/// only the last value of a field counts.
///
/// The action is told by its number, which must be that of an action of the program. The time is that of going over the
/// fields that it writes, at most 64, for each assignment.
///
/// # Errors
///
/// `At` where the value of a field is neither an operand nor one operator on two operands, with the first such field in
/// the order of first assignment; else for want of memory.
pub fn fold_action(alloc: Global, program: &Program, action: u32) -> Result<Folded, ActionDeep>
    requires program { IsProgram program.now }
    requires action { action < length program.now.actions }
    // Which values, or which refusal, unless memory runs out.
    ensures folded { (a : Action) → slice_get program.now.actions action ≡ Some a →
        result ≢ Err ActionDeep.NoMemory → result ≡ folded_or_fault action (folded_of a) }
    ensures is_folding { IfOk result (λ folded. IsFolding program.now action folded) }
    // They are what the assignments leave, one after another, for every state and all arguments.
    ensures means { IfOk result (λ folded. Means program.now action folded.values) }
{
    let acts = &program.actions.as_slice()[action as usize];
    let values = values_after(alloc, acts.assigns.as_slice())?;
    let values = folded_or_fault(alloc, action, &values)?;
    let params = copied(alloc, &acts.params)?;
    Ok(Folded { params, values })
}
