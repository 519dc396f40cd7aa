//! Which actions assign a field.

ghost use Rattle.std.specs.Prelude.{◌≡◌, ◌==◌, ◌<◌, ◌≤◌, ◌&&◌, ◌||◌, ℕ, List, length, slice_index_or, IfOk};
ghost use Rattle.rmt_phv.specs.Packing.{writes};
ghost use Rattle.rmt_phv.specs.Sets.{has};
ghost use Rattle.rmt_phv.specs.Writers.{AreWriters};

use crate::sets::insert;
use rmt_ast::program::{Action, Program};
use std::alloc::{AllocError, Global};

/// A set of actions, by their numbers, of which a program has at most 256.
pub type ActionSet = [u64; 4];

/// Of each field, by its number, the actions that assign it.
pub fn writers_of(alloc: Global, program: &Program) -> Result<Vec<ActionSet>, AllocError>
    requires { length program.now.actions ≤ 256 }
    ensures { IfOk result (λ sets. AreWriters program.now sets.items) }
{
    let mut sets = vec![in alloc; [0; 4]; program.fields.len()]?;
    for (number, action) in program.actions.as_slice().iter().enumerate() {
        add_action(&mut sets, number, action);
    }
    Ok(sets)
}

/// Puts an action into the sets of the fields that it assigns.
fn add_action(sets: &mut [ActionSet], number: usize, action: &Action)
    requires { number < 256 }
    ensures { (f n : ℕ) (d : List ℕ) → f < length sets.old →
        has (slice_index_or sets.new f d) n ≡ (((n == number) && writes action.now f) || has (slice_index_or sets.old f d) n) }
{
    for assign in action.assigns.as_slice() {
        let dest = assign.dest as usize;
        if dest < sets.len() {
            insert(&mut sets[dest], number);
        }
    }
}
