//! Arms of a node.

ghost use Rattle.std.specs.Prelude.{◌≡◌};
ghost use Rattle.std.specs.List.{list_any};
ghost use Rattle.rmt_deps.specs.Edges.{are_other_arms as choose_other_arms};

use rmt_ast::program::Guard;

/// Whether two nodes with these guards above them stand on different arms of one node.
pub fn on_different_arms(first: &[Guard], second: &[Guard]) -> bool
    ensures { result ≡ list_any (λ g. list_any (choose_other_arms g) second.now) first.now }
{
    for guard in first {
        if is_other_arm(guard, second) {
            return true;
        }
    }
    false
}

/// Whether one of the guards chooses another arm of the guard's parent.
fn is_other_arm(guard: &Guard, others: &[Guard]) -> bool
    ensures { result ≡ list_any (choose_other_arms guard.now) others.now }
{
    for other in others {
        if are_other_arms(guard, other) {
            return true;
        }
    }
    false
}

/// Whether two guards choose arms of one parent that differ and share no outcome.
fn are_other_arms(first: &Guard, second: &Guard) -> bool
    ensures { result ≡ choose_other_arms first.now second.now }
{
    first.parent == second.parent && first.mask != second.mask && first.mask & second.mask == 0
}
