//! What is made is added to lists.

ghost use Rattle.std.specs.Prelude.{◌≡◌, ◌++◌, ◌∷◌, [], IfOk, IsOk, OnOk};

use std::alloc::AllocError;

/// Adds what was made, if anything, at the end of a list. The only fault is want of memory.
pub fn add_made<T: Drop>(list: &mut Vec<T>, made: Result<T, AllocError>) -> Result<(), AllocError>
    ensures { OnOk result (IsOk made × IfOk made (λ item. list.new.items ≡ list.old.items ++ item ∷ [])) }
{
    list.push(made?)?;
    Ok(())
}
