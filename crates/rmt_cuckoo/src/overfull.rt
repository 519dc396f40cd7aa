//! The keys that a failed search has come to.

ghost use Rattle.std.specs.Prelude.{◌≡◌, ℕ, ◌-◌, ◌^◌, ◌<◌, ◌∷◌, length, map, IfOk, slice_index, vec_len};
ghost use Rattle.rmt_cuckoo.specs.declared.search.Step.{Step};
ghost use Rattle.rmt_cuckoo.specs.Search.{cell_at};

use crate::loading::Loading;
use crate::search::Step;
use std::alloc::{AllocError, Global};

/// The key that needs a cell, and those that stand in the cells of the steps.
pub fn members(alloc: Global, loading: &Loading, steps: &[Step]) -> Result<Vec<u32>, AllocError>
    requires few { vec_len loading.now.cells < 2 ^ 32 }
    requires exist { (i : ℕ) → i < length steps.now → cell_at steps.now i < vec_len loading.now.holders }
    requires taken { (i : ℕ) → i < length steps.now → 0 < slice_index loading.now.holders.items (cell_at steps.now i) }
    ensures { IfOk result (λ keys. keys.items ≡ vec_len loading.now.cells ∷ map (λ (s : Step). slice_index loading.now.holders.items s.cell - 1) steps.now) }
{
    let mut keys = Vec::new(alloc);
    keys.push(loading.cells.len() as u32)?;
    for step in steps {
        keys.push(loading.holders[step.cell as usize] - 1)?;
    }
    Ok(keys)
}
