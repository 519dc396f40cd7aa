//! Loading: a cell for each key, or keys that have too few.

ghost use Rattle.std.specs.Prelude.{◌≡◌, ◌≢◌, ℕ, ◌<◌, ◌≤◌, ◌^◌, List, length, All, IfOk, IfErr, IsOk, Err, ◌↔◌};
ghost use Rattle.rmt_cuckoo.specs.declared.layout.Ways.{Ways};
ghost use Rattle.rmt_cuckoo.specs.Loading.{IsLoading, IsOverfull, cells_of};
ghost use Rattle.rmt_cuckoo.specs.Told.{Explains};

use crate::choices::Choices;
use crate::fault::LoadFault;
use crate::layout::{Keys, Layout};
use crate::loading::Loading;
use crate::overfull::members;
use crate::search::Search;
use rmt_bits::answer::Numbers;
use rmt_bits::sequence::Sequence;
use std::alloc::Global;

/// A cell for each key: one of those in which the key may stand under this seed, and no two keys in one.
///
/// Keys are taken by number; each takes a free cell of its own, else other keys move on to free one, by a search that
/// comes to no cell twice.
///
/// # Errors
///
/// `Overfull` exactly where there is no such loading: different keys, by number, that have together fewer candidate
/// cells than they are. Else for want of memory.
pub fn load(alloc: Global, layout: &Layout, keys: &Keys, seed: u8) -> Result<Numbers, LoadFault>
    requires parts { length layout.now ≤ 64 }
    requires rows { All (λ (part : Ways). 1 ≤ part.rows) layout.now }
    requires few_cells { cells_of layout.now < 2 ^ 32 }
    requires few_keys { length keys.now < 2 ^ 32 }
    // Each key stands in a candidate cell of its own.
    ensures loaded { IfOk result (λ cells. IsLoading layout.now seed keys.now cells) }
    // Keys that show that there is no loading.
    ensures fault { IfErr result (Explains layout.now seed keys.now) }
    // Ok exactly where a loading exists, unless memory runs out.
    ensures exact { result ≢ Err LoadFault.NoMemory → IsOk result ↔ ((cells : List ℕ) × IsLoading layout.now seed keys.now cells) }
{
    let choices = Choices::new(alloc, layout, keys, seed)?;
    let count = choices.cells as usize;
    let mut loading = Loading::new(alloc, count)?;
    let mut search = Search::new(alloc, count)?;
    for _ in 0..keys.len() {
        if !search.place(&choices, &mut loading)? {
            let members = members(alloc, &loading, search.steps.as_slice())?;
            return Err(LoadFault::Overfull {
                members: Sequence::from_vec(members),
                cells: search.steps.len() as u64,
            });
        }
        search.clear();
        loading.count_taken();
    }
    let Loading { cells, .. } = loading;
    Ok(Sequence::from_vec(cells))
}

/// No table has both a loading and keys with too few cells.
pub fn never_both()
    ensures { (layout : List Ways) (seed : ℕ) (keys : List (List ℕ)) (cells members : List ℕ) (count : ℕ) →
        IsLoading layout seed keys cells → IsOverfull layout seed keys members count → ⊥ }
{}
