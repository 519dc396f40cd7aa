//! The search for a cell: breadth first over the cells of the keys that would have to move.

ghost use Rattle.std.specs.Prelude.{◌≡◌, ℕ, ◌+◌, ◌<◌, ◌≤◌, ◌^◌, [], List, None, false, replicate, length, All, IfOk, OnOk, slice_index, vec_len};
ghost use Rattle.rmt_cuckoo.specs.Choices.{AreWithin, choices_at};
ghost use Rattle.rmt_cuckoo.specs.Search.{AreTaken, IsLoaded, IsReady, IsMarked, IsSeen, IsSearching, Grows, Looked, Searched, cell_at, key_at as key_of};

use crate::choices::Choices;
use crate::loading::Loading;
use std::alloc::{AllocError, Global};

/// A cell that a search has come to, and the place from which it came: 0 for the key that needs a cell, and i + 1
/// for the key in the cell of step i.
#[derive(Clone, Copy, Debug)]
pub struct Step {
    pub cell: u32,
    pub from: usize,
}

/// The steps of a search, which of the cells it has seen, and the cells of the key that it looks at.
#[derive(Drop)]
pub struct Search {
    pub steps: Vec<Step>,
    pub seen: Vec<bool>,
    pub row: Vec<u32>,
}

/// Steps from a place to each cell of a row that was not seen.
fn mark(
    row: &[u32],
    place: usize,
    steps: &mut Vec<Step>,
    seen: &mut Vec<bool>,
) -> Result<(), AllocError>
    requires within { All (λ c. c < vec_len seen.old) row.now }
    requires marks { IsMarked steps.old.items seen.old.items }
    ensures grows { OnOk result (Grows place row.now steps.old.items seen.old.items steps.new.items seen.new.items) }
    ensures all { OnOk result (All (IsSeen seen.new.items) row.now) }
{
    for cell in row {
        if !seen[*cell as usize] {
            seen[*cell as usize] = true;
            steps.push(Step {
                cell: *cell,
                from: place,
            })?;
        }
    }
    Ok(())
}

/// Takes the marks of the steps back.
fn unmark(steps: &[Step], seen: &mut Vec<bool>)
    requires { IsMarked steps.now seen.old.items }
    ensures size { vec_len seen.new ≡ vec_len seen.old }
    ensures marks { IsMarked [] seen.new.items }
{
    for step in steps {
        seen[step.cell as usize] = false;
    }
}

/// The key at a place of the search: 0 is the key that needs a cell.
fn key_at(steps: &[Step], loading: &Loading, place: usize) -> usize
    requires known { place ≤ length steps.now }
    requires exist { (i : ℕ) → i < length steps.now → cell_at steps.now i < vec_len loading.now.holders }
    requires taken { (i : ℕ) → i < length steps.now → 0 < slice_index loading.now.holders.items (cell_at steps.now i) }
    ensures { result ≡ key_of (vec_len loading.now.cells) steps.now loading.now.holders.items place }
{
    if place == 0 {
        loading.cells.len()
    } else {
        let step = steps[place - 1];
        loading.holders[step.cell as usize] as usize - 1
    }
}

/// Puts the next key into the loading: each key on the way from it to a free cell moves on by one.
fn settle(steps: &[Step], loading: &mut Loading, free: u32, place: usize) -> Result<(), AllocError>
    requires few { vec_len loading.old.cells + 1 < 2 ^ 32 }
    requires ready { (choices : ℕ → List ℕ) × IsReady choices (vec_len loading.old.cells) loading.old steps.now free place }
    requires taken { AreTaken loading.old.holders.items loading.old.taken }
    ensures loaded { OnOk result ((choices : ℕ → List ℕ) → IsReady choices (vec_len loading.old.cells) loading.old steps.now free place →
        IsLoaded choices (vec_len loading.old.cells + 1) loading.new) }
    ensures size { OnOk result (vec_len loading.new.holders ≡ vec_len loading.old.holders) }
    ensures taken { OnOk result (AreTaken loading.new.holders.items loading.new.taken) }
{
    let mut hole = free;
    let mut place = place;
    while place > 0 {
        let step = steps[place - 1];
        loading.shift(step.cell, hole);
        hole = step.cell;
        place = step.from;
    }
    loading.add(hole)
}

impl Search {
    /// A search that has come to none of so many cells.
    pub fn new(alloc: Global, cells: usize) -> Result<Search, AllocError>
        ensures steps { IfOk result (λ s. s.steps.items ≡ []) }
        ensures seen { IfOk result (λ s. s.seen.items ≡ replicate cells false) }
    {
        let seen = vec![in alloc; false; cells]?;
        Ok(Search {
            steps: Vec::new(alloc),
            seen,
            row: Vec::new(alloc),
        })
    }

    /// Forgets what it has come to.
    pub fn clear(&mut self)
        requires { IsMarked self.old.steps.items self.old.seen.items }
        ensures steps { self.new.steps.items ≡ [] }
        ensures size { vec_len self.new.seen ≡ vec_len self.old.seen }
        ensures marks { IsMarked [] self.new.seen.items }
    {
        unmark(self.steps.as_slice(), &mut self.seen);
        self.steps.clear();
    }

    /// Looks for a free cell of the key at a place; where there is none, steps to each of its cells that was not seen.
    fn look(
        &mut self,
        choices: &Choices,
        loading: &Loading,
        place: usize,
    ) -> Result<Option<u32>, AllocError>
        requires known { place ≤ vec_len self.old.steps }
        requires within { AreWithin (vec_len loading.now.cells + 1) (vec_len loading.now.holders) choices.now }
        requires few { vec_len loading.now.holders < 2 ^ 32 }
        requires loaded { IsLoaded (choices_at choices.now) (vec_len loading.now.cells) loading.now }
        requires taken { AreTaken loading.now.holders.items loading.now.taken }
        requires searching { IsSearching (choices_at choices.now) (vec_len loading.now.cells) loading.now.holders.items self.old.steps.items self.old.seen.items place }
        ensures { IfOk result (Looked (choices_at choices.now) (vec_len loading.now.cells) loading.now.holders.items place self.old self.new) }
    {
        let key = key_at(self.steps.as_slice(), loading, place);
        match choices.free_cell(key, loading.holders.as_slice(), loading.taken) {
            Some(cell) => Ok(Some(cell)),
            None => {
                choices.put(key, &mut self.row)?;
                mark(self.row.as_slice(), place, &mut self.steps, &mut self.seen)?;
                Ok(None)
            }
        }
    }

    /// Finds a cell for the next key, moving other keys where it has to. False where that cannot be: then the search
    /// has come to every cell of the keys that it has looked at, and all are taken.
    pub fn place(&mut self, choices: &Choices, loading: &mut Loading) -> Result<bool, AllocError>
        requires within { AreWithin (vec_len loading.old.cells + 1) (vec_len loading.old.holders) choices.now }
        requires few { vec_len loading.old.holders < 2 ^ 32 }
        requires few_keys { vec_len loading.old.cells + 1 < 2 ^ 32 }
        requires loaded { IsLoaded (choices_at choices.now) (vec_len loading.old.cells) loading.old }
        requires taken { AreTaken loading.old.holders.items loading.old.taken }
        requires size { vec_len self.old.seen ≡ vec_len loading.old.holders }
        requires steps { self.old.steps.items ≡ [] }
        requires marks { IsMarked [] self.old.seen.items }
        ensures searched { IfOk result (Searched (choices_at choices.now) (vec_len loading.old.cells) loading.new self.new) }
        ensures marks { OnOk result (IsMarked self.new.steps.items self.new.seen.items) }
        ensures seen { OnOk result (vec_len self.new.seen ≡ vec_len self.old.seen) }
        ensures holders { OnOk result (vec_len loading.new.holders ≡ vec_len loading.old.holders) }
        ensures taken { OnOk result (AreTaken loading.new.holders.items loading.new.taken) }
    {
        let mut place = 0;
        while place <= self.steps.len() {
            if let Some(free) = self.look(choices, loading, place)? {
                settle(self.steps.as_slice(), loading, free, place)?;
                return Ok(true);
            }
            place += 1;
        }
        Ok(false)
    }
}
