//! Which key stands in which cell.

ghost use Rattle.std.specs.Prelude.{◌≡◌, ℕ, ◌+◌, ◌-◌, ◌<◌, ◌≤◌, ◌^◌, ◌++◌, ◌∷◌, [], length, replicate, IfOk, OnOk, slice_index, slice_set, vec_len};
ghost use Rattle.rmt_cuckoo.specs.Search.{AreTaken};

use std::alloc::{AllocError, Global};

/// By cell, the number of the key that stands there plus 1, or 0 where none does; the cells of the keys that stand, by
/// their numbers from 0 on; and how many cells are known to be all taken from the first one on.
#[derive(Drop)]
pub struct Loading {
    pub holders: Vec<u32>,
    pub cells: Vec<u32>,
    pub taken: u32,
}

/// How many cells are all taken from the first one on, of which so many are known.
fn taken_from(holders: &[u32], known: u32) -> u32
    requires few { length holders.now < 2 ^ 32 }
    requires taken { AreTaken holders.now known }
    ensures { AreTaken holders.now result }
{
    for cell in known..holders.len() as u32 {
        if holders[cell as usize] == 0 {
            return cell;
        }
    }
    holders.len() as u32
}

impl Loading {
    /// No key stands in any of so many cells.
    pub fn new(alloc: Global, cells: usize) -> Result<Loading, AllocError>
        ensures holders { IfOk result (λ l. l.holders.items ≡ replicate cells 0) }
        ensures cells { IfOk result (λ l. l.cells.items ≡ []) }
        ensures taken { IfOk result (λ l. l.taken ≡ 0) }
    {
        let holders = vec![in alloc; 0; cells]?;
        Ok(Loading {
            holders,
            cells: Vec::new(alloc),
            taken: 0,
        })
    }

    /// Moves the key of a taken cell to another cell.
    pub fn shift(&mut self, from: u32, to: u32)
        requires from { from < vec_len self.old.holders }
        requires to { to < vec_len self.old.holders }
        requires taken { 0 < slice_index self.old.holders.items from }
        requires known { slice_index self.old.holders.items from ≤ vec_len self.old.cells }
        ensures holders { self.new.holders.items ≡ slice_set (slice_set self.old.holders.items to (slice_index self.old.holders.items from)) from 0 }
        ensures cells { self.new.cells.items ≡ slice_set self.old.cells.items (slice_index self.old.holders.items from - 1) to }
        ensures taken { self.new.taken ≡ self.old.taken }
    {
        let holder = self.holders[from as usize];
        self.holders[to as usize] = holder;
        self.holders[from as usize] = 0;
        self.cells[holder as usize - 1] = to;
    }

    /// Puts the next key into a cell.
    pub fn add(&mut self, cell: u32) -> Result<(), AllocError>
        requires exists { cell < vec_len self.old.holders }
        requires few { vec_len self.old.cells + 1 < 2 ^ 32 }
        ensures holders { OnOk result (self.new.holders.items ≡ slice_set self.old.holders.items cell (vec_len self.old.cells + 1)) }
        ensures cells { OnOk result (self.new.cells.items ≡ self.old.cells.items ++ cell ∷ []) }
        ensures taken { OnOk result (self.new.taken ≡ self.old.taken) }
    {
        self.cells.push(cell)?;
        self.holders[cell as usize] = self.cells.len() as u32;
        Ok(())
    }

    /// Counts the taken cells that follow.
    pub fn count_taken(&mut self)
        requires few { vec_len self.old.holders < 2 ^ 32 }
        requires taken { AreTaken self.old.holders.items self.old.taken }
        ensures holders { self.new.holders.items ≡ self.old.holders.items }
        ensures cells { self.new.cells.items ≡ self.old.cells.items }
        ensures taken { AreTaken self.new.holders.items self.new.taken }
    {
        self.taken = taken_from(self.holders.as_slice(), self.taken);
    }
}
