//! How a commit changes the cells of a run.

ghost use Rattle.std.specs.Prelude.{◌≡◌, ◌+◌, ◌≤◌, IfErr, IfOk, List, OnErr, Some, false, length};
ghost use Rattle.rmt_update.specs.Types.{Config as ConfigOf, Entry as EntryOf, Names as NamesOf, RunCells};
ghost use Rattle.rmt_update.specs.BookStands.{BookStands};
ghost use Rattle.rmt_update.specs.Planned.{IsPlanned, IsUnplanned, MayChange, changed_lists};
ghost use Rattle.rmt_update.specs.Recent.{recent};

use crate::book::Book;
use rmt_config::cell_write::CellWrite;
use rmt_lists::fault::UpdateFault;
use rmt_lists::lists::Changes;
use std::alloc::Global;

/// How a commit changes the cells of a run.
#[derive(Drop)]
pub struct Plan {
    /// Whether a cell must move: then the cells change once no packet is in flight.
    pub moved: bool,
    /// The seed of the next version.
    pub seed: u8,
    /// The cells that change, by stage, unit and cell.
    pub writes: Vec<CellWrite>,
}

impl Book {
    /// Goes on to the next version, and tells the cells that change: the entries of these numbers go, and these entries
    /// come. Where no cell moves, it changes at most the cells without both visible bits, as many as entries go, and as many as
    /// come; behind it at most the last two lack a visible bit.
    ///
    /// # Errors
    ///
    /// `LoadFull` where a cell must move, and under each seed from 0 to 7 some exact table has no loading; else for want of
    /// memory. All is then as before.
    pub fn plan(&mut self, alloc: Global, changes: &Changes) -> Result<Plan, UpdateFault>
        requires may { (c : ConfigOf) × (names : NamesOf) × (cells : RunCells) × (lists : List (List EntryOf)) × BookStands c cells lists self.old × (c.names ≡ Some names) × MayChange c names cells lists changes.now }
        ensures planned { IfOk result (λ plan. (c : ConfigOf) (names : NamesOf) (cells : RunCells) (lists : List (List EntryOf)) → BookStands c cells lists self.old → c.names ≡ Some names → MayChange c names cells lists changes.now →
            (next : RunCells) × IsPlanned c names cells lists (changed_lists lists changes.now) plan next self.new) }
        ensures refused { IfErr result (λ fault. (c : ConfigOf) (names : NamesOf) (cells : RunCells) (lists : List (List EntryOf)) → BookStands c cells lists self.old → c.names ≡ Some names → MayChange c names cells lists changes.now →
            IsUnplanned c names cells lists (changed_lists lists changes.now) fault) }
        ensures few { IfOk result (λ plan. plan.moved ≡ false → length plan.writes.items ≤ length (recent self.old.tables.items) + length changes.now.gone + length changes.now.come) }
        ensures recent { IfOk result (λ plan. plan.moved ≡ false → length (recent self.new.tables.items) ≤ length changes.now.gone + length changes.now.come) }
        ensures kept { OnErr result ((c : ConfigOf) (cells : RunCells) (lists : List (List EntryOf)) → BookStands c cells lists self.old → BookStands c cells lists self.new) }
    {
        let mut index = self.take_index(alloc)?;
        match self.place(alloc, changes, &mut index)? {
            Some(come) => {
                let writes = self.settle(alloc, changes, come, index)?;
                Ok(Plan {
                    moved: false,
                    seed: self.seed,
                    writes,
                })
            }
            None => self.load(alloc, changes),
        }
    }
}
