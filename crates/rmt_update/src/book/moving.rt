//! A commit that moves cells.

ghost use Rattle.std.specs.Prelude.{◌≡◌, ◌<◌, ◌≤◌, ◌^◌, IfErr, IfOk, List, None, OnErr, Some, length, true};
ghost use Rattle.rmt_update.specs.Types.{Config as ConfigOf, Entry as EntryOf, Names as NamesOf, RunCells};
ghost use Rattle.rmt_config.specs.Commits.{placed_after};
ghost use Rattle.rmt_update.specs.BookStands.{BookStands};
ghost use Rattle.rmt_update.specs.Moved.{with_parts};
ghost use Rattle.rmt_update.specs.Planned.{IsPlanned, IsUnplanned, MayChange, changed_lists};

use crate::book::Book;
use crate::book::after::lists_after;
use crate::book::differences::differences;
use crate::book::loading::load_all;
use crate::book::plan::Plan;
use crate::book::refill::moved_parts;
use rmt_book::table::{PartCells, TableCells};
use rmt_lists::fault::UpdateFault;
use rmt_lists::lists::Changes;
use std::alloc::Global;

/// Puts parts in the place of those of tables.
pub fn put_back(tables: &mut Vec<TableCells>, moved: Vec<Vec<PartCells>>)
    requires { length moved.items ≤ length tables.old.items }
    ensures { tables.new.items ≡ with_parts tables.old.items moved.items }
{
    let mut at: usize = 0;
    for parts in moved {
        tables[at].parts = parts;
        at += 1;
    }
}

/// A number of 32 bits is below 2^32.
fn is_word(number: u32)
    ensures { number < 2 ^ 32 }
{}

impl Book {
    /// Goes on to the next version, where its entries are loaded into cells anew.
    ///
    /// # Errors
    ///
    /// `LoadFull` where under each seed from 0 to 7 some exact table has no loading; else for want of memory. All is then
    /// as before.
    pub fn load(&mut self, alloc: Global, changes: &Changes) -> Result<Plan, UpdateFault>
        requires { (c : ConfigOf) × (names : NamesOf) × (cells : RunCells) × (lists : List (List EntryOf)) × BookStands c cells lists self.old × (c.names ≡ Some names) × MayChange c names cells lists changes.now
            × (placed_after c names cells lists (changed_lists lists changes.now) ≡ None) }
        ensures planned { IfOk result (λ plan. (c : ConfigOf) (names : NamesOf) (cells : RunCells) (lists : List (List EntryOf)) → BookStands c cells lists self.old → c.names ≡ Some names → MayChange c names cells lists changes.now →
            placed_after c names cells lists (changed_lists lists changes.now) ≡ None → (next : RunCells) × IsPlanned c names cells lists (changed_lists lists changes.now) plan next self.new) }
        ensures refused { IfErr result (λ fault. (c : ConfigOf) (names : NamesOf) (cells : RunCells) (lists : List (List EntryOf)) → BookStands c cells lists self.old → c.names ≡ Some names → MayChange c names cells lists changes.now →
            placed_after c names cells lists (changed_lists lists changes.now) ≡ None → IsUnplanned c names cells lists (changed_lists lists changes.now) fault) }
        ensures moved { IfOk result (λ plan. plan.moved ≡ true) }
        ensures kept { OnErr result ((c : ConfigOf) (cells : RunCells) (lists : List (List EntryOf)) → BookStands c cells lists self.old → BookStands c cells lists self.new) }
    {
        is_word(self.nodes);
        let before = self.entries(alloc)?;
        let after = lists_after(alloc, before, changes)?;
        let loaded = load_all(alloc, self.tables.as_slice(), &after)?;
        let spots = loaded.spots.as_slice();
        let parts = moved_parts(alloc, self.tables.as_slice(), &after, spots)?;
        let writes = differences(alloc, self.tables.as_slice(), parts.as_slice())?;
        put_back(&mut self.tables, parts);
        self.index = None;
        self.odd = !self.odd;
        self.seed = loaded.seed;
        Ok(Plan {
            moved: true,
            seed: loaded.seed,
            writes,
        })
    }
}
