//! The entry lists of a run, as changes come.

ghost use Rattle.std.specs.Prelude.{◌≡◌, ◌<◌, ◌≤◌, ◌+◌, ◌-◌, All, Err, None, Some, IfErr, IfOk, IsTrue, OnErr, OnOk, length, slice_get, slice_set};
ghost use Rattle.std.specs.BTreeSet.{insert_key};
ghost use Rattle.std.specs.Ordering.{nat_cmp};
ghost use Rattle.rmt_ast.specs.Changes.{key_of_entry};
ghost use Rattle.rmt_lists.specs.Entries.{AreEntriesOf, IsNamedEntry, entry_numbers, flat_map, names_are_formed, terms_named};
ghost use Rattle.rmt_lists.specs.declared.held.Held.{Held as HeldOf};
ghost use Rattle.rmt_lists.specs.Holding.{spelled};
ghost use Rattle.rmt_lists.specs.Running.{AreChanges, Running, added_to, commit_of, fresh, is_change, line_change, removed_from, with_one};
ghost use Rattle.rmt_lists.specs.Stands.{IsRefusal, Stands, StandsFor};

use crate::fault::{ChangeFault, UpdateFault};
use crate::held::{Held, refusal_of, spelled};
use crate::reading::{begins, behind_sign, read_entry, read_key, terms_at};
use crate::settle::{come_count, come_of, gone_of, settle};
use crate::start::{held_of, next_number};
use rmt_ast::entry::{Entry, EntryLists};
use rmt_ast::names::Names;
use rmt_bits::sequence::Sequence;
use rmt_entries::named::EntryName;
use std::alloc::{AllocError, Global};
use std::collections::BTreeSet;

/// What a commit changes.
#[derive(Drop)]
pub struct Changes {
    /// The numbers of the entries that it takes away, by rising number.
    pub gone: Sequence<u32>,
    /// The entries that it adds, by rising number.
    pub come: Sequence<Entry>,
}

/// The entries of a run, as of the last commit, with the changes since then. A change is looked up in logarithmic time.
#[derive(Drop)]
pub struct Lists {
    names: Names,
    /// The entries as of the last commit.
    last: EntryLists,
    /// The numbers of those that the changes since then took away.
    gone: BTreeSet<u32>,
    /// The entries that they added, by number, without those that they took away again.
    come: Vec<Option<Entry>>,
    /// The number of the first place of these.
    first: u64,
    /// What each table holds as the changes leave it, by nodes.
    held: Vec<Held>,
    /// How many additions were taken.
    taken: u32,
    /// How many there may be.
    most: u32,
}

impl Lists {
    /// A run of these entries, which may have so many additions.
    ///
    /// # Errors
    ///
    /// For want of memory alone.
    pub fn new(
        alloc: Global,
        names: Names,
        entries: EntryLists,
        most: u32,
    ) -> Result<Lists, UpdateFault>
        requires formed { IsTrue (names_are_formed names) }
        requires entries { AreEntriesOf names entries }
        requires numbers { All (λ n. n < 4293918720) (flat_map entry_numbers entries) }
        requires few { most ≤ 1048576 }
        ensures stands { IfOk result (λ lists. Stands (fresh names entries most) lists) }
        ensures fault { IfErr result (λ fault. fault ≡ UpdateFault.NoMemory) }
    {
        let held = held_of(alloc, entries.as_slice())?;
        let first = next_number(entries.as_slice());
        Ok(Lists {
            names,
            last: entries,
            gone: BTreeSet::new(alloc),
            come: Vec::new(alloc),
            first,
            held,
            taken: 0,
            most,
        })
    }

    /// Takes a change: `+ ` and an entry line adds the entry, which gets the next number, and `- ` and the table and
    /// key words of an entry line removes the entry with that key, of several that of the least number.
    ///
    /// # Errors
    ///
    /// `Refused` with the first of the codes 5 to 9 that the line breaks; else for want of memory. All is then as before.
    pub fn change(&mut self, alloc: Global, line: &[u8]) -> Result<(), ChangeFault>
        requires change { IsTrue (is_change line.now) }
        requires stands { (r : Running) × Stands r self.old }
        ensures changed { OnOk result ((r : Running) → Stands r self.old → StandsFor (line_change r line.now) self.new) }
        ensures fault { IfErr result (λ fault. IsRefusal fault (λ code. (r : Running) → Stands r self.old → line_change r line.now ≡ Err code)) }
        ensures kept { OnErr result ((r : Running) → Stands r self.old → Stands r self.new) }
    {
        if line.len() >= 18_444 {
            return Err(ChangeFault::Refused { code: 5 });
        }
        if begins(b'+', line) {
            let entry = read_entry(alloc, &self.names, behind_sign(line))?;
            self.add(alloc, entry)
        } else {
            let key = read_key(alloc, &self.names, behind_sign(line))?;
            self.remove(alloc, key)
        }
    }

    /// Adds an entry that the names allow.
    fn add(&mut self, alloc: Global, entry: Entry) -> Result<(), ChangeFault>
        requires stands { (r : Running) × Stands r self.old }
        requires named { IsNamedEntry self.old.names entry }
        ensures changed { OnOk result ((r : Running) → Stands r self.old →
            StandsFor (added_to r entry (terms_named r.names entry.table)) self.new) }
        ensures fault { IfErr result (λ fault. IsRefusal fault (λ code. (r : Running) → Stands r self.old →
            added_to r entry (terms_named r.names entry.table) ≡ Err code)) }
        ensures kept { OnErr result ((r : Running) → Stands r self.old → Stands r self.new) }
    {
        let Some(terms) = terms_at(&self.names, entry.table) else {
            return Err(ChangeFault::Refused { code: 5 });
        };
        let key = spelled(alloc, entry.tests.as_slice(), entry.rank)?;
        let held = &self.held[entry.table as usize];
        if let Some(code) = refusal_of(held, terms, self.most, self.taken, &key) {
            return Err(ChangeFault::Refused { code });
        }
        self.install(alloc, entry, key)?;
        Ok(())
    }

    /// Puts an entry behind the others of its table, with the next number. The only fault is want of memory.
    fn install(&mut self, alloc: Global, entry: Entry, key: Vec<u128>) -> Result<(), AllocError>
        requires own { key.items ≡ spelled (key_of_entry entry) }
        requires within { entry.table < length self.old.held.items }
        requires room { (h : HeldOf) → slice_get self.old.held.items entry.table ≡ Some h → h.count < 4294967295 }
        requires number { self.old.first + length self.old.come.items < 4294967296 }
        requires few { self.old.taken < self.old.most }
        ensures changed { OnOk result ((r : Running) → Stands r self.old → Stands (with_one r entry) self.new) }
        ensures kept { OnErr result ((r : Running) → Stands r self.old → Stands r self.new) }
    {
        self.come.reserve(1)?;
        let number = (self.first + self.come.len() as u64) as u32;
        self.held[entry.table as usize].push(alloc, key, number)?;
        self.come.push_reserved(Some(Entry {
            table: entry.table,
            number,
            tests: entry.tests,
            rank: entry.rank,
            action: entry.action,
            args: entry.args,
        }));
        self.taken += 1;
        Ok(())
    }

    /// Removes the entry of a key.
    fn remove(&mut self, alloc: Global, key: EntryName) -> Result<(), ChangeFault>
        requires stands { (r : Running) × Stands r self.old }
        ensures changed { OnOk result ((r : Running) → Stands r self.old → StandsFor (removed_from r key) self.new) }
        ensures fault { IfErr result (λ fault. IsRefusal fault (λ code. (r : Running) → Stands r self.old → removed_from r key ≡ Err code)) }
        ensures kept { OnErr result ((r : Running) → Stands r self.old → Stands r self.new) }
    {
        let words = spelled(alloc, key.tests.as_slice(), key.rank)?;
        let node = key.table as usize;
        if node >= self.held.len() {
            return Err(ChangeFault::Refused { code: 8 });
        }
        let Some(number) = self.held[node].first(&words) else {
            return Err(ChangeFault::Refused { code: 8 });
        };
        take_away(&mut self.gone, &mut self.come, self.first, number)?;
        self.held[node].pop(&words);
        Ok(())
    }

    /// Commits the changes since the last commit, and says what they changed: an entry that was added and removed is
    /// no change.
    ///
    /// # Errors
    ///
    /// For want of memory alone. All is then as before.
    pub fn commit(&mut self, alloc: Global) -> Result<Changes, UpdateFault>
        requires stands { (r : Running) × Stands r self.old }
        ensures committed { OnOk result ((r : Running) → Stands r self.old → Stands (commit_of r) self.new) }
        ensures changes { IfOk result (λ changes. (r : Running) → Stands r self.old → AreChanges r.last r.now.lists changes) }
        ensures fault { IfErr result (λ fault. fault ≡ UpdateFault.NoMemory) }
        ensures kept { OnErr result ((r : Running) → Stands r self.old → Stands r self.new) }
    {
        let gone = gone_of(alloc, &self.gone)?;
        let places = self.come.as_slice();
        let room = Vec::with_capacity(alloc, come_count(places))?;
        let held = self.held.as_slice();
        settle(alloc, &mut self.last, &self.gone, places, held, self.first)?;
        self.first += self.come.len() as u64;
        let come = come_of(self.come.as_mut_slice(), room);
        self.come.clear();
        self.gone.clear();
        Ok(Changes { gone, come })
    }

    /// The entries as of the last commit.
    pub fn current(&self) -> &EntryLists
        ensures { (r : Running) → Stands r self.now → result.now ≡ r.last }
    {
        &self.last
    }
}

/// Takes away the entry of a number: it goes where it was there at the last commit, and else it doesn't come. The only
/// fault is want of memory.
fn take_away(
    gone: &mut BTreeSet<u32>,
    come: &mut Vec<Option<Entry>>,
    first: u64,
    number: u32,
) -> Result<(), AllocError>
    ensures goes { OnOk result (number < first →
        (gone.new.keys ≡ insert_key nat_cmp gone.old.keys number) × (come.new.items ≡ come.old.items)) }
    ensures stays { OnOk result (first ≤ number →
        (gone.new.keys ≡ gone.old.keys) × (come.new.items ≡ slice_set come.old.items (number - first) None)) }
    ensures kept { OnErr result ((gone.new.keys ≡ gone.old.keys) × (come.new.items ≡ come.old.items)) }
{
    let number64 = u64::from(number);
    if number64 < first {
        gone.insert(number)?;
        return Ok(());
    }
    let place = (number64 - first) as usize;
    if place < come.len() {
        come[place] = None;
    }
    Ok(())
}
