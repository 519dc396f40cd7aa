//! The entries of the lines so far.

ghost use Rattle.std.specs.Prelude.{◌≡◌, ◌<◌, ◌++◌, ◌∷◌, ◌&&◌, [], Ok, Err, List, Option, length, IfOk, IfErr, OnOk};
ghost use Rattle.rmt_ast.specs.declared.program.Kind.{Kind};
ghost use Rattle.rmt_ast.specs.declared.entry.Entry.{Entry};
ghost use Rattle.rmt_ast.specs.EntryLists.{Terms};
ghost use Rattle.rmt_entries.specs.Entries.{admitted, has_keys_once, identity, is_repeated};
ghost use Rattle.rmt_entries.specs.NamedTables.{seen_table};
ghost use Rattle.rmt_entries.specs.LinesSoFar.{Gathers, IsAppliedBy, IsFault, Knows, is_once};

use crate::fault::EntryFault;
use crate::key_set::KeySet;
use crate::tables::NamedTable;
use rmt_ast::entry::Entry;
use rmt_ast::program::Kind;
use rmt_bits::sequence::Sequence;
use std::alloc::{AllocError, Global};

/// The entries of the lines so far.
#[derive(Drop)]
pub struct Gathered {
    /// A list for each node.
    pub lists: Vec<Sequence<Entry>>,
    /// What no two entries of an exact or a prefix table share: the table, the length of a prefix, and the values.
    pub keys: KeySet,
    /// How many there are.
    pub number: u32,
    /// What the last of them shares with no other one, whose memory is taken again for the next.
    key: Vec<u128>,
}

impl Gathered {
    /// No entries, for so many nodes, with places for so many keys. The only fault is want of memory.
    pub fn new(alloc: Global, nodes: usize, places: usize) -> Result<Gathered, AllocError>
        requires { 0 < places }
        ensures { IfOk result (λ g. (terms : List (Option Terms)) → length terms ≡ nodes → Gathers terms [] g) }
    {
        let mut lists = Vec::new(alloc);
        for _ in 0..nodes {
            lists.push(Sequence::new(alloc))?;
        }
        Ok(Gathered {
            lists,
            keys: KeySet::new(alloc, places)?,
            number: 0,
            key: Vec::new(alloc),
        })
    }

    /// Adds an entry of a table. The fault is of code 6 where an exact or a prefix table has its key, and of code 7
    /// where the table has as many entries as its size; after a fault nothing is known of the entries.
    pub fn admit(
        &mut self,
        table: &NamedTable<'_>,
        entry: Entry,
        line: u32,
    ) -> Result<(), EntryFault>
        requires few { self.old.number < 4294967295 }
        requires own { entry.table ≡ table.now.node }
        requires within { entry.table < length self.old.lists.items }
        ensures admitted { OnOk result ((terms : List (Option Terms)) (es : List Entry) → Gathers terms es self.old →
            IsAppliedBy terms (seen_table table.now) →
            admitted es (Ok (record { table = seen_table table.now; entry = entry })) ≡ Ok entry) }
        ensures gathered { OnOk result ((terms : List (Option Terms)) (es : List Entry) → Gathers terms es self.old →
            IsAppliedBy terms (seen_table table.now) → Gathers terms (es ++ entry ∷ []) self.new) }
        ensures fault { IfErr result (λ fault. IsFault fault line (λ code. (terms : List (Option Terms)) (es : List Entry) →
            Gathers terms es self.old → IsAppliedBy terms (seen_table table.now) →
            admitted es (Ok (record { table = seen_table table.now; entry = entry })) ≡ Err code)) }
    {
        if see_key(&mut self.keys, &mut self.key, table.kind, &entry)? {
            return Err(EntryFault::At { code: 6, line });
        }
        let node = entry.table as usize;
        if table.size as usize <= self.lists[node].len() {
            return Err(EntryFault::At { code: 7, line });
        }
        self.lists[node].push(entry)?;
        self.number += 1;
        Ok(())
    }
}

/// Sees the key of an entry of a table of this kind, which it may put into `key`, and says whether it was seen before;
/// those of other than exact and prefix tables never are. The only fault is want of memory.
fn see_key(
    keys: &mut KeySet,
    key: &mut Vec<u128>,
    kind: Kind,
    entry: &Entry,
) -> Result<bool, AllocError>
    ensures again { IfOk result (λ again. (terms : List (Option Terms)) (es : List Entry) → Knows terms es keys.old →
        is_once terms entry.now.table ≡ has_keys_once kind → again ≡ (has_keys_once kind && is_repeated es entry.now)) }
    ensures seen { IfOk result (λ again. (terms : List (Option Terms)) (es : List Entry) → Knows terms es keys.old →
        is_once terms entry.now.table ≡ has_keys_once kind → Knows terms (es ++ entry.now ∷ []) keys.new) }
{
    if !has_keys_once(kind) {
        return Ok(false);
    }
    put_identity(key, entry)?;
    let is_new = keys.insert(key)?;
    Ok(!is_new)
}

/// Whether the entries of tables of this kind have distinct keys.
fn has_keys_once(kind: Kind) -> bool
    ensures { result ≡ has_keys_once kind }
{
    matches!(kind, Kind::Exact | Kind::Prefix)
}

/// Puts what no two entries of an exact or a prefix table share in place of what a vector has. The only fault is want of
/// memory.
fn put_identity(key: &mut Vec<u128>, entry: &Entry) -> Result<(), AllocError>
    ensures { OnOk result (key.new.items ≡ identity entry.now) }
{
    key.clear();
    key.push(u128::from(entry.table))?;
    key.push(u128::from(entry.rank))?;
    for test in entry.tests.as_slice() {
        key.push(test.value)?;
    }
    Ok(())
}
