//! Copies of entries and of names.

ghost use Rattle.std.specs.Prelude.{◌≡◌, IfOk};

use crate::entry::{Entry, EntryLists};
use crate::name::{Name, NamesFault};
use crate::names::{ActionName, Names, TableName};
use rmt_bits::fault::OutOfMemory;
use rmt_bits::sequence::Sequence;
use std::alloc::{AllocError, Global};

/// A value of which an equal one can be made.
trait Copied: Drop {
    /// An equal value. It is refused for want of memory alone.
    fn copied(&self, alloc: Global) -> Result<Self, AllocError>
        ensures { IfOk result (λ copy. copy ≡ self.now) };
}

/// Equal items, in their order.
fn copied_each<T: Copied>(alloc: Global, items: &[T]) -> Result<Sequence<T>, AllocError>
    ensures { IfOk result (λ copies. copies ≡ items.now) }
{
    let mut copies = Sequence::new(alloc);
    for item in items {
        copies.push(item.copied(alloc)?)?;
    }
    Ok(copies)
}

/// Equal numbers, tests or ranks, in their order.
fn copied_plain<T: Copy>(alloc: Global, items: &Sequence<T>) -> Result<Sequence<T>, AllocError>
    ensures { IfOk result (λ copies. copies ≡ items.now) }
{
    Ok(Sequence::from_vec(Vec::from_slice(alloc, items.as_slice())?))
}

impl<T: Copied> Copied for Sequence<T> {
    fn copied(&self, alloc: Global) -> Result<Self, AllocError> {
        copied_each(alloc, self.as_slice())
    }
}

impl Copied for Name {
    fn copied(&self, alloc: Global) -> Result<Self, AllocError> {
        match self.copy(alloc) {
            Ok(name) => Ok(name),
            Err(_) => Err(AllocError),
        }
    }
}

impl Copied for Entry {
    fn copied(&self, alloc: Global) -> Result<Self, AllocError> {
        Ok(Entry {
            table: self.table,
            number: self.number,
            tests: copied_plain(alloc, &self.tests)?,
            rank: self.rank,
            action: self.action,
            args: copied_plain(alloc, &self.args)?,
        })
    }
}

impl Copied for ActionName {
    fn copied(&self, alloc: Global) -> Result<Self, AllocError> {
        Ok(ActionName {
            name: self.name.copied(alloc)?,
            params: copied_plain(alloc, &self.params)?,
        })
    }
}

impl Copied for TableName {
    fn copied(&self, alloc: Global) -> Result<Self, AllocError> {
        Ok(TableName {
            node: self.node,
            name: self.name.copied(alloc)?,
            kind: self.kind,
            size: self.size,
            keys: copied_plain(alloc, &self.keys)?,
            actions: self.actions.copied(alloc)?,
            ranks: copied_plain(alloc, &self.ranks)?,
        })
    }
}

impl EntryLists {
    /// Equal lists. They are refused for want of memory alone.
    pub fn copy(&self, alloc: Global) -> Result<EntryLists, NamesFault>
        ensures { IfOk result (λ lists. lists ≡ self.now) }
    {
        match copied_each(alloc, self.as_slice()) {
            Ok(lists) => Ok(EntryLists::from_vec(lists.into_vec())),
            Err(_) => Err(OutOfMemory::NoMemory),
        }
    }
}

impl Names {
    /// Equal names. They are refused for want of memory alone.
    pub fn copy(&self, alloc: Global) -> Result<Names, NamesFault>
        ensures { IfOk result (λ names. names ≡ self.now) }
    {
        match self.tables.copied(alloc) {
            Ok(tables) => Ok(Names { tables }),
            Err(_) => Err(OutOfMemory::NoMemory),
        }
    }
}
