//! Seventh part: the names of a configuration are those of a program with its entries.

ghost use Rattle.std.specs.Prelude.{◌↔◌, IfOk, IfSome, IsOkUnless, IsTrue};
ghost use Rattle.rmt_refine.specs.Named.{NamesCarried};
ghost use Rattle.rmt_verify.specs.Given.{CellsCarried, IsGiven, OutOfMemory, UnitsCarried, own_view};

use crate::checked::Checked;
use crate::fault::VerifyFault;
use crate::same::{Same, are_equal, are_same};
use rmt_ast::names::{ActionName, Names, TableName};
use rmt_ast::naming::names_of;
use std::alloc::Global;

impl Same for ActionName {
    fn is_same(&self, other: &ActionName) -> bool {
        are_equal(self.name.as_slice(), other.name.as_slice())
            && are_equal(self.params.as_slice(), other.params.as_slice())
    }
}

impl Same for TableName {
    fn is_same(&self, other: &TableName) -> bool {
        self.node == other.node
            && are_equal(self.name.as_slice(), other.name.as_slice())
            && self.kind == other.kind
            && self.size == other.size
            && are_equal(self.keys.as_slice(), other.keys.as_slice())
            && are_same(self.actions.as_slice(), other.actions.as_slice())
            && are_equal(self.ranks.as_slice(), other.ranks.as_slice())
    }
}

impl Same for Names {
    fn is_same(&self, other: &Names) -> bool {
        are_same(self.tables.as_slice(), other.tables.as_slice())
    }
}

/// Whether the names of a configuration, where it has any, are those of a program with its entries, and its cells and
/// ranks spell these entries.
///
/// Units are those of the nodes, and cells hold the entries: then the entries are spelled where the names are the
/// program's. So the names alone are compared.
///
/// # Errors
///
/// For want of memory.
pub fn names_hold(alloc: Global, given: &Checked) -> Result<bool, VerifyFault>
    requires given { IsGiven given.now.program.now given.now.entries.now given.now.config.now }
    requires units { UnitsCarried given.now.program.now given.now.map.now.places given.now.map.now.placement.parts given.now.map.now.starts given.now.config.now }
    requires cells { CellsCarried given.now.program.now given.now.config.now (own_view given.now.config.now) given.now.map.now.cells given.now.entries.now }
    ensures exact { IfOk result (λ hold. IsTrue hold ↔ IfSome given.now.config.now.names (NamesCarried given.now.program.now given.now.entries.now given.now.config.now)) }
    ensures only_memory { IsOkUnless result OutOfMemory.NoMemory }
{
    match &given.config.names {
        None => Ok(true),
        Some(names) => {
            let own = names_of(alloc, given.program, given.entries)?;
            Ok(names.is_same(&own))
        }
    }
}
