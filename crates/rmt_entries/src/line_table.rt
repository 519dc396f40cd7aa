//! What the lines of entries need of a table.

ghost use Rattle.std.specs.Prelude.{◌≡◌, ◌<◌, [], length, position, slice_index_or, IfSome};
ghost use Rattle.std.specs.Str.{bytes_eq};
ghost use Rattle.rmt_ast.specs.NameList.{number_of};
ghost use Rattle.rmt_ast.specs.declared.names.ActionName.{ActionName};
ghost use Rattle.rmt_entries.specs.NamedLines.{named_table};
ghost use Rattle.rmt_entries.specs.NamedTables.{seen_table};
ghost use Rattle.rmt_entries.specs.Tables.{AppliedTable};

use crate::tables::NamedTable;
use rmt_ast::names::{ActionName, TableName};
use rmt_ast::program::Kind;

/// A table that lines say entries of.
pub trait LineTable {
    /// Which it is.
    ghost applied: { Self → AppliedTable };

    /// The number of the node that applies it, how its entries match, and the widths of its key's fields.
    fn heading(&self) -> (u32, Kind, &[u8])
        ensures node { result.0 ≡ (applied self.now).node }
        ensures kind { result.1 ≡ (applied self.now).terms.kind }
        ensures widths { result.2.now ≡ (applied self.now).terms.widths };

    /// The place of the action of a name in its list.
    fn action(&self, name: &[u8]) -> Option<usize>
        ensures number { result ≡ number_of (applied self.now).actions name.now }
        ensures within { IfSome result (λ n. n < length (applied self.now).actions) };

    /// The widths of the parameters of the action at a place of its list, none at a place that it doesn't have.
    fn params(&self, action: u32) -> &[u8]
        ensures { result.now ≡ slice_index_or (applied self.now).terms.params action [] };
}

/// Names of actions are looked up in their index.
impl<'a> LineTable for NamedTable<'a> {
    ghost applied = { seen_table };

    fn heading(&self) -> (u32, Kind, &[u8]) {
        (self.node, self.kind, self.widths.as_slice())
    }

    fn action(&self, name: &[u8]) -> Option<usize> {
        self.actions.number(name)
    }

    fn params(&self, action: u32) -> &[u8] {
        match self.params.get(action as usize) {
            Some(params) => *params,
            None => b"".as_slice(),
        }
    }
}

/// Names of actions are looked for one after another, so that nothing is made for one line.
impl LineTable for TableName {
    ghost applied = { named_table };

    fn heading(&self) -> (u32, Kind, &[u8]) {
        (self.node, self.kind, self.keys.as_slice())
    }

    fn action(&self, name: &[u8]) -> Option<usize> {
        place_of(self.actions.as_slice(), name)
    }

    fn params(&self, action: u32) -> &[u8] {
        match self.actions.get(action as usize) {
            Some(action) => action.params.as_slice(),
            None => b"".as_slice(),
        }
    }
}

/// The place of the first action of a name.
fn place_of(actions: &[ActionName], name: &[u8]) -> Option<usize>
    ensures place { result ≡ position (λ (a : ActionName). bytes_eq name.now a.name) actions.now }
    ensures within { IfSome result (λ n. n < length actions.now) }
{
    actions
        .iter()
        .position(|action| name == action.name.as_slice())
}
