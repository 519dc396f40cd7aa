//! The table that a node applies.

ghost use Rattle.std.specs.Prelude.{◌≡◌, option_copied};
ghost use Rattle.rmt_refine.specs.Units.{applied as applied_by};

use rmt_ast::program::{Node, Program, Table, What};

/// The table that a node applies; None for a gate.
pub fn applied<'a>(program: &'a Program, node: &Node) -> Option<&'a Table>
    ensures { option_copied result ≡ applied_by program.now node.now.what }
{
    match node.what {
        What::Apply(table) => program.tables.get(table as usize),
        What::Gate { .. } => None,
    }
}
