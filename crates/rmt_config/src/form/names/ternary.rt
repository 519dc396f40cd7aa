//! The rules on the entries of a ternary table.

ghost use Rattle.std.specs.Prelude.{◌≡◌, IsTrue, All};
ghost use Rattle.rmt_ast.specs.declared.program.Kind.TheVariants as kind;
ghost use Rattle.rmt_config.specs.CellForm.{entries_are_numbered};
ghost use Rattle.rmt_config.specs.NamesForm.{has_parts, is_filled_so};
ghost use Rattle.rmt_config.specs.Rooms.{parts_of};
ghost use Rattle.rmt_config.specs.PartStands.{PartStands};
ghost use Rattle.rmt_config.specs.PartsTold.{listed_numbers};

use crate::config::Config;
use crate::form::names::order::ranks_fit;
use rmt_ast::names::TableName;

/// Whether the ranks of a ternary table list the numbers of its entries in the order of their rows, and the entries
/// are not too many.
pub fn ternary_fits(_config: &Config, table: &TableName, numbers: &[u32]) -> bool
    requires kind { table.now.kind ≡ kind.Ternary }
    requires numbers { numbers.now ≡ listed_numbers (parts_of _config.now table.now.node) }
    requires distinct { IsTrue (entries_are_numbered _config.now) }
    requires parts { IsTrue (has_parts _config.now table.now) }
    requires stand { All (PartStands _config.now) (parts_of _config.now table.now.node) }
    ensures { result ≡ is_filled_so _config.now table.now }
{
    ranks_fit(table.ranks.as_slice(), numbers, table.size)
}
