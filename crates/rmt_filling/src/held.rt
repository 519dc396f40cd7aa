//! The bits of data that an entry holds.

ghost use Rattle.std.specs.Prelude.{◌≡◌, ◌≤◌};
ghost use Rattle.rmt_ast.specs.WellFormed.{IsProgram};
ghost use Rattle.rmt_pack.specs.Placements.{data_bits as bits_of_data};

use rmt_ast::program::{Program, Table};
use rmt_pack::need::data_bits;

/// The bits of data that an entry of a table holds, at most 2,048: the parameters of the listed action with most.
pub fn held_bits(program: &Program, table: &Table) -> u16
    requires { IsProgram program.now }
    ensures bits { result ≡ bits_of_data program.now table.now }
    ensures few { result ≤ 2048 }
{
    data_bits(program, table) as u16
}
