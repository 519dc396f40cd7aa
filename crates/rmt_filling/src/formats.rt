//! The memory formats of the nodes of a program.

ghost use Rattle.std.specs.Prelude.{◌≡◌, IfOk};
ghost use Rattle.rmt_ast.specs.WellFormed.{IsProgram, IsTable};
ghost use Rattle.rmt_filling.specs.Formats.{formats_of as formats_by_rule};
ghost use Rattle.rmt_pack.specs.Formats.{memory_format};
ghost use Rattle.rmt_pack.specs.Placements.{table_need as need_of_table, what_format};

use rmt_ast::program::{Node, Program, Table, What};
use rmt_bits::sequence::Sequence;
use rmt_pack::format::{Format, format_of, without_memory};
use rmt_pack::need::table_need;
use std::alloc::{AllocError, Global};

/// The memory format of the node of each number.
pub fn formats_of(alloc: Global, program: &Program) -> Result<Sequence<Format>, AllocError>
    requires { IsProgram program.now }
    ensures { IfOk result (λ formats. formats ≡ formats_by_rule program.now) }
{
    let mut formats = Sequence::new(alloc);
    for node in program.nodes.as_slice() {
        formats.push(node_format(program, node))?;
    }
    Ok(formats)
}

/// The memory format of a node; that of a gate has no memory.
fn node_format(program: &Program, node: &Node) -> Format
    requires { IsProgram program.now }
    ensures { result ≡ what_format program.now node.now.what }
{
    match node.what {
        What::Apply(number) => match program.tables.get(number as usize) {
            Some(table) => table_format(program, table),
            None => without_memory(),
        },
        What::Gate { .. } => without_memory(),
    }
}

/// The memory format of a table.
fn table_format(program: &Program, table: &Table) -> Format
    requires program { IsProgram program.now }
    requires table { IsTable program.now table.now }
    ensures { result ≡ memory_format table.now.kind (need_of_table program.now table.now) }
{
    let need = table_need(program, table);
    format_of(table, need.key, need.held)
}
