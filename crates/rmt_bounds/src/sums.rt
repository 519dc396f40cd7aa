//! What all nodes of a program take together.

ghost use Rattle.std.specs.Prelude.{◌≡◌, ◌*◌, ◌≤◌, length};
ghost use Rattle.rmt_ast.specs.WellFormed.{IsProgram};
ghost use Rattle.rmt_pack.specs.Placements.{is_table as applies_table};
ghost use Rattle.rmt_bounds.specs.Bounds.{sram_sum as sram_of, tcam_sum as tcam_of, table_count as tables_of};

use crate::stages::node_format;
use rmt_ast::program::{Program, What};

/// The product of two numbers, of which the first is at most 512.
fn times(quanta: u32, blocks: u32) -> u32
    requires quanta { quanta ≤ 512 }
    requires blocks { blocks ≤ 106 }
    ensures value { result ≡ quanta * blocks }
    ensures small { result ≤ 54272 }
{
    quanta * blocks
}

/// The blocks that all nodes take together.
#[derive(Clone, Copy)]
pub struct Blocks {
    /// SRAM blocks, at least.
    pub sram: u32,
    /// TCAM blocks.
    pub tcam: u32,
}

/// The blocks that all nodes take.
pub fn block_sums(program: &Program) -> Blocks
    requires { IsProgram program.now }
    ensures sram { result.sram ≡ sram_of program.now }
    ensures tcam { result.tcam ≡ tcam_of program.now }
    ensures few_sram { result.sram ≤ 6946816 }
    ensures few_tcam { result.tcam ≤ 6946816 }
{
    let nodes = program.nodes.as_slice();
    let mut sram = 0;
    let mut tcam = 0;
    for node in nodes {
        let format = node_format(program, node);
        sram += times(format.quanta, format.sram);
        tcam += times(format.quanta, format.tcam);
    }
    Blocks { sram, tcam }
}

/// Whether a node applies a table.
fn is_table(what: What) -> bool
    ensures { result ≡ applies_table what }
{
    match what {
        What::Apply(_) => true,
        What::Gate { field: _, test: _ } => false,
    }
}

/// How many tables there are.
pub fn table_count(program: &Program) -> u32
    requires { IsProgram program.now }
    ensures value { result ≡ tables_of program.now }
    ensures small { result ≤ 128 }
{
    let nodes = program.nodes.as_slice();
    let mut count = 0;
    for node in nodes {
        if is_table(node.what) {
            count += 1;
        }
    }
    count
}
