//! In how many stages a node stands at least, and what it takes of them.

ghost use Rattle.std.specs.Prelude.{◌≡◌, ◌<◌, ◌≤◌, List, [], ◌∷◌, ◌++◌, map, filter, IfSome};
ghost use Rattle.rmt_ast.specs.declared.program.Kind.TheVariants as kind;
ghost use Rattle.rmt_ast.specs.WellFormed.{IsProgram, IsTable};
ghost use Rattle.rmt_pack.specs.declared.format.Format.{Format};
ghost use Rattle.rmt_pack.specs.Formats.{IsNeed, is_in_stage, memory_format};
ghost use Rattle.rmt_pack.specs.Placements.{table_need as need_of_table, what_format};
ghost use Rattle.rmt_bounds.specs.Bounds.{fit_alone as alone, stages_for as stages_of, least_of, least_stages, stages_of_what, node_stages as stages_of_node};
ghost use Rattle.rmt_bounds.specs.Fits.{FitsAStage};

use rmt_ast::program::{Kind, Node, Program, Table, What};
use rmt_pack::format::{
    Format, Need, divide_up, exact_layout, format_of, most_cells, without_memory,
};
use rmt_pack::need::{data_bits, key_bits, table_need};

/// How many quanta of a format stand alone in a stage of 106 SRAM and 16 TCAM blocks.
fn fit_alone(format: &Format) -> u32
    requires { FitsAStage format.now }
    ensures value { result ≡ alone format.now }
    ensures some { 0 < result }
    ensures small { result ≤ 106 }
{
    let by_sram = 106 / format.sram;
    if format.tcam == 0 {
        return by_sram;
    }
    by_sram.min(16 / format.tcam)
}

/// In how many stages a table of a format stands at least.
fn stages_for(format: &Format) -> u32
    requires { FitsAStage format.now }
    ensures value { result ≡ stages_of format.now }
    ensures small { result ≤ 512 }
{
    divide_up(format.quanta, fit_alone(format))
}

/// The least of some formats' stages and those of one more, which is passed over where a quantum of it doesn't stand
/// in a stage.
fn with_stages(least: Option<u32>, format: &Format) -> Option<u32>
    requires { format.now.sram ≤ 106 → FitsAStage format.now }
    ensures value { (fs : List Format) → least ≡ least_of (map stages_of (filter is_in_stage fs)) →
        result ≡ least_of (map stages_of (filter is_in_stage (fs ++ format.now ∷ []))) }
    ensures small { IfSome least (λ n. n ≤ 512) → IfSome result (λ n. n ≤ 512) }
{
    if format.sram > 106 {
        return least;
    }
    let stages = stages_for(format);
    match least {
        None => Some(stages),
        Some(other) => Some(other.min(stages)),
    }
}

/// In how many stages an exact table stands at least, whatever its format.
fn exact_stages(need: Need) -> u32
    requires { IsNeed need }
    ensures value { result ≡ least_stages kind.Exact need }
    ensures small { result ≤ 512 }
{
    let mut least = None;
    for width in 1..9u8 {
        for per in 1..most_cells(need, width) + 1 {
            least = with_stages(least, &exact_layout(need, width, per));
        }
    }
    least.unwrap_or(1)
}

/// The memory format of a table.
fn table_format(program: &Program, table: &Table) -> Format
    requires program { IsProgram program.now }
    requires table { IsTable program.now table.now }
    ensures value { result ≡ memory_format table.now.kind (need_of_table program.now table.now) }
    ensures small { result.quanta ≤ 512 }
    ensures sram { result.sram ≤ 106 }
    ensures tcam { result.tcam ≤ 16 }
{
    format_of(table, key_bits(program, table), data_bits(program, table))
}

/// In how many stages a table stands at least.
fn table_stages(program: &Program, table: &Table) -> u32
    requires program { IsProgram program.now }
    requires table { IsTable program.now table.now }
    ensures value { result ≡ least_stages table.now.kind (need_of_table program.now table.now) }
    ensures small { result ≤ 512 }
{
    match table.kind {
        Kind::Keyless => 1,
        Kind::Exact => exact_stages(table_need(program, table)),
        Kind::Prefix => stages_for(&table_format(program, table)),
        Kind::Ternary => stages_for(&table_format(program, table)),
    }
}

/// In how many stages a node stands at least; 1 where there is none of that number.
pub fn node_stages(program: &Program, node: u32) -> u32
    requires { IsProgram program.now }
    ensures value { result ≡ stages_of_node program.now node }
    ensures small { result ≤ 512 }
{
    let Some(node) = program.nodes.get(node as usize) else {
        return 1;
    };
    match node.what {
        What::Gate { field: _, test: _ } => 1,
        What::Apply(table) => match program.tables.get(table as usize) {
            None => 1,
            Some(table) => table_stages(program, table),
        },
    }
}

/// The memory format of a node; that of no memory for a gate.
pub fn node_format(program: &Program, node: &Node) -> Format
    requires { IsProgram program.now }
    ensures value { result ≡ what_format program.now node.now.what }
    ensures small { result.quanta ≤ 512 }
    ensures sram { result.sram ≤ 106 }
    ensures tcam { result.tcam ≤ 16 }
{
    match node.what {
        What::Gate { field: _, test: _ } => without_memory(),
        What::Apply(table) => match program.tables.get(table as usize) {
            None => without_memory(),
            Some(table) => table_format(program, table),
        },
    }
}
