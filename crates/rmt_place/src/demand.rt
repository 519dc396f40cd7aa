//! What the nodes of a program need of a stage.

ghost use Rattle.std.specs.Prelude.{◌≡◌, ◌++◌, IfOk, OnOk, map};
ghost use Rattle.rmt_deps.specs.Edges.{words_of_fields};
ghost use Rattle.rmt_bits.specs.declared.lane.Lane.{Lane};
ghost use Rattle.rmt_ast.specs.Places.{lanes_of};
ghost use Rattle.rmt_ast.specs.WellFormed.{IsProgram, IsTable};
ghost use Rattle.rmt_place.specs.Needs.{if_exact, if_ternary, table_demand as demand_of_table, gate_demand as demand_of_gate, what_demands, demands_of, nothing as no_demand};

use rmt_ast::program::{Kind, Node, Program, Table, What};
use rmt_bits::answer::Bytes;
use rmt_bits::lane::Lane;
use rmt_pack::format::format_of;
use rmt_pack::need::table_need;
use rmt_phv::places::Places;
use std::alloc::{AllocError, Global};

/// What a node needs: its quanta, the blocks of each, and what its first quantum in a stage brings with it.
#[derive(Drop, Debug)]
pub struct Demand {
    /// All its quanta.
    pub quanta: u32,
    /// The SRAM blocks of a quantum.
    pub sram: u32,
    /// The TCAM blocks of a quantum.
    pub tcam: u32,
    /// The words that an exact key reads, each as often as a piece of it lies there.
    pub exact_words: Bytes,
    /// The words that a prefix or ternary key, or a gate, reads, each as often as a piece lies there.
    pub ternary_words: Bytes,
    /// 1 for a table, which has a slot, and 0 for a gate.
    pub slots: u32,
    /// The instructions of a table: its listed actions and its default; 0 for a gate.
    pub instructions: u32,
    /// The bits of data that an entry of a table holds.
    pub held: u32,
    /// 1 for a gate, and 0 for a table.
    pub gates: u32,
}

/// A program, and the places of its fields.
#[derive(Clone, Copy)]
struct PlacedFields<'a> {
    program: &'a Program,
    places: &'a Places,
}

/// What each node of a program needs, by its number.
pub fn demands(alloc: Global, program: &Program, places: &Places) -> Result<Vec<Demand>, AllocError>
    requires { IsProgram program.now }
    ensures { IfOk result (λ demands. demands.items ≡ demands_of program.now places.now) }
{
    let mut demands = Vec::new(alloc);
    for node in program.nodes.as_slice() {
        demands.push(node_demand(alloc, program, places, node)?)?;
    }
    Ok(demands)
}

/// What a node needs.
fn node_demand(
    alloc: Global,
    program: &Program,
    places: &Places,
    node: &Node,
) -> Result<Demand, AllocError>
    requires { IsProgram program.now }
    ensures { IfOk result (λ demand. demand ≡ what_demands program.now places.now node.now.what) }
{
    let placed = PlacedFields { program, places };
    match node.what {
        What::Apply(number) => match program.tables.get(number as usize) {
            Some(table) => table_demand(alloc, &placed, table),
            None => Ok(nothing(alloc)),
        },
        What::Gate { field, .. } => gate_demand(alloc, places, field),
    }
}

/// What a table needs.
fn table_demand(alloc: Global, placed: &PlacedFields, table: &Table) -> Result<Demand, AllocError>
    requires program { IsProgram placed.now.program.now }
    requires table { IsTable placed.now.program.now table.now }
    ensures { IfOk result (λ demand. demand ≡ demand_of_table placed.now.program.now placed.now.places.now table.now) }
{
    let need = table_need(placed.program, table);
    let format = format_of(table, need.key, need.held);
    let words = words_of(alloc, placed.places, table.key.as_slice())?;
    let (exact_words, ternary_words) = by_crossbar(alloc, table.kind, words);
    Ok(Demand {
        quanta: format.quanta,
        sram: format.sram,
        tcam: format.tcam,
        exact_words,
        ternary_words,
        slots: 1,
        instructions: table.actions.len() as u32 + 1,
        held: need.held,
        gates: 0,
    })
}

/// What a gate needs that tests a field.
fn gate_demand(alloc: Global, places: &Places, field: u32) -> Result<Demand, AllocError>
    ensures { IfOk result (λ demand. demand ≡ demand_of_gate places.now field) }
{
    let mut demand = nothing(alloc);
    demand.quanta = 1;
    demand.ternary_words = words_of(alloc, places, &[field])?;
    demand.gates = 1;
    Ok(demand)
}

/// What needs nothing.
fn nothing(alloc: Global) -> Demand
    ensures { result ≡ no_demand }
{
    Demand {
        quanta: 0,
        sram: 0,
        tcam: 0,
        exact_words: Bytes::new(alloc),
        ternary_words: Bytes::new(alloc),
        slots: 0,
        instructions: 0,
        held: 0,
        gates: 0,
    }
}

/// The words of a key that are read over the exact crossbar, and those that are read over the ternary one.
fn by_crossbar(alloc: Global, kind: Kind, words: Bytes) -> (Bytes, Bytes)
    ensures exact { result.0 ≡ if_exact kind words }
    ensures ternary { result.1 ≡ if_ternary kind words }
{
    match kind {
        Kind::Keyless => (Bytes::new(alloc), Bytes::new(alloc)),
        Kind::Exact => (words, Bytes::new(alloc)),
        Kind::Prefix | Kind::Ternary => (Bytes::new(alloc), words),
    }
}

/// The words in which some fields have pieces, each as often as a piece lies there.
fn words_of(alloc: Global, places: &Places, fields: &[u32]) -> Result<Bytes, AllocError>
    ensures { IfOk result (λ words. words ≡ words_of_fields places.now fields.now) }
{
    let mut words = Bytes::new(alloc);
    for field in fields {
        push_field(&mut words, places, *field)?;
    }
    Ok(words)
}

/// Adds the words in which a field has pieces.
fn push_field(words: &mut Bytes, places: &Places, field: u32) -> Result<(), AllocError>
    ensures { OnOk result (words.new ≡ words.old ++ map (λ (l : Lane). l.word) (lanes_of places.now field)) }
{
    match places.get(field as usize) {
        Some(lanes) => push_words(words, lanes.as_slice()),
        None => Ok(()),
    }
}

/// Adds the words of some lanes.
fn push_words(words: &mut Bytes, lanes: &[Lane]) -> Result<(), AllocError>
    ensures { OnOk result (words.new ≡ words.old ++ map (λ (l : Lane). l.word) lanes.now) }
{
    for lane in lanes {
        words.push(lane.word)?;
    }
    Ok(())
}
