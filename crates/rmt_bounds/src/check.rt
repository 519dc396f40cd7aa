//! Whether a proof gives a bound.

ghost use Rattle.std.specs.Prelude.{◌≡◌, ◌+◌, ◌*◌, ◌≤◌, ◌↔◌, IsTrue, IfSome, MatchOption, slice_index, ◌&&◌};
ghost use Rattle.std.specs.List.{list_any};
ghost use Rattle.rmt_ast.specs.WellFormed.{IsProgram};
ghost use Rattle.rmt_ast.specs.declared.deps.Edge.{Edge};
ghost use Rattle.rmt_pack.specs.declared.placement.Placement.{Placement};
ghost use Rattle.rmt_pack.specs.Placements.{is_strict as asks_for_later, IsLegal};
ghost use Rattle.rmt_bounds.specs.Bounds.{EdgesRise};
ghost use Rattle.rmt_bounds.specs.Proofs.{joins as joins_nodes, shared_by as shared_between, IsChain, chain_stages as stages_of_chain, Gives};
ghost use Rattle.rmt_bounds.specs.Used.{stages_used};

use crate::bound::{Bound, Proof};
use crate::stages::node_stages;
use crate::sums::{block_sums, table_count};
use rmt_ast::deps::{Deps, Edge};
use rmt_ast::program::Program;
use rmt_pack::format::divide_up;
use rmt_pack::placement::is_strict;

/// Whether an edge joins one node to another.
fn joins(edge: &Edge, from: u32, to: u32) -> bool
    ensures { result ≡ joins_nodes from to edge.now }
{
    edge.from == from && edge.to == to
}

/// Whether some edge joins one node to another.
fn are_joined(edges: &[Edge], from: u32, to: u32) -> bool
    ensures { result ≡ list_any (joins_nodes from to) edges.now }
{
    edges.iter().any(|edge| joins(edge, from, to))
}

/// Whether some edge that asks for a later stage joins one node to another.
fn are_joined_strictly(edges: &[Edge], from: u32, to: u32) -> bool
    ensures { result ≡ list_any (λ (e : Edge). joins_nodes from to e && asks_for_later e.kind) edges.now }
{
    edges
        .iter()
        .any(|edge| joins(edge, from, to) && is_strict(edge.kind))
}

/// How many stages two nodes share that edges join.
fn shared_by(edges: &[Edge], from: u32, to: u32) -> u32
    ensures value { result ≡ shared_between edges.now from to }
    ensures small { result ≤ 1 }
{
    if are_joined_strictly(edges, from, to) {
        0
    } else {
        1
    }
}

/// How many stages a chain takes; None where the nodes are none of the program, or two neighbours have no edge.
fn chain_stages(program: &Program, edges: &[Edge], chain: &[u32]) -> Option<u32>
    requires program { IsProgram program.now }
    requires rise { EdgesRise program.now edges.now }
    ensures value { MatchOption result (¬ IsChain program.now edges.now chain.now)
        (λ n. IsChain program.now edges.now chain.now × (n ≡ stages_of_chain program.now edges.now chain.now)) }
    ensures small { IfSome result (λ n. n + 512 * slice_index chain.now 0 ≤ 65536) }
{
    if chain.is_empty() {
        return Some(0);
    }
    let first = chain[0];
    if first as usize >= program.nodes.len() {
        return None;
    }
    let own = node_stages(program, first);
    if chain.len() == 1 {
        return Some(own);
    }
    let second = chain[1];
    if !are_joined(edges, first, second) {
        return None;
    }
    match chain_stages(program, edges, &chain[1..]) {
        None => None,
        Some(rest) => Some((own + rest).saturating_sub(shared_by(edges, first, second))),
    }
}

/// Whether a chain gives so many stages.
fn chain_gives(program: &Program, edges: &[Edge], chain: &[u32], stages: u32) -> bool
    requires program { IsProgram program.now }
    requires rise { EdgesRise program.now edges.now }
    ensures { IsTrue result ↔ (IsChain program.now edges.now chain.now × (stages ≡ stages_of_chain program.now edges.now chain.now)) }
{
    match chain_stages(program, edges, chain) {
        None => false,
        Some(own) => stages == own,
    }
}

/// Whether a proof gives so many stages.
fn gives(program: &Program, edges: &[Edge], proof: &Proof, stages: u32) -> bool
    requires program { IsProgram program.now }
    requires rise { EdgesRise program.now edges.now }
    ensures { IsTrue result ↔ Gives program.now edges.now proof.now stages }
{
    match proof {
        Proof::Chain(chain) => chain_gives(program, edges, chain.as_slice(), stages),
        Proof::Sram(blocks) => *blocks == block_sums(program).sram
            && stages == divide_up(*blocks, 106),
        Proof::Tcam(blocks) => *blocks == block_sums(program).tcam
            && stages == divide_up(*blocks, 16),
        Proof::Slots(tables) => *tables == table_count(program) && stages == divide_up(*tables, 16),
    }
}

/// Whether a bound's proof gives it. It takes no memory.
pub fn check_bound(program: &Program, deps: &Deps, bound: &Bound) -> bool
    requires program { IsProgram program.now }
    requires rise { EdgesRise program.now deps.now.field }
    // Yes exactly where the proof gives the number.
    ensures gives { IsTrue result ↔ Gives program.now deps.now.field bound.now.proof bound.now.stages }
    // Where it says yes, no legal placement uses fewer stages.
    ensures proved { IsTrue result → (placement : Placement) → IsLegal program.now deps.now.field placement →
        bound.now.stages ≤ stages_used program.now placement }
{
    gives(program, deps.field.as_slice(), &bound.proof, bound.stages)
}
