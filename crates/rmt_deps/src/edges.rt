//! Dependencies between the nodes of a program.

ghost use Rattle.std.specs.Prelude.{◌≡◌, ◌<◌, ◌^◌, ◌+◌, ◌-◌, ◌++◌, ◌∷◌, [], ℕ, List, IfOk, OnOk, length, map, filter, slice_index_or};
ghost use Rattle.std.specs.List.{flat_map};
ghost use Rattle.rmt_bits.specs.declared.lane.Lane.{Lane};
ghost use Rattle.rmt_ast.specs.declared.program.Program.{Program};
ghost use Rattle.rmt_ast.specs.declared.deps.EdgeKind.{EdgeKind};
ghost use Rattle.rmt_deps.specs.declared.facts.Facts.{Facts};
ghost use Rattle.rmt_deps.specs.Edges.{GoForward, dependencies_of, depends as node_depends, edges_between, edges_from, edges_among as all_edges_among, edge, is_parent as is_parent_of, meet as meet_lists};
ghost use Rattle.rmt_deps.specs.NumberSets.{IsSet};
ghost use Rattle.rmt_deps.specs.Facts.{AreFacts, AreAllFacts};

use crate::arms::on_different_arms;
use crate::facts::{Facts, NumberSet};
use crate::fault::DepsFault;
use rmt_ast::deps::{Deps, Edge, EdgeKind};
use rmt_ast::program::{Guard, Program};
use rmt_bits::sequence::Sequence;
use rmt_phv::places::Places;
use rmt_phv::sets::meets;
use std::alloc::{AllocError, Global};

/// The kinds of edge by fields and guards.
const BY_FIELD: [EdgeKind; 4] = [
    EdgeKind::Match,
    EdgeKind::Action,
    EdgeKind::Successor,
    EdgeKind::Reverse,
];

/// The kind of edge by words of the header vector.
const BY_WORD: [EdgeKind; 1] = [EdgeKind::Word];

/// The dependencies of a program whose fields have these places.
///
/// For each two nodes of which the first stands earlier, and which don't stand on different arms of one node, there is
/// an edge from the first to the second
///
/// - `Match`, where the first writes a field of the second's key, or the one that it tests;
/// - `Action`, where the first writes a field that the second's actions read or write;
/// - `Successor`, where the first is the second's parent;
/// - `Reverse`, where the second writes a field of the first's key, the one that it tests, or one that its actions read;
/// - `Word`, where both write fields with pieces in one word.
///
/// A table's actions are those that it lists and its default. Edges stand by the first node, then the second one, then
/// in this order.
///
/// # Errors
///
/// For want of memory alone.
pub fn dependencies(alloc: Global, program: &Program, places: &Places) -> Result<Deps, DepsFault>
    // As every well-formed program has.
    requires { length program.now.nodes < 2 ^ 32 }
    // Which edges.
    ensures edges { IfOk result (λ deps. deps ≡ dependencies_of program.now places.now) }
    // Each goes from a node to a later one.
    ensures forward { IfOk result (GoForward (length program.now.nodes)) }
{
    let mut nodes = Vec::new(alloc);
    for number in 0..program.nodes.len() {
        nodes.push(Facts::of_node(alloc, program, places, number)?)?;
    }
    let field = edges_among(alloc, nodes.as_slice(), &BY_FIELD)?;
    let word = edges_among(alloc, nodes.as_slice(), &BY_WORD)?;
    Ok(Deps { field, word })
}

/// The edges of these kinds.
fn edges_among(
    alloc: Global,
    nodes: &[Facts],
    kinds: &[EdgeKind],
) -> Result<Sequence<Edge>, AllocError>
    requires { length nodes.now < 2 ^ 32 }
    ensures { IfOk result (λ edges. (p : Program) (places : List (List Lane)) → AreAllFacts p places nodes.now → edges ≡ all_edges_among p places kinds.now) }
{
    let mut edges = Sequence::new(alloc);
    for from in 0..nodes.len() {
        push_from(&mut edges, nodes, kinds, from)?;
    }
    Ok(edges)
}

/// Adds the edges from a node to all later ones.
fn push_from(
    edges: &mut Sequence<Edge>,
    nodes: &[Facts],
    kinds: &[EdgeKind],
    from: usize,
) -> Result<(), AllocError>
    requires few { length nodes.now < 2 ^ 32 }
    requires from { from < length nodes.now }
    ensures { OnOk result ((p : Program) (places : List (List Lane)) → AreAllFacts p places nodes.now → edges.new ≡ edges.old ++ edges_from p places kinds.now from) }
{
    let first = &nodes[from];
    for to in from + 1..nodes.len() {
        push_between(edges, first, &nodes[to], kinds, from as u32, to as u32)?;
    }
    Ok(())
}

/// Adds the edges from one node to a later one.
fn push_between(
    edges: &mut Sequence<Edge>,
    first: &Facts,
    second: &Facts,
    kinds: &[EdgeKind],
    from: u32,
    to: u32,
) -> Result<(), AllocError>
    ensures { OnOk result ((p : Program) (places : List (List Lane)) → AreFacts p places from first.now → AreFacts p places to second.now →
        edges.new ≡ edges.old ++ edges_between p places kinds.now from to) }
{
    if on_different_arms(first.guards.as_slice(), second.guards.as_slice()) {
        return Ok(());
    }
    for kind in kinds {
        push_edge(edges, first, second, *kind, from, to)?;
    }
    Ok(())
}

/// Adds the edge of a kind from one node to a later one, if there is one.
fn push_edge(
    edges: &mut Sequence<Edge>,
    first: &Facts,
    second: &Facts,
    kind: EdgeKind,
    from: u32,
    to: u32,
) -> Result<(), AllocError>
    ensures { OnOk result ((p : Program) (places : List (List Lane)) → AreFacts p places from first.now → AreFacts p places to second.now →
        edges.new ≡ edges.old ++ map (edge from to) (filter (λ k. node_depends p places k from to) (kind ∷ []))) }
{
    if !depends(kind, first, second, from) {
        return Ok(());
    }
    edges.push(Edge { from, to, kind })
}

/// Whether a node depends on an earlier one, of the number `from`, in this way.
fn depends(kind: EdgeKind, first: &Facts, second: &Facts, from: u32) -> bool
    ensures { (p : Program) (places : List (List Lane)) (to : ℕ) → AreFacts p places from first.now → AreFacts p places to second.now →
        result ≡ node_depends p places kind from to }
{
    match kind {
        EdgeKind::Match => meet(&first.writes, &second.keys),
        EdgeKind::Action => {
            meet(&first.writes, &second.reads) || meet(&first.writes, &second.writes)
        }
        EdgeKind::Successor => is_parent(from, second.guard),
        EdgeKind::Reverse => {
            meet(&second.writes, &first.keys) || meet(&second.writes, &first.reads)
        }
        EdgeKind::Word => meet(&first.words, &second.words),
    }
}

/// Whether some number is in both sets.
fn meet(first: &NumberSet, second: &NumberSet) -> bool
    ensures { (xs ys : List ℕ) → IsSet first.now xs → IsSet second.now ys → result ≡ meet_lists xs ys }
{
    meets(first.as_slice(), second.as_slice())
}

/// Whether a guard's parent is the node of this number.
fn is_parent(number: u32, guard: Option<Guard>) -> bool
    ensures { result ≡ is_parent_of number guard }
{
    match guard {
        Some(guard) => guard.parent == number,
        None => false,
    }
}
