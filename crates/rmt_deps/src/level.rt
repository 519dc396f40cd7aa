//! How deep each node stands in the dependencies.

ghost use Rattle.std.specs.Prelude.{◌≡◌, ◌≤◌, ◌<◌, ◌^◌, ◌++◌, ◌==◌, ℕ, List, All, IfOk, OnOk, filter, if◌then◌else◌, length, slice_index, slice_index_or};
ghost use Rattle.rmt_ast.specs.declared.deps.Edge.{Edge};
ghost use Rattle.rmt_deps.specs.Edges.{GoForward};
ghost use Rattle.rmt_deps.specs.Ends.{AreEnds, AreSmall};
ghost use Rattle.rmt_deps.specs.Levels.{IsPathTo, all_edges, greatest_behind, is_strict, levels_of, strict_edges};

use crate::fault::DepsFault;
use rmt_ast::deps::{Deps, Edge, EdgeKind};
use rmt_bits::answer::Numbers;
use rmt_bits::sequence::Sequence;
use std::alloc::{AllocError, Global};

/// Of each of so many nodes, by its number, its level: the greatest number of strict edges, those of the kinds `Match`,
/// `Action` and `Word`, on a path that ends in it.
///
/// # Errors
///
/// For want of memory alone.
pub fn levels(alloc: Global, deps: &Deps, nodes: u32) -> Result<Numbers, DepsFault>
    // Each edge goes from a node to a later one.
    requires { GoForward nodes deps.now }
    // Which levels.
    ensures levels { IfOk result (λ levels. levels ≡ levels_of deps.now nodes) }
    // No path to a node has more strict edges than its level, and some path has as many.
    ensures most { IfOk result (λ levels. (n : ℕ) (path : List Edge) → n < nodes → IsPathTo deps.now n path → strict_edges path ≤ slice_index levels n) }
    ensures reached { IfOk result (λ levels. (n : ℕ) → n < nodes →
        (path : List Edge) × (IsPathTo deps.now n path) × (strict_edges path ≡ slice_index levels n)) }
{
    let ends = edges_by_end(alloc, deps, nodes as usize)?;
    let mut levels = Numbers::new(alloc);
    for edges in ends.as_slice() {
        let level = greatest_level(levels.as_slice(), edges.as_slice());
        levels.push(level)?;
    }
    Ok(levels)
}

/// The level of the next node, from those of all earlier ones and the edges that end in it.
fn greatest_level(levels: &[u32], edges: &[Edge]) -> u32
    requires starts { All (λ (e : Edge). e.from < length levels.now) edges.now }
    requires small { AreSmall levels.now }
    requires few { length levels.now < 2 ^ 32 }
    ensures level { result ≡ greatest_behind levels.now edges.now }
    ensures small { result ≤ length levels.now }
{
    let mut most = 0;
    for edge in edges {
        most = most.max(levels[edge.from as usize] + weight(edge.kind));
    }
    most
}

/// How much a level grows along an edge.
fn weight(kind: EdgeKind) -> u32
    ensures weight { result ≡ (if is_strict kind then 1 else 0) }
    ensures small { result ≤ 1 }
{
    match kind {
        EdgeKind::Match | EdgeKind::Action | EdgeKind::Word => 1,
        EdgeKind::Successor | EdgeKind::Reverse => 0,
    }
}

/// Of each of so many nodes, the edges that end in it.
fn edges_by_end(alloc: Global, deps: &Deps, nodes: usize) -> Result<Vec<Sequence<Edge>>, AllocError>
    requires { GoForward nodes deps.now }
    ensures { IfOk result (λ ends. AreEnds nodes (all_edges deps.now) ends.items) }
{
    let mut ends = Vec::new(alloc);
    for _ in 0..nodes {
        ends.push(Sequence::new(alloc))?;
    }
    push_deps(&mut ends, deps)?;
    Ok(ends)
}

/// Adds all edges to those that end in their nodes.
fn push_deps(ends: &mut [Sequence<Edge>], deps: &Deps) -> Result<(), AllocError>
    requires { GoForward (length ends.old) deps.now }
    ensures { OnOk result ((n : ℕ) (d : List Edge) → n < length ends.old →
        slice_index_or ends.new n d ≡ slice_index_or ends.old n d ++ filter (λ (e : Edge). e.to == n) (all_edges deps.now)) }
{
    push_ends(ends, deps.field.as_slice())?;
    push_ends(ends, deps.word.as_slice())
}

/// Adds edges to those that end in their nodes.
fn push_ends(ends: &mut [Sequence<Edge>], edges: &[Edge]) -> Result<(), AllocError>
    requires { All (λ (e : Edge). e.to < length ends.old) edges.now }
    ensures { OnOk result ((n : ℕ) (d : List Edge) → n < length ends.old →
        slice_index_or ends.new n d ≡ slice_index_or ends.old n d ++ filter (λ (e : Edge). e.to == n) edges.now) }
{
    for edge in edges {
        ends[edge.to as usize].push(*edge)?;
    }
    Ok(())
}
