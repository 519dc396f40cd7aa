//! How many stages there are up to the last of each node.

ghost use Rattle.std.specs.Prelude.{◌≡◌, ◌+◌, ◌-◌, ◌*◌, ◌<◌, ◌≤◌, ℕ, List, [], ◌∷◌, ◌++◌, length, slice_index, IfOk, IfSome, position, ◌==◌};
ghost use Rattle.rmt_ast.specs.WellFormed.{IsProgram};
ghost use Rattle.rmt_bounds.specs.Bounds.{EdgesRise, shared as shared_on, least_of, node_stages as stages_of_node, best_of_node as best_of, all_bests as bests_of, greatest as greatest_of, node_before as before, chain_to as chain_ending_in, longest_chain as chain_of};
ghost use Rattle.rmt_bounds.specs.Fits.{AreSmall, HasBests};

use crate::stages::node_stages;
use rmt_ast::deps::Edge;
use rmt_ast::program::Program;
use rmt_bits::answer::Numbers;
use rmt_bits::sequence::Sequence;
use rmt_pack::placement::is_strict;
use std::alloc::{AllocError, Global};

/// The nodes of a program, its field edges, and the best of each node.
#[derive(Clone, Copy)]
pub struct Chains<'a> {
    /// The program.
    pub program: &'a Program,
    /// Its field edges.
    pub edges: &'a [Edge],
    /// The best of each node.
    pub bests: &'a [u32],
}

/// The number at a place; 0 past the end.
fn number_at(numbers: &[u32], at: u32) -> u32
    ensures { result ≡ slice_index numbers.now at }
{
    match numbers.get(at as usize) {
        Some(number) => *number,
        None => 0,
    }
}

/// How many stages two nodes share that an edge joins.
fn shared(edge: &Edge) -> u32
    ensures value { result ≡ shared_on edge.now }
    ensures small { result ≤ 1 }
{
    if is_strict(edge.kind) { 0 } else { 1 }
}

/// The stages up to the last of the later node of an edge, which stands in so many itself.
fn through(bests: &[u32], edge: &Edge, stages: u32) -> u32
    requires bests { AreSmall bests.now }
    requires from { edge.now.from < 128 }
    requires stages { stages ≤ 512 }
    ensures value { result ≡ slice_index bests.now edge.now.from + stages - shared_on edge.now }
    ensures small { result ≤ 512 * (edge.now.from + 2) }
{
    (number_at(bests, edge.from) + stages).saturating_sub(shared(edge))
}

/// The best of the next node.
fn best_of_node(program: &Program, edges: &[Edge], bests: &[u32]) -> u32
    requires program { IsProgram program.now }
    requires rise { EdgesRise program.now edges.now }
    requires bests { AreSmall bests.now }
    requires next { length bests.now < length program.now.nodes }
    ensures value { result ≡ best_of program.now edges.now bests.now (length bests.now) }
    ensures small { result ≤ 512 * (length bests.now + 1) }
{
    let node = bests.len() as u32;
    let stages = node_stages(program, node);
    let mut best = stages;
    for edge in edges {
        if edge.to == node {
            best = best.max(through(bests, edge, stages));
        }
    }
    best
}

/// The best of each node, in their order.
pub fn all_bests(alloc: Global, program: &Program, edges: &[Edge]) -> Result<Numbers, AllocError>
    requires program { IsProgram program.now }
    requires rise { EdgesRise program.now edges.now }
    ensures value { IfOk result (λ bests. bests ≡ bests_of program.now edges.now) }
    ensures small { IfOk result AreSmall }
    ensures few { IfOk result (λ bests. length bests ≤ 128) }
{
    let mut bests = Sequence::new(alloc);
    for _node in 0..program.nodes.len() {
        let best = best_of_node(program, edges, bests.as_slice());
        bests.push(best)?;
    }
    Ok(bests)
}

/// The greatest of some numbers; 0 where there is none.
pub fn greatest(numbers: &[u32]) -> u32
    ensures { result ≡ greatest_of numbers.now }
{
    let mut most = 0;
    for number in numbers {
        most = most.max(*number);
    }
    most
}

/// The least of some numbers and one more.
fn with_least(least: Option<u32>, number: u32) -> Option<u32>
    ensures { (xs : List ℕ) → least ≡ least_of xs → result ≡ least_of (xs ++ number ∷ []) }
{
    match least {
        None => Some(number),
        Some(other) => Some(other.min(number)),
    }
}

/// The least node from which an edge gives the best of a node, which stands in so many stages itself.
fn node_before(chains: &Chains, node: u32) -> u32
    requires { HasBests chains.now.program.now chains.now.edges.now chains.now.bests.now }
    ensures { result ≡ before chains.now.program.now chains.now.edges.now chains.now.bests.now node }
{
    let stages = node_stages(chains.program, node);
    let best = number_at(chains.bests, node);
    let mut least = None;
    for edge in chains.edges {
        if edge.to == node && through(chains.bests, edge, stages) == best {
            least = with_least(least, edge.from);
        }
    }
    least.unwrap_or(1)
}

/// The chain that ends in a node, of at most so many nodes.
fn chain_to(alloc: Global, chains: &Chains, nodes: usize, node: u32) -> Result<Numbers, AllocError>
    requires { HasBests chains.now.program.now chains.now.edges.now chains.now.bests.now }
    ensures { IfOk result (λ chain. chain ≡ chain_ending_in chains.now.program.now chains.now.edges.now chains.now.bests.now nodes node) }
{
    if nodes == 0 {
        return Ok(Sequence::new(alloc));
    }
    let mut chain = if number_at(chains.bests, node) == node_stages(chains.program, node) {
        Sequence::new(alloc)
    } else {
        let earlier = node_before(chains, node);
        chain_to(alloc, chains, nodes - 1, earlier)?
    };
    chain.push(node)?;
    Ok(chain)
}

/// The first place of a number.
fn first_place(numbers: &[u32], number: u32) -> Option<usize>
    ensures value { result ≡ position (λ x. x == number) numbers.now }
    ensures within { IfSome result (λ at. at < length numbers.now) }
{
    numbers.iter().position(|x| *x == number)
}

/// The chain that ends in the first node of greatest best.
pub fn longest_chain(alloc: Global, chains: &Chains) -> Result<Numbers, AllocError>
    requires chains { HasBests chains.now.program.now chains.now.edges.now chains.now.bests.now }
    requires bests { chains.now.bests.now ≡ bests_of chains.now.program.now chains.now.edges.now }
    requires few { length chains.now.bests.now ≤ 128 }
    ensures { IfOk result (λ chain. chain ≡ chain_of chains.now.program.now chains.now.edges.now) }
{
    let most = greatest(chains.bests);
    match first_place(chains.bests, most) {
        None => Ok(Sequence::new(alloc)),
        Some(node) => chain_to(alloc, chains, chains.bests.len(), node as u32),
    }
}
