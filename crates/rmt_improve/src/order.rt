//! Orders in which the nodes of a program may be placed.

ghost use Rattle.std.specs.Prelude.{◌≡◌, ℕ, ◌+◌, ◌<◌, ◌≤◌, ◌^◌, ◌||◌, ◌++◌, ◌∷◌, [], List, false, All, IfOk, IfSome, OnOk, filter, length, slice_index_or};
ghost use Rattle.std.specs.List.{range_with_len};
ghost use Rattle.rmt_improve.specs.Words.{GoForward, GoesForward, all_edges, AreTaken, is_free as is_free_by, is_held, listed, order_of_try as order_of_number};
ghost use Rattle.rmt_improve.specs.Orders.{by_weight as order_by_weight, exchanged as exchanged_at, heaviest as heaviest_of, joins as edges_join};

use crate::weight::{blocks, heights};
use rmt_ast::deps::{Deps, Edge};
use rmt_bits::answer::Numbers;
use rmt_bits::fault::OutOfMemory;
use rmt_bits::sequence::Sequence;
use rmt_place::demand::Demand;
use std::alloc::{AllocError, Global};

/// The order of a try behind the first, by its number, where `best` is that of the best try before it.
pub fn order_of_try(
    alloc: Global,
    demands: &[Demand],
    deps: &Deps,
    number: u32,
    best: &[u32],
) -> Result<Numbers, OutOfMemory>
    requires few { length demands.now < 2 ^ 32 }
    requires forward { GoForward (length demands.now) deps.now }
    requires number { 1 ≤ number }
    requires best { length best.now ≡ length demands.now }
    ensures { IfOk result (λ order. order ≡ order_of_number demands.now deps.now number best.now) }
{
    if number == 1 {
        let weights = heights(alloc, deps, demands.len() as u32)?;
        Ok(by_weight(alloc, deps, weights.as_slice())?)
    } else if number == 2 {
        let weights = blocks(alloc, demands)?;
        Ok(by_weight(alloc, deps, weights.as_slice())?)
    } else if best.len() < 2 {
        Ok(Sequence::from_vec(Vec::from_slice(alloc, best)?))
    } else {
        let place = (number - 3) as usize % (best.len() - 1);
        Ok(exchanged(alloc, deps, best, place)?)
    }
}

/// The nodes of these weights, each time the heaviest of those that may be taken next, and of them the one with the
/// least number.
fn by_weight(alloc: Global, deps: &Deps, weights: &[u128]) -> Result<Numbers, AllocError>
    requires few { length weights.now < 2 ^ 32 }
    requires forward { GoForward (length weights.now) deps.now }
    ensures { IfOk result (λ order. order ≡ order_by_weight (all_edges deps.now) weights.now (length weights.now)) }
{
    let mut order = Numbers::new(alloc);
    let mut taken = vec![in alloc; false; weights.len()]?;
    for _step in 0..weights.len() {
        let held = held(alloc, deps, taken.as_slice())?;
        let node = heaviest(weights, taken.as_slice(), held.as_slice());
        take(&mut order, &mut taken, node)?;
    }
    Ok(order)
}

/// Takes a node, if there is one.
fn take(order: &mut Numbers, taken: &mut Vec<bool>, node: Option<u32>) -> Result<(), AllocError>
    requires { IfSome node (λ n. n < length taken.old.items) }
    ensures order { OnOk result (order.new ≡ order.old ++ listed node) }
    ensures size { OnOk result (length taken.new.items ≡ length taken.old.items) }
    ensures marks { OnOk result (AreTaken order.old taken.old.items → AreTaken order.new taken.new.items) }
{
    match node {
        Some(node) => {
            order.push(node)?;
            taken[node as usize] = true;
        }
        None => {}
    }
    Ok(())
}

/// The marks of the nodes to which an edge goes from one that isn't taken.
fn held(alloc: Global, deps: &Deps, taken: &[bool]) -> Result<Vec<bool>, AllocError>
    requires { GoForward (length taken.now) deps.now }
    ensures size { IfOk result (λ held. length held.items ≡ length taken.now) }
    ensures marks { IfOk result (λ held. (n : ℕ) → n < length taken.now →
        slice_index_or held.items n false ≡ is_held (all_edges deps.now) taken.now n) }
{
    let mut held = vec![in alloc; false; taken.len()]?;
    hold(&mut held, taken, deps.field.as_slice());
    hold(&mut held, taken, deps.word.as_slice());
    Ok(held)
}

/// Marks the nodes to which one of these edges goes from a node that isn't taken.
fn hold(held: &mut [bool], taken: &[bool], edges: &[Edge])
    requires size { length held.old ≡ length taken.now }
    requires forward { All (GoesForward (length taken.now)) edges.now }
    ensures { (n : ℕ) → n < length taken.now →
        slice_index_or held.new n false ≡ (slice_index_or held.old n false || is_held edges.now taken.now n) }
{
    for edge in edges {
        if !taken[edge.from as usize] {
            held[edge.to as usize] = true;
        }
    }
}

/// The first of the heaviest nodes that are neither taken nor held.
fn heaviest(weights: &[u128], taken: &[bool], held: &[bool]) -> Option<u32>
    requires few { length weights.now < 2 ^ 32 }
    requires taken { length taken.now ≡ length weights.now }
    requires held { length held.now ≡ length weights.now }
    ensures heaviest { listed result ≡ heaviest_of weights.now (filter (is_free_by taken.now held.now) (range_with_len 0 (length weights.now))) }
    ensures below { IfSome result (λ n. n < length weights.now) }
{
    let mut best = None;
    for node in 0..weights.len() as u32 {
        if is_free(taken, held, node) {
            best = Some(heavier(weights, best, node));
        }
    }
    best
}

/// Whether a node is neither taken nor held.
fn is_free(taken: &[bool], held: &[bool], node: u32) -> bool
    requires taken { node < length taken.now }
    requires held { node < length held.now }
    ensures { result ≡ is_free_by taken.now held.now node }
{
    !taken[node as usize] && !held[node as usize]
}

/// The heavier one of two nodes, where the second is one for sure; the first where they are as heavy.
fn heavier(weights: &[u128], best: Option<u32>, node: u32) -> u32
    requires node { node < length weights.now }
    requires best { IfSome best (λ b. b < length weights.now) }
    ensures value { (ns : List ℕ) → listed best ≡ heaviest_of weights.now ns → result ∷ [] ≡ heaviest_of weights.now (ns ++ node ∷ []) }
    ensures below { result < length weights.now }
{
    match best {
        None => node,
        Some(other) => {
            if weights[other as usize] < weights[node as usize] {
                node
            } else {
                other
            }
        }
    }
}

/// An order with the nodes at a place and the next one exchanged, where no edge goes from the first of them to the
/// second.
fn exchanged(alloc: Global, deps: &Deps, order: &[u32], place: usize) -> Result<Numbers, AllocError>
    requires { place + 1 < length order.now }
    ensures { IfOk result (λ next. next ≡ exchanged_at (all_edges deps.now) order.now place) }
{
    let mut next = Vec::from_slice(alloc, order)?;
    if !joined(deps, order[place], order[place + 1]) {
        next.swap(place, place + 1);
    }
    Ok(Sequence::from_vec(next))
}

/// Whether some edge goes from one node to another.
fn joined(deps: &Deps, from: u32, to: u32) -> bool
    ensures { result ≡ edges_join (all_edges deps.now) from to }
{
    joins(deps.field.as_slice(), from, to) || joins(deps.word.as_slice(), from, to)
}

/// Whether one of these edges goes from one node to another.
fn joins(edges: &[Edge], from: u32, to: u32) -> bool
    ensures { result ≡ edges_join edges.now from to }
{
    for edge in edges {
        if edge.from == from && edge.to == to {
            return true;
        }
    }
    false
}
