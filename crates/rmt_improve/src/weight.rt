//! How heavy the nodes of a program are.

ghost use Rattle.std.specs.Prelude.{◌≡◌, All, IfOk, length, map, reverse};
ghost use Rattle.rmt_place.specs.Words.{GoForward, GoesForward};
ghost use Rattle.rmt_improve.specs.Orders.{blocks_of, heights_of, turned as turned_edge};

use rmt_ast::deps::{Deps, Edge};
use rmt_bits::fault::OutOfMemory;
use rmt_bits::sequence::Sequence;
use rmt_deps::levels;
use rmt_place::demand::Demand;
use std::alloc::{AllocError, Global};

/// Of each of so many nodes the most strict edges on a path that begins in it.
pub fn heights(alloc: Global, deps: &Deps, nodes: u32) -> Result<Vec<u128>, OutOfMemory>
    requires { GoForward nodes deps.now }
    ensures heights { IfOk result (λ heights. heights.items ≡ heights_of deps.now nodes) }
    ensures size { IfOk result (λ heights. length heights.items ≡ nodes) }
{
    let turned = Deps {
        field: turned(alloc, deps.field.as_slice(), nodes)?,
        word: turned(alloc, deps.word.as_slice(), nodes)?,
    };
    let levels = levels(alloc, &turned, nodes)?;
    Ok(reversed(alloc, levels.as_slice())?)
}

/// Numbers with the last one first.
fn reversed(alloc: Global, numbers: &[u32]) -> Result<Vec<u128>, AllocError>
    ensures { IfOk result (λ reversed. reversed.items ≡ reverse numbers.now) }
{
    let mut reversed = Vec::new(alloc);
    for number in numbers {
        reversed.push(*number as u128)?;
    }
    reversed.reverse();
    Ok(reversed)
}

/// Edges the other way round, where so many nodes are numbered from the last one on.
fn turned(alloc: Global, edges: &[Edge], nodes: u32) -> Result<Sequence<Edge>, AllocError>
    requires { All (GoesForward nodes) edges.now }
    ensures { IfOk result (λ turned. turned ≡ map (turned_edge nodes) edges.now) }
{
    let mut turned = Sequence::new(alloc);
    for edge in edges {
        turned.push(Edge {
            from: nodes - 1 - edge.to,
            to: nodes - 1 - edge.from,
            kind: edge.kind,
        })?;
    }
    Ok(turned)
}

/// Of each node its quanta times the blocks of a quantum.
pub fn blocks(alloc: Global, demands: &[Demand]) -> Result<Vec<u128>, AllocError>
    ensures blocks { IfOk result (λ blocks. blocks.items ≡ blocks_of demands.now) }
    ensures size { IfOk result (λ blocks. length blocks.items ≡ length demands.now) }
{
    let mut blocks = Vec::new(alloc);
    for demand in demands {
        blocks.push(demand.quanta as u128 * (demand.sram as u128 + demand.tcam as u128))?;
    }
    Ok(blocks)
}
