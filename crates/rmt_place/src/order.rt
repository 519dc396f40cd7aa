//! In which order nodes are placed.

ghost use Rattle.std.specs.Prelude.{◌≡◌, ◌<◌, ◌^◌, IfOk, length};
ghost use Rattle.rmt_deps.specs.Edges.{GoForward};
ghost use Rattle.rmt_place.specs.Placing.{order_of, rule_order as order_by_rule};

use crate::fault::PlaceFault;
use rmt_ast::deps::Deps;
use rmt_bits::answer::Numbers;
use rmt_deps::levels;
use std::alloc::{AllocError, Global};

/// So many nodes in the rule's order: by level, and those of one level by number.
///
/// # Errors
///
/// For want of memory alone.
pub fn rule_order(alloc: Global, deps: &Deps, nodes: u32) -> Result<Numbers, PlaceFault>
    // Each edge goes from a node to a later one.
    requires { GoForward nodes deps.now }
    ensures { IfOk result (λ order. order ≡ order_by_rule deps.now nodes) }
{
    let levels = levels(alloc, deps, nodes)?;
    let order = order(alloc, levels.as_slice())?;
    Ok(order)
}

/// The nodes by level, and those of one level by number, where each node has a level by its number.
fn order(alloc: Global, levels: &[u32]) -> Result<Numbers, AllocError>
    requires { length levels.now < 2 ^ 32 }
    ensures { IfOk result (λ order. order ≡ order_of levels.now) }
{
    let mut order = Numbers::new(alloc);
    for level in 0..levels.len() {
        for (node, other) in levels.iter().enumerate() {
            if *other as usize == level {
                order.push(node as u32)?;
            }
        }
    }
    Ok(order)
}
