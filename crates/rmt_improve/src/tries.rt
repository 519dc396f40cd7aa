//! Tries at placing the nodes of a program.

ghost use Rattle.std.specs.Prelude.{◌≡◌, ◌<◌, All, IfOk, List, Ok, MatchResult, if◌then◌else◌, length};
ghost use Rattle.rmt_improve.specs.Words.{Edge, IsStuck, all_edges, IsRanked, as_try, placed_by, is_better as is_better_try, try_in};

use crate::rank::{Rank, is_better as is_better_rank, rank_of};
use rmt_ast::deps::Deps;
use rmt_bits::answer::Numbers;
use rmt_bits::fault::OutOfMemory;
use rmt_bits::sequence::Sequence;
use rmt_config::limits::LimitHit;
use rmt_pack::placement::Placement;
use rmt_place::demand::Demand;
use rmt_place::fault::StageFull;
use rmt_place::place_in;
use std::alloc::Global;

/// A try: an order of the nodes, and what placing them in it gave.
#[derive(Drop)]
pub struct Tried {
    /// The numbers of the nodes.
    pub order: Numbers,
    /// What placing them gave.
    pub outcome: Outcome,
}

/// What placing the nodes in some order gave.
#[derive(Drop)]
pub enum Outcome {
    /// All nodes stand.
    Placed {
        /// Where.
        placement: Placement,
        /// How good that is.
        rank: Rank,
    },
    /// A node doesn't stand in the stages that are left for it.
    Stuck {
        /// The number of the node, from 0 on.
        node: u32,
        /// What was placed, with the quanta of this node that found room.
        placed: Placement,
        /// For each stage from the node's earliest on, the first limit that one more of its quanta would pass.
        hits: Sequence<LimitHit>,
    },
}

/// Places the nodes of these demands in this order.
pub fn try_order(
    alloc: Global,
    demands: &[Demand],
    deps: &Deps,
    order: Numbers,
) -> Result<Tried, OutOfMemory>
    requires { All (λ n. n < length demands.now) order }
    ensures tried { IfOk result (λ t. as_try t ≡ try_in demands.now deps.now order) }
    ensures ranked { IfOk result (λ t. IsRanked (all_edges deps.now) t.outcome) }
{
    match place_in(alloc, demands, deps, order.as_slice()) {
        Ok(placement) => {
            let rank = rank_of(alloc, &placement, deps)?;
            Ok(Tried {
                order,
                outcome: Outcome::Placed { placement, rank },
            })
        }
        Err(StageFull::NoMemory) => Err(OutOfMemory::NoMemory),
        Err(StageFull::At { node, placed, hits }) => Ok(Tried {
            order,
            outcome: Outcome::Stuck { node, placed, hits },
        }),
    }
}

/// The first of two tries, or the second where it is better.
pub fn better_of(best: Tried, next: Tried) -> Tried
    ensures better { (edges : List Edge) → IsRanked edges best.outcome → IsRanked edges next.outcome →
        as_try result ≡ (if is_better_try edges (as_try next) (as_try best) then as_try next else as_try best) }
    ensures ranked { (edges : List Edge) → IsRanked edges best.outcome → IsRanked edges next.outcome → IsRanked edges result.outcome }
{
    if is_better(&next, &best) { next } else { best }
}

/// Whether one try is better than another.
fn is_better(tried: &Tried, other: &Tried) -> bool
    ensures { (edges : List Edge) → IsRanked edges tried.now.outcome → IsRanked edges other.now.outcome → result ≡ is_better_try edges (as_try tried.now) (as_try other.now) }
{
    match &tried.outcome {
        Outcome::Placed { rank, .. } => match &other.outcome {
            Outcome::Placed { rank: other, .. } => is_better_rank(rank, other),
            Outcome::Stuck { .. } => true,
        },
        Outcome::Stuck { .. } => false,
    }
}

/// What a try gave, as placing tells it.
pub fn answer(tried: Tried) -> Result<Placement, StageFull>
    ensures { MatchResult result (λ placed. placed_by tried.outcome ≡ Ok placed.parts) (IsStuck (placed_by tried.outcome)) }
{
    let Tried {
        order: _order,
        outcome,
    } = tried;
    match outcome {
        Outcome::Placed { placement, .. } => Ok(placement),
        Outcome::Stuck { node, placed, hits } => Err(StageFull::At { node, placed, hits }),
    }
}
