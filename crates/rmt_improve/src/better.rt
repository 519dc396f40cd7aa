//! A better placement of a program than the rule's.

ghost use Rattle.std.specs.Prelude.{◌≡◌, ◌≤◌, ◌<◌, ◌^◌, ℕ, All, AllPairs, Ok, IfErr, IfOk, MatchResult, length, true};
ghost use Rattle.rmt_improve.specs.Words.{AreTwo, GoForward, IsLegal, IsPart, IsProgram, IsStuck, Keeps, Part, TellsWhy, all_edges, demand_at, demands_of, keeps_limits, placement, quanta_of, stages_in, standing_in, as_try, best_try, better_placement};

use crate::order::order_of_try;
use crate::tries::{Tried, answer, better_of, try_order};
use rmt_ast::deps::Deps;
use rmt_ast::program::Program;
use rmt_bits::fault::OutOfMemory;
use rmt_pack::placement::Placement;
use rmt_phv::places::Places;
use rmt_place::demand::{Demand, demands};
use rmt_place::fault::StageFull;
use rmt_place::rule_order;
use std::alloc::Global;

/// Places the nodes of a program, whose fields have these places, as `place` does, but in that of several orders which
/// gives the best placement.
///
/// A try is better than another where it isn't stuck and the other is, or it has fewer stages, or as many and an
/// earlier start of the last one; the earliest that none is better than is taken. The first try is the rule's. The next
/// two take each time, of the nodes whose edges' first nodes are all taken, the one with the most strict edges on a path
/// that begins in it, and the one with the most blocks. Each later one exchanges two neighbours in the order of the best
/// so far, the next two each time, where no edge goes from the first to the second.
///
/// # Errors
///
/// Where all tries are stuck, what `place` tells.
pub fn place_better(
    alloc: Global,
    program: &Program,
    places: &Places,
    deps: &Deps,
    budget: u32,
) -> Result<Placement, StageFull>
    requires program { IsProgram program.now }
    // Each edge goes from a node to a later one.
    requires forward { GoForward (length program.now.nodes) deps.now }
    // How many tries there are.
    requires some { 1 ≤ budget }
    requires few { budget ≤ 1000 }
    // It is the placement of the best try, and a refusal is that of the best try.
    ensures exact { MatchResult result (λ placed. better_placement program.now places.now deps.now budget ≡ Ok placed.parts)
        (IsStuck (better_placement program.now places.now deps.now budget)) }
    // Each edge is kept by every part of its earlier node and every part of its later one.
    ensures keeps { IfOk result (λ placed. All (λ e. All (λ a. All (Keeps e a) placed.parts) placed.parts) (all_edges deps.now)) }
    // Each stage keeps its limits.
    ensures limits { IfOk result (λ placed. (stage : ℕ) → stage < 32 →
        keeps_limits (standing_in (demands_of program.now places.now) placed.parts stage) ≡ true) }
    // The placement is legal.
    ensures legal { IfOk result (IsLegal program.now deps.now.field) }
    // Each part is of a node of the program, stands in a stage of the chip, and has a quantum.
    ensures parts { IfOk result (λ placed. All (IsPart (length program.now.nodes)) placed.parts) }
    // No two parts are of one node in one stage.
    ensures apart { IfOk result (λ placed. AllPairs AreTwo placed.parts) }
    // Each node has exactly the quanta that it needs.
    ensures quanta { IfOk result (λ placed. (n : ℕ) → n < length program.now.nodes →
        quanta_of placed.parts n ≡ (demand_at (demands_of program.now places.now) n).quanta) }
    // It never has more stages than the rule's.
    ensures never_more { IfOk result (λ placed. IfOk (placement program.now places.now deps.now) (λ by_rule. stages_in placed.parts ≤ stages_in by_rule)) }
    // A refusal is that of the rule too: a placement is there wherever the rule's is.
    ensures refused { IfErr result (IsStuck (placement program.now places.now deps.now)) }
    // It has one hit for each stage from the node's earliest on, and what each tells of passes its limit.
    ensures hits { IfErr result TellsWhy }
{
    let demands = demands(alloc, program, places)?;
    let best = best_of_tries(alloc, demands.as_slice(), deps, budget)?;
    answer(best)
}

/// The best of so many tries at placing nodes with these demands.
fn best_of_tries(
    alloc: Global,
    demands: &[Demand],
    deps: &Deps,
    budget: u32,
) -> Result<Tried, OutOfMemory>
    requires few { length demands.now < 2 ^ 32 }
    requires forward { GoForward (length demands.now) deps.now }
    requires budget { 1 ≤ budget }
    ensures { IfOk result (λ t. as_try t ≡ best_try demands.now deps.now budget) }
{
    let order = rule_order(alloc, deps, demands.len() as u32)?;
    let mut best = try_order(alloc, demands, deps, order)?;
    for number in 1..budget {
        let order = order_of_try(alloc, demands, deps, number, best.order.as_slice())?;
        let next = try_order(alloc, demands, deps, order)?;
        best = better_of(best, next);
    }
    Ok(best)
}
