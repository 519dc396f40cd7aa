//! Places the nodes of a program into the stages of the chip.

ghost use Rattle.std.specs.Prelude.{◌≡◌, ◌≤◌, ◌<◌, ◌++◌, ◌==◌, ◌^◌, ℕ, List, All, AllPairs, Ok, Err, [], OnOk, IfErr, IfOk, IfSome, MatchResult, MatchOption, fold, filter, if◌then◌else◌, length, max, slice_index, true};
ghost use Rattle.rmt_place.specs.Words.{AreFilled, AreLast, AreTwo, Edge, GoForward, IsGoodOrder, IsLegal, IsPart, IsProgram, IsStuck, Keeps, Part, TellWhy, TellsWhy, all_edges, allowed_by, demands_of, earliest_stage as earliest, is_strict as asks_for_later, keeps_limits, placed_node, placement, placement_in, standing_in};

use crate::demand::{Demand, demands};
use crate::fault::StageFull;
use crate::order::rule_order;
use crate::stages::{Stages, hits};
use rmt_ast::deps::{Deps, Edge, EdgeKind};
use rmt_ast::program::Program;
use rmt_bits::sequence::Sequence;
use rmt_config::limits::LimitHit;
use rmt_pack::placement::{Placement, is_strict};
use rmt_phv::places::Places;
use std::alloc::{AllocError, Global};

/// Places the nodes of a program, whose fields have these places, into the 32 stages of the chip.
///
/// Nodes are placed by level, and those of one level by number. A node's earliest stage is behind the last part of each
/// node from which a strict edge goes to it, and not before that of each from which a weak one goes. From there on it
/// takes in each stage the most quanta that fit by the limits of a stage, until it has all.
///
/// # Errors
///
/// Where a node doesn't have all its quanta by the last stage, what was placed, and for each stage from its earliest on
/// why one more quantum doesn't fit; where its earliest stage is behind the last one, that there are only 32.
pub fn place(
    alloc: Global,
    program: &Program,
    places: &Places,
    deps: &Deps,
) -> Result<Placement, StageFull>
    requires program { IsProgram program.now }
    // Each edge goes from a node to a later one.
    requires forward { GoForward (length program.now.nodes) deps.now }
    ensures placed { MatchResult result (λ placed. placement program.now places.now deps.now ≡ Ok placed.parts) (IsStuck (placement program.now places.now deps.now)) }
    // Each edge is kept by every part of its earlier node and every part of its later one.
    ensures keeps { IfOk result (λ placed. All (λ e. All (λ a. All (Keeps e a) placed.parts) placed.parts) (all_edges deps.now)) }
    // Each stage keeps its limits.
    ensures limits { IfOk result (λ placed. (stage : ℕ) → stage < 32 →
        keeps_limits (standing_in (demands_of program.now places.now) placed.parts stage) ≡ true) }
    // The placement is legal: each node has all its quanta, and the blocks and slots of a stage are enough.
    ensures legal { IfOk result (IsLegal program.now deps.now.field) }
    // Each part is of a node of the program, stands in a stage of the chip, and has a quantum.
    ensures parts { IfOk result (λ placed. All (IsPart (length program.now.nodes)) placed.parts) }
    // Each stands in a stage of the chip, as `offsets` asks.
    ensures stages { IfOk result (λ placed. All (λ (x : Part). x.stage < 32) placed.parts) }
    // No two parts are of one node in one stage.
    ensures apart { IfOk result (λ placed. AllPairs AreTwo placed.parts) }
    // A refusal has one hit for each stage from the node's earliest on, and what each tells of passes its limit.
    ensures hits { IfErr result TellsWhy }
{
    let demands = demands(alloc, program, places)?;
    let order = rule_order(alloc, deps, demands.len() as u32)?;
    place_in(alloc, demands.as_slice(), deps, order.as_slice())
}

/// Places nodes with these demands as `place` does, but in this order.
///
/// In a good order, which has each node once and the first node of each edge before the second, the placement is legal
/// too.
///
/// # Errors
///
/// As of `place`.
pub fn place_in(
    alloc: Global,
    demands: &[Demand],
    deps: &Deps,
    order: &[u32],
) -> Result<Placement, StageFull>
    requires { All (λ n. n < length demands.now) order.now }
    ensures placed { MatchResult result (λ placed. placement_in demands.now deps.now order.now ≡ Ok placed.parts) (IsStuck (placement_in demands.now deps.now order.now)) }
    // A good order keeps each edge between every two parts, where edges go from nodes to later ones.
    ensures keeps { GoForward (length demands.now) deps.now → IsGoodOrder (length demands.now) (all_edges deps.now) order.now →
        IfOk result (λ placed. All (λ e. All (λ a. All (Keeps e a) placed.parts) placed.parts) (all_edges deps.now)) }
    ensures limits { IfOk result (λ placed. (stage : ℕ) → stage < 32 → keeps_limits (standing_in demands.now placed.parts stage) ≡ true) }
    ensures hits { IfErr result TellsWhy }
{
    let mut stages = Stages::new(alloc, demands.len())?;
    for node in order {
        if let Some(hits) = place_node(alloc, &mut stages, demands, deps, *node)? {
            return Err(StageFull::At {
                node: *node,
                placed: placement_of(stages),
                hits,
            });
        }
    }
    Ok(placement_of(stages))
}

/// The placement of what stands in the stages.
fn placement_of(stages: Stages) -> Placement
    ensures { result.parts ≡ stages.parts.items }
{
    Placement {
        parts: Sequence::from_vec(stages.parts),
    }
}

/// Places a node; where it is stuck, tells why.
fn place_node(
    alloc: Global,
    stages: &mut Stages,
    demands: &[Demand],
    deps: &Deps,
    node: u32,
) -> Result<Option<Sequence<LimitHit>>, AllocError>
    requires stands { AreFilled demands.now stages.old }
    requires node { node < length demands.now }
    ensures placed { IfOk result (λ stuck. MatchOption stuck
        (placed_node demands.now (all_edges deps.now) stages.old.parts.items node ≡ Ok stages.new.parts.items)
        (λ hits. placed_node demands.now (all_edges deps.now) stages.old.parts.items node ≡ Err (record { node = node; placed = stages.new.parts.items; hits = hits }))) }
    ensures stands { OnOk result (AreFilled demands.now stages.new) }
    ensures hits { IfOk result (λ stuck. IfSome stuck TellWhy) }
{
    let earliest = earliest_stage(stages.last.as_slice(), deps, node);
    let before = Vec::from_slice(alloc, stages.loads.as_slice())?;
    let left = stages.spread(demands, node, earliest)?;
    if left == 0 {
        return Ok(None);
    }
    Ok(Some(hits(alloc, before.as_slice(), &demands[node as usize], earliest)?))
}

/// The earliest stage of a node.
fn earliest_stage(last: &[u32], deps: &Deps, node: u32) -> u32
    requires { (n : ℕ) → slice_index last.now n < 32 }
    ensures { (parts : List Part) → AreLast parts last.now → result ≡ earliest (all_edges deps.now) parts node }
{
    let stage = behind_edges(0, last, deps.field.as_slice(), node);
    behind_edges(stage, last, deps.word.as_slice(), node)
}

/// The first stage from one on that the edges to a node allow.
fn behind_edges(stage: u32, last: &[u32], edges: &[Edge], node: u32) -> u32
    requires { (n : ℕ) → slice_index last.now n < 32 }
    ensures { (parts : List Part) → AreLast parts last.now →
        result ≡ fold (λ most e. max most (allowed_by parts e)) stage (filter (λ (e : Edge). e.to == node) edges.now) }
{
    let mut earliest = stage;
    for edge in edges {
        if edge.to == node {
            earliest = earliest.max(last_of(last, edge.from) + wait(edge.kind));
        }
    }
    earliest
}

/// The last stage of a node; 0 where it has none.
fn last_of(last: &[u32], node: u32) -> u32
    requires { (n : ℕ) → slice_index last.now n < 32 }
    ensures value { result ≡ slice_index last.now node }
    ensures few { result < 32 }
{
    match last.get(node as usize) {
        Some(stage) => *stage,
        None => 0,
    }
}

/// How many stages an edge asks for.
fn wait(kind: EdgeKind) -> u32
    ensures value { result ≡ (if asks_for_later kind then 1 else 0) }
    ensures few { result ≤ 1 }
{
    if is_strict(kind) { 1 } else { 0 }
}
