//! Third part: the units of each stage are those of the nodes that stand there.

ghost use Rattle.std.specs.Prelude.{◌≡◌, ◌<◌, ◌≢◌, ◌↔◌, ◌^◌, ℕ, Option, IfOk, IsOkUnless, IsTrue, map, slice_index_or};
ghost use Rattle.rmt_config.specs.declared.config.Stage.{Stage};
ghost use Rattle.rmt_pack.specs.declared.placement.Part.{Part};
ghost use Rattle.rmt_verify.specs.EdgeSpans.{no_span};
ghost use Rattle.rmt_verify.specs.Given.{IsPlaced, OutOfMemory, UnitsCarried};

mod gate;
mod quanta;
mod slot;
mod stage;
mod unit;

use crate::all::{TestOfPair, all_match};
use crate::edges::parts_stand;
use crate::edges::spans::{Span, span_at, spans_of};
use crate::fault::VerifyFault;
use rmt_ast::program::Program;
use rmt_config::config::{Config, Stage};
use rmt_pack::placement::Part;
use rmt_phv::places::Places;
use stage::{Placed, all_stages};
use std::alloc::Global;

/// That a stage has this start.
#[derive(Drop)]
struct StartsAt;

impl TestOfPair for StartsAt {
    type Left = Stage;

    type Right = u16;

    ghost fit = { λ _ stage start. stage.start ≡ start };

    fn matches(&self, stage: &Stage, start: &u16) -> bool {
        stage.start == *start
    }
}

/// Whether the stages have these starts.
fn starts_are(stages: &[Stage], starts: &[u16]) -> bool
    ensures { IsTrue result ↔ map (λ (s : Stage). s.start) stages.now ≡ starts.now }
{
    all_match(&StartsAt, stages, starts)
}

/// Whether each of so many nodes stands somewhere.
fn all_stand(nodes: usize, spans: &[Option<Span>]) -> bool
    requires { nodes < 2 ^ 32 }
    ensures { IsTrue result ↔ ((n : ℕ) → n < nodes → slice_index_or spans.now n no_span ≢ no_span) }
{
    for node in 0..nodes as u32 {
        if span_at(spans, node).is_none() {
            return false;
        }
    }
    true
}

/// Whether the units of a configuration are those of the nodes of a program, stage by stage as these parts place them:
/// each node stands somewhere, no part is of another node or past the last stage, and a stage has this start and one unit
/// for each node that stands in it, by number, with the node's guard, its test or its table's key, actions, kind and
/// quanta of memory.
///
/// The time is that of going over the units, and over the parts once a stage.
///
/// # Errors
///
/// For want of memory.
pub fn units_hold(
    alloc: Global,
    program: &Program,
    places: &Places,
    parts: &[Part],
    starts: &[u16],
    config: &Config,
) -> Result<bool, VerifyFault>
    // As the first part says of the places.
    requires placed { IsPlaced program.now places.now config.now }
    ensures exact { IfOk result (λ holds. IsTrue holds ↔ UnitsCarried program.now places.now parts.now starts.now config.now) }
    ensures only_memory { IsOkUnless result OutOfMemory.NoMemory }
{
    let stages = config.stages.as_slice();
    let nodes = program.nodes.len();
    if !starts_are(stages, starts) {
        return Ok(false);
    }
    if !parts_stand(nodes, stages.len(), parts) {
        return Ok(false);
    }
    let spans = spans_of(alloc, nodes, parts)?;
    if !all_stand(nodes, &spans) {
        return Ok(false);
    }
    let placed = Placed {
        program,
        places,
        parts,
        spans: &spans,
    };
    Ok(all_stages(alloc, &placed, stages)?)
}
