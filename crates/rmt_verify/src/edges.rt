//! Sixth part: the parts of the nodes keep every edge, and the starts its distance.

ghost use Rattle.std.specs.Prelude.{◌≡◌, ◌<◌, ◌^◌, ◌↔◌, All, IfOk, IsOkUnless, IsTrue, length};
ghost use Rattle.std.specs.List.{list_all};
ghost use Rattle.rmt_bits.specs.declared.fault.OutOfMemory.{OutOfMemory};
ghost use Rattle.rmt_refine.specs.Carries.{EdgesKept, all_edges};
ghost use Rattle.rmt_verify.specs.EdgeSpans.{IsPartOf, is_kept};

pub mod spans;
mod starts;

use crate::all::{Test, all_pass};
use crate::fault::VerifyFault;
use rmt_ast::deps::Edge;
use rmt_ast::program::Program;
use rmt_deps::dependencies;
use rmt_pack::placement::Part;
use rmt_phv::places::Places;
use spans::{Span, keeps, span_at, spans_of};
use starts::rise;
use std::alloc::Global;

/// That a part is of one of so many nodes, stands in one of so many stages, and has quanta there.
#[derive(Drop)]
struct StandsAmong {
    nodes: usize,
    stages: usize,
}

impl Test for StandsAmong {
    type Item = Part;

    ghost holds = { λ test. IsPartOf test.nodes test.stages };

    fn passes(&self, part: &Part) -> bool {
        (part.node as usize) < self.nodes && (part.stage as usize) < self.stages && 0 < part.quanta
    }
}

/// Whether each part is of one of so many nodes, stands in one of so many stages, and has quanta there.
pub fn parts_stand(nodes: usize, stages: usize, parts: &[Part]) -> bool
    ensures exact { IsTrue result ↔ All (IsPartOf nodes stages) parts.now }
{
    all_pass(&StandsAmong { nodes, stages }, parts)
}

/// Whether edges are kept between nodes with these spans, by their numbers.
fn all_kept(spans: &[Option<Span>], starts: &[u16], edges: &[Edge]) -> bool
    ensures { result ≡ list_all (is_kept spans.now starts.now) edges.now }
{
    for edge in edges {
        let first = span_at(spans, edge.from);
        let second = span_at(spans, edge.to);
        if !keeps(starts, edge.kind, first, second) {
            return false;
        }
    }
    true
}

/// Whether the parts of nodes keep every edge of a program whose fields have these places, and the starts of the stages
/// rise from 0 and keep the distance of each edge between every two stages that it joins.
///
/// The time is that of finding the edges, and of one look at each edge, part and start.
///
/// # Errors
///
/// For want of memory.
pub fn edges_hold(
    alloc: Global,
    program: &Program,
    places: &Places,
    parts: &[Part],
    starts: &[u16],
) -> Result<bool, VerifyFault>
    // As every well-formed program has.
    requires nodes { length program.now.nodes < 2 ^ 32 }
    // Each part is of a node, stands in a stage that has a start, and has quanta there.
    requires parts { All (IsPartOf (length program.now.nodes) (length starts.now)) parts.now }
    ensures exact { IfOk result (λ holds. IsTrue holds ↔ EdgesKept (all_edges program.now places.now) parts.now starts.now) }
    ensures only_memory { IsOkUnless result OutOfMemory.NoMemory }
{
    if !rise(starts) {
        return Ok(false);
    }
    let deps = dependencies(alloc, program, places)?;
    let spans = spans_of(alloc, program.nodes.len(), parts)?;
    let field = all_kept(spans.as_slice(), starts, deps.field.as_slice());
    let word = all_kept(spans.as_slice(), starts, deps.word.as_slice());
    Ok(field & word)
}
