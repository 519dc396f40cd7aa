//! The stages between which the parts of a node stand.

ghost use Rattle.std.specs.Prelude.{◌≡◌, ◌<◌, ℕ, All, IfOk, slice_index, slice_index_or};
ghost use Rattle.rmt_pack.specs.declared.placement.Part.{Part};
ghost use Rattle.rmt_pack.specs.Starts.{distance as distance_of, stages_of};
ghost use Rattle.rmt_verify.specs.EdgeSpans.{no_span, span_keeps, span_of, widened as widened_by};

use rmt_ast::deps::EdgeKind;
use rmt_pack::placement::{Part, is_strict};
use std::alloc::{AllocError, Global};

/// The first and the last stage in which a node has a part.
#[derive(Clone, Copy, Debug, PartialEq, Eq)]
pub struct Span {
    pub first: u32,
    pub last: u32,
}

/// The span with one stage more.
fn widened(span: Option<Span>, stage: u32) -> Option<Span>
    ensures { result ≡ widened_by span stage }
{
    match span {
        None => Some(Span {
            first: stage,
            last: stage,
        }),
        Some(span) => Some(Span {
            first: span.first.min(stage),
            last: span.last.max(stage),
        }),
    }
}

/// The span of each of so many nodes, by its number.
pub fn spans_of(
    alloc: Global,
    nodes: usize,
    parts: &[Part],
) -> Result<Vec<Option<Span>>, AllocError>
    requires { All (λ (x : Part). x.node < nodes) parts.now }
    ensures { IfOk result (λ spans. (n : ℕ) → slice_index_or spans.items n no_span ≡ span_of (stages_of parts.now n)) }
{
    let mut spans = vec![in alloc; None; nodes]?;
    for part in parts {
        let node = part.node as usize;
        spans[node] = widened(spans[node], part.stage);
    }
    Ok(spans)
}

/// The span of the node of that number.
pub fn span_at(spans: &[Option<Span>], node: u32) -> Option<Span>
    ensures { result ≡ slice_index_or spans.now node no_span }
{
    match spans.get(node as usize) {
        Some(span) => *span,
        None => None,
    }
}

/// The start of the stage of that number.
fn start_of(starts: &[u16], stage: u32) -> u32
    ensures value { result ≡ slice_index starts.now stage }
    ensures small { result < 65536 }
{
    match starts.get(stage as usize) {
        Some(start) => *start as u32,
        None => 0,
    }
}

/// How many cycles an edge asks for.
fn distance(kind: EdgeKind) -> u32
    ensures value { result ≡ distance_of kind }
    ensures few { result < 13 }
{
    match kind {
        EdgeKind::Match => 12,
        EdgeKind::Action | EdgeKind::Word => 3,
        EdgeKind::Successor | EdgeKind::Reverse => 1,
    }
}

/// Whether an edge is kept between nodes with these spans.
///
/// A weak edge's distance is one cycle, which starts that rise keep.
pub fn keeps(starts: &[u16], kind: EdgeKind, first: Option<Span>, second: Option<Span>) -> bool
    ensures { result ≡ span_keeps starts.now kind first second }
{
    let Some(first) = first else {
        return true;
    };
    let Some(second) = second else {
        return true;
    };
    if !is_strict(kind) {
        return first.last <= second.first;
    }
    first.last < second.first
        && start_of(starts, first.last) + distance(kind) <= start_of(starts, second.first)
}
