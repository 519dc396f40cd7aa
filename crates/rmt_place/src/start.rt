//! When the stages of a placement start.

ghost use Rattle.std.specs.Prelude.{◌≡◌, ◌<◌, ◌≤◌, ◌*◌, ◌+◌, ◌++◌, [], ◌∷◌, ℕ, List, All, IfOk, fold, max, length, slice_index, vec_len};
ghost use Rattle.std.specs.List.{flat_map};
ghost use Rattle.rmt_bits.specs.Members.{is_among};
ghost use Rattle.rmt_config.specs.Resources.{greatest_by};
ghost use Rattle.rmt_deps.specs.Levels.{all_edges};
ghost use Rattle.rmt_pack.specs.declared.placement.Part.{Part};
ghost use Rattle.rmt_pack.specs.Starts.{KeepDistances, distance as distance_of, stages_of};
ghost use Rattle.rmt_place.specs.Starting.{asked_by, starts_behind, next_start as start_behind, stages_in, starts_of};
ghost use Rattle.rmt_place.specs.Steps.{Marked, AreEarly};

use crate::fault::PlaceFault;
use rmt_ast::deps::{Deps, Edge, EdgeKind};
use rmt_bits::sequence::Sequence;
use rmt_pack::placement::{Part, Placement};
use std::alloc::{AllocError, Global};

/// When each stage of a placement starts, in cycles behind the start of the chip: each as early as it may.
///
/// The first stage starts at 0, and every other at least 1 cycle behind the one before. Where an edge goes from a node
/// with a part in one stage to a node with a part in a later one, the later stage starts at least 12 cycles behind for
/// a match edge, and 3 for an action or word edge.
pub fn offsets(
    alloc: Global,
    placement: &Placement,
    deps: &Deps,
) -> Result<Sequence<u16>, PlaceFault>
    // As in every placement that is made here.
    requires { All (λ (x : Part). x.stage < 32) placement.now.parts }
    // Which starts.
    ensures starts { IfOk result (λ starts. starts ≡ starts_of (all_edges deps.now) placement.now.parts) }
    // They keep the distance of each edge between every two stages that it joins.
    ensures kept { IfOk result (KeepDistances (all_edges deps.now) placement.now.parts) }
    // None of any others that do, for as many stages or more, is smaller.
    ensures least { IfOk result (λ starts. (others : List ℕ) → KeepDistances (all_edges deps.now) placement.now.parts others → length starts ≤ length others →
        (k : ℕ) → k < length starts → slice_index starts k ≤ slice_index others k) }
{
    let parts = placement.parts.as_slice();
    let marks = marked(alloc, parts)?;
    let mut starts = Vec::new(alloc);
    for _stage in 0..count_stages(parts) {
        let start = next_start(starts.as_slice(), marks.as_slice(), deps);
        starts.push(start)?;
    }
    Ok(Sequence::from_vec(starts))
}

/// How many stages a placement has.
fn count_stages(parts: &[Part]) -> u32
    requires { All (λ (x : Part). x.stage < 32) parts.now }
    ensures value { result ≡ stages_in parts.now }
    ensures few { result ≤ 32 }
{
    let mut count = 0;
    for part in parts {
        count = count.max(part.stage + 1);
    }
    count
}

/// The greatest number of a node.
fn greatest_node(parts: &[Part]) -> u32
    ensures { All (λ (x : Part). x.node ≤ result) parts.now }
{
    let mut most = 0;
    for part in parts {
        most = most.max(part.node);
    }
    most
}

/// The marks of where each node has a part.
fn marked(alloc: Global, parts: &[Part]) -> Result<Vec<bool>, AllocError>
    requires { All (λ (x : Part). x.stage < 32) parts.now }
    ensures { IfOk result (λ marks. Marked parts.now marks.items) }
{
    let mut marks = vec![in alloc; false; (greatest_node(parts) as usize + 1) * 32]?;
    for part in parts {
        mark(&mut marks, part);
    }
    Ok(marks)
}

/// Marks where a part stands.
fn mark(marks: &mut Vec<bool>, part: &Part)
    requires stage { part.now.stage < 32 }
    requires node { part.now.node * 32 + 32 ≤ vec_len marks.old }
    ensures marks { (parts : List Part) → Marked parts marks.old.items → Marked (parts ++ part.now ∷ []) marks.new.items }
    ensures size { vec_len marks.new ≡ vec_len marks.old }
{
    marks[part.node as usize * 32 + part.stage as usize] = true;
}

/// Whether a node has a part in a stage.
fn has_part(marks: &[bool], node: u32, stage: usize) -> bool
    requires { stage < 32 }
    ensures { (parts : List Part) → Marked parts marks.now → result ≡ is_among (stages_of parts node) stage }
{
    match marks.get(node as usize * 32 + stage) {
        Some(mark) => *mark,
        None => false,
    }
}

/// How many cycles an edge asks for.
fn distance(kind: EdgeKind) -> u16
    ensures value { result ≡ distance_of kind }
    ensures few { result ≤ 12 }
{
    match kind {
        EdgeKind::Match => 12,
        EdgeKind::Action | EdgeKind::Word => 3,
        EdgeKind::Successor | EdgeKind::Reverse => 1,
    }
}

/// The least start of the next stage.
fn next_start(starts: &[u16], marks: &[bool], deps: &Deps) -> u16
    requires few { length starts.now < 32 }
    requires early { AreEarly starts.now }
    ensures value { (parts : List Part) → Marked parts marks.now → result ≡ start_behind (all_edges deps.now) parts starts.now }
    ensures early { result ≤ 12 * length starts.now }
{
    let start = behind_all(starts);
    let start = asked_by_all(start, starts, marks, deps.field.as_slice());
    asked_by_all(start, starts, marks, deps.word.as_slice())
}

/// The first cycle behind the starts of all stages before.
fn behind_all(starts: &[u16]) -> u16
    requires few { length starts.now < 32 }
    requires early { AreEarly starts.now }
    ensures value { result ≡ greatest_by (λ start. start + 1) starts.now }
    ensures early { result ≤ 12 * length starts.now }
{
    let mut start = 0;
    for other in starts {
        start = start.max(*other + 1);
    }
    start
}

/// What edges ask of the start of the next stage, where it is this or later.
fn asked_by_all(start: u16, starts: &[u16], marks: &[bool], edges: &[Edge]) -> u16
    requires few { length starts.now < 32 }
    requires early { AreEarly starts.now }
    requires start { start ≤ 12 * length starts.now }
    ensures value { (parts : List Part) → Marked parts marks.now →
        result ≡ fold max start (flat_map (asked_by starts.now parts (length starts.now)) edges.now) }
    ensures early { result ≤ 12 * length starts.now }
{
    let mut latest = start;
    for edge in edges {
        latest = asked_by_one(latest, starts, marks, edge);
    }
    latest
}

/// What an edge asks of the start of the next stage.
fn asked_by_one(start: u16, starts: &[u16], marks: &[bool], edge: &Edge) -> u16
    requires few { length starts.now < 32 }
    requires early { AreEarly starts.now }
    requires start { start ≤ 12 * length starts.now }
    ensures value { (parts : List Part) → Marked parts marks.now →
        result ≡ fold max start (asked_by starts.now parts (length starts.now) edge.now) }
    ensures early { result ≤ 12 * length starts.now }
{
    if !has_part(marks, edge.to, starts.len()) {
        return start;
    }
    behind_parts(start, starts, marks, edge.from, distance(edge.kind))
}

/// The first start that is so many cycles behind those of all stages with a part of a node.
fn behind_parts(start: u16, starts: &[u16], marks: &[bool], node: u32, distance: u16) -> u16
    requires few { length starts.now < 32 }
    requires early { AreEarly starts.now }
    requires start { start ≤ 12 * length starts.now }
    requires distance { distance ≤ 12 }
    ensures value { (parts : List Part) → Marked parts marks.now →
        result ≡ fold max start (starts_behind starts.now parts (length starts.now) node distance) }
    ensures early { result ≤ 12 * length starts.now }
{
    let mut latest = start;
    for (stage, earlier) in starts.iter().enumerate() {
        if has_part(marks, node, stage) {
            latest = latest.max(*earlier + distance);
        }
    }
    latest
}
