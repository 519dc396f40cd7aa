//! The units of stages.

ghost use Rattle.std.specs.Prelude.{◌<◌, ◌↔◌, ℕ, IfOk, IsSomeAnd, IsTrue, length, slice_get};
ghost use Rattle.std.specs.List.{AllZip};
ghost use Rattle.rmt_config.specs.declared.config.Stage.{Stage};
ghost use Rattle.rmt_refine.specs.Units.{UnitCarried, nodes_in};
ghost use Rattle.rmt_verify.specs.Given.{IsProgram, KeepsApart};
ghost use Rattle.rmt_verify.specs.Standing.{ArePlaced, IsKnown};

use crate::edges::spans::Span;
use crate::units::quanta::{quanta_at, standing};
use crate::units::unit::{Standing, is_unit_of};
use rmt_ast::program::Program;
use rmt_config::config::{Stage, Unit};
use rmt_pack::placement::Part;
use rmt_phv::places::Places;
use std::alloc::{AllocError, Global};

/// Whether units are those of these nodes in a stage, in the same order.
fn units_are(at: &Standing, nodes: &[u32], units: &[Unit]) -> bool
    requires program { IsProgram at.now.program.now }
    requires places { KeepsApart at.now.program.now at.now.places.now }
    requires known { IsKnown at.now.parts.now at.now.stage at.now.quanta.now at.now.spans.now }
    ensures { IsTrue result ↔ AllZip (UnitCarried at.now.program.now at.now.places.now at.now.parts.now at.now.stage) nodes.now units.now }
{
    if nodes.len() != units.len() {
        return false;
    }
    for (place, node) in nodes.iter().enumerate() {
        if !is_unit_of(at, *node, &units[place]) {
            return false;
        }
    }
    true
}

/// A program whose nodes are placed.
#[derive(Clone, Copy)]
pub struct Placed<'a> {
    pub program: &'a Program,
    /// The places of its fields.
    pub places: &'a Places,
    /// The parts of its nodes.
    pub parts: &'a [Part],
    /// The first and the last stage of each node, by its number.
    pub spans: &'a [Option<Span>],
}

/// Whether the units of a stage are those of the nodes that stand there.
fn stage_holds(
    alloc: Global,
    placed: &Placed,
    stage: u32,
    units: &[Unit],
) -> Result<bool, AllocError>
    requires placed { ArePlaced placed.now.program.now placed.now.places.now placed.now.parts.now placed.now.spans.now }
    ensures { IfOk result (λ holds. IsTrue holds ↔
        AllZip (UnitCarried placed.now.program.now placed.now.places.now placed.now.parts.now stage) (nodes_in placed.now.program.now placed.now.parts.now stage) units.now) }
{
    let quanta = quanta_at(alloc, placed.program.nodes.len(), placed.parts, stage)?;
    let quanta = quanta.as_slice();
    let nodes = standing(alloc, quanta)?;
    let at = Standing {
        program: placed.program,
        places: placed.places,
        parts: placed.parts,
        spans: placed.spans,
        stage,
        quanta,
    };
    Ok(units_are(&at, nodes.as_slice(), units))
}

/// Whether the units of each stage are those of the nodes that stand there.
pub fn all_stages(alloc: Global, placed: &Placed, stages: &[Stage]) -> Result<bool, AllocError>
    requires placed { ArePlaced placed.now.program.now placed.now.places.now placed.now.parts.now placed.now.spans.now }
    requires few { length stages.now < 256 }
    ensures { IfOk result (λ hold. IsTrue hold ↔ ((k : ℕ) → k < length stages.now → IsSomeAnd (slice_get stages.now k)
        (λ (s : Stage). AllZip (UnitCarried placed.now.program.now placed.now.places.now placed.now.parts.now k) (nodes_in placed.now.program.now placed.now.parts.now k) s.units))) }
{
    for k in 0..stages.len() {
        let units = stages[k].units.as_slice();
        if !stage_holds(alloc, placed, k as u32, units)? {
            return Ok(false);
        }
    }
    Ok(true)
}
