//! The unit of a node.

ghost use Rattle.std.specs.Prelude.{◌≡◌, ◌↔◌, IsTrue};
ghost use Rattle.rmt_ast.specs.WellFormed.{IsProgram};
ghost use Rattle.rmt_config.specs.TableForm.{node_of};
ghost use Rattle.rmt_phv.specs.Places.{KeepsApart};
ghost use Rattle.rmt_refine.specs.Units.{DoesAs, UnitCarried, guard_in as guard_in_unit, guard_of};
ghost use Rattle.rmt_verify.specs.Standing.{IsKnown};

use crate::edges::spans::Span;
use crate::units::gate::has_tests;
use crate::units::slot::is_slot_of;
use rmt_ast::program::{Guard, Program, What};
use rmt_config::config::{Unit, UnitGuard};
use rmt_pack::placement::Part;
use rmt_phv::places::Places;

/// A stage whose units are looked at.
#[derive(Drop)]
pub struct Standing<'a> {
    pub program: &'a Program,
    /// The places of its fields.
    pub places: &'a Places,
    /// The parts of its nodes.
    pub parts: &'a [Part],
    /// The first and the last stage of each node, by its number.
    pub spans: &'a [Option<Span>],
    /// The number of the stage.
    pub stage: u32,
    /// The quanta of each node there, by its number.
    pub quanta: &'a [u32],
}

/// The number of a unit's node.
fn number_of(unit: &Unit) -> u8
    ensures { result ≡ node_of unit.now }
{
    match unit {
        Unit::Gate(gate) => gate.node,
        Unit::Slot(slot) => slot.node,
    }
}

/// The guard of a unit.
fn guard_in(unit: &Unit) -> Option<UnitGuard>
    ensures { result ≡ guard_in_unit unit.now }
{
    match unit {
        Unit::Gate(gate) => gate.guard,
        Unit::Slot(slot) => slot.guard,
    }
}

/// Whether the guard of a unit is that of a node.
fn is_guard(own: Option<UnitGuard>, guard: Option<Guard>) -> bool
    ensures { IsTrue result ↔ own ≡ guard_of guard }
{
    match own {
        None => guard.is_none(),
        Some(own) => match guard {
            None => false,
            Some(guard) => own.parent as u32 == guard.parent && own.mask == guard.mask,
        },
    }
}

/// Whether a unit does what a node does, in a stage.
fn does(at: &Standing, node: u32, what: What, unit: &Unit) -> bool
    requires program { IsProgram at.now.program.now }
    requires places { KeepsApart at.now.program.now at.now.places.now }
    requires known { IsKnown at.now.parts.now at.now.stage at.now.quanta.now at.now.spans.now }
    ensures { IsTrue result ↔ DoesAs at.now.program.now at.now.places.now at.now.parts.now at.now.stage node what unit.now }
{
    match what {
        What::Apply(table) => match unit {
            Unit::Gate(_) => false,
            Unit::Slot(slot) => match at.program.tables.get(table as usize) {
                None => false,
                Some(table) => is_slot_of(at, node, table, slot),
            },
        },
        What::Gate { field, test } => match unit {
            Unit::Gate(gate) => has_tests(at.places, field, &test, gate.tests.as_slice()),
            Unit::Slot(_) => false,
        },
    }
}

/// Whether a unit is that of the node of a number, in a stage.
pub fn is_unit_of(at: &Standing, node: u32, unit: &Unit) -> bool
    requires program { IsProgram at.now.program.now }
    requires places { KeepsApart at.now.program.now at.now.places.now }
    requires known { IsKnown at.now.parts.now at.now.stage at.now.quanta.now at.now.spans.now }
    ensures { IsTrue result ↔ UnitCarried at.now.program.now at.now.places.now at.now.parts.now at.now.stage node unit.now }
{
    match at.program.nodes.get(node as usize) {
        None => false,
        Some(own) => {
            number_of(unit) as u32 == node
                && is_guard(guard_in(unit), own.guard)
                && does(at, node, own.what, unit)
        }
    }
}
