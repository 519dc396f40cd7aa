//! The slots of tables.

ghost use Rattle.std.specs.Prelude.{◌≡◌, ◌==◌, ◌↔◌, ℕ, IsTrue};
ghost use Rattle.rmt_config.specs.Limits.{told};
ghost use Rattle.rmt_pack.specs.Placements.{quanta_in};
ghost use Rattle.rmt_refine.specs.Units.{HasKind, TableCarried, last_stage};
ghost use Rattle.rmt_verify.specs.Standing.{IsKnown};

use crate::edges::spans::span_at;
use crate::places::lookup::are_high_first;
use crate::units::unit::Standing;
use rmt_ast::program::{Kind, Table};
use rmt_config::config::{Memory, SlotUnit};

/// Whether a memory is that of a table of a kind, with so many quanta.
fn has_kind(kind: Kind, quanta: u32, memory: &Memory) -> bool
    ensures { (n : ℕ) → quanta ≡ told n → (IsTrue result ↔ HasKind kind n memory.now) }
{
    match kind {
        Kind::Keyless => match memory {
            Memory::Without => true,
            Memory::Exact { .. } | Memory::Ternary { .. } => false,
        },
        Kind::Exact => match memory {
            Memory::Exact { quanta: own, .. } => *own as u32 == quanta,
            Memory::Without | Memory::Ternary { .. } => false,
        },
        Kind::Prefix | Kind::Ternary => match memory {
            Memory::Ternary { quanta: own, .. } => *own as u32 == quanta,
            Memory::Without | Memory::Exact { .. } => false,
        },
    }
}

/// Whether a stage is the last one in which a node stands.
fn is_last(at: &Standing, node: u32) -> bool
    requires { IsKnown at.now.parts.now at.now.stage at.now.quanta.now at.now.spans.now }
    ensures { result ≡ (at.now.stage == last_stage at.now.parts.now node) }
{
    match span_at(at.spans, node) {
        None => at.stage == 0,
        Some(span) => at.stage == span.last,
    }
}

/// The quanta of a node in a stage.
fn quanta_of(at: &Standing, node: u32) -> u32
    requires { IsKnown at.now.parts.now at.now.stage at.now.quanta.now at.now.spans.now }
    ensures { result ≡ told (quanta_in at.now.parts.now node at.now.stage) }
{
    match at.quanta.get(node as usize) {
        Some(quanta) => *quanta,
        None => 0,
    }
}

/// Whether a slot is that of a table which a node applies, in a stage.
pub fn is_slot_of(at: &Standing, node: u32, table: &Table, slot: &SlotUnit) -> bool
    requires { IsKnown at.now.parts.now at.now.stage at.now.quanta.now at.now.spans.now }
    ensures { IsTrue result ↔ TableCarried at.now.places.now at.now.parts.now node at.now.stage table.now slot.now }
{
    slot.counted == table.counted
        && slot.actions as usize == table.actions.len()
        && are_high_first(at.places, table.key.as_slice(), slot.keys.as_slice())
        && has_kind(table.kind, quanta_of(at, node), &slot.memory)
        && slot.last == is_last(at, node)
}
