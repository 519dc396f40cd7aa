//! The rules of form of what memory holds: occupied cells as a slot lists them, and zeros.

ghost use Rattle.std.specs.Prelude.{◌≡◌, ◌*◌, ◌<◌, ◌≤◌, ◌↔◌, length, IsTrue, All};
ghost use Rattle.std.specs.List.{list_all};
ghost use Rattle.rmt_config.specs.LaneForm.{bits_of_lanes};
ghost use Rattle.rmt_config.specs.StageForm.{stage_is_formed, rows_are_formed};
ghost use Rattle.rmt_config.specs.UnitForm.{slot_is_formed, unit_is_formed};
ghost use Rattle.rmt_config.specs.CellForm.{SlotHolds, StageHolds, Coded, coded_from};
ghost use Rattle.rmt_config.specs.MemoryRules.{FormedRows, ExactFits, TernaryFits};
ghost use Rattle.rmt_config.specs.Layouts.{EntriesHeld, ExactHeld, HasHeads, TernaryHeld, exact_keys as exact_keys_of};

use crate::config::{Memory, SlotUnit, Stage, Unit};
use crate::form::cells::{Entries, HeadRule, cells_are_formed};
use crate::form::lane::key_bits;
use crate::form::layout::CellLayout;
use crate::form::parts::{exact_keys, exact_records, ternary_keys, ternary_records};
use crate::form::set_bits::blocks_are_told;

/// A slot of a stage, the visible bits of its cells, and the number of its first instruction.
#[derive(Clone, Copy)]
struct SlotPlace<'a> {
    stage: &'a Stage,
    slot: &'a SlotUnit,
    visible: u8,
    first: u32,
}

/// Whether the entries of the listed cells in these blocks have heads of occupied cells, and no other bit is set there.
fn entries_hold(place: &SlotPlace, layout: &CellLayout, blocks: &[u8]) -> bool
    requires rows { FormedRows place.now.stage.now }
    requires heads { HasHeads layout.now }
    requires blocks { length blocks.now ≡ layout.now.quanta * layout.now.units * layout.now.side }
    requires first { place.now.first < 65536 }
    ensures { IsTrue result ↔ EntriesHeld place.now.stage.now place.now.slot.now place.now.visible place.now.first layout.now blocks.now }
{
    let rows = place.stage.srows.as_slice();
    let numbers = place.slot.numbers.as_slice();
    let entries = Entries {
        layout: *layout,
        blocks,
        rows,
    };
    let rule = HeadRule {
        visible: place.visible,
        first: place.first,
        actions: place.slot.actions,
    };
    if !cells_are_formed(&entries, numbers, rule) {
        return false;
    }
    blocks_are_told(layout, numbers, blocks, rows)
}

/// The layout of the entries of an exact part.
fn exact_entries(slot: &SlotUnit, width: u8, per: u16, quanta: u8) -> CellLayout
    requires { bits_of_lanes slot.now.keys ≤ 640 }
    ensures { result ≡ exact_keys_of width per quanta (bits_of_lanes slot.now.keys) }
{
    exact_keys(width, per, quanta, key_bits(slot.keys.as_slice()))
}

/// Whether the rows and numbers of an exact part are those of occupied cells, and all else is zero.
fn exact_holds(
    place: &SlotPlace,
    width: u8,
    per: u16,
    quanta: u8,
    keys: &[u8],
    records: &[u8],
) -> bool
    requires rows { FormedRows place.now.stage.now }
    requires fits { ExactFits place.now.slot.now width per quanta keys.now records.now }
    requires first { place.now.first < 65536 }
    ensures { IsTrue result ↔ ExactHeld place.now.stage.now place.now.slot.now place.now.visible place.now.first width per quanta keys.now records.now }
{
    let layout = exact_entries(place.slot, width, per, quanta);
    if !entries_hold(place, &layout, keys) {
        return false;
    }
    if place.slot.held == 0 {
        return true;
    }
    let layout = exact_records(per, quanta, place.slot.held);
    let numbers = place.slot.numbers.as_slice();
    blocks_are_told(&layout, numbers, records, place.stage.srows.as_slice())
}

/// Whether the rows and numbers of a ternary part are those of occupied cells, and all else is zero.
fn ternary_holds(place: &SlotPlace, quanta: u8, keys: &[u8], records: &[u8]) -> bool
    requires rows { FormedRows place.now.stage.now }
    requires fits { TernaryFits place.now.slot.now quanta keys.now records.now }
    requires first { place.now.first < 65536 }
    ensures { IsTrue result ↔ TernaryHeld place.now.stage.now place.now.slot.now place.now.visible place.now.first quanta keys.now records.now }
{
    let layout = ternary_records(quanta, place.slot.held);
    if !entries_hold(place, &layout, records) {
        return false;
    }
    let layout = ternary_keys(quanta, key_bits(place.slot.keys.as_slice()));
    let numbers = place.slot.numbers.as_slice();
    blocks_are_told(&layout, numbers, keys, place.stage.trows.as_slice())
}

/// Whether the memory of a slot holds its occupied cells as its numbers list them, and zeros.
fn slot_holds(place: &SlotPlace) -> bool
    requires rows { FormedRows place.now.stage.now }
    requires slot { IsTrue (slot_is_formed place.now.slot.now) }
    requires first { place.now.first < 65536 }
    ensures { IsTrue result ↔ SlotHolds place.now.visible place.now.stage.now place.now.first place.now.slot.now }
{
    match &place.slot.memory {
        Memory::Without => true,
        Memory::Exact {
            width,
            per,
            quanta,
            keys,
            records,
            ..
        } => exact_holds(
            place,
            *width,
            *per,
            *quanta,
            keys.as_slice(),
            records.as_slice(),
        ),
        Memory::Ternary {
            quanta,
            keys,
            records,
            ..
        } => ternary_holds(place, *quanta, keys.as_slice(), records.as_slice()),
    }
}

/// The same of each slot among units of the stage.
fn slots_hold(stage: &Stage, visible: u8, units: &[Unit]) -> bool
    requires rows { FormedRows stage.now }
    requires few { length units.now < 256 }
    requires units { IsTrue (list_all unit_is_formed units.now) }
    ensures { IsTrue result ↔ All (λ (c : Coded). SlotHolds visible stage.now c.first c.slot) (coded_from 0 units.now) }
{
    let mut first: u32 = 0;
    for unit in units {
        match unit {
            Unit::Gate(_) => {}
            Unit::Slot(slot) => {
                let place = SlotPlace {
                    stage,
                    slot,
                    visible,
                    first,
                };
                if !slot_holds(&place) {
                    return false;
                }
                first += slot.actions as u32 + 1;
            }
        }
    }
    true
}

/// Whether the memory of a stage, whose items and rows keep their rules, holds occupied cells as the numbers of its slots list them,
/// with these visible bits, and zeros.
pub fn stage_holds(stage: &Stage, visible: u8) -> bool
    requires formed { IsTrue (stage_is_formed stage.now) }
    requires rows { IsTrue (rows_are_formed stage.now) }
    ensures { IsTrue result ↔ StageHolds visible stage.now }
{
    slots_hold(stage, visible, stage.units.as_slice())
}
