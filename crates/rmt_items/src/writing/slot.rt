//! Gates and slots: guards, memories and cells.

ghost use Rattle.std.specs.Prelude.{◌≡◌, ◌++◌, ◌∷◌, [], ◌<◌, ◌^◌, length, OnOk};
ghost use Rattle.rmt_config.specs.Spelling.{two_bytes, spelled_flag, spelled_guard, spelled_test, spelled_gate, spelled_memory, spelled_number, spelled_slot_head, spelled_slot, spelled_unit, CountsFitSlot, CountsFitUnit};
ghost use Rattle.rmt_items.specs.Formats.{spelled_format};

use crate::writing::spelled::{Spelled, put_four, put_list8, put_list16, put_list32, put_two};
use rmt_config::config::{CellNumber, GateTest, GateUnit, Memory, SlotUnit, Unit, UnitGuard};
use std::alloc::AllocError;

fn flag_byte(flag: bool) -> u8
    ensures { result ≡ spelled_flag flag }
{
    if flag { 1 } else { 0 }
}

fn put_guard(out: &mut Vec<u8>, guard: &Option<UnitGuard>) -> Result<(), AllocError>
    ensures { OnOk result (out.new.items ≡ out.old.items ++ spelled_guard guard.now) }
{
    match guard {
        None => out.extend_from_slice(&[0]),
        Some(guard) => {
            out.extend_from_slice(&[1, guard.parent])?;
            put_two(out, guard.mask)
        }
    }
}

impl Spelled for GateTest {
    ghost spelling = { spelled_test };

    fn put(&self, out: &mut Vec<u8>) -> Result<(), AllocError> {
        self.lane.put(out)?;
        put_four(out, self.value)?;
        put_four(out, self.mask)
    }
}

fn put_gate(out: &mut Vec<u8>, gate: &GateUnit) -> Result<(), AllocError>
    requires { length gate.now.tests < 2 ^ 8 }
    ensures { OnOk result (out.new.items ≡ out.old.items ++ spelled_gate gate.now) }
{
    out.push(gate.node)?;
    put_guard(out, &gate.guard)?;
    put_list8(out, gate.tests.as_slice())
}

/// The numbers of exact memory before its lists of blocks.
fn put_exact_format(
    out: &mut Vec<u8>,
    width: u8,
    per: u16,
    quanta: u8,
    first_way: u8,
) -> Result<(), AllocError>
    ensures { OnOk result (out.new.items ≡ out.old.items ++ (1 ∷ width ∷ two_bytes per ++ quanta ∷ first_way ∷ [])) }
{
    out.extend_from_slice(&[1, width])?;
    put_two(out, per)?;
    out.extend_from_slice(&[quanta, first_way])
}

/// The numbers of a memory before its lists of blocks.
fn put_format(out: &mut Vec<u8>, memory: &Memory) -> Result<(), AllocError>
    ensures { OnOk result (out.new.items ≡ out.old.items ++ spelled_format memory.now) }
{
    match memory {
        Memory::Without => out.extend_from_slice(&[0]),
        Memory::Exact {
            width,
            per,
            quanta,
            first_way,
            ..
        } => put_exact_format(out, *width, *per, *quanta, *first_way),
        Memory::Ternary { quanta, .. } => out.extend_from_slice(&[2, *quanta]),
    }
}

/// Lists of blocks, one behind the other.
fn put_blocks(
    out: &mut Vec<u8>,
    keys: &[u8],
    records: &[u8],
    counters: &[u8],
) -> Result<(), AllocError>
    ensures { OnOk result (out.new.items ≡ out.old.items ++ (keys.now ++ records.now ++ counters.now)) }
{
    out.extend_from_slice(keys)?;
    out.extend_from_slice(records)?;
    out.extend_from_slice(counters)
}

fn put_memory(out: &mut Vec<u8>, memory: &Memory) -> Result<(), AllocError>
    ensures { OnOk result (out.new.items ≡ out.old.items ++ spelled_memory memory.now) }
{
    put_format(out, memory)?;
    match memory {
        Memory::Without => Ok(()),
        Memory::Exact {
            keys,
            records,
            counters,
            ..
        }
        | Memory::Ternary {
            keys,
            records,
            counters,
            ..
        } => put_blocks(
            out,
            keys.as_slice(),
            records.as_slice(),
            counters.as_slice(),
        ),
    }
}

impl Spelled for CellNumber {
    ghost spelling = { spelled_number };

    fn put(&self, out: &mut Vec<u8>) -> Result<(), AllocError> {
        put_four(out, self.cell)?;
        put_four(out, self.number)
    }
}

fn put_slot_head(out: &mut Vec<u8>, slot: &SlotUnit) -> Result<(), AllocError>
    ensures { OnOk result (out.new.items ≡ out.old.items ++ spelled_slot_head slot.now) }
{
    out.push(slot.node)?;
    put_guard(out, &slot.guard)?;
    out.extend_from_slice(&[flag_byte(slot.counted), slot.actions, flag_byte(slot.last)])?;
    put_two(out, slot.held)
}

fn put_slot(out: &mut Vec<u8>, slot: &SlotUnit) -> Result<(), AllocError>
    requires { CountsFitSlot slot.now }
    ensures { OnOk result (out.new.items ≡ out.old.items ++ spelled_slot slot.now) }
{
    put_slot_head(out, slot)?;
    put_list16(out, slot.keys.as_slice())?;
    put_memory(out, &slot.memory)?;
    put_list32(out, slot.numbers.as_slice())
}

impl Spelled for Unit {
    ghost spelling = { spelled_unit };

    ghost fits = { CountsFitUnit };

    fn put(&self, out: &mut Vec<u8>) -> Result<(), AllocError> {
        match self {
            Unit::Gate(gate) => {
                out.push(0)?;
                put_gate(out, gate)
            }
            Unit::Slot(slot) => {
                out.push(1)?;
                put_slot(out, slot)
            }
        }
    }
}
