//! The rules of form of gates and slots by themselves.

ghost use Rattle.std.specs.Prelude.{◌≡◌, ◌<◌, ◌≤◌, ◌+◌, ◌*◌, length, IsTrue, nat_le};
ghost use Rattle.std.specs.List.{list_all};
ghost use Rattle.rmt_config.specs.LaneForm.{bits_of_lanes};
ghost use Rattle.rmt_config.specs.BlockCounts.{exact_block_counts as counts_of_exact, ternary_block_counts as counts_of_ternary};
ghost use Rattle.rmt_config.specs.UnitForm.{guard_is_formed, test_is_formed, gate_is_formed, number_is_formed, slot_head_is_formed, are_sram_blocks, are_tcam_blocks, has_block_counts, takes_memory, may_have_memory, format_is_formed, memory_is_formed, slot_is_formed, unit_is_formed};
ghost use Rattle.rmt_config.specs.declared.config.Memory.TheVariants.{Without};

use crate::config::{CellNumber, GateTest, GateUnit, Memory, SlotUnit, Unit, UnitGuard};
use crate::form::block_counts::{BlockCounts, exact_block_counts, ternary_block_counts};
use crate::form::lane::{count_bits, lane_fits, lanes_fit};
use crate::form::number::{fits_byte, fits_four_bytes, fits_two_bytes};
use rmt_bits::answer::Bytes;

fn guard_fits(guard: Option<UnitGuard>) -> bool
    ensures { result ≡ guard_is_formed guard }
{
    match guard {
        None => true,
        Some(guard) => {
            fits_byte(guard.parent) && fits_two_bytes(guard.mask) && guard.mask % 2 == 0
        }
    }
}

fn test_fits(test: GateTest) -> bool
    ensures { result ≡ test_is_formed test }
{
    lane_fits(test.lane)
        && (test.mask as u64) < (1u64 << test.lane.len)
        && test.value & test.mask == test.value
}

fn each_test_fits(tests: &[GateTest]) -> bool
    ensures { result ≡ list_all test_is_formed tests.now }
{
    tests.iter().all(|test| test_fits(*test))
}

fn gate_fits(gate: &GateUnit) -> bool
    ensures { result ≡ gate_is_formed gate.now }
{
    fits_byte(gate.node)
        && guard_fits(gate.guard)
        && 1 <= gate.tests.len()
        && gate.tests.len() < 256
        && each_test_fits(gate.tests.as_slice())
}

fn number_fits(number: CellNumber) -> bool
    ensures { result ≡ number_is_formed number }
{
    fits_four_bytes(number.cell) && fits_four_bytes(number.number)
}

fn numbers_fit(numbers: &[CellNumber]) -> bool
    ensures { result ≡ list_all number_is_formed numbers.now }
{
    numbers.iter().all(|number| number_fits(*number))
}

fn slot_head_fits(slot: &SlotUnit) -> bool
    ensures value { result ≡ slot_head_is_formed slot.now }
    ensures keys { IsTrue result → length slot.now.keys < 65536 }
{
    fits_byte(slot.node)
        && guard_fits(slot.guard)
        && slot.actions <= 14
        && fits_two_bytes(slot.held)
        && slot.keys.len() < 65536
        && lanes_fit(slot.keys.as_slice())
        && (slot.numbers.len() as u64) < 4294967296
        && numbers_fit(slot.numbers.as_slice())
}

fn sram_blocks_fit(blocks: &Bytes) -> bool
    ensures { result ≡ are_sram_blocks blocks.now }
{
    blocks.as_slice().iter().all(|block| *block < 106)
}

fn tcam_blocks_fit(blocks: &Bytes) -> bool
    ensures { result ≡ are_tcam_blocks blocks.now }
{
    blocks.as_slice().iter().all(|block| *block < 16)
}

/// Whether a slot, whose key has fewer than 65,536 lanes, has a key of at most 640 bits and an action.
pub fn can_take_memory(slot: &SlotUnit) -> bool
    requires { length slot.now.keys < 65536 }
    ensures value { result ≡ takes_memory slot.now }
    ensures key { IsTrue result → bits_of_lanes slot.now.keys ≤ 640 }
{
    1 <= slot.keys.len() && count_bits(slot.keys.as_slice()) <= 640 && 1 <= slot.actions
}

fn can_have_memory(slot: &SlotUnit, quanta: u8) -> bool
    requires { length slot.now.keys < 65536 }
    ensures value { result ≡ may_have_memory slot.now quanta }
    ensures key { IsTrue result → bits_of_lanes slot.now.keys ≤ 640 }
{
    can_take_memory(slot) && 1 <= quanta && quanta <= 106
}

/// Whether the cells of a row, each a head of 8 bits and a key of that many, fit blocks side by side.
fn cells_fit(bits: u32, width: u8, per: u16) -> bool
    requires { bits ≤ 640 }
    ensures { result ≡ nat_le (per * (bits + 8)) (112 * width) }
{
    per as u32 * (bits + 8) <= 112 * width as u32
}

fn lists_fit(counts: BlockCounts, keys: &Bytes, records: &Bytes, counters: &Bytes) -> bool
    ensures { result ≡ has_block_counts counts keys.now records.now counters.now }
{
    keys.len() as u64 == counts.keys
        && records.len() as u64 == counts.records
        && counters.len() as u64 == counts.counters
}

fn format_fits(slot: &SlotUnit, width: u8, per: u16, quanta: u8, first_way: u8) -> bool
    requires { length slot.now.keys < 65536 }
    ensures { result ≡ format_is_formed slot.now width per quanta first_way }
{
    can_have_memory(slot, quanta)
        && 1 <= width
        && fits_byte(width)
        && 1 <= per
        && fits_two_bytes(per)
        && fits_byte(first_way)
        && cells_fit(count_bits(slot.keys.as_slice()), width, per)
}

/// Whether a slot has nothing that needs a memory: no key, no action, no data, no count and no numbers, and is the last
/// part of its table.
pub fn needs_no_memory(slot: &SlotUnit) -> bool
    ensures { result ≡ memory_is_formed slot.now Without }
{
    !slot.counted
        && slot.actions == 0
        && slot.last
        && slot.held == 0
        && slot.keys.len() == 0
        && slot.numbers.len() == 0
}

fn memory_fits(slot: &SlotUnit) -> bool
    requires { length slot.now.keys < 65536 }
    ensures { result ≡ memory_is_formed slot.now slot.now.memory }
{
    match &slot.memory {
        Memory::Without => needs_no_memory(slot),
        Memory::Exact {
            width,
            per,
            quanta,
            first_way,
            keys,
            records,
            counters,
        } => {
            let counts = exact_block_counts(*width, *per, *quanta, slot.held, slot.counted);
            format_fits(slot, *width, *per, *quanta, *first_way)
                && lists_fit(counts, keys, records, counters)
                && sram_blocks_fit(keys)
                && sram_blocks_fit(records)
                && sram_blocks_fit(counters)
        }
        Memory::Ternary {
            quanta,
            keys,
            records,
            counters,
        } => {
            can_have_memory(slot, *quanta)
                && lists_fit(
                    ternary_block_counts(
                        count_bits(slot.keys.as_slice()),
                        *quanta,
                        slot.held,
                        slot.counted,
                    ),
                    keys,
                    records,
                    counters,
                )
                && tcam_blocks_fit(keys)
                && sram_blocks_fit(records)
                && sram_blocks_fit(counters)
        }
    }
}

fn slot_fits(slot: &SlotUnit) -> bool
    ensures { result ≡ slot_is_formed slot.now }
{
    slot_head_fits(slot) && memory_fits(slot)
}

fn unit_fits(unit: &Unit) -> bool
    ensures { result ≡ unit_is_formed unit.now }
{
    match unit {
        Unit::Gate(gate) => gate_fits(gate),
        Unit::Slot(slot) => slot_fits(slot),
    }
}

/// Whether each of the units fits by itself.
pub fn units_fit(units: &[Unit]) -> bool
    ensures { result ≡ list_all unit_is_formed units.now }
{
    units.iter().all(unit_fits)
}
