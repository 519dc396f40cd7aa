//! Slots, and the units of a stage.

#![tactic(auto, unfolding(crate::specs::Reading::marks_at, crate::specs::Reading::slot_keys_at, crate::specs::Reading::slot_head_at, crate::specs::Reading::cell_number_at, crate::specs::Reading::numbers_at, crate::specs::Reading::slot_at, crate::specs::Reading::unit_at))]

ghost use Rattle.std.specs.Prelude.{◌≡◌, ◌<◌, length, IfOk};
ghost use Rattle.rmt_config.specs.declared.config.Memory.{Memory};
ghost use Rattle.rmt_items.specs.Readers.{Gives, behind, kept, listed, list_at, byte_at, number_at, at_most};
ghost use Rattle.rmt_items.specs.Reading.{marks_at, slot_keys_at, slot_head_at, may_have_numbers, cell_number_at, memory_at, numbers_at, slot_of_parts, slot_at, unit_at};

use crate::fault::{Read, ReadError, ReadFault};
use crate::reading::bounded::up_to;
use crate::reading::gate::{gate_of, guard_of};
use crate::reading::items::{Item, list_of, list16_of};
use crate::reading::memory::memory_of;
use crate::reading::number::{byte_of, flag_of, four_of, fours_of, kept, two_of};
use rmt_bits::lane::Lane;
use rmt_bits::sequence::Sequence;
use rmt_config::config::{CellNumber, Memory, SlotUnit, Unit};
use std::alloc::Global;

// ---- what stands before the memory

/// The numbers of a slot between its guard and its data.
#[derive(Clone, Copy)]
struct Marks {
    counted: bool,
    actions: u8,
    last: bool,
}

fn marks_of(bytes: &[u8]) -> Read<Marks>
    ensures { Gives (λ x. (x.0, x.1.now)) result (marks_at bytes.now) }
{
    let (counted, rest) = flag_of(bytes)?;
    let (actions, rest) = up_to(14, rest)?;
    let (last, rest) = flag_of(rest)?;
    let marks = Marks {
        counted,
        actions,
        last,
    };
    Ok((marks, rest))
}

/// The numbers behind the guard, and the lanes of the key.
fn slot_keys_of(alloc: Global, bytes: &[u8]) -> Read<(Marks, (u16, Sequence<Lane>))>
    ensures read { Gives (λ x. ((x.0.0, (x.0.1.0, x.0.1.1)), x.1.now)) result (slot_keys_at bytes.now) }
    ensures few { IfOk result (λ x. length x.0.1.1 < 65536) }
{
    let (marks, rest) = marks_of(bytes)?;
    let (held, rest) = two_of(rest)?;
    let (keys, rest) = list16_of(alloc, (), rest)?;
    Ok(((marks, (held, keys)), rest))
}

fn slot_head_of(alloc: Global, bytes: &[u8]) -> Read<SlotUnit>
    ensures read { Gives (λ x. (x.0, x.1.now)) result (slot_head_at bytes.now) }
    ensures few { IfOk result (λ x. length x.0.keys < 65536) }
{
    let (node, rest) = byte_of(bytes)?;
    let (guard, rest) = guard_of(rest)?;
    let ((marks, (held, keys)), rest) = slot_keys_of(alloc, rest)?;
    let slot = SlotUnit {
        node,
        guard,
        counted: marks.counted,
        actions: marks.actions,
        last: marks.last,
        held,
        keys,
        memory: Memory::Without,
        numbers: Sequence::new(alloc),
    };
    Ok((slot, rest))
}

// ---- the numbers of its cells

impl Item<()> for CellNumber {
    const LEAST_SIZE: usize = 8;

    ghost item_at = { λ _. cell_number_at };

    fn read(_alloc: Global, _given: (), bytes: &[u8]) -> Read<CellNumber> {
        let ((cell, number), rest) = fours_of(bytes)?;
        Ok((CellNumber { cell, number }, rest))
    }
}

fn is_count_allowed(memory: &Memory, count: u32) -> bool
    ensures { result ≡ may_have_numbers memory.now count }
{
    match memory {
        Memory::Without => count == 0,
        Memory::Exact { .. } => true,
        Memory::Ternary { .. } => true,
    }
}

fn numbers_of<'a>(alloc: Global, memory: &Memory, bytes: &'a [u8]) -> Read<'a, Sequence<CellNumber>>
    ensures { Gives (λ x. (x.0, x.1.now)) result (numbers_at memory.now bytes.now) }
{
    let (count, rest) = four_of(bytes)?;
    let (count, rest) = kept(is_count_allowed(memory, count), count, rest)?;
    list_of(alloc, (), count as u64, rest)
}

// ---- units

/// What a slot keeps beside its head.
fn store_of<'a>(
    alloc: Global,
    slot: &SlotUnit,
    bytes: &'a [u8],
) -> Read<'a, (Memory, Sequence<CellNumber>)>
    requires { length slot.now.keys < 65536 }
    ensures { Gives (λ x. ((x.0.0, x.0.1), x.1.now)) result (behind (memory_at slot.now) numbers_at bytes.now) }
{
    let (memory, rest) = memory_of(alloc, slot, bytes)?;
    let (numbers, rest) = numbers_of(alloc, &memory, rest)?;
    Ok(((memory, numbers), rest))
}

fn with_store(slot: SlotUnit, memory: Memory, numbers: Sequence<CellNumber>) -> SlotUnit
    ensures { result ≡ slot_of_parts (slot, (memory, numbers)) }
{
    SlotUnit {
        memory,
        numbers,
        ..slot
    }
}

fn slot_of(alloc: Global, bytes: &[u8]) -> Read<SlotUnit>
    ensures { Gives (λ x. (x.0, x.1.now)) result (slot_at bytes.now) }
{
    let (slot, rest) = slot_head_of(alloc, bytes)?;
    let ((memory, numbers), rest) = store_of(alloc, &slot, rest)?;
    Ok((with_store(slot, memory, numbers), rest))
}

impl Item<()> for Unit {
    const LEAST_SIZE: usize = 4;

    ghost item_at = { λ _. unit_at };

    fn read(alloc: Global, _given: (), bytes: &[u8]) -> Read<Unit> {
        match bytes {
            [] => Err(ReadError::Fault(ReadFault::Short)),
            [0, rest @ ..] => {
                let (gate, rest) = gate_of(alloc, rest)?;
                Ok((Unit::Gate(gate), rest))
            }
            [1, rest @ ..] => {
                let (slot, rest) = slot_of(alloc, rest)?;
                Ok((Unit::Slot(slot), rest))
            }
            _ => Err(ReadError::Fault(ReadFault::Form)),
        }
    }
}
