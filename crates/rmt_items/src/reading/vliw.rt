//! Instructions, each at its place in a slot.

#![tactic(auto, unfolding(crate::specs::Reading::source_at, crate::specs::Reading::kind_at, crate::specs::Reading::operation_at, crate::specs::Reading::vliw_at))]

ghost use Rattle.std.specs.Prelude.{◌≡◌, ◌≤◌, ◌<◌, ◌^◌, ◌++◌, OnOk, IfOk};
ghost use Rattle.rmt_config.specs.CodeForm.{slot_places, unit_places, places_of};
ghost use Rattle.rmt_items.specs.Readers.{Gives, kept, where_, each, items_at, byte_at, number_at, below};
ghost use Rattle.rmt_items.specs.Reading.{fits_word, fits_held, source_at, kind_at, operation_at, next_word, vliw_at};

use crate::fault::{Read, ReadError, ReadFault};
use crate::reading::items::{InOrder, items_of, put};
use crate::reading::lane::{lane_from, word_of};
use crate::reading::number::{byte_of, four_of, kept, two_of};
use rmt_bits::lane::word_size;
use rmt_bits::sequence::Sequence;
use rmt_config::config::{OpKind, Operation, SlotUnit, Source, Unit, Vliw};
use rmt_config::form::code::{InstructionRole, kind_fits};
use std::alloc::{AllocError, Global};

// ---- operations

fn low_of(len: u8, word: u8, bytes: &[u8]) -> Read<u8>
    requires { word < 224 }
    ensures { Gives (λ x. (x.0, x.1.now)) result (kept (fits_word len word) byte_at bytes.now) }
{
    let (low, rest) = byte_of(bytes)?;
    kept(low as u16 + len as u16 <= word_size(word) as u16, low, rest)
}

fn held_of(place: InstructionRole, len: u8, bytes: &[u8]) -> Read<u16>
    ensures { Gives (λ x. (x.0, x.1.now)) result (kept (fits_held place len) (number_at 2) bytes.now) }
{
    let (low, rest) = two_of(bytes)?;
    kept(low as u32 + len as u32 <= place.held as u32, low, rest)
}

fn constant_of(len: u8, bytes: &[u8]) -> Read<u32>
    requires { len ≤ 32 }
    ensures { Gives (λ x. (x.0, x.1.now)) result (kept (below (2 ^ len)) (number_at 4) bytes.now) }
{
    let (value, rest) = four_of(bytes)?;
    kept((value as u64) < 1u64 << len, value, rest)
}

/// A source of `len` bits, at most 32, of an instruction at a place.
fn source_of(place: InstructionRole, len: u8, bytes: &[u8]) -> Read<Source>
    requires { len ≤ 32 }
    ensures { Gives (λ x. (x.0, x.1.now)) result (source_at place len bytes.now) }
{
    match bytes {
        [] => Err(ReadError::Fault(ReadFault::Short)),
        [0, rest @ ..] => {
            let (word, rest) = word_of(0, rest)?;
            let (low, rest) = low_of(len, word, rest)?;
            Ok((Source::Word { word, low }, rest))
        }
        [1, rest @ ..] => {
            if place.is_default {
                return Err(ReadError::Fault(ReadFault::Form));
            }
            let (low, rest) = held_of(place, len, rest)?;
            Ok((Source::Held { low }, rest))
        }
        [2, rest @ ..] => {
            let (value, rest) = constant_of(len, rest)?;
            Ok((Source::Constant { value }, rest))
        }
        _ => Err(ReadError::Fault(ReadFault::Form)),
    }
}

fn kind_of(bytes: &[u8]) -> Read<OpKind>
    ensures { Gives (λ x. (x.0, x.1.now)) result (kind_at bytes.now) }
{
    let (byte, rest) = byte_of(bytes)?;
    let kind = match byte {
        0 => OpKind::Copy,
        1 => OpKind::Add,
        2 => OpKind::Sub,
        3 => OpKind::And,
        4 => OpKind::Or,
        5 => OpKind::Xor,
        _ => return Err(ReadError::Fault(ReadFault::Form)),
    };
    Ok((kind, rest))
}

/// The operations of an instruction at a place.
#[derive(Drop)]
struct Operations {
    place: InstructionRole,
}

impl InOrder for Operations {
    type Item = Operation;

    const LEAST_SIZE: usize = 10;

    ghost item_at = { λ list. operation_at list.place };

    ghost after = { λ _. next_word };

    fn item<'a>(&self, _alloc: Global, least: u32, bytes: &'a [u8]) -> Read<'a, Operation> {
        let (lane, rest) = lane_from(least, bytes)?;
        let (kind, rest) = kind_of(rest)?;
        let (left, rest) = source_of(self.place, lane.len, rest)?;
        let (right, rest) = source_of(self.place, lane.len, rest)?;
        let op = Operation {
            word: lane.word,
            low: lane.low,
            len: lane.len,
            kind,
            left,
            right,
        };
        kept(kind_fits(kind, right), op, rest)
    }

    fn least_after(&self, op: &Operation) -> u32 {
        op.word as u32 + 1
    }
}

fn vliw_of(alloc: Global, place: InstructionRole, bytes: &[u8]) -> Read<Vliw>
    ensures { Gives (λ x. (x.0, x.1.now)) result (vliw_at place bytes.now) }
{
    let (count, rest) = byte_of(bytes)?;
    let (ops, rest) = items_of(alloc, &Operations { place }, count as u64, rest)?;
    Ok((Vliw { ops }, rest))
}

// ---- the code of a stage

fn put_slot_places(places: &mut Vec<InstructionRole>, slot: &SlotUnit) -> Result<(), AllocError>
    ensures { OnOk result (places.new.items ≡ places.old.items ++ slot_places slot.now) }
{
    let held = slot.held;
    for _ in 0..slot.actions {
        places.push(InstructionRole {
            held,
            is_default: false,
        })?;
    }
    places.push(InstructionRole {
        held,
        is_default: true,
    })?;
    Ok(())
}

fn put_unit_places(places: &mut Vec<InstructionRole>, unit: &Unit) -> Result<(), AllocError>
    ensures { OnOk result (places.new.items ≡ places.old.items ++ unit_places unit.now) }
{
    match unit {
        Unit::Gate(_) => Ok(()),
        Unit::Slot(slot) => put_slot_places(places, slot),
    }
}

/// Where the instructions of a stage stand, in their order.
fn place_list(alloc: Global, units: &[Unit]) -> Result<Vec<InstructionRole>, AllocError>
    ensures { IfOk result (λ places. places.items ≡ places_of units.now) }
{
    let mut places = Vec::new(alloc);
    for unit in units {
        put_unit_places(&mut places, unit)?;
    }
    Ok(places)
}

fn code_at<'a>(
    alloc: Global,
    places: &[InstructionRole],
    bytes: &'a [u8],
) -> Read<'a, Sequence<Vliw>>
    ensures { Gives (λ x. (x.0, x.1.now)) result (each vliw_at places.now bytes.now) }
{
    let mut code = Vec::new(alloc);
    let mut rest = bytes;
    for place in places {
        let (vliw, after) = vliw_of(alloc, *place, rest)?;
        put(&mut code, vliw)?;
        rest = after;
    }
    Ok((Sequence::from_vec(code), rest))
}

/// An instruction for each place of the units of a stage.
pub fn code_of<'a>(alloc: Global, units: &[Unit], bytes: &'a [u8]) -> Read<'a, Sequence<Vliw>>
    ensures { Gives (λ x. (x.0, x.1.now)) result (each vliw_at (places_of units.now) bytes.now) }
{
    let places = place_list(alloc, units)?;
    code_at(alloc, &places, bytes)
}
