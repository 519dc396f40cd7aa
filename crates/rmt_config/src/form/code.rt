//! The rules of form of instructions, each at its place in a slot.

ghost use Rattle.std.specs.Prelude.{◌≡◌, ◌≤◌, ◌+◌, map, length};
ghost use Rattle.std.specs.List.{list_all};
ghost use Rattle.rmt_config.specs.CodeForm.{slot_places, unit_places, places_of, source_is_formed, kind_is_formed, lane_of_operation, operation_is_formed, vliw_is_formed, code_is_formed};

use crate::config::{OpKind, Operation, SlotUnit, Source, Unit, Vliw};
use crate::form::lane::lane_fits;
use crate::form::search::items_rise;
use rmt_bits::lane::{Lane, word_size};

/// Where an instruction stands: the data bits of its slot, and whether it is the slot's default.
#[derive(Clone, Copy, PartialEq, Eq)]
pub struct InstructionRole {
    /// How many bits of data an entry of the slot holds.
    pub held: u16,
    /// Whether the instruction runs where the slot's table misses; it has no data then.
    pub is_default: bool,
}

/// Whether a source of `len` bits, at most 32, lies where it says.
fn source_fits(place: InstructionRole, len: u8, source: Source) -> bool
    requires { len ≤ 32 }
    ensures { result ≡ source_is_formed place len source }
{
    match source {
        Source::Word { word, low } => {
            word < 224 && low as u16 + len as u16 <= word_size(word) as u16
        }
        Source::Held { low } => {
            !place.is_default && low as u32 + len as u32 <= place.held as u32
        }
        Source::Constant { value } => (value as u64) < (1u64 << len),
    }
}

/// Whether the second source is one that the kind may have: that of a Copy is the constant 0.
pub fn kind_fits(kind: OpKind, right: Source) -> bool
    ensures { result ≡ kind_is_formed kind right }
{
    match kind {
        OpKind::Copy => match right {
            Source::Constant { value } => value == 0,
            Source::Word { .. } => false,
            Source::Held { .. } => false,
        },
        OpKind::Add => true,
        OpKind::Sub => true,
        OpKind::And => true,
        OpKind::Or => true,
        OpKind::Xor => true,
    }
}

fn operation_lane(op: Operation) -> Lane
    ensures { result ≡ lane_of_operation op }
{
    Lane {
        word: op.word,
        low: op.low,
        len: op.len,
    }
}

fn operation_fits(place: InstructionRole, op: Operation) -> bool
    ensures { result ≡ operation_is_formed place op }
{
    lane_fits(operation_lane(op))
        && source_fits(place, op.len, op.left)
        && source_fits(place, op.len, op.right)
        && kind_fits(op.kind, op.right)
}

fn each_operation_fits(place: InstructionRole, ops: &[Operation]) -> bool
    ensures { result ≡ list_all (operation_is_formed place) ops.now }
{
    ops.iter().all(|op| operation_fits(place, *op))
}

fn vliw_fits(place: InstructionRole, vliw: &Vliw) -> bool
    ensures { result ≡ vliw_is_formed place vliw.now }
{
    let ops = vliw.ops.as_slice();
    ops.len() < 256 && each_operation_fits(place, ops) && items_rise(0, ops)
}

fn each_vliw_fits(place: InstructionRole, code: &[Vliw]) -> bool
    ensures { result ≡ list_all (vliw_is_formed place) code.now }
{
    for vliw in code {
        if !vliw_fits(place, vliw) {
            return false;
        }
    }
    true
}

/// How many instructions a unit has: a slot one for each action and one for its default.
fn count_instructions(unit: &Unit) -> usize
    ensures value { result ≡ length (unit_places unit.now) }
    ensures small { result ≤ 256 }
{
    match unit {
        Unit::Gate(_) => 0,
        Unit::Slot(slot) => slot.actions as usize + 1,
    }
}

fn slot_code_fits(slot: &SlotUnit, code: &[Vliw]) -> bool
    requires { length code.now ≡ slot.now.actions + 1 }
    ensures { result ≡ code_is_formed (slot_places slot.now) code.now }
{
    let own = InstructionRole {
        held: slot.held,
        is_default: false,
    };
    let default = InstructionRole {
        held: slot.held,
        is_default: true,
    };
    let actions = slot.actions as usize;
    each_vliw_fits(own, &code[..actions]) && vliw_fits(default, &code[actions])
}

/// Whether the instructions of a unit fit; there must be as many as it has.
fn unit_code_fits(unit: &Unit, code: &[Vliw]) -> bool
    requires { length code.now ≡ length (unit_places unit.now) }
    ensures { result ≡ code_is_formed (unit_places unit.now) code.now }
{
    match unit {
        Unit::Gate(_) => true,
        Unit::Slot(slot) => slot_code_fits(slot, code),
    }
}

/// Whether there is one instruction for each place of the units, and each fits.
pub fn code_fits(units: &[Unit], code: &[Vliw]) -> bool
    ensures { result ≡ code_is_formed (places_of units.now) code.now }
{
    let mut rest = code;
    for unit in units {
        let count = count_instructions(unit);
        if rest.len() < count {
            return false;
        }
        let (own, behind) = rest.split_at(count);
        if !unit_code_fits(unit, own) {
            return false;
        }
        rest = behind;
    }
    rest.is_empty()
}
