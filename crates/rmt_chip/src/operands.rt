//! Operands: what the instructions that run in a stage make of the words, whole words that are written later.

ghost use Rattle.std.specs.Prelude.{◌≡◌, ◌+◌, ◌*◌, ◌<◌, ◌≤◌, [], ℕ, length, All, Some, slice_get, option_map, slice_index, if◌then◌else◌, vec_len, vec_capacity};
ghost use Rattle.rmt_bits.specs.Bits.{number_of};
ghost use Rattle.std.specs.Option.{option_or};
ghost use Rattle.rmt_config.specs.Life.{written as written_of, op_on, word_after};
ghost use Rattle.rmt_memory.specs.declared.looked.Looked.{Looked as LookedOf};
ghost use Rattle.rmt_chip.specs.Ran.{held_of, running_of, all_running};
ghost use Rattle.rmt_chip.specs.Held.{ReadBy};
ghost use Rattle.rmt_chip.specs.Pending.{HasRoomFor, HaveRoomFor};
ghost use Rattle.rmt_chip.specs.Runnable.{InstructionFits, StageFits};
ghost use Rattle.rmt_config.specs.declared.config.Stage.{Stage as StageOf};
ghost use Rattle.rmt_chip.specs.Writes.{last_on, most_ops};

use crate::accepted::is_accepted;
use crate::compute::written;
use crate::packet_slot::PacketSlot;
use crate::pending::Pending;
use crate::ran::Ran;
use crate::write::Write;
use rmt_config::config::{Stage, Vliw};
use rmt_config::vector::Vector;
use rmt_memory::looked::Looked;

/// The record that an instruction reads: no bytes where it reads none.
fn record<'a>(looked: &'a [Looked], ran: Ran) -> &'a [u8]
    requires { All (λ (l : LookedOf). length l.held.items ≤ 8192) looked.now }
    ensures value { number_of result.now ≡ (if ran.found then held_of looked.now ran.unit else 0) }
    ensures few { length result.now ≤ 8192 }
{
    if !ran.found {
        return &[];
    }
    match looked.get(usize::from(ran.unit)) {
        Some(one) => one.held.as_slice(),
        None => &[],
    }
}

/// Adds what an instruction writes, from the words at hand and a record.
fn push_instruction(due: &mut Vec<Write>, vector: &Vector, held: &[u8], code: &Vliw)
    requires fits { InstructionFits code.now }
    requires few { length held.now ≤ 8192 }
    requires room { vec_len due.old + length code.now.ops ≤ vec_capacity due.old }
    ensures room { vec_capacity due.old ≤ vec_capacity due.new }
    ensures len { vec_len due.new ≡ vec_len due.old + length code.now.ops }
    ensures due { (w : ℕ) → last_on due.new.items w
        ≡ option_or (option_map (written_of (λ v. slice_index vector.now v) (number_of held.now)) (op_on w code.now.ops)) (last_on due.old.items w) }
{
    for op in code.ops.as_slice() {
        due.push_reserved(written(vector, held, *op));
    }
}

/// Adds what an instruction that runs writes; where there is none of its number, nothing.
fn push_ran(due: &mut Vec<Write>, vector: &Vector, code: &[Vliw], looked: &[Looked], ran: Ran)
    requires fit { All InstructionFits code.now }
    requires few { All (λ (l : LookedOf). length l.held.items ≤ 8192) looked.now }
    requires room { vec_len due.old + most_ops code.now ≤ vec_capacity due.old }
    ensures room { vec_capacity due.old ≤ vec_capacity due.new }
    ensures len { vec_len due.new ≤ vec_len due.old + most_ops code.now }
    ensures due { (w : ℕ) → last_on due.new.items w
        ≡ option_or (option_map (written_of (λ v. slice_index vector.now v) (running_of code.now looked.now ran).held) (op_on w (running_of code.now looked.now ran).ops)) (last_on due.old.items w) }
{
    let at = usize::from(ran.code);
    if at < code.len() {
        let held = record(looked, ran);
        push_instruction(due, vector, held, &code[at]);
    }
}

/// Computes what the instructions that run write, from the words at hand: where several write one
/// word, the last of them stands. There must be room for the operations of each.
fn compute(due: &mut Vec<Write>, vector: &Vector, code: &[Vliw], looked: &[Looked], running: &[Ran])
    requires fit { All InstructionFits code.now }
    requires few { All (λ (l : LookedOf). length l.held.items ≤ 8192) looked.now }
    requires room { length running.now * most_ops code.now ≤ vec_capacity due.old }
    ensures room { vec_capacity due.old ≤ vec_capacity due.new }
    ensures due { (w : ℕ) → last_on due.new.items w
        ≡ word_after (all_running code.now looked.now running.now) (λ v. slice_index vector.now v) w }
{
    due.clear();
    for ran in running {
        push_ran(due, vector, code, looked, *ran);
    }
}

/// Keeps what the instructions that run make of the words at hand.
fn keep_writes(pending: &mut Pending, stage: &Stage, vector: &Vector)
    requires fits { StageFits stage.now }
    requires room { HasRoomFor stage.now pending.old }
    ensures room { HasRoomFor stage.now pending.new }
    ensures looked { pending.new.looked ≡ pending.old.looked }
    ensures running { pending.new.running ≡ pending.old.running }
    ensures due { (w : ℕ) → last_on pending.new.due.items w
        ≡ word_after (all_running stage.now.code pending.old.looked.items pending.old.running.items) (λ v. slice_index vector.now v) w }
{
    compute(
        &mut pending.due,
        vector,
        stage.code.as_slice(),
        &pending.looked,
        &pending.running,
    );
}

/// Stage k reads operands and old words for a packet that was accepted, and keeps what the instructions that run make of them.
pub fn read_operands(place: &mut PacketSlot, k: usize, stages: &[Stage])
    requires exists { k < length stages.now }
    requires fit { All StageFits stages.now }
    requires room { HaveRoomFor stages.now place.old.pending.items }
    ensures room { HaveRoomFor stages.now place.new.pending.items }
    ensures read { (stage : StageOf) → slice_get stages.now k ≡ Some stage → ReadBy k stage place.old place.new }
{
    if is_accepted(place.parsed) {
        keep_writes(&mut place.pending[k], &stages[k], &place.vector);
    }
}
