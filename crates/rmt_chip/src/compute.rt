//! What an operation of an instruction writes.

ghost use Rattle.std.specs.Prelude.{◌≡◌, ◌+◌, ◌<◌, ◌≤◌, ◌^◌, IsTrue, length, slice_index};
ghost use Rattle.rmt_bits.specs.Bits.{number_of, slice as slice_of};
ghost use Rattle.rmt_config.specs.Life.{source_of, computed as computed_of, written as written_of};
ghost use Rattle.rmt_chip.specs.Runnable.{source_fits, OperationFits};

use crate::write::Write;
use rmt_bits::bits::{bits_of_bytes, word_deposit, word_slice};
use rmt_config::config::{OpKind, Operation, Source};
use rmt_config::vector::Vector;

/// Bits of a record, whose bytes stand highest first, from its bit `low` upward; 0 past its end.
fn held_bits(held: &[u8], low: u16, len: u8) -> u32
    requires short { len ≤ 32 }
    requires few { length held.now ≤ 8192 }
    ensures value { result ≡ slice_of (number_of held.now) low len }
    ensures within { result < 2 ^ len }
{
    let bits = 8 * held.len() as u32;
    let low = u32::from(low);
    if low >= bits {
        return 0;
    }
    let here = (bits - low).min(u32::from(len));
    bits_of_bytes(held, bits - low - here, here as u8) as u32
}

/// What a source reads, in an operation of `len` bits.
fn source(vector: &Vector, held: &[u8], len: u8, from: Source) -> u32
    requires short { len ≤ 32 }
    requires few { length held.now ≤ 8192 }
    requires fits { IsTrue (source_fits len from) }
    ensures value { result ≡ source_of (λ w. slice_index vector.now w) (number_of held.now) len from }
    ensures within { result < 2 ^ len }
{
    match from {
        Source::Word { word, low } => word_slice(vector.get(word), low, len),
        Source::Held { low } => held_bits(held, low, len),
        Source::Constant { value } => value,
    }
}

/// The result of an operation on two values of `len` bits.
fn computed(kind: OpKind, len: u8, left: u32, right: u32) -> u32
    requires short { len ≤ 32 }
    requires left_fits { left < 2 ^ len }
    requires right_fits { right < 2 ^ len }
    ensures value { result ≡ computed_of kind len left right }
    ensures within { result < 2 ^ len }
{
    let size = 1 << u64::from(len);
    let left = u64::from(left);
    let right = u64::from(right);
    let value: u64 = match kind {
        OpKind::Copy => left,
        OpKind::Add => (left + right) % size,
        OpKind::Sub => (left + size - right) % size,
        OpKind::And => left & right,
        OpKind::Or => left | right,
        OpKind::Xor => left ^ right,
    };
    value as u32
}

/// The whole word that an operation writes, from the words at hand and a record.
pub fn written(vector: &Vector, held: &[u8], op: Operation) -> Write
    requires fits { OperationFits op }
    requires few { length held.now ≤ 8192 }
    ensures word { result.word ≡ op.word }
    ensures value { result.value ≡ written_of (λ w. slice_index vector.now w) (number_of held.now) op }
{
    let left = source(vector, held, op.len, op.left);
    let right = source(vector, held, op.len, op.right);
    let value = computed(op.kind, op.len, left, right);
    let old = vector.get(op.word);
    Write {
        word: op.word,
        value: word_deposit(old, op.low, op.len, value),
    }
}
