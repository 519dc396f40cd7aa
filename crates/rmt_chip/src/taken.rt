//! Which changed cells a chip takes.

ghost use Rattle.std.specs.Prelude.{◌≡◌, ◌<◌, ◌≤◌, ◌^◌, true, false, All};
ghost use Rattle.rmt_config.specs.LaneForm.{bits_of_lanes};
ghost use Rattle.rmt_config.specs.Cells.{cells_in};
ghost use Rattle.rmt_chip.specs.Runnable.{StageFits};
ghost use Rattle.rmt_memory.specs.Writable.{AreBits, EntryTaken, IsTaken, MaskTaken, WriteTaken};

use rmt_config::cell_write::CellWrite;
use rmt_config::config::{Memory, SlotUnit, Stage, Unit};
use rmt_config::form::lane::key_bits;

/// Whether bytes are a number of so many bits, the highest first.
fn are_bits(bytes: &[u8], bits: u64) -> bool
    requires { bits < 2 ^ 31 }
    ensures yes { result ≡ true → AreBits bits bytes.now }
    ensures no { result ≡ false → AreBits bits bytes.now → ⊥ }
{
    if bytes.len() != (bits as usize + 7) / 8 {
        return false;
    }
    if bits % 8 == 0 {
        return true;
    }
    match bytes.first() {
        Some(first) => *first >> (bits % 8) == 0,
        None => false,
    }
}

/// How many cells a memory has.
fn cells_of(memory: &Memory) -> u64
    ensures { result ≡ cells_in memory.now }
{
    match memory {
        Memory::Without => 0,
        Memory::Exact { per, quanta, .. } => 4096 * u64::from(*quanta) * u64::from(*per),
        Memory::Ternary { quanta, .. } => 2048 * u64::from(*quanta),
    }
}

/// Whether a mask is one of a key of so many bits.
fn is_mask(memory: &Memory, bits: u64, mask: &[u8]) -> bool
    requires { bits < 2 ^ 31 }
    ensures yes { result ≡ true → MaskTaken bits memory.now mask.now }
    ensures no { result ≡ false → MaskTaken bits memory.now mask.now → ⊥ }
{
    match memory {
        Memory::Without => true,
        Memory::Exact { .. } => mask.is_empty(),
        Memory::Ternary { .. } => are_bits(mask, bits),
    }
}

/// Whether a cell of a slot may have an entry.
fn takes_entry(slot: &SlotUnit, write: &CellWrite) -> bool
    requires { bits_of_lanes slot.now.keys ≤ 640 }
    ensures yes { result ≡ true → EntryTaken slot.now write.now }
    ensures no { result ≡ false → EntryTaken slot.now write.now → ⊥ }
{
    let bits = key_bits(slot.keys.as_slice());
    write.code < 32
        && are_bits(write.key.as_slice(), bits)
        && is_mask(&slot.memory, bits, write.mask.as_slice())
        && are_bits(write.held.as_slice(), u64::from(slot.held))
}

/// Whether a slot takes a changed cell.
fn slot_takes(slot: &SlotUnit, write: &CellWrite) -> bool
    requires { bits_of_lanes slot.now.keys ≤ 640 }
    ensures yes { result ≡ true → WriteTaken slot.now write.now }
    ensures no { result ≡ false → WriteTaken slot.now write.now → ⊥ }
{
    if u64::from(write.cell) >= cells_of(&slot.memory) || write.visible > 3 {
        return false;
    }
    write.visible == 0 || takes_entry(slot, write)
}

/// Whether a changed cell is one of a slot that is there, and the slot takes it.
pub fn is_taken(stages: &[Stage], write: &CellWrite) -> bool
    requires fit { All StageFits stages.now }
    ensures yes { result ≡ true → IsTaken stages.now write.now }
    ensures no { result ≡ false → IsTaken stages.now write.now → ⊥ }
{
    let Some(stage) = stages.get(usize::from(write.stage)) else {
        return false;
    };
    match stage.units.as_slice().get(usize::from(write.unit)) {
        Some(Unit::Slot(slot)) => slot_takes(slot, write),
        _ => false,
    }
}
