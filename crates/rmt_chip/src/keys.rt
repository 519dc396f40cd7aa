//! Keys: what the units of a stage read for a packet at the stage's start.

ghost use Rattle.std.specs.Prelude.{◌≡◌, ◌+◌, ◌<◌, ◌≤◌, ◌==◌, ℕ, true, length, All, Some, slice_get, bit_and, slice_index, if◌then◌else◌, None};
ghost use Rattle.rmt_config.specs.declared.config.Stage.{Stage};
ghost use Rattle.rmt_config.specs.declared.config.GateTest.{GateTest};
ghost use Rattle.rmt_config.specs.LaneForm.{bits_of_lanes};
ghost use Rattle.rmt_config.specs.BlockCounts.{divided_up};
ghost use Rattle.rmt_config.specs.RunCells.{RunCells, found_in_slot};
ghost use Rattle.rmt_config.specs.Life.{Look, lane_of, key_of, gate_passes, has_memory as memory_is_there};
ghost use Rattle.rmt_memory.specs.declared.looked.Looked.{Looked};
ghost use Rattle.rmt_memory.specs.Looked.{Finds, LookedFor, HasRoom, HaveRoom, AllLooked};
ghost use Rattle.rmt_chip.specs.Held.{LookedBy};
ghost use Rattle.rmt_chip.specs.Pending.{HaveRoomFor};
ghost use Rattle.rmt_chip.specs.Runnable.{LaneFits, UnitReads, StageReads, StageFits};
ghost use Rattle.rmt_memory.specs.Memories.{FitsSlot};
ghost use Rattle.rmt_memory.specs.Memory.{HoldsCells, MemoryFits, MemoriesFit, UnitHeld, StageHeld};
ghost use Rattle.rmt_chip.specs.Looks.{LooksAt, LooksInto};

use crate::accepted::is_accepted;
use crate::key::put_together;
use crate::lanes::lane;
use crate::packet_slot::PacketSlot;
use rmt_config::config::{GateTest, Memory, SlotUnit, Stage, Unit};
use rmt_config::form::lane::key_bits;
use rmt_config::vector::Vector;
use rmt_memory::looked::Looked;
use rmt_memory::memory::SlotMemory;
use rmt_memory::sight::Sight;

/// Whether a test passes.
fn passes(vector: &Vector, test: GateTest) -> bool
    requires { LaneFits test.lane }
    ensures { result ≡ (bit_and (lane_of (λ w. slice_index vector.now w) test.lane) test.mask == test.value) }
{
    lane(vector, test.lane) & test.mask == test.value
}

/// Whether every test of a gate passes.
fn all_pass(vector: &Vector, tests: &[GateTest]) -> bool
    requires { All (λ (t : GateTest). LaneFits t.lane) tests.now }
    ensures { result ≡ gate_passes (λ w. slice_index vector.now w) tests.now }
{
    for test in tests {
        if !passes(vector, *test) {
            return false;
        }
    }
    true
}

/// Whether a slot has memory.
fn has_memory(memory: &Memory) -> bool
    ensures { result ≡ memory_is_there memory.now }
{
    !matches!(memory, Memory::Without)
}

/// What a slot's key finds in its memory; without memory it finds nothing.
fn look_slot(slot: &SlotUnit, memory: &SlotMemory, sight: Sight, vector: &Vector, into: &mut Looked)
    requires lanes { All LaneFits slot.now.keys }
    requires short { bits_of_lanes slot.now.keys ≤ 640 }
    requires fits { memory_is_there slot.now.memory ≡ true → FitsSlot slot.now memory.now }
    requires room { length into.old.held.items ≡ divided_up slot.now.held 8 }
    ensures room { length into.new.held.items ≡ length into.old.held.items }
    ensures found { (cells : RunCells) (k place : ℕ) → (memory_is_there slot.now.memory ≡ true → HoldsCells cells k place slot.now memory.now) →
        cells.seed ≡ sight.seed → Finds slot.now.counted (if memory_is_there slot.now.memory
        then found_in_slot sight.named sight.version cells k place (key_of (λ w. slice_index vector.now w) slot.now.keys) slot.now else None) into.new }
{
    if !has_memory(&slot.memory) {
        into.hit = false;
        return;
    }
    let mut buffer = [0; 80];
    let size = (key_bits(slot.keys.as_slice()) as usize + 7) / 8;
    let key = &mut buffer[..size];
    put_together(key, vector, slot.keys.as_slice());
    memory.find(key, sight, into);
}

/// What a unit reads.
fn look_unit(unit: &Unit, memory: &SlotMemory, sight: Sight, vector: &Vector, into: &mut Looked)
    requires reads { UnitReads unit.now }
    requires fits { MemoryFits unit.now memory.now }
    requires room { HasRoom unit.now into.old }
    ensures room { HasRoom unit.now into.new }
    ensures looked { (cells : RunCells) (look : Look) (k place : ℕ) → UnitHeld cells k place unit.now memory.now →
        cells.seed ≡ sight.seed → LooksAt sight.named sight.version cells look k place unit.now →
        LookedFor look k place (λ w. slice_index vector.now w) unit.now into.new }
{
    match unit {
        Unit::Gate(gate) => into.hit = all_pass(vector, gate.tests.as_slice()),
        Unit::Slot(slot) => look_slot(slot, memory, sight, vector, into),
    }
}

/// What every unit of a stage reads, from the words at hand; of units that won't run, too. It takes no memory.
fn look_all(
    stage: &Stage,
    memories: &[SlotMemory],
    sight: Sight,
    vector: &Vector,
    into: &mut [Looked],
)
    requires reads { StageReads stage.now }
    requires fit { MemoriesFit stage.now memories.now }
    requires room { HaveRoom stage.now into.old }
    ensures room { HaveRoom stage.now into.new }
    ensures looked { (cells : RunCells) (look : Look) (k : ℕ) → StageHeld cells k stage.now memories.now →
        cells.seed ≡ sight.seed → LooksInto sight.named sight.version cells stage.now look k →
        AllLooked look k (λ w. slice_index vector.now w) stage.now into.new }
{
    let units = stage.units.as_slice();
    for at in 0..units.len() {
        look_unit(&units[at], &memories[at], sight, vector, &mut into[at]);
    }
}

/// Stage k reads the keys and tests of its units for a packet that was accepted.
pub fn read_keys(
    place: &mut PacketSlot,
    k: usize,
    stages: &[Stage],
    memories: &[SlotMemory],
    sight: Sight,
)
    requires exists { k < length stages.now }
    requires fit { All StageFits stages.now }
    requires memories { (stage : Stage) → slice_get stages.now k ≡ Some stage → MemoriesFit stage memories.now }
    requires room { HaveRoomFor stages.now place.old.pending.items }
    ensures room { HaveRoomFor stages.now place.new.pending.items }
    ensures looked { (stage : Stage) → slice_get stages.now k ≡ Some stage → (cells : RunCells) (look : Look) →
        StageHeld cells k stage memories.now → cells.seed ≡ sight.seed → LooksInto sight.named sight.version cells stage look k →
        LookedBy look k stage place.old place.new }
{
    if is_accepted(place.parsed) {
        let pending = &mut place.pending[k];
        look_all(
            &stages[k],
            memories,
            sight,
            &place.vector,
            &mut pending.looked,
        );
    }
}
