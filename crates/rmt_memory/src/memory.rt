//! The memory of a slot, with room for each of its cells: look-ups in it, and changes of it.

ghost use Rattle.std.specs.Prelude.{◌≡◌, ◌≤◌, ◌+◌, IsTrue};
ghost use Rattle.std.proofs.Props.{props};
ghost use Rattle.rmt_memory.specs.KeysWithin.{keys_within};
ghost use Rattle.rmt_memory.specs.Marking.{AreMarked};

use crate::changes::{clear_head, set_run};
use crate::entry_number::{number_bytes, number_in};
use crate::exact::place_of;
use crate::keys::{Keys, hide_key, put_key};
use crate::lay::{ExactFormat, lay_exact, lay_ternary, without};
use crate::looked::Looked;
use crate::marks::{Marks, mark, may_have};
use crate::runs::{Runs, run_at};
use crate::sight::{Sight, number_of_sight};
use crate::ternary::first_row;
use rmt_config::cell_write::CellWrite;
use rmt_config::config::{Memory, SlotUnit, Stage};
use std::alloc::{AllocError, Global};

/// The memory of a slot. It has room for each cell that the slot's blocks have, occupied or not, so
/// that a changed cell takes no memory: of an exact part a head of one byte, the key and the data,
/// each in whole bytes; of a ternary part a head and the data, and 20 bytes for each 40 bits of a key
/// (`Sliced`); where hits are counted 4 bytes for a number, in the cell, so that a look-up that hits
/// reads no other place; and a byte of marks.
#[derive(Drop)]
pub struct SlotMemory {
    /// Where the keys stand.
    pub(crate) keys: Keys,
    /// How many bytes a key has.
    pub(crate) key_size: usize,
    /// How many bytes of a key stand in a cell: all of an exact part, none of a ternary one.
    pub(crate) stored: usize,
    /// How many bytes the data of an entry has.
    pub(crate) held_size: usize,
    /// In how many bytes the number of an entry stands in its cell: 4 where hits are counted, else 0.
    pub(crate) number_size: usize,
    /// The cells by number: the head, the key where it stands here, the data, and the number of the entry;
    /// each the highest byte first.
    pub(crate) cells: Runs,
    /// Marks of the keys that stand in occupied cells, so that most look-ups of other keys read no cell.
    pub(crate) marks: Marks,
    pub ghost short: { key_size ≤ 80 },
    pub ghost size: { cells.size ≡ 1 + stored + held_size + number_size },
    pub ghost few: { number_size ≤ 4 },
    pub ghost within: { IsTrue (keys_within keys key_size stored cells.count) },
    pub ghost marked: { AreMarked cells stored cells.count marks.words.items } by { Prim.hlevel props },
}

impl SlotMemory {
    ghost use Rattle.std.specs.Prelude.{◌≢◌, ◌<◌, ◌^◌, ℕ, IfOk, IfSome, length, take, drop, true, slice_index};
    ghost use Rattle.std.specs.Int.{from_be_bytes, w32};
    ghost use Rattle.rmt_bits.specs.Bits.{number_of};
    ghost use Rattle.rmt_config.specs.declared.config.Stage.{Stage};
    ghost use Rattle.rmt_config.specs.declared.config.SlotUnit.{SlotUnit};
    ghost use Rattle.rmt_config.specs.LaneForm.{bits_of_lanes};
    ghost use Rattle.rmt_config.specs.Cells.{Content, cells_in, content_of, code_of, number_of_cell};
    ghost use Rattle.rmt_config.specs.RunCells.{RunCells, found_in_slot};
    ghost use Rattle.rmt_memory.specs.Looked.{Finds};
    ghost use Rattle.rmt_memory.specs.Memories.{SlotFormed, FitsSlot, HoldsSlot, Places, key_size as key_size_of, held_size as held_size_of};
    ghost use Rattle.rmt_memory.specs.Searching.{run_of};
    ghost use Rattle.rmt_memory.specs.Memory.{HoldsCells};
    ghost use Rattle.rmt_memory.specs.Writable.{WriteTaken, content_after, number_after};

    /// A memory without cells, for a gate and for a slot without memory.
    pub fn empty(alloc: Global) -> SlotMemory {
        without(alloc)
    }

    /// The memory of a slot of a stage that keeps the rules of form, with what the slot's cells hold.
    pub fn lay(alloc: Global, stage: &Stage, slot: &SlotUnit) -> Result<SlotMemory, AllocError>
        requires { SlotFormed stage.now slot.now }
        ensures fits { IfOk result (λ memory. FitsSlot slot.now memory) }
        ensures holds { IfOk result (λ memory. HoldsSlot (content_of stage.now slot.now) (number_of_cell slot.now.numbers) slot.now memory) }
    {
        match &slot.memory {
            Memory::Without => Ok(without(alloc)),
            Memory::Exact {
                width,
                per,
                quanta,
                first_way,
                keys,
                records,
                ..
            } => {
                let format = ExactFormat {
                    width: *width,
                    per: *per,
                    quanta: *quanta,
                    first_way: *first_way,
                };
                let keys = keys.as_slice();
                let records = records.as_slice();
                lay_exact(alloc, stage, slot, format, keys, records)
            }
            Memory::Ternary {
                quanta,
                keys,
                records,
                ..
            } => {
                let keys = keys.as_slice();
                let records = records.as_slice();
                lay_ternary(alloc, stage, slot, *quanta, keys, records)
            }
        }
    }

    /// The number of the cell that a key finds under a sight.
    fn place(&self, key: &[u8], seed: u8, sight: u8) -> Option<usize>
        requires key { length key.now ≡ key_size_of self.now }
        requires sight { sight < 3 }
        ensures place { Places self.now seed sight key.now result }
        ensures within { IfSome result (λ i. i < self.now.cells.count) }
    {
        match &self.keys {
            Keys::Nothing => None,
            Keys::InCells(ways) => {
                if !may_have(&self.marks, key) {
                    return None;
                }
                place_of(*ways, &self.cells, seed, sight, key)
            }
            Keys::InVectors(sliced) => first_row(sliced, sight, key),
        }
    }

    /// Reads what a look-up takes of a cell that has an entry.
    fn read(&self, at: usize, into: &mut Looked)
        requires at { at < self.now.cells.count }
        requires room { length into.old.held.items ≡ held_size_of self.now }
        ensures hit { into.new.hit ≡ true }
        ensures code { into.new.code ≡ code_of (slice_index (run_of self.now.cells at) 0) }
        ensures number { self.now.number_size ≡ 4 → into.new.number ≡ from_be_bytes w32 (drop (1 + self.now.stored + self.now.held_size) (run_of self.now.cells at)) }
        ensures held { into.new.held.items ≡ take self.now.held_size (drop (1 + self.now.stored) (run_of self.now.cells at)) }
    {
        let cell = run_at(&self.cells, at);
        into.hit = true;
        into.code = cell[0] / 8 % 32;
        let data = 1 + self.stored;
        let tail = data + self.held_size;
        into.held.copy_from_slice(&cell[data..tail]);
        if self.number_size == 4 {
            into.number = number_in(&cell[tail..]);
        }
    }

    /// What a key finds under a sight; the key has its bits in `key_size` bytes, the highest first, with zero
    /// bits on top. Where nothing is found only `hit` is written, and `number` only where hits are counted.
    pub fn find(&self, key: &[u8], sight: Sight, into: &mut Looked)
        requires key { length key.now ≡ key_size_of self.now }
        requires room { length into.old.held.items ≡ held_size_of self.now }
        ensures room { length into.new.held.items ≡ length into.old.held.items }
        ensures found { (cells : RunCells) (k place : ℕ) (slot : SlotUnit) → HoldsCells cells k place slot self.now → cells.seed ≡ sight.seed
            → number_of key.now < 2 ^ bits_of_lanes slot.keys
            → Finds slot.counted (found_in_slot sight.named sight.version cells k place (number_of key.now) slot) into.new }
    {
        match self.place(key, sight.seed, number_of_sight(sight)) {
            Some(at) => self.read(at, into),
            None => into.hit = false,
        }
    }

    /// Empties a cell.
    fn empty_cell(&mut self, slot: &SlotUnit, write: &CellWrite)
        requires fits { FitsSlot slot.now self.old }
        requires cell { write.now.cell < cells_in slot.now.memory }
        requires none { write.now.visible ≡ 0 }
        ensures fits { FitsSlot slot.now self.new }
        ensures holds { (content : ℕ → Content) (number : ℕ → ℕ) → HoldsSlot content number slot.now self.old →
            HoldsSlot (content_after write.now slot.now content) (number_after write.now number) slot.now self.new }
    {
        let at = write.cell as usize;
        hide_key(&mut self.keys, at);
        clear_head(&mut self.cells, at);
    }

    /// Puts an entry into a cell: these bytes of its key, of the mask and of its data, and its number.
    fn put(&mut self, slot: &SlotUnit, write: &CellWrite, key: &[u8], mask: &[u8], held: &[u8])
        requires fits { FitsSlot slot.now self.old }
        requires taken { WriteTaken slot.now write.now }
        requires some { write.now.visible ≢ 0 }
        requires key { key.now ≡ write.now.key }
        requires mask { mask.now ≡ write.now.mask }
        requires held { held.now ≡ write.now.held }
        ensures fits { FitsSlot slot.now self.new }
        ensures holds { (content : ℕ → Content) (number : ℕ → ℕ) → HoldsSlot content number slot.now self.old →
            HoldsSlot (content_after write.now slot.now content) (number_after write.now number) slot.now self.new }
    {
        let at = write.cell as usize;
        let head = 1 + 2 * write.visible + 8 * write.code;
        let number = number_bytes(write.number);
        let stored = &key[..self.stored];
        mark(&mut self.marks, stored);
        put_key(&mut self.keys, at, head, key, mask);
        set_run(
            &mut self.cells,
            at,
            head,
            stored,
            held,
            &number[..self.number_size],
        );
    }

    /// Puts a changed cell of the slot whose memory this is. It takes no memory.
    pub fn write(&mut self, slot: &SlotUnit, write: &CellWrite)
        requires fits { FitsSlot slot.now self.old }
        requires taken { WriteTaken slot.now write.now }
        ensures fits { FitsSlot slot.now self.new }
        ensures holds { (content : ℕ → Content) (number : ℕ → ℕ) → HoldsSlot content number slot.now self.old →
            HoldsSlot (content_after write.now slot.now content) (number_after write.now number) slot.now self.new }
    {
        if write.visible == 0 {
            self.empty_cell(slot, write);
        } else {
            self.put(
                slot,
                write,
                write.key.as_slice(),
                write.mask.as_slice(),
                write.held.as_slice(),
            );
        }
    }
}
