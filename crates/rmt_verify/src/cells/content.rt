//! What a cell of a part holds, against an entry.

ghost use Rattle.std.specs.Prelude.{◌≡◌, ◌==◌, ◌↔◌, ℕ, ◌+◌, ◌-◌, ◌*◌, ◌/◌, ◌%◌, ◌^◌, ◌<◌, ◌≤◌, Contains, IfOk, IsTrue, List, length, sum};
ghost use Rattle.rmt_bits.specs.Bits.{number_of};
ghost use Rattle.rmt_bits.specs.Hash.{hash_row as hash_row_of};
ghost use Rattle.rmt_ast.specs.declared.program.Test.{Test};
ghost use Rattle.rmt_config.specs.Cells.{candidates, cell_of, data_at, exact_content, sram_row, ternary_content};
ghost use Rattle.rmt_config.specs.LaneForm.{bits_of_lanes};
ghost use Rattle.rmt_config.specs.MemoryRules.{ExactFits, FormedRows, SramRows, TernaryFits};
ghost use Rattle.rmt_config.specs.PrefixRow.{PrefixRows};
ghost use Rattle.rmt_config.specs.Rooms.{tests_as_one};
ghost use Rattle.rmt_config.specs.BlockCounts.{record_units, record_width};
ghost use Rattle.rmt_config.specs.declared.config.Memory.TheVariants.{Exact};
ghost use Rattle.rmt_verify.specs.Wanted.{IsWanted, Matches};

use crate::cells::fields::{are_arguments, are_tests};
use crate::cells::sram::{CellAt, data_bytes, entry_bytes, head_of};
use crate::cells::tcam::are_words;
use crate::fault::VerifyFault;
use rmt_ast::entry::Entry;
use rmt_bits::answer::Bytes;
use rmt_bits::hash::hash_row;
use rmt_config::config::{SlotUnit, SramRow, Stage};
use rmt_config::form::lane::key_bits;
use rmt_config::form::layout::divided_up;
use rmt_config::form::names::key_bytes::piece_at;
use rmt_config::form::parts::{exact_keys, exact_records, ternary_records};
use rmt_pack::tcam::tcam_row as words_of;
use std::alloc::{AllocError, Global};

/// The memory of an exact part: the shape of its rows, the SRAM blocks of its entries and those of their data.
#[derive(Clone, Copy)]
pub struct ExactMemory<'a> {
    pub width: u8,
    pub per: u16,
    pub quanta: u8,
    pub first_way: u8,
    pub keys: &'a [u8],
    pub records: &'a [u8],
}

/// The memory of a ternary part: the TCAM blocks of its keys, and the SRAM blocks of its entries' data.
#[derive(Clone, Copy)]
pub struct TernaryMemory<'a> {
    pub quanta: u8,
    pub keys: &'a [u8],
    pub records: &'a [u8],
}

/// An entry that is looked for in a cell.
#[derive(Clone, Copy)]
pub struct WantedEntry<'a> {
    /// The number of the cell.
    pub cell: u32,
    pub entry: &'a Entry,
    /// The widths of its key's fields.
    pub widths: &'a Bytes,
    /// The widths of its action's parameters.
    pub params: &'a Bytes,
    /// The number of its instruction.
    pub code: u128,
}

/// The data of a cell of an exact part, behind 256 bytes that are 0.
fn exact_data(
    alloc: Global,
    rows: &[SramRow],
    memory: &ExactMemory,
    held: u16,
    cell: u32,
) -> Result<Vec<u8>, AllocError>
    requires rows { SramRows rows.now }
    requires per { 0 < memory.now.per }
    requires quanta { 0 < memory.now.quanta }
    requires few { memory.now.quanta ≤ 106 }
    requires records { length memory.now.records.now ≡ memory.now.quanta * (record_units (4 * memory.now.per) held * record_width held) }
    requires cell { cell < 4096 * memory.now.quanta * memory.now.per }
    ensures number { IfOk result (λ bytes. number_of bytes.items
        ≡ data_at (sram_row rows.now) memory.now.records.now memory.now.per held (cell_of (1024 * memory.now.quanta) memory.now.per cell)) }
    ensures long { IfOk result (λ bytes. 256 ≤ length bytes.items) }
    ensures few { IfOk result (λ bytes. length bytes.items < 2 ^ 16) }
{
    if held == 0 {
        return vec![in alloc; 0u8; 256];
    }
    let layout = exact_records(memory.per, memory.quanta, held);
    let at = CellAt {
        layout: &layout,
        blocks: memory.records,
        rows,
        cell: cell as u64,
    };
    data_bytes(alloc, &at, 0, held as u64)
}

/// Whether a cell of an exact part is one in which a key may stand, which is as its bytes.
fn stands_at(seed: u8, memory: &ExactMemory, key: &[u8], cell: u32) -> bool
    requires per { 0 < memory.now.per }
    requires quanta { 0 < memory.now.quanta }
    requires ways { memory.now.first_way + 3 < 256 }
    requires cell { cell < 4096 * memory.now.quanta * memory.now.per }
    ensures { result ≡ (hash_row_of seed (memory.now.first_way + cell / memory.now.per / (1024 * memory.now.quanta)) key.now (1024 * memory.now.quanta)
        == cell / memory.now.per % (1024 * memory.now.quanta)) }
{
    let rows = 1024 * memory.quanta as u32;
    let place = cell / memory.per as u32;
    let way = memory.first_way + (place / rows) as u8;
    hash_row(seed, way, key, rows) == place % rows
}

/// Whether a cell of an exact part, in which its key may stand, holds an entry with the instruction of that number.
pub fn exact_holds(
    alloc: Global,
    seed: u8,
    rows: &[SramRow],
    slot: &SlotUnit,
    memory: &ExactMemory,
    wanted: &WantedEntry,
) -> Result<bool, VerifyFault>
    requires rows { SramRows rows.now }
    requires fits { ExactFits slot.now memory.now.width memory.now.per memory.now.quanta memory.now.keys.now memory.now.records.now }
    requires ways { memory.now.first_way + 3 < 256 }
    requires cell { wanted.now.cell < 4096 * memory.now.quanta * memory.now.per }
    requires wanted { IsWanted wanted.now.widths.now wanted.now.params.now wanted.now.entry.now }
    requires bits { bits_of_lanes slot.now.keys ≡ sum wanted.now.widths.now }
    requires whole { tests_as_one (λ (t : Test). t.mask) wanted.now.widths.now wanted.now.entry.now.tests ≡ 2 ^ sum wanted.now.widths.now - 1 }
    ensures { IfOk result (λ holds. (cs : List ℕ) → IsTrue holds ↔
        Matches wanted.now.widths.now wanted.now.params.now wanted.now.code wanted.now.entry.now
        (exact_content (sram_row rows.now) slot.now memory.now.width memory.now.per memory.now.keys.now memory.now.records.now (cell_of (1024 * memory.now.quanta) memory.now.per wanted.now.cell))
        × Contains (candidates seed (bits_of_lanes slot.now.keys) (Exact memory.now.width memory.now.per memory.now.quanta memory.now.first_way memory.now.keys.now memory.now.records.now cs)
        (tests_as_one (λ (t : Test). t.value) wanted.now.widths.now wanted.now.entry.now.tests)) wanted.now.cell) }
{
    let bits = key_bits(slot.keys.as_slice());
    let layout = exact_keys(memory.width, memory.per, memory.quanta, bits);
    let at = CellAt {
        layout: &layout,
        blocks: memory.keys,
        rows,
        cell: wanted.cell as u64,
    };
    let head = head_of(alloc, &at)?;
    let key = entry_bytes(alloc, &at, 8, bits)?;
    let data = exact_data(alloc, rows, memory, slot.held, wanted.cell)?;
    let runs = (head / 8) as u128 == wanted.code;
    let has_key = are_tests(
        &key,
        wanted.widths.as_slice(),
        wanted.entry.tests.as_slice(),
        false,
    );
    let stands = stands_at(seed, memory, &key, wanted.cell);
    let has_data = are_arguments(
        &data,
        wanted.params.as_slice(),
        wanted.entry.args.as_slice(),
    );
    Ok(runs & has_key & stands & has_data)
}

/// Whether a cell of a ternary part holds an entry with the instruction of that number.
pub fn ternary_holds(
    alloc: Global,
    stage: &Stage,
    slot: &SlotUnit,
    memory: &TernaryMemory,
    wanted: &WantedEntry,
) -> Result<bool, VerifyFault>
    requires rows { FormedRows stage.now }
    requires values { PrefixRows stage.now.trows }
    requires fits { TernaryFits slot.now memory.now.quanta memory.now.keys.now memory.now.records.now }
    requires cell { wanted.now.cell < 2048 * memory.now.quanta }
    requires wanted { IsWanted wanted.now.widths.now wanted.now.params.now wanted.now.entry.now }
    requires bits { bits_of_lanes slot.now.keys ≡ sum wanted.now.widths.now }
    ensures { IfOk result (λ holds. IsTrue holds ↔ Matches wanted.now.widths.now wanted.now.params.now wanted.now.code wanted.now.entry.now (ternary_content stage.now slot.now memory.now.keys.now memory.now.records.now wanted.now.cell)) }
{
    let bits = key_bits(slot.keys.as_slice());
    let layout = ternary_records(memory.quanta, slot.held);
    let at = CellAt {
        layout: &layout,
        blocks: memory.records,
        rows: stage.srows.as_slice(),
        cell: wanted.cell as u64,
    };
    let head = head_of(alloc, &at)?;
    let data = data_bytes(alloc, &at, 8, slot.held as u64)?;
    let words = words_of(alloc, &wanted.entry.tests, wanted.widths)?;
    let blocks = piece_at(memory.keys, divided_up(bits, 40), at.cell / 2048);
    let runs = (head / 8) as u128 == wanted.code;
    let has_key = are_words(
        stage.trows.as_slice(),
        blocks,
        at.cell % 2048,
        words.as_slice(),
    );
    let has_data = are_arguments(
        &data,
        wanted.params.as_slice(),
        wanted.entry.args.as_slice(),
    );
    Ok(runs & has_key & has_data)
}
