//! The cells of a part of a table, as the blocks of its stage hold them.

ghost use Rattle.std.specs.Prelude.{◌≡◌, ℕ, ◌+◌, ◌*◌, ◌/◌, ◌%◌, ◌^◌, ◌<◌, ◌≤◌, [], All, IfOk, List, length};
ghost use Rattle.rmt_bits.specs.Bits.{bytes_of, number_of};
ghost use Rattle.rmt_book.specs.Formed.{ExactFits, FormedRows, PrefixRows, SramRows, TcamRow as TcamRowOf, TernaryFits, bits_of_lanes, blocks_at, cell_of, data_at, divided_up as divided_up_of, exact_content, record_units, record_width, sram_row, tcam_row, ternary_content, unit_row};
ghost use Rattle.rmt_config.specs.declared.config.Memory.TheVariants.{Exact, Ternary};
ghost use Rattle.rmt_book.specs.Kept.{IsKept};

use crate::entry::{EntryAt, HeadedEntry, entry_bytes, headed_entry};
use crate::kept::Kept;
use crate::rows::tcam_words;
use crate::words::bytes_at;
use rmt_config::config::{CellNumber, SlotUnit, SramRow, Stage, TcamRow};
use rmt_config::form::lane::key_bits;
use rmt_config::form::layout::divided_up;
use rmt_config::form::names::key_bytes::piece_at;
use rmt_config::form::parts::{exact_keys, exact_records, ternary_records};
use std::alloc::{AllocError, Global};

/// The data of a cell of an exact part. The only fault is want of memory.
fn exact_held(
    alloc: Global,
    rows: &[SramRow],
    per: u16,
    quanta: u8,
    held: u16,
    records: &[u8],
    cell: u32,
) -> Result<Vec<u8>, AllocError>
    requires rows { SramRows rows.now }
    requires per { 0 < per }
    requires quanta { 0 < quanta }
    requires few { quanta ≤ 106 }
    requires records { length records.now ≡ quanta * (record_units (4 * per) held * record_width held) }
    requires cell { cell < 4096 * quanta * per }
    ensures { IfOk result (λ bytes. bytes.items ≡ bytes_of (divided_up_of held 8) (data_at (sram_row rows.now) records.now per held (cell_of (1024 * quanta) per cell))) }
{
    if held == 0 {
        return Ok(Vec::new(alloc));
    }
    let layout = exact_records(per, quanta, held);
    let at = EntryAt {
        layout: &layout,
        blocks: records,
        rows,
        cell: cell as u64,
    };
    entry_bytes(alloc, &at)
}

/// The memory of an exact part: the shape of its rows, the SRAM blocks of its entries and those of their data.
#[derive(Clone, Copy)]
pub struct ExactMemory<'a> {
    pub width: u8,
    pub per: u16,
    pub quanta: u8,
    pub keys: &'a [u8],
    pub records: &'a [u8],
}

/// A cell of an exact part. The only fault is want of memory.
pub fn exact_cell(
    alloc: Global,
    rows: &[SramRow],
    slot: &SlotUnit,
    part: &ExactMemory,
    number: CellNumber,
) -> Result<Kept, AllocError>
    requires rows { SramRows rows.now }
    requires fits { ExactFits slot.now part.now.width part.now.per part.now.quanta part.now.keys.now part.now.records.now }
    requires cell { number.cell < 4096 * part.now.quanta * part.now.per }
    ensures kept { IfOk result (λ kept. (w : ℕ) (cs : List ℕ) → IsKept (bits_of_lanes slot.now.keys) (Exact part.now.width part.now.per part.now.quanta w part.now.keys.now part.now.records.now cs)
        (exact_content (sram_row rows.now) slot.now part.now.width part.now.per part.now.keys.now part.now.records.now (cell_of (1024 * part.now.quanta) part.now.per number.cell)) number kept) }
    ensures key_size { IfOk result (λ kept. length kept.key.items ≡ divided_up_of (bits_of_lanes slot.now.keys) 8) }
    ensures no_mask { IfOk result (λ kept. kept.mask.items ≡ []) }
    ensures held_size { IfOk result (λ kept. length kept.held.items ≡ divided_up_of slot.now.held 8) }
{
    let ExactMemory {
        width,
        per,
        quanta,
        keys,
        records,
    } = *part;
    let bits = key_bits(slot.keys.as_slice());
    let layout = exact_keys(width, per, quanta, bits);
    let at = EntryAt {
        layout: &layout,
        blocks: keys,
        rows,
        cell: number.cell as u64,
    };
    let entry = headed_entry(alloc, &at)?;
    let held = exact_held(alloc, rows, per, quanta, slot.held, records, number.cell)?;
    let HeadedEntry { head, rest: key } = entry;
    Ok(Kept {
        cell: number.cell,
        visible: head / 2 % 4,
        code: head / 8,
        key,
        mask: Vec::new(alloc),
        held,
        number: number.number,
        rank: 0,
    })
}

/// A key and its mask as bytes, the highest first.
#[derive(Drop)]
struct KeyBytes {
    key: Vec<u8>,
    mask: Vec<u8>,
    ghost key_short: { length key.items ≤ 8192 },
    ghost mask_short: { length mask.items ≤ 8192 },
}

/// Where the key of a cell of a ternary part stands.
#[derive(Clone, Copy)]
struct KeyAt<'a> {
    /// The rows of TCAM of the stage.
    rows: &'a [TcamRow],
    /// The blocks of all keys.
    keys: &'a [u8],
    /// How many bits a key has.
    bits: u64,
    /// The number of the cell.
    cell: u64,
}

/// What a cell of a ternary part compares. The only fault is want of memory.
fn ternary_key(alloc: Global, at: &KeyAt) -> Result<KeyBytes, AllocError>
    requires rows { PrefixRows at.now.rows.now }
    requires small { All (λ (r : TcamRowOf). r.mask < 2 ^ 40) at.now.rows.now }
    requires few { at.now.bits ≤ 640 }
    requires blocks { (at.now.cell / 2048 + 1) * divided_up_of at.now.bits 40 ≤ length at.now.keys.now }
    requires ends { unit_row 40 (tcam_row (λ (t : TcamRowOf). t.mask) at.now.rows.now) (at.now.cell % 2048) (blocks_at at.now.keys.now (divided_up_of at.now.bits 40) (at.now.cell / 2048)) < 2 ^ at.now.bits }
    ensures key { IfOk result (λ k. number_of k.key.items
        ≡ unit_row 40 (tcam_row (λ (t : TcamRowOf). t.value) at.now.rows.now) (at.now.cell % 2048) (blocks_at at.now.keys.now (divided_up_of at.now.bits 40) (at.now.cell / 2048))) }
    ensures mask { IfOk result (λ k. number_of k.mask.items
        ≡ unit_row 40 (tcam_row (λ (t : TcamRowOf). t.mask) at.now.rows.now) (at.now.cell % 2048) (blocks_at at.now.keys.now (divided_up_of at.now.bits 40) (at.now.cell / 2048))) }
    ensures key_size { IfOk result (λ k. length k.key.items ≡ divided_up_of at.now.bits 8) }
    ensures mask_size { IfOk result (λ k. length k.mask.items ≡ divided_up_of at.now.bits 8) }
{
    let side = divided_up(at.bits, 40);
    let unit = piece_at(at.keys, side, at.cell / 2048);
    let compared = tcam_words(alloc, at.rows, unit, at.cell % 2048)?;
    let value_words = compared.values.as_slice();
    let mask_words = compared.masks.as_slice();
    let key = bytes_at(alloc, value_words, 40, 0, at.bits)?;
    let mask = bytes_at(alloc, mask_words, 40, 0, at.bits)?;
    Ok(KeyBytes { key, mask })
}

/// A cell of a ternary part in a slot of a stage: how many times 2,048 cells the part has, the TCAM blocks of its keys, the
/// SRAM blocks of its entries, and the numbers of the cell and its entry.
#[derive(Clone, Copy)]
pub struct TernaryCell<'a> {
    pub stage: &'a Stage,
    pub slot: &'a SlotUnit,
    pub quanta: u8,
    pub keys: &'a [u8],
    pub records: &'a [u8],
    pub number: CellNumber,
}

/// A cell of a ternary part. The only fault is want of memory.
pub fn ternary_cell(alloc: Global, own: &TernaryCell) -> Result<Kept, AllocError>
    requires rows { FormedRows own.now.stage.now }
    requires values { PrefixRows own.now.stage.now.trows }
    requires fits { TernaryFits own.now.slot.now own.now.quanta own.now.keys.now own.now.records.now }
    requires cell { own.now.number.cell < 2048 * own.now.quanta }
    requires ends { unit_row 40 (tcam_row (λ (t : TcamRowOf). t.mask) own.now.stage.now.trows) (own.now.number.cell % 2048)
        (blocks_at own.now.keys.now (divided_up_of (bits_of_lanes own.now.slot.now.keys) 40) (own.now.number.cell / 2048)) < 2 ^ bits_of_lanes own.now.slot.now.keys }
    ensures kept { IfOk result (λ kept. (cs : List ℕ) → IsKept (bits_of_lanes own.now.slot.now.keys) (Ternary own.now.quanta own.now.keys.now own.now.records.now cs)
        (ternary_content own.now.stage.now own.now.slot.now own.now.keys.now own.now.records.now own.now.number.cell) own.now.number kept) }
    ensures key_size { IfOk result (λ kept. length kept.key.items ≡ divided_up_of (bits_of_lanes own.now.slot.now.keys) 8) }
    ensures mask_size { IfOk result (λ kept. length kept.mask.items ≡ divided_up_of (bits_of_lanes own.now.slot.now.keys) 8) }
    ensures held_size { IfOk result (λ kept. length kept.held.items ≡ divided_up_of own.now.slot.now.held 8) }
{
    let cell = own.number.cell as u64;
    let bits = key_bits(own.slot.keys.as_slice());
    let layout = ternary_records(own.quanta, own.slot.held);
    let rows = own.stage.srows.as_slice();
    let at = EntryAt {
        layout: &layout,
        blocks: own.records,
        rows,
        cell,
    };
    let entry = headed_entry(alloc, &at)?;
    let trows = own.stage.trows.as_slice();
    let key_at = KeyAt {
        rows: trows,
        keys: own.keys,
        bits,
        cell,
    };
    let compared = ternary_key(alloc, &key_at)?;
    let HeadedEntry { head, rest: held } = entry;
    let KeyBytes { key, mask } = compared;
    Ok(Kept {
        cell: own.number.cell,
        visible: head / 2 % 4,
        code: head / 8,
        key,
        mask,
        held,
        number: own.number.number,
        rank: 0,
    })
}
