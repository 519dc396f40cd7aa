//! The memory of a slot is laid out: room for all its cells, and what the listed ones hold.

ghost use Rattle.std.specs.Prelude.{◌≡◌, ℕ, ◌+◌, ◌*◌, ◌^◌, ◌<◌, ◌≤◌, List, length, All, IfOk};
ghost use Rattle.rmt_config.specs.declared.config.CellNumber.{CellNumber};
ghost use Rattle.rmt_config.specs.declared.config.Memory.TheVariants.{Exact, Ternary};
ghost use Rattle.rmt_config.specs.BlockCounts.{divided_up, record_width, record_units};
ghost use Rattle.rmt_config.specs.Cells.{sram_row, cell_of, data_at};
ghost use Rattle.rmt_config.specs.MemoryRules.{SramRows, FormedRows, ExactFits, TernaryFits};
ghost use Rattle.rmt_config.specs.PrefixRow.{PrefixRows};
ghost use Rattle.rmt_memory.specs.Laying.{runs_of as runs_of_cells, CellsPut};
ghost use Rattle.rmt_memory.specs.Laid.{Laid, CellsLaid};
ghost use Rattle.rmt_memory.specs.Memories.{NumbersFit, key_size, held_size};

use crate::changes::set_run;
use crate::entry_number::{number_bytes, number_size};
use crate::keys::Keys;
use crate::listed::runs_of;
use crate::marks::{Marks, marks_of};
use crate::memory::SlotMemory;
use crate::runs::{Runs, no_runs, run_at, zeros};
use crate::ternary::sliced_of;
use rmt_config::config::{CellNumber, SlotUnit, SramRow, Stage};
use rmt_config::form::lane::key_bits;
use rmt_config::form::parts::{exact_keys, exact_records, ternary_records};
use rmt_config::part_ways::PartWays;
use std::alloc::{AllocError, Global};

/// A memory without cells.
pub fn without(alloc: Global) -> SlotMemory
    ensures keys { result.keys ≡ Keys.Nothing }
    ensures key { key_size result ≡ 0 }
    ensures held { held_size result ≡ 0 }
    ensures cells { result.cells.count ≡ 0 }
{
    SlotMemory {
        keys: Keys::Nothing,
        key_size: 0,
        stored: 0,
        held_size: 0,
        number_size: 0,
        cells: Runs {
            size: 1,
            count: 0,
            bytes: Vec::new(alloc),
        },
        marks: Marks {
            words: Vec::new(alloc),
        },
    }
}

/// Writes the listed cells, each with so many bytes of its number at the end.
fn put_listed(
    cells: &mut Runs,
    tail: usize,
    numbers: &[CellNumber],
    heads: &Runs,
    keys: &Runs,
    held: &Runs,
)
    requires tail { tail ≤ 4 }
    requires heads { heads.now.count ≡ length numbers.now }
    requires keys { keys.now.count ≡ length numbers.now }
    requires held { held.now.count ≡ length numbers.now }
    requires head_size { heads.now.size ≡ 1 }
    requires size { cells.old.size ≡ 1 + keys.now.size + held.now.size + tail }
    requires inside { All (λ (n : CellNumber). n.cell < cells.old.count) numbers.now }
    ensures { CellsPut tail numbers.now heads.now keys.now held.now (length numbers.now) cells.old cells.new }
{
    for at in 0..numbers.len() {
        let head = run_at(heads, at)[0];
        let cell = numbers[at].cell as usize;
        let number = number_bytes(numbers[at].number);
        set_run(
            cells,
            cell,
            head,
            run_at(keys, at),
            run_at(held, at),
            &number[..tail],
        );
    }
}

/// That many cells, of which the listed ones have these heads, keys and data, and so many bytes of their
/// numbers, and no other is occupied.
fn cells_of(
    alloc: Global,
    count: usize,
    tail: usize,
    numbers: &[CellNumber],
    heads: &Runs,
    keys: &Runs,
    held: &Runs,
) -> Result<Runs, AllocError>
    requires heads { heads.now.count ≡ length numbers.now }
    requires keys { keys.now.count ≡ length numbers.now }
    requires held { held.now.count ≡ length numbers.now }
    requires head_size { heads.now.size ≡ 1 }
    requires inside { All (λ (n : CellNumber). n.cell < count) numbers.now }
    requires few { count < 2 ^ 40 }
    requires tail { tail ≤ 4 }
    requires short { keys.now.size + held.now.size < 2 ^ 20 }
    ensures { IfOk result (λ cells. CellsLaid tail numbers.now heads.now keys.now held.now count cells) }
{
    let mut cells = zeros(alloc, 1 + keys.size + held.size + tail, count)?;
    put_listed(&mut cells, tail, numbers, heads, keys, held);
    Ok(cells)
}

/// The data of the listed cells of an exact part.
fn exact_data(
    alloc: Global,
    rows: &[SramRow],
    numbers: &[CellNumber],
    per: u16,
    quanta: u8,
    held: u16,
    records: &[u8],
) -> Result<Runs, AllocError>
    requires rows { SramRows rows.now }
    requires per { 0 < per }
    requires quanta { 0 < quanta }
    requires few { quanta ≤ 106 }
    requires records { length records.now ≡ quanta * (record_units (4 * per) held * record_width held) }
    requires cells { All (λ (n : CellNumber). n.cell < 4096 * quanta * per) numbers.now }
    ensures size { IfOk result (λ r. r.size ≡ divided_up held 8) }
    ensures count { IfOk result (λ r. r.count ≡ length numbers.now) }
    ensures bytes { IfOk result (λ r. r.bytes.items ≡ runs_of_cells (divided_up held 8)
        (λ n. data_at (sram_row rows.now) records.now per held (cell_of (1024 * quanta) per n)) numbers.now) }
{
    if held == 0 {
        return Ok(no_runs(alloc, numbers.len()));
    }
    let layout = exact_records(per, quanta, held);
    runs_of(alloc, &layout, records, rows, numbers, 0, held as u64)
}

/// How an exact part keeps its keys.
#[derive(Clone, Copy)]
pub struct ExactFormat {
    /// How many blocks stand side by side for a key.
    pub width: u8,
    /// How many keys stand in a row of these blocks.
    pub per: u16,
    /// How many quanta of 4 ways the part has.
    pub quanta: u8,
    /// The number of its first way.
    pub first_way: u8,
}

/// The memory of an exact part.
pub fn lay_exact(
    alloc: Global,
    stage: &Stage,
    slot: &SlotUnit,
    format: ExactFormat,
    keys: &[u8],
    records: &[u8],
) -> Result<SlotMemory, AllocError>
    requires rows { FormedRows stage.now }
    requires fits { ExactFits slot.now format.width format.per format.quanta keys.now records.now }
    requires ways { format.first_way + 3 < 256 }
    requires numbers { NumbersFit slot.now (4096 * format.quanta * format.per) }
    ensures laid { IfOk result (λ m. (cs : List ℕ) →
        Laid stage.now (record slot.now { memory = Exact format.width format.per format.quanta format.first_way keys.now records.now cs }) m) }
{
    let per = format.per;
    let quanta = format.quanta;
    let rows = stage.srows.as_slice();
    let numbers = slot.numbers.as_slice();
    let bits = key_bits(slot.keys.as_slice());
    let layout = exact_keys(format.width, per, quanta, bits);
    let heads = runs_of(alloc, &layout, keys, rows, numbers, 0, 8)?;
    let found = runs_of(alloc, &layout, keys, rows, numbers, 8, bits)?;
    let held = exact_data(alloc, rows, numbers, per, quanta, slot.held, records)?;
    let count = 4096 * quanta as usize * per as usize;
    let tail = number_size(slot.counted);
    let cells = cells_of(alloc, count, tail, numbers, &heads, &found, &held)?;
    let marks = marks_of(alloc, &cells, found.size)?;
    let ways = PartWays {
        first: format.first_way,
        rows: 1024 * quanta as u32,
        per,
    };
    Ok(SlotMemory {
        keys: Keys::InCells(ways),
        key_size: found.size,
        stored: found.size,
        held_size: held.size,
        number_size: tail,
        cells,
        marks,
    })
}

/// The memory of a ternary part.
pub fn lay_ternary(
    alloc: Global,
    stage: &Stage,
    slot: &SlotUnit,
    quanta: u8,
    keys: &[u8],
    records: &[u8],
) -> Result<SlotMemory, AllocError>
    requires rows { FormedRows stage.now }
    requires values { PrefixRows stage.now.trows }
    requires fits { TernaryFits slot.now quanta keys.now records.now }
    requires numbers { NumbersFit slot.now (2048 * quanta) }
    ensures laid { IfOk result (λ m. (cs : List ℕ) →
        Laid stage.now (record slot.now { memory = Ternary quanta keys.now records.now cs }) m) }
{
    let rows = stage.srows.as_slice();
    let numbers = slot.numbers.as_slice();
    let bits = key_bits(slot.keys.as_slice());
    let layout = ternary_records(quanta, slot.held);
    let heads = runs_of(alloc, &layout, records, rows, numbers, 0, 8)?;
    let held = runs_of(alloc, &layout, records, rows, numbers, 8, slot.held as u64)?;
    let count = 2048 * quanta as usize;
    let sliced = sliced_of(
        alloc,
        stage.trows.as_slice(),
        keys,
        (bits + 39) / 40,
        numbers,
        &heads,
        count,
    )?;
    let none = no_runs(alloc, numbers.len());
    let tail = number_size(slot.counted);
    let cells = cells_of(alloc, count, tail, numbers, &heads, &none, &held)?;
    let marks = marks_of(alloc, &cells, 0)?;
    Ok(SlotMemory {
        keys: Keys::InVectors(sliced),
        key_size: ((bits + 7) / 8) as usize,
        stored: 0,
        held_size: held.size,
        number_size: tail,
        cells,
        marks,
    })
}
