//! What the listed cells of a slot hold, read from the rows of its blocks.

ghost use Rattle.std.specs.Prelude.{◌≡◌, ◌+◌, ◌*◌, ◌<◌, ◌≤◌, length, All, IfOk};
ghost use Rattle.rmt_bits.specs.Bits.{slice as slice_of};
ghost use Rattle.rmt_config.specs.Cells.{sram_row};
ghost use Rattle.rmt_config.specs.Layouts.{IsInSram};
ghost use Rattle.rmt_config.specs.BlockCounts.{divided_up};
ghost use Rattle.rmt_config.specs.declared.config.CellNumber.{CellNumber};
ghost use Rattle.rmt_config.specs.MemoryRules.{SramRows};
ghost use Rattle.rmt_memory.specs.Laying.{entry_of, runs_of as runs_of_cells};

use crate::runs::Runs;
use rmt_config::config::{CellNumber, SramRow};
use rmt_config::form::layout::CellLayout;
use rmt_config::form::names::key_bytes::push_entry;
use rmt_config::form::sram::Near;
use std::alloc::{AllocError, Global};

/// For each listed cell `len` bits of its entry, from the bit `from` on.
pub fn runs_of(
    alloc: Global,
    layout: &CellLayout,
    blocks: &[u8],
    rows: &[SramRow],
    numbers: &[CellNumber],
    from: u64,
    len: u64,
) -> Result<Runs, AllocError>
    requires rows { SramRows rows.now }
    requires layout { IsInSram layout.now }
    requires blocks { length blocks.now ≡ layout.now.quanta * layout.now.units * layout.now.side }
    requires cells { All (λ (n : CellNumber). n.cell < layout.now.ways * layout.now.quanta * layout.now.way) numbers.now }
    requires bits { from + len ≤ layout.now.entry }
    ensures size { IfOk result (λ r. r.size ≡ divided_up len 8) }
    ensures count { IfOk result (λ r. r.count ≡ length numbers.now) }
    ensures bytes { IfOk result (λ r. r.bytes.items ≡ runs_of_cells (divided_up len 8)
        (λ n. slice_of (entry_of layout.now (sram_row rows.now) blocks.now n) from len) numbers.now) }
{
    let size = ((len + 7) / 8) as usize;
    let mut bytes = Vec::with_capacity(alloc, numbers.len().saturating_mul(size))?;
    let mut near = Near::new();
    for number in numbers {
        push_entry(
            &mut bytes,
            layout,
            blocks,
            rows,
            number.cell as u64,
            from,
            len,
            &mut near,
        )?;
    }
    Ok(Runs {
        size,
        count: numbers.len(),
        bytes,
    })
}
