//! What the cells of the parts of a table hold.

ghost use Rattle.std.specs.Prelude.{◌<◌, IfOk};
ghost use Rattle.rmt_book.specs.Formed.{MemoryIsFormed, PartStands, bits_of_lanes, cells_in, own_content, part_at};
ghost use Rattle.rmt_book.specs.Kept.{HasBytes, IsKept};

use crate::cells::{ExactMemory, TernaryCell, exact_cell, ternary_cell};
use crate::kept::Kept;
use rmt_config::config::{CellNumber, Config, Memory};
use rmt_config::form::names::part_list::Part;
use std::alloc::{AllocError, Global};

/// A listed cell of a part as the configuration holds it, with rank 0. The only fault is want of memory.
pub fn cell_of(
    alloc: Global,
    config: &Config,
    part: &Part,
    number: CellNumber,
) -> Result<Kept, AllocError>
    requires stands { PartStands config.now (part_at part.now) }
    requires memory { MemoryIsFormed config.now }
    requires cell { number.cell < cells_in part.now.slot.now.memory }
    ensures kept { IfOk result (λ kept. IsKept (bits_of_lanes part.now.slot.now.keys) part.now.slot.now.memory
        (own_content config.now part.now.at part.now.place number.cell) number kept) }
    ensures bytes { IfOk result (HasBytes part.now.slot.now) }
{
    let stages = config.stages.as_slice();
    let stage = &stages[part.at];
    match &part.slot.memory {
        Memory::Without => unreachable!(),
        Memory::Exact {
            width,
            per,
            quanta,
            keys,
            records,
            ..
        } => exact_cell(
            alloc,
            stage.srows.as_slice(),
            part.slot,
            &ExactMemory {
                width: *width,
                per: *per,
                quanta: *quanta,
                keys: keys.as_slice(),
                records: records.as_slice(),
            },
            number,
        ),
        Memory::Ternary {
            quanta,
            keys,
            records,
            ..
        } => ternary_cell(
            alloc,
            &TernaryCell {
                stage,
                slot: part.slot,
                quanta: *quanta,
                keys: keys.as_slice(),
                records: records.as_slice(),
                number,
            },
        ),
    }
}
