//! How the cells of a part lie.

ghost use Rattle.std.specs.Prelude.{◌≡◌, IsTrue};
ghost use Rattle.rmt_config.specs.Cells.{cells_in};
ghost use Rattle.rmt_config.specs.KeysSeen.{WaysLow};
ghost use Rattle.rmt_config.specs.Life.{has_memory};
ghost use Rattle.rmt_config.specs.UnitForm.{slot_is_formed};
ghost use Rattle.rmt_config.specs.declared.config.SlotUnit.{SlotUnit as SlotOf};
ghost use Rattle.rmt_book.specs.PartShape.{HasFewCells, IsGrid, IsShape, cell_count};

use crate::grid::Grid;
use rmt_config::config::{Memory, SlotUnit};
use rmt_config::form::lane::key_bits;
use rmt_config::part_ways::PartWays;

/// What is kept of the memory of a part.
#[derive(Clone, Copy)]
pub struct PartShape {
    /// The bits of a key, at most 640.
    pub bits: u64,
    /// The bits of an entry's data.
    pub held: u16,
    /// How the cells lie.
    pub grid: Grid,
}

/// How the cells of a memory lie.
fn grid_of(memory: &Memory) -> Grid
    requires { HasFewCells memory.now }
    ensures { IsGrid memory.now result }
{
    match memory {
        Memory::Without => unreachable!(),
        Memory::Exact {
            per,
            quanta,
            first_way,
            ..
        } => Grid::Ways(PartWays {
            first: *first_way,
            rows: 1024 * u32::from(*quanta),
            per: *per,
        }),
        Memory::Ternary { quanta, .. } => Grid::Rows(2048 * u32::from(*quanta)),
    }
}

/// The shape of the memory of a slot.
pub fn shape_of(slot: &SlotUnit) -> PartShape
    requires formed { IsTrue (slot_is_formed slot.now) }
    requires memory { IsTrue (has_memory slot.now.memory) }
    requires ways { WaysLow slot.now.memory }
    ensures { IsShape slot.now result }
{
    PartShape {
        bits: key_bits(slot.keys.as_slice()),
        held: slot.held,
        grid: grid_of(&slot.memory),
    }
}

impl PartShape {
    /// How many cells the part has.
    pub fn cells(&self) -> u32
        ensures count { result ≡ cell_count self.now.grid }
        ensures memory { (slot : SlotOf) → IsShape slot self.now → result ≡ cells_in slot.memory }
    {
        match self.grid {
            Grid::Ways(ways) => 4 * (ways.rows * ways.per as u32),
            Grid::Rows(rows) => rows,
        }
    }
}
