//! Where the cells of a part stand.

ghost use Rattle.std.specs.Prelude.{◌≡◌, ◌≢◌, ◌+◌, ◌*◌, ◌-◌, ◌/◌, ◌%◌, ◌<◌, ◌≤◌, length, take, drop, All, AllPairs};
ghost use Rattle.rmt_pack.specs.Shape.{IsShape, cells_in};
ghost use Rattle.rmt_pack.specs.Cells.{place_of as cell_place_of};

use crate::shape::Shape;

/// The place of a cell of an exact part: its way, its row in the way, and its position in the row.
#[derive(Clone, Copy)]
pub struct CellSpot {
    pub way: u32,
    pub row: u32,
    pub position: u32,
}

/// Where an entry begins: the first of its blocks in their list, its row in them, and its lowest bit in that row.
#[derive(Clone, Copy)]
pub struct Spot {
    pub first: usize,
    pub row: u16,
    pub low: u32,
}

/// The place of a cell of an exact part.
pub fn place_of(shape: &Shape, cell: u32) -> CellSpot
    requires shape { IsShape shape.now }
    requires exact { shape.now.memory ≡ 1 }
    requires cell { cell < cells_in shape.now }
    ensures way { result.way ≡ (cell_place_of shape.now cell).way }
    ensures row { result.row ≡ (cell_place_of shape.now cell).row }
    ensures position { result.position ≡ (cell_place_of shape.now cell).position }
    ensures ways { result.way < 4 }
    ensures rows { result.row < 1024 * shape.now.quanta }
    ensures positions { result.position < shape.now.per }
{
    let per = shape.per as u32;
    let rows = 1024 * shape.quanta as u32;
    let line = cell / per;
    CellSpot {
        way: line / rows,
        row: line % rows,
        position: cell % per,
    }
}

/// That many blocks of a list, from one on.
pub fn blocks_from(blocks: &[u8], first: usize, many: usize) -> &[u8]
    requires there { first + many ≤ length blocks.now }
    requires in_sram { All (λ block. block < 106) blocks.now }
    requires apart { AllPairs ◌≢◌ blocks.now }
    ensures part { result.now ≡ take many (drop first blocks.now) }
    ensures many { length result.now ≡ many }
    ensures in_sram { All (λ block. block < 106) result.now }
    ensures apart { AllPairs ◌≢◌ result.now }
{
    &blocks[first..first + many]
}
