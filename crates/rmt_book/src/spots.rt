//! In which cells of its parts the entries of a table stand.

ghost use Rattle.std.specs.Prelude.{◌≡◌, IfOk};
ghost use Rattle.rmt_book.specs.Spots.{spot_from, spots_at};

use crate::table::PartCells;
use rmt_bits::sequence::Sequence;
use std::alloc::{AllocError, Global};

/// Where an entry stands.
#[derive(Clone, Copy, Debug, PartialEq, Eq)]
pub struct Spot {
    /// The place of the part among those of its table, from 0 on.
    pub part: usize,
    /// The number of the cell in the part.
    pub cell: u32,
}

/// Where the entries of a table stand, in their order.
pub type Spots = Sequence<Spot>;

/// The spot of a cell of a table, which is numbered over all parts in their order.
pub fn spot_of(parts: &[PartCells], number: u32) -> Spot
    ensures { result ≡ spot_from 0 parts.now number }
{
    let mut left = number;
    for (at, part) in parts.iter().enumerate() {
        let cells = part.shape.cells();
        if left < cells {
            return Spot {
                part: at,
                cell: left,
            };
        }
        left -= cells;
    }
    Spot {
        part: parts.len(),
        cell: left,
    }
}

/// The spots of cells of a table, which are numbered over all parts in their order. The only fault is want of memory.
pub fn spots_of(alloc: Global, parts: &[PartCells], numbers: &[u32]) -> Result<Spots, AllocError>
    ensures { IfOk result (λ spots. spots ≡ spots_at parts.now numbers.now) }
{
    let mut spots = Vec::with_capacity(alloc, numbers.len())?;
    for number in numbers {
        spots.push(spot_of(parts, *number))?;
    }
    Ok(Sequence::from_vec(spots))
}
