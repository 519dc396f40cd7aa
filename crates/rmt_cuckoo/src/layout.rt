//! The cells of an exact table.

use rmt_bits::answer::Bytes;
use rmt_bits::sequence::Sequence;

/// A part of a table: four ways, each with this many rows (at least 1) of this many cells.
#[derive(Clone, Copy, Debug, PartialEq, Eq)]
pub struct Ways {
    /// The rows of a way.
    pub rows: u32,
    /// The cells of a row.
    pub per: u32,
}

/// The parts of a table, in their order. Part i has the ways 4i to 4i + 3, way by way from cell to cell: the cell of
/// position s in row r of its way j has the number (j * rows + r) * per + s behind the cells of the earlier parts.
pub type Layout = Sequence<Ways>;

/// A key as its bytes, the first field highest.
pub type Key = Bytes;

/// The keys of a table, each by its number.
pub type Keys = Sequence<Key>;
