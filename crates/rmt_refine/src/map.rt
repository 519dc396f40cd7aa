//! Where the parts of a program stand in a configuration.

use rmt_bits::sequence::Sequence;
use rmt_pack::placement::Placement;
use rmt_phv::places::Places;

/// Where the fields, nodes and entries of a program stand in a configuration.
#[derive(Drop, Debug)]
pub struct Map {
    /// The lanes of each field, by its number.
    pub places: Places,
    /// The parts of the nodes, in the order of placing.
    pub placement: Placement,
    /// The start of each stage, by its number: the age in cycles at which it reads keys.
    pub starts: Sequence<u16>,
    /// The cells of the entries, by node, stage and cell.
    pub cells: Sequence<CellOf>,
}

/// The cell in which an entry stands.
#[derive(Clone, Copy, Debug, PartialEq, Eq)]
pub struct CellOf {
    /// The number of the entry.
    pub entry: u32,
    /// The number of the stage, 0 to 31.
    pub stage: u32,
    /// The number of the cell in the table's part there, from 0; of a ternary part that of the row.
    pub cell: u32,
}
