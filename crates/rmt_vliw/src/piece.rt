//! Pieces of values.

/// A piece of a value: its bits that one lane of a field takes.
#[derive(Clone, Copy)]
pub struct Piece {
    /// Its number, from the low end of the value on; that of the lane in the field's list.
    pub number: usize,
    /// Its lowest bit in the value, below 128.
    pub low: u8,
    /// How many bits it has, 1 to 32.
    pub len: u8,
}
