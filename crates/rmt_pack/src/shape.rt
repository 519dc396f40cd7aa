//! What a part of a table is like.

use rmt_bits::answer::Bytes;

/// The kind of a memory whose keys are found by a hash in four ways of SRAM.
pub const EXACT: u8 = 1;

/// The kind of a memory whose keys are compared with each row of TCAM.
pub const TERNARY: u8 = 2;

/// A part of a table: the memory that it has in one stage.
#[derive(Drop, Debug)]
pub struct Shape {
    /// The kind of memory: `EXACT` or `TERNARY`.
    pub memory: u8,
    /// The bits of a key, 1 to 640.
    pub key: u16,
    /// The SRAM blocks side by side that hold a row of entries; 0 in a ternary part.
    pub width: u8,
    /// The entries in a row; 0 in a ternary part.
    pub per: u16,
    /// How many times 1,024 rows each way of an exact part has, or 2,048 rows a ternary part; 1 to 106.
    pub quanta: u8,
    /// The bits of a record: the data of an exact cell, the head of 8 bits and the data of a ternary row.
    pub held: u16,
    /// The SRAM blocks of entries, below 106, by quantum, way and place in the row; none in a ternary part.
    pub keys: Bytes,
    /// The SRAM blocks of records, below 106, by quantum, unit and place in the row; none where a record has no bits.
    pub records: Bytes,
}
