//! A changed cell of a running chip.

use rmt_bits::answer::Bytes;

/// What a cell of a slot is to hold. With `visible` 0 the cell is emptied, and nothing behind it is looked at.
#[derive(Drop)]
pub struct CellWrite {
    /// The number of the stage, 0 to 31.
    pub stage: u8,
    /// The place of the slot among the units of its stage, from 0.
    pub unit: u8,
    /// The number of the cell in the slot, from 0; of a ternary part that of the row.
    pub cell: u32,
    /// The visible bits, 0 to 3: 1 for packets of even versions, 2 for those of odd ones.
    pub visible: u8,
    /// The number of the instruction that a hit runs, in the stage; one of the slot's own.
    pub code: u8,
    /// The bytes of the key, the highest first; bits above the key are 0.
    pub key: Bytes,
    /// The bytes of the mask, as many as those of the key; none of an exact part, where all bits count.
    pub mask: Bytes,
    /// The bytes of the entry's data, the highest first; bits above the data are 0.
    pub held: Bytes,
    /// The number of the entry, over all tables.
    pub number: u32,
}
