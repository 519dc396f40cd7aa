//! What the units of a stage read for a packet at the stage's start.

ghost use Rattle.std.specs.Prelude.{◌<◌};

/// What one unit read. It is kept until the outcomes are set, and the record until operands are read.
#[derive(Drop, Debug)]
pub struct Looked {
    /// Of a gate whether all tests pass, of a slot whether its key was found.
    pub hit: bool,
    /// The number of the instruction of the entry that was found, in its stage; 0 to 31.
    pub code: u8,
    /// The number of the entry that was found, where the slot is counted.
    pub number: u32,
    /// The data of the entry that was found, in as many bytes as the slot's entries need, highest first.
    pub held: Vec<u8>,
    pub ghost short: { code < 32 },
}
