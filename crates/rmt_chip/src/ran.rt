//! What runs in a stage.

/// An instruction of a stage that runs for a packet.
#[derive(Clone, Copy)]
pub struct Ran {
    /// Its number in the stage.
    pub code: u16,
    /// The number in the stage of the unit that runs it.
    pub unit: u8,
    /// Whether that unit found an entry, whose data the instruction then reads; else it reads 0 for them.
    pub found: bool,
}
