//! What is current in a cycle.

/// What is current in a cycle of the chip.
#[derive(Clone, Copy)]
pub struct Moment {
    /// The packet slot of what enters, 0 to 384.
    pub newest: usize,
    /// How many packets entered before.
    pub number: u64,
    /// The version under which a packet enters.
    pub version: u64,
    /// The seed of the hash in look-ups.
    pub seed: u8,
}
