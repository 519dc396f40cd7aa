//! How far a walk has come.

/// Bytes of a frame that stand together.
#[derive(Clone, Copy)]
pub struct Span {
    /// The place of the first.
    pub from: usize,
    /// How many they are.
    pub len: usize,
}

/// The state, the tail of each header of the program, and the byte at which a walk stands.
#[derive(Drop)]
pub struct Reached {
    pub state: Vec<u128>,
    pub tails: Vec<Span>,
    pub at: usize,
}
