//! Bounds, and what proves them.

use rmt_bits::answer::Numbers;

/// A number of stages that every legal placement of a program has at least.
#[derive(Drop, Debug)]
pub struct Bound {
    /// How many stages.
    pub stages: u32,
    /// Why no legal placement has fewer.
    pub proof: Proof,
}

/// What proves a bound.
#[derive(Drop, Debug)]
pub enum Proof {
    /// Nodes, each joined to the next by an edge: their least stage counts together, less 1 for each two that only weak
    /// edges join. Nodes are told by their numbers.
    Chain(Numbers),
    /// The SRAM blocks that all tables take at least; a stage has 106.
    Sram(u32),
    /// The TCAM blocks that all tables take; a stage has 16.
    Tcam(u32),
    /// How many tables there are; a stage has 16 slots.
    Slots(u32),
}
