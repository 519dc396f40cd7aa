//! Dependencies between the nodes of a program (table mapping, Jose et al. 2015).

use rmt_bits::sequence::Sequence;

/// Why one node has to stay behind another.
#[derive(Clone, Copy, Debug, PartialEq, Eq)]
pub enum EdgeKind {
    /// The first writes a field that the second matches on or tests.
    Match,
    /// The first writes a field that the second's actions read or write.
    Action,
    /// The first is the second's parent: its outcome decides whether the second runs.
    Successor,
    /// The second writes a field that the first matches on or tests, or that its actions read.
    Reverse,
    /// Both write fields that have pieces in one word of the header vector.
    Word,
}

/// A dependency of one node on an earlier one.
#[derive(Clone, Copy, Debug, PartialEq, Eq)]
pub struct Edge {
    /// The number of the earlier node.
    pub from: u32,
    /// The number of the later node.
    pub to: u32,
    /// Why the later node stays behind.
    pub kind: EdgeKind,
}

/// The dependencies of a program.
#[derive(Drop, Debug)]
pub struct Deps {
    /// Those by fields and guards: of all kinds but `Word`.
    pub field: Sequence<Edge>,
    /// Those by words of the header vector.
    pub word: Sequence<Edge>,
}
