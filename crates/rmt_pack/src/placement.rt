//! Where the nodes of a program stand.

ghost use Rattle.std.specs.Prelude.{◌≡◌};
ghost use Rattle.rmt_pack.specs.Placements.{is_strict as asks_for_later};

use rmt_ast::deps::EdgeKind;
use rmt_bits::sequence::Sequence;

/// A placement of a program's nodes in the stages of the chip.
#[derive(Drop, Debug)]
pub struct Placement {
    /// The parts, each of one node in one stage.
    pub parts: Sequence<Part>,
}

/// A part of a node: what stands of it in one stage.
#[derive(Clone, Copy, Debug, PartialEq, Eq)]
pub struct Part {
    /// The number of the node, from 0 on.
    pub node: u32,
    /// The number of the stage, from 0 on.
    pub stage: u32,
    /// How many quanta of the node's memory stand there; 1 for a node without memory.
    pub quanta: u32,
}

/// Whether an edge asks for a later stage; else the same one will do.
pub fn is_strict(kind: EdgeKind) -> bool
    ensures { result ≡ asks_for_later kind }
{
    match kind {
        EdgeKind::Match => true,
        EdgeKind::Action => true,
        EdgeKind::Word => true,
        EdgeKind::Successor => false,
        EdgeKind::Reverse => false,
    }
}
