//! What is known of a program before its stages are put together.

use crate::stands::Stands;
use rmt_ast::entry::EntryLists;
use rmt_ast::program::Program;
use rmt_bits::sequence::Sequence;
use rmt_pack::format::Format;
use rmt_pack::placement::Placement;
use rmt_phv::places::Places;
use rmt_vliw::folded::Folded;

/// Where the fields, nodes and entries of a program are to stand.
#[derive(Drop)]
pub struct Plan {
    /// What each action folds to.
    pub folded: Sequence<Folded>,
    /// The lanes of each field.
    pub places: Places,
    /// The parts of the nodes.
    pub placement: Placement,
    /// The start of each stage.
    pub starts: Sequence<u16>,
    /// The memory format of each node.
    pub formats: Sequence<Format>,
    /// The entries of each node by rising cell, counted over the parts of its table in the order of their stages.
    pub stands: Sequence<Stands>,
    /// The seed under which exact keys are loaded.
    pub seed: u8,
}

/// A stage of a plan for a program with these entries.
#[derive(Clone, Copy)]
pub struct PlannedStage<'a> {
    /// The program.
    pub program: &'a Program,
    /// The entries of each of its nodes.
    pub entries: &'a EntryLists,
    /// Where everything is to stand.
    pub plan: &'a Plan,
    /// The number of the stage, 0 to 31.
    pub stage: u32,
}
