//! What is known of a program and of a table before they are put onto the chip.

use rmt_ast::entry::EntryLists;
use rmt_ast::program::{Program, Table};
use rmt_filling::plan::{Plan, PlannedStage};

/// A program with its entries, and where everything is to stand.
#[derive(Clone, Copy)]
pub struct PlannedProgram<'a> {
    /// The program.
    pub program: &'a Program,
    /// The entries of each of its nodes.
    pub entries: &'a EntryLists,
    /// Where everything is to stand.
    pub plan: &'a Plan,
}

/// The table that a node applies, in a stage of a plan.
#[derive(Clone, Copy)]
pub struct PlannedTable<'t, 'p> {
    /// The stage.
    pub planned: &'t PlannedStage<'p>,
    /// The table.
    pub table: &'t Table,
    /// The number of the node.
    pub node: u32,
}
