//! What is checked.

use rmt_ast::entry::EntryLists;
use rmt_ast::program::Program;
use rmt_config::config::Config;
use rmt_refine::map::Map;

/// A program with its entries, a configuration that is to carry them, and the map that tells how.
#[derive(Drop)]
pub struct Checked<'a> {
    /// The program.
    pub program: &'a Program,
    /// The entries of each of its nodes.
    pub entries: &'a EntryLists,
    /// The configuration.
    pub config: &'a Config,
    /// The map.
    pub map: &'a Map,
}
