//! What a program with its entries becomes.

use rmt_bounds::bound::Bound;
use rmt_config::config::Config;
use rmt_refine::map::Map;

/// A program with its entries, as the chip holds it.
#[derive(Drop, Debug)]
pub struct Built {
    /// What the chip is configured with.
    pub config: Config,
    /// Where the fields, nodes and entries stand in it.
    pub map: Map,
    /// How many stages every placement of the program has at least, with its proof.
    pub bound: Bound,
}
