//! What the nodes so far have left.

use rmt_bits::answer::Numbers;

/// The state, an outcome for each node, and the entries that were hit.
#[derive(Drop)]
pub struct Run {
    pub state: Vec<u128>,
    pub outcomes: Vec<u64>,
    pub hits: Numbers,
}
