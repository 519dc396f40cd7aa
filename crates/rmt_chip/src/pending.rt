//! What a stage has read for a packet and not used yet.

use crate::ran::Ran;
use crate::write::Write;
use rmt_memory::looked::Looked;

/// What a stage keeps for one packet. All room is made when the chip is opened.
#[derive(Drop)]
pub struct Pending {
    /// What its units read at its start, one for each unit.
    pub looked: Vec<Looked>,
    /// What runs, from 8 cycles past the start on.
    pub running: Vec<Ran>,
    /// The whole words that it writes, from 9 cycles past the start on.
    pub due: Vec<Write>,
}
