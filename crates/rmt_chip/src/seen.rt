//! What can be seen of a packet in flight.

use rmt_config::vector::Vector;

/// A packet in flight: its number, counted from 0 in the order in which the packets entered, and
/// its header vector.
#[derive(Clone, Copy, Debug)]
pub struct Seen<'a> {
    pub number: u64,
    pub words: &'a Vector,
}
