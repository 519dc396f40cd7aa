//! What is made from a number.

use rmt_bits::answer::Bytes;
use rmt_bits::fault::OutOfMemory;

/// A program, its entries, and packets for them.
#[derive(Drop, Debug)]
pub struct Sample {
    /// The text of the program.
    pub program: Bytes,
    /// The text of its entries.
    pub entries: Bytes,
    /// The text of the packets.
    pub packets: Bytes,
}

/// Why the texts were not made: for want of memory alone.
pub type SampleFault = OutOfMemory;
