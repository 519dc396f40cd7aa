//! What a run of a switch gives.

use rmt_bits::answer::Bytes;
use rmt_bits::sequence::Sequence;

/// What a run of a switch gives.
#[derive(Drop, Debug)]
pub struct Switched {
    /// The captures of the ports that sent, by rising port.
    pub files: Sequence<PortFile>,
    /// What is counted of the run.
    pub counts: SwitchCounts,
}

/// The capture of what a port sent.
#[derive(Drop, Debug)]
pub struct PortFile {
    /// The port, 0 to 511.
    pub port: u16,
    /// The bytes of its capture.
    pub bytes: Bytes,
}

/// What is counted of a run.
#[derive(Clone, Copy, Debug, PartialEq, Eq)]
pub struct SwitchCounts {
    /// The records of the capture that are kept, each a packet.
    pub packets: u64,
    /// The records that are skipped.
    pub skipped: u64,
    /// The copies that ports sent.
    pub out: u64,
    /// The packets that the chip did not send.
    pub dropped: u64,
    /// The copies for which a queue had no room.
    pub queue: u64,
    /// The copies of packets for which cells were short.
    pub cells: u64,
}
