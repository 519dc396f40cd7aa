//! The packet slots of the chip.

ghost use Rattle.std.specs.Prelude.{◌≤◌};
ghost use Rattle.rmt_chip.specs.Tails.{tails_len, used_by};

use crate::pending::Pending;
use rmt_config::tails::Tails;
use rmt_config::vector::Vector;
use rmt_ptcam::parse::Parsed;

/// A packet in the chip, with what the stages have read for it and not used yet.
#[derive(Drop)]
pub struct PacketSlot {
    /// Whether a packet is there.
    pub taken: bool,
    /// How many packets entered before it.
    pub number: u64,
    /// The version that was current as it entered.
    pub version: u64,
    /// The bytes of its frame.
    pub size: u64,
    /// How the parser ended.
    pub parsed: Parsed,
    /// Its words.
    pub vector: Vector,
    /// Where the tails of its headers stand in the frame.
    pub tails: Tails,
    /// The outcome of each node, 0 where it has none yet.
    pub outcomes: [u8; 256],
    /// What each stage keeps for it.
    pub pending: Vec<Pending>,
    ghost tails_before: { tails_len tails ≤ used_by parsed },
    ghost within: { used_by parsed ≤ 9216 },
}
