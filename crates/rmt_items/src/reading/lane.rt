//! Lanes.

#![tactic(auto, unfolding(crate::specs::Reading::word_at, crate::specs::Reading::lane_from_at, crate::specs::Reading::lane_at, crate::specs::Reading::lane_of_at))]

ghost use Rattle.rmt_items.specs.Readers.{Gives};
ghost use Rattle.rmt_items.specs.Reading.{word_at, lane_from_at, lane_at, lane_of_at};
ghost use Rattle.std.specs.Prelude.{◌≡◌, ◌≤◌, ◌<◌, IfOk};

use crate::fault::Read;
use crate::reading::bounded::from_to;
use crate::reading::items::Item;
use crate::reading::number::{byte_of, kept};
use rmt_bits::lane::Lane;
use rmt_config::form::lane::lane_fits;
use std::alloc::Global;

/// A word of the vector, from that one on.
pub fn word_of(least: u32, bytes: &[u8]) -> Read<u8>
    ensures there { IfOk result (λ x. x.0 < 224) }
    ensures read { Gives (λ x. (x.0, x.1.now)) result (word_at least bytes.now) }
{
    from_to(least, 224, bytes)
}

/// A lane whose word is at least that one.
pub fn lane_from(least: u32, bytes: &[u8]) -> Read<Lane>
    ensures read { Gives (λ x. (x.0, x.1.now)) result (lane_from_at least bytes.now) }
    ensures narrow { IfOk result (λ x. x.0.len ≤ 32) }
{
    let (word, rest) = word_of(least, bytes)?;
    let (low, rest) = byte_of(rest)?;
    let (len, rest) = byte_of(rest)?;
    let lane = Lane { word, low, len };
    kept(lane_fits(lane), lane, rest)
}

/// A lane.
pub fn lane_of(bytes: &[u8]) -> Read<Lane>
    ensures read { Gives (λ x. (x.0, x.1.now)) result (lane_at bytes.now) }
    ensures narrow { IfOk result (λ x. x.0.len ≤ 32) }
{
    lane_from(0, bytes)
}

/// A lane of that many bits.
pub fn lane_of_bits(len: u8, bytes: &[u8]) -> Read<Lane>
    ensures read { Gives (λ x. (x.0, x.1.now)) result (lane_of_at len bytes.now) }
{
    let (lane, rest) = lane_of(bytes)?;
    kept(lane.len == len, lane, rest)
}

impl Item<()> for Lane {
    const LEAST_SIZE: usize = 3;

    ghost item_at = { λ _. lane_at };

    fn read(_alloc: Global, _given: (), bytes: &[u8]) -> Read<Lane> {
        lane_of(bytes)
    }
}
