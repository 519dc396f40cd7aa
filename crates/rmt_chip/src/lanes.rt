//! Lanes of a vector.

ghost use Rattle.std.specs.Prelude.{◌≡◌, ◌<◌, ◌^◌, length, slice_index};
ghost use Rattle.rmt_config.specs.Life.{lane_of};
ghost use Rattle.rmt_config.specs.Parser.{put as put_of};
ghost use Rattle.rmt_chip.specs.Runnable.{LaneFits};

use rmt_bits::bits::{word_deposit, word_slice};
use rmt_bits::lane::Lane;
use rmt_config::vector::Vector;

/// The bits of a lane.
pub fn lane(vector: &Vector, lane: Lane) -> u32
    requires { LaneFits lane }
    ensures value { result ≡ lane_of (λ w. slice_index vector.now w) lane }
    ensures within { result < 2 ^ lane.len }
{
    word_slice(vector.get(lane.word), lane.low, lane.len)
}

/// Puts bits into a lane.
pub fn put(vector: &mut Vector, lane: Lane, bits: u32)
    requires exists { LaneFits lane }
    requires within { bits < 2 ^ lane.len }
    ensures value { vector.new ≡ put_of vector.old lane bits }
    ensures whole { length vector.new ≡ 224 }
{
    let old = vector.get(lane.word);
    let new = word_deposit(old, lane.low, lane.len, bits);
    vector.set(lane.word, new);
}
