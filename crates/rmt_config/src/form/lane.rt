//! The rules of form of lanes and ports.

ghost use Rattle.std.specs.Prelude.{◌≡◌, ◌<◌, ◌≤◌, length};
ghost use Rattle.std.specs.List.{list_all};
ghost use Rattle.rmt_config.specs.LaneForm.{lane_is_formed, is_lane_of, bits_of_lanes, ports_are_formed};

use crate::config::Config;
use crate::form::number::fits_byte;
use rmt_bits::lane::{Lane, word_size};

/// Whether a lane has 1 to 32 bits that lie in a word of the vector.
pub fn lane_fits(lane: Lane) -> bool
    ensures { result ≡ lane_is_formed lane }
{
    lane.word < 224
        && 1 <= lane.len
        && lane.len <= 32
        && lane.low as u16 + lane.len as u16 <= word_size(lane.word) as u16
}

/// Whether it is such a lane of that many bits.
pub fn lane_fits_of(len: u8, lane: Lane) -> bool
    ensures { result ≡ is_lane_of len lane }
{
    lane_fits(lane) && lane.len == len
}

/// Whether each of the lanes has 1 to 32 bits that lie in a word of the vector.
pub fn lanes_fit(lanes: &[Lane]) -> bool
    ensures { result ≡ list_all lane_is_formed lanes.now }
{
    lanes.iter().all(|lane| lane_fits(*lane))
}

/// How many bits fewer than 65,536 lanes have together.
pub fn count_bits(lanes: &[Lane]) -> u32
    requires { length lanes.now < 65536 }
    ensures { result ≡ bits_of_lanes lanes.now }
{
    let mut bits = 0;
    for lane in lanes {
        bits += lane.len as u32;
    }
    bits
}

/// How many bits the lanes of a key have together, at most 640.
pub fn key_bits(lanes: &[Lane]) -> u64
    requires { bits_of_lanes lanes.now ≤ 640 }
    ensures { result ≡ bits_of_lanes lanes.now }
{
    lanes.iter().map(|lane| lane.len as u64).sum()
}

/// Whether the ports' lanes have 9 bits and that of the drop bit has one.
pub fn ports_fit(config: &Config) -> bool
    ensures { result ≡ ports_are_formed config.now }
{
    fits_byte(config.seed)
        && lane_fits_of(9, config.in_port)
        && lane_fits_of(9, config.out_port)
        && lane_fits_of(1, config.drop)
}
