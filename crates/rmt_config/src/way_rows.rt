//! The rows of a key in the ways of an exact part.

ghost use Rattle.std.specs.Prelude.{◌≡◌, ◌*◌, ◌<◌};
ghost use Rattle.rmt_config.specs.WayRows.{row_among};

use crate::part_ways::PartWays;
use rmt_bits::hash::hash_row;

/// The row under a seed of a key in one of the ways, counted over the rows of all four.
pub fn row_of(ways: PartWays, seed: u8, key: &[u8], way: u8) -> u32
    requires { way < 4 }
    ensures value { result ≡ row_among ways seed key.now way }
    ensures within { result < 4 * ways.rows }
{
    way as u32 * ways.rows + hash_row(seed, ways.first + way, key, ways.rows)
}
