//! Lanes put together into bytes.

ghost use Rattle.std.specs.Prelude.{◌≡◌, ◌*◌, ◌≤◌, length, All, slice_index};
ghost use Rattle.rmt_bits.specs.Bits.{number_of};
ghost use Rattle.rmt_config.specs.LaneForm.{bits_of_lanes};
ghost use Rattle.rmt_config.specs.Life.{key_of};
ghost use Rattle.rmt_chip.specs.Runnable.{LaneFits};

use crate::lanes::lane;
use rmt_bits::bits::bytes_of_bits;
use rmt_bits::lane::Lane;
use rmt_config::form::lane::key_bits;
use rmt_config::vector::Vector;

/// Puts lanes together into bytes, the first one highest, and the last one at the end; the bits above the first are 0. It takes no memory.
pub fn put_together(buffer: &mut [u8], vector: &Vector, lanes: &[Lane])
    requires fit { All LaneFits lanes.now }
    requires room { bits_of_lanes lanes.now ≤ 8 * length buffer.old }
    requires short { length buffer.old ≤ 80 }
    ensures { number_of buffer.new ≡ key_of (λ w. slice_index vector.now w) lanes.now }
{
    buffer.fill(0);
    let mut at: u32 = 8 * buffer.len() as u32 - key_bits(lanes) as u32;
    for piece in lanes {
        let bits = lane(vector, *piece);
        bytes_of_bits(u128::from(bits), piece.len, buffer, at);
        at += u32::from(piece.len);
    }
}
