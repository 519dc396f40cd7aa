//! The bytes of a header, said by its lanes.

ghost use Rattle.std.specs.Prelude.{◌≡◌, length, slice_index};
ghost use Rattle.rmt_bits.specs.Bits.{bytes_of};
ghost use Rattle.rmt_config.specs.Life.{key_of};
ghost use Rattle.rmt_chip.specs.Runnable.{HeaderFits};

use crate::key::put_together;
use rmt_config::config::OutHeader;
use rmt_config::vector::Vector;

/// Puts the lanes of a header together into as many bytes as it has.
pub fn put_header(buffer: &mut [u8], vector: &Vector, header: &OutHeader)
    requires fits { HeaderFits header.now }
    requires whole { length buffer.old ≡ header.now.bytes }
    ensures { buffer.new ≡ bytes_of header.now.bytes (key_of (λ w. slice_index vector.now w) header.now.pieces) }
{
    put_together(buffer, vector, header.pieces.as_slice());
}
