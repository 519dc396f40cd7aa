//! Words: what a stage writes for a packet.

ghost use Rattle.std.specs.Prelude.{◌≡◌, ◌<◌, vec_len};
ghost use Rattle.rmt_chip.specs.Held.{WrittenBy};
ghost use Rattle.rmt_chip.specs.Writes.{applied};

use crate::accepted::is_accepted;
use crate::packet_slot::PacketSlot;
use crate::write::Write;
use rmt_config::vector::Vector;

/// Puts whole words into the vector, one after another.
fn apply(vector: &mut Vector, writes: &[Write])
    ensures { vector.new ≡ applied writes.now vector.old }
{
    for write in writes {
        vector.set(write.word, write.value);
    }
}

/// Stage k writes its whole words for a packet that was accepted.
pub fn write_words(place: &mut PacketSlot, k: usize)
    requires { k < vec_len place.old.pending }
    ensures { WrittenBy k place.old place.new }
{
    if is_accepted(place.parsed) {
        apply(&mut place.vector, &place.pending[k].due);
    }
}
