//! Headers.

#![tactic(auto, unfolding(crate::specs::Reading::header_at, crate::specs::Reading::headers_at))]

ghost use Rattle.std.specs.Prelude.{◌≡◌};
ghost use Rattle.rmt_items.specs.Readers.{Gives, kept, listed, list_at, byte_at};
ghost use Rattle.rmt_items.specs.Reading.{lanes_at, header_size_fits, header_at, headers_at};

use crate::fault::Read;
use crate::reading::bounded::{one_to, up_to};
use crate::reading::items::{Item, list_of, list8_of};
use crate::reading::lane::lane_of_bits;
use crate::reading::number::kept;
use rmt_bits::sequence::Sequence;
use rmt_config::config::OutHeader;
use rmt_config::form::lane::count_bits;
use std::alloc::Global;

impl Item<()> for OutHeader {
    const LEAST_SIZE: usize = 5;

    ghost item_at = { λ _. header_at };

    fn read(alloc: Global, _given: (), bytes: &[u8]) -> Read<OutHeader> {
        let (valid, rest) = lane_of_bits(1, bytes)?;
        let (bytes, rest) = one_to(64, rest)?;
        let (pieces, rest) = list8_of(alloc, (), rest)?;
        let bits = count_bits(pieces.as_slice());
        let header = OutHeader {
            valid,
            bytes,
            pieces,
        };
        kept(bits == 8 * bytes as u32, header, rest)
    }
}

/// The headers behind their count, at most 64.
pub fn headers_of(alloc: Global, bytes: &[u8]) -> Read<Sequence<OutHeader>>
    ensures read { Gives (λ x. (x.0, x.1.now)) result (headers_at bytes.now) }
{
    let (count, rest) = up_to(64, bytes)?;
    list_of(alloc, (), count as u64, rest)
}
