//! Numbers at the front of a map's bytes, highest byte first.

ghost use Rattle.rmt_verify.specs.Readers.{Gives, byte_at, two_at, four_at};

use crate::fault::{MapFault, Read};

/// A byte.
#[tactic(auto, unfolding(crate::specs::Readers::byte_at))]
pub fn byte_of(bytes: &[u8]) -> Read<u8>
    ensures { Gives (λ x. (x.0, x.1.now)) result (byte_at bytes.now) }
{
    match bytes {
        [] => Err(MapFault::Form),
        [byte, rest @ ..] => Ok((*byte, rest)),
    }
}

/// A number of two bytes.
#[tactic(auto, unfolding(crate::specs::Readers::two_at, crate::specs::Readers::byte_at))]
pub fn two_of(bytes: &[u8]) -> Read<u16>
    ensures { Gives (λ x. (x.0, x.1.now)) result (two_at bytes.now) }
{
    match bytes {
        [high, low, rest @ ..] => Ok((256 * *high as u16 + *low as u16, rest)),
        _ => Err(MapFault::Form),
    }
}

/// A number of four bytes.
#[tactic(auto, unfolding(crate::specs::Readers::four_at))]
pub fn four_of(bytes: &[u8]) -> Read<u32>
    ensures { Gives (λ x. (x.0, x.1.now)) result (four_at bytes.now) }
{
    let (high, rest) = two_of(bytes)?;
    let (low, rest) = two_of(rest)?;
    Ok((65536 * high as u32 + low as u32, rest))
}
