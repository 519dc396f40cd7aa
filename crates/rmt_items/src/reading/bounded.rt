//! Bytes that lie within bounds.

ghost use Rattle.std.specs.Prelude.{◌<◌, ◌&&◌, nat_lt, nat_le, IfOk};
ghost use Rattle.rmt_items.specs.Readers.{Gives, kept, byte_at, at_least, at_most};

use crate::fault::Read;
use crate::reading::number::{byte_of, kept};

/// A byte that is at least 1.
pub fn positive(bytes: &[u8]) -> Read<u8>
    ensures { Gives (λ x. (x.0, x.1.now)) result (kept (at_least 1) byte_at bytes.now) }
{
    let (byte, rest) = byte_of(bytes)?;
    kept(1 <= byte, byte, rest)
}

/// A byte that is at most that.
pub fn up_to(most: u8, bytes: &[u8]) -> Read<u8>
    ensures { Gives (λ x. (x.0, x.1.now)) result (kept (at_most most) byte_at bytes.now) }
{
    let (byte, rest) = byte_of(bytes)?;
    kept(byte <= most, byte, rest)
}

/// A byte from 1 to that.
pub fn one_to(most: u8, bytes: &[u8]) -> Read<u8>
    ensures { Gives (λ x. (x.0, x.1.now)) result (kept (λ n. nat_le 1 n && nat_le n most) byte_at bytes.now) }
{
    let (byte, rest) = byte_of(bytes)?;
    kept(1 <= byte && byte <= most, byte, rest)
}

/// A byte from one number on that is below another.
pub fn from_to(least: u32, bound: usize, bytes: &[u8]) -> Read<u8>
    ensures below { IfOk result (λ x. x.0 < bound) }
    ensures read { Gives (λ x. (x.0, x.1.now)) result (kept (λ n. nat_lt n bound && nat_le least n) byte_at bytes.now) }
{
    let (byte, rest) = byte_of(bytes)?;
    kept((byte as usize) < bound && least <= byte as u32, byte, rest)
}
