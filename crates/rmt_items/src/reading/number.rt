//! Numbers at the front of an image's bytes, highest byte first.

#![tactic(auto, unfolding(crate::specs::Readers::byte_at, crate::specs::Readers::number_at, crate::specs::Readers::fours_at, crate::specs::Readers::flag_at))]

ghost use Rattle.std.specs.Prelude.{◌≡◌, ◌≤◌, ◌<◌, ◌*◌, ◌^◌, length, IfOk};
ghost use Rattle.rmt_bits.specs.Bits.{number_of};
ghost use Rattle.rmt_items.specs.Readers.{Gives, give, where_, byte_at, number_at, fours_at, flag_at};

use crate::fault::{Read, ReadError, ReadFault};

/// What was read, where it passes a test; else the form is broken.
pub fn kept<T: Drop>(passes: bool, item: T, rest: &[u8]) -> Read<T>
    ensures read { Gives (λ x. (x.0, x.1.now)) result (where_ passes (give item) rest.now) }
{
    if passes {
        Ok((item, rest))
    } else {
        Err(ReadError::Fault(ReadFault::Form))
    }
}

/// A byte.
pub fn byte_of(bytes: &[u8]) -> Read<u8>
    ensures read { Gives (λ x. (x.0, x.1.now)) result (byte_at bytes.now) }
{
    match bytes {
        [] => Err(ReadError::Fault(ReadFault::Short)),
        [byte, rest @ ..] => Ok((*byte, rest)),
    }
}

/// At most 14 bytes as a number.
fn number(bytes: &[u8]) -> u128
    requires { length bytes.now ≤ 14 }
    ensures value { result ≡ number_of bytes.now }
    ensures small { result < 2 ^ (8 * length bytes.now) }
{
    let mut number = 0;
    for byte in bytes {
        number = 256 * number + u128::from(*byte);
    }
    number
}

/// The number that the first `count` bytes are, at most 14.
pub fn number_from(count: usize, bytes: &[u8]) -> Read<u128>
    requires { count ≤ 14 }
    ensures read { Gives (λ x. (x.0, x.1.now)) result (number_at count bytes.now) }
    ensures small { IfOk result (λ x. x.0 < 2 ^ (8 * count)) }
{
    if bytes.len() < count {
        return Err(ReadError::Fault(ReadFault::Short));
    }
    let (front, rest) = bytes.split_at(count);
    Ok((number(front), rest))
}

/// A number of two bytes.
pub fn two_of(bytes: &[u8]) -> Read<u16>
    ensures read { Gives (λ x. (x.0, x.1.now)) result (number_at 2 bytes.now) }
{
    let (number, rest) = number_from(2, bytes)?;
    Ok((number as u16, rest))
}

/// A number of four bytes.
pub fn four_of(bytes: &[u8]) -> Read<u32>
    ensures read { Gives (λ x. (x.0, x.1.now)) result (number_at 4 bytes.now) }
{
    let (number, rest) = number_from(4, bytes)?;
    Ok((number as u32, rest))
}

/// Two numbers of four bytes, one behind the other.
pub fn fours_of(bytes: &[u8]) -> Read<(u32, u32)>
    ensures read { Gives (λ x. (x.0, x.1.now)) result (fours_at bytes.now) }
{
    let (first, rest) = four_of(bytes)?;
    let (second, rest) = four_of(rest)?;
    Ok(((first, second), rest))
}

/// A byte that is 0 or 1.
pub fn flag_of(bytes: &[u8]) -> Read<bool>
    ensures read { Gives (λ x. (x.0, x.1.now)) result (flag_at bytes.now) }
{
    let (byte, rest) = byte_of(bytes)?;
    if byte > 1 {
        return Err(ReadError::Fault(ReadFault::Form));
    }
    Ok((byte == 1, rest))
}
