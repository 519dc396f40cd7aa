//! Lookups of two states in one, and the 32 bits that entries compare over them.

ghost use Rattle.std.specs.Prelude.{◌≡◌, ◌+◌, ◌*◌, ◌-◌, ◌||◌, ◌&&◌, nat_le, map, slice_index, IfOk};
ghost use Rattle.rmt_bits.specs.Members.{is_among as is_among_of};
ghost use Rattle.rmt_ptcam.specs.Joining.{together as together_of};
ghost use Rattle.rmt_ptcam.specs.Words.{byte_at as byte_at_of, spread as spread_of, byte_of_both, both as both_of};

use rmt_bits::answer::Bytes;
use std::alloc::{AllocError, Global};

/// Whether a byte is one of these.
pub fn is_among(offsets: &[u8], offset: u8) -> bool
    ensures { result ≡ is_among_of offsets.now offset }
{
    offsets.contains(&offset)
}

fn is_together(here: &[u8], bytes: u8, there: &[u8], offset: u8) -> bool
    ensures { result ≡ (is_among_of here.now offset || (nat_le bytes offset && is_among_of there.now (offset - bytes))) }
{
    is_among(here, offset) || (bytes <= offset && is_among(there, offset - bytes))
}

/// The lookups of a state, and those of another one that begins so many bytes behind it.
pub fn together(alloc: Global, here: &[u8], bytes: u8, there: &[u8]) -> Result<Bytes, AllocError>
    ensures { IfOk result (λ to. to ≡ together_of here.now bytes there.now) }
{
    let mut to = Bytes::new(alloc);
    for offset in 0..128 {
        if is_together(here, bytes, there, offset) {
            to.push(offset)?;
        }
    }
    Ok(to)
}

/// The byte that stands for an offset among the lookups, of which the first has the highest byte; 0 where it isn't looked up.
pub fn byte_at(lookups: &[u8], word: u32, offset: u8) -> u8
    ensures { result ≡ byte_at_of lookups.now word offset }
{
    let mut rest = word;
    for lookup in lookups {
        if *lookup == offset {
            return (rest >> 24) as u8;
        }
        rest = rest % 16777216 * 256;
    }
    0
}

/// The byte at a place of 32 bits over other lookups.
fn byte_over(from: &[u8], to: &[u8], word: u32, place: usize) -> u8
    ensures { result ≡ slice_index (map (byte_at_of from.now word) to.now) place }
{
    match to.get(place) {
        Some(offset) => byte_at(from, word, *offset),
        None => 0,
    }
}

/// The 32 bits of four bytes, the first one highest.
fn word_of(first: u8, second: u8, third: u8, fourth: u8) -> u32
    ensures { result ≡ ((first * 256 + second) * 256 + third) * 256 + fourth }
{
    ((u32::from(first) * 256 + u32::from(second)) * 256 + u32::from(third)) * 256
        + u32::from(fourth)
}

/// 32 bits over some lookups as 32 bits over others.
pub fn spread(from: &[u8], to: &[u8], word: u32) -> u32
    ensures { result ≡ spread_of from.now to.now word }
{
    word_of(
        byte_over(from, to, word, 0),
        byte_over(from, to, word, 1),
        byte_over(from, to, word, 2),
        byte_over(from, to, word, 3),
    )
}

/// The byte for an offset, of 32 bits over here, and of others over lookups that begin so many bytes behind.
fn byte_of(here: &[u8], bytes: u8, there: &[u8], x: u32, y: u32, offset: u8) -> u8
    ensures { result ≡ byte_of_both here.now bytes there.now x y offset }
{
    if offset < bytes {
        byte_at(here, x, offset)
    } else {
        byte_at(there, y, offset - bytes)
    }
}

/// The byte at a place over the lookups together.
fn byte_over_both(
    here: &[u8],
    bytes: u8,
    there: &[u8],
    to: &[u8],
    x: u32,
    y: u32,
    place: usize,
) -> u8
    ensures { result ≡ slice_index (map (byte_of_both here.now bytes there.now x y) to.now) place }
{
    match to.get(place) {
        Some(offset) => byte_of(here, bytes, there, x, y, *offset),
        None => 0,
    }
}

/// 32 bits over the lookups here, and others over those that begin so many bytes behind, as 32 bits over both together.
pub fn both(here: &[u8], bytes: u8, there: &[u8], to: &[u8], x: u32, y: u32) -> u32
    requires { to.now ≡ together_of here.now bytes there.now }
    ensures { result ≡ both_of here.now bytes there.now x y }
{
    word_of(
        byte_over_both(here, bytes, there, to, x, y, 0),
        byte_over_both(here, bytes, there, to, x, y, 1),
        byte_over_both(here, bytes, there, to, x, y, 2),
        byte_over_both(here, bytes, there, to, x, y, 3),
    )
}
