//! Lists of items behind their counts.

ghost use Rattle.std.specs.Prelude.{◌≡◌, ◌≤◌, ◌++◌, ◌∷◌, [], length, OnOk};
ghost use Rattle.rmt_verify.specs.Readers.{Reader, Gives, items_at, listed, byte_at, two_at, four_at};

use crate::fault::Read;
use crate::reading::number::{byte_of, four_of, two_of};
use rmt_bits::sequence::Sequence;
use std::alloc::{AllocError, Global};

/// What a list has items of.
pub trait Item: Drop {
    /// The fewest bytes that it has.
    const LEAST_SIZE: usize;

    /// The item at the front of bytes.
    ghost item_at: { Reader Self };

    /// The item at the front of the bytes, and the bytes behind it.
    fn read(alloc: Global, bytes: &[u8]) -> Read<Self>
        ensures { Gives (λ x. (x.0, x.1.now)) result (item_at bytes.now) };
}

/// How many items of that size are to be made room for: no more than the bytes may have, whatever the count says.
fn room_for(count: u32, size: usize, bytes: &[u8]) -> usize
    ensures { result ≤ length bytes.now }
{
    (count as usize).min(bytes.len() / size.max(1))
}

/// Puts an item behind others.
fn put<T: Drop>(items: &mut Vec<T>, item: T) -> Result<(), AllocError>
    ensures { OnOk result (items.new.items ≡ items.old.items ++ item ∷ []) }
{
    items.push(item)?;
    Ok(())
}

/// That many items at the front of the bytes, and the bytes behind them.
fn items_of<T: Item>(alloc: Global, count: u32, bytes: &[u8]) -> Read<Sequence<T>>
    ensures { Gives (λ x. (x.0, x.1.now)) result (items_at T.item_at count bytes.now) }
{
    let mut items = Vec::with_capacity(alloc, room_for(count, T::LEAST_SIZE, bytes))?;
    let mut rest = bytes;
    for _ in 0..count {
        let (item, behind) = T::read(alloc, rest)?;
        put(&mut items, item)?;
        rest = behind;
    }
    Ok((Sequence::from_vec(items), rest))
}

/// Items behind their count, of one byte.
pub fn list8_of<T: Item>(alloc: Global, bytes: &[u8]) -> Read<Sequence<T>>
    ensures { Gives (λ x. (x.0, x.1.now)) result (listed byte_at T.item_at bytes.now) }
{
    let (count, rest) = byte_of(bytes)?;
    items_of(alloc, count as u32, rest)
}

/// The same behind a count of two bytes.
pub fn list16_of<T: Item>(alloc: Global, bytes: &[u8]) -> Read<Sequence<T>>
    ensures { Gives (λ x. (x.0, x.1.now)) result (listed two_at T.item_at bytes.now) }
{
    let (count, rest) = two_of(bytes)?;
    items_of(alloc, count as u32, rest)
}

/// The same behind a count of four bytes.
pub fn list32_of<T: Item>(alloc: Global, bytes: &[u8]) -> Read<Sequence<T>>
    ensures { Gives (λ x. (x.0, x.1.now)) result (listed four_at T.item_at bytes.now) }
{
    let (count, rest) = four_of(bytes)?;
    items_of(alloc, count, rest)
}
