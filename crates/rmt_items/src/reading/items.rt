//! Lists of items: some stand in an order, each read under a number that the one before it leaves, others in none.

ghost use Rattle.std.specs.Prelude.{◌≡◌, ◌<◌, ◌≤◌, ◌++◌, ◌∷◌, [], ℕ, length, IfOk, OnOk};
ghost use Rattle.rmt_items.specs.Readers.{Reader, Gives, ◌⊗◌, items_at, list_at, listed, byte_at, number_at};

use crate::fault::Read;
use crate::reading::number::{byte_of, four_of, two_of};
use rmt_bits::sequence::Sequence;
use std::alloc::{AllocError, Global};
use std::marker::PhantomData;

// ---- items in an order

/// How the items of a list are read that stand in an order, with what was read before the list.
pub trait InOrder {
    /// What an item is read as.
    type Item: Drop;

    /// The fewest bytes that an item has.
    const LEAST_SIZE: usize;

    /// The item at the front of bytes, where the item before it leaves this least number; 0 at the first.
    ghost item_at: { Self → ℕ → Reader Self.Item };

    /// The least number that an item leaves for the one behind it.
    ghost after: { Self → Self.Item → ℕ };

    /// The item at the front of the bytes, and the bytes behind it.
    fn item<'a>(&self, alloc: Global, least: u32, bytes: &'a [u8]) -> Read<'a, Self::Item>
        ensures { Gives (λ x. (x.0, x.1.now)) result (item_at self.now least bytes.now) };

    /// The least number for the item behind.
    fn least_after(&self, item: &Self::Item) -> u32
        ensures { result ≡ after self.now item.now };
}

/// How many items of that size are to be made room for: no more than the bytes may have, whatever the count says.
fn room_for(count: u64, size: usize, bytes: &[u8]) -> usize
    ensures { result ≤ length bytes.now }
{
    count.min((bytes.len() / size.max(1)) as u64) as usize
}

/// Puts an item behind others.
pub fn put<T: Drop>(items: &mut Vec<T>, item: T) -> Result<(), AllocError>
    ensures { OnOk result (items.new.items ≡ items.old.items ++ item ∷ []) }
{
    items.push(item)?;
    Ok(())
}

/// That many items at the front of the bytes, and the bytes behind them.
pub fn items_of<'a, L: InOrder>(
    alloc: Global,
    list: &L,
    count: u64,
    bytes: &'a [u8],
) -> Read<'a, Sequence<L::Item>>
    ensures read { Gives (λ x. (x.0, x.1.now)) result (items_at (L.item_at list.now) (L.after list.now) 0 count bytes.now) }
    ensures all { IfOk result (λ x. length x.0 ≡ count) }
{
    let room = room_for(count, L::LEAST_SIZE, bytes);
    let mut items = Vec::with_capacity(alloc, room)?;
    let mut rest = bytes;
    let mut least = 0;
    for _ in 0..count {
        let (item, behind) = list.item(alloc, least, rest)?;
        least = list.least_after(&item);
        put(&mut items, item)?;
        rest = behind;
    }
    Ok((Sequence::from_vec(items), rest))
}

// ---- items in none

/// What is read one behind the other in no order, with what was read before the list.
pub trait Item<G>: Drop {
    /// The fewest bytes that it has.
    const LEAST_SIZE: usize;

    /// The item at the front of bytes.
    ghost item_at: { G → Reader Self };

    /// The item at the front of the bytes, and the bytes behind it.
    fn read(alloc: Global, given: G, bytes: &[u8]) -> Read<Self>
        ensures { Gives (λ x. (x.0, x.1.now)) result (item_at given bytes.now) };
}

/// Such items, as if they stood in an order that asks nothing.
#[derive(Drop)]
struct InNoOrder<G, T> {
    given: G,
    of: PhantomData<T>,
}

impl<G: Copy, T: Item<G>> InOrder for InNoOrder<G, T> {
    type Item = T;

    const LEAST_SIZE: usize = T::LEAST_SIZE;

    ghost item_at = { λ list _. T.item_at list.given };

    ghost after = { λ _ _. 0 };

    fn item<'a>(&self, alloc: Global, _least: u32, bytes: &'a [u8]) -> Read<'a, T> {
        T::read(alloc, self.given, bytes)
    }

    fn least_after(&self, _item: &T) -> u32 {
        0
    }
}

/// That many items in no order.
pub fn list_of<G: Copy, T: Item<G>>(
    alloc: Global,
    given: G,
    count: u64,
    bytes: &[u8],
) -> Read<Sequence<T>>
    ensures read { Gives (λ x. (x.0, x.1.now)) result (list_at (T.item_at given) count bytes.now) }
    ensures all { IfOk result (λ x. length x.0 ≡ count) }
{
    let list: InNoOrder<G, T> = InNoOrder {
        given,
        of: PhantomData,
    };
    items_of(alloc, &list, count, bytes)
}

/// Items in no order behind their count, of one byte.
pub fn list8_of<G: Copy, T: Item<G>>(alloc: Global, given: G, bytes: &[u8]) -> Read<Sequence<T>>
    ensures read { Gives (λ x. (x.0, x.1.now)) result (listed byte_at (list_at (T.item_at given)) bytes.now) }
    ensures few { IfOk result (λ x. length x.0 < 256) }
{
    let (count, rest) = byte_of(bytes)?;
    list_of(alloc, given, count as u64, rest)
}

/// The same behind a count of two bytes.
pub fn list16_of<G: Copy, T: Item<G>>(alloc: Global, given: G, bytes: &[u8]) -> Read<Sequence<T>>
    ensures read { Gives (λ x. (x.0, x.1.now)) result (listed (number_at 2) (list_at (T.item_at given)) bytes.now) }
    ensures few { IfOk result (λ x. length x.0 < 65536) }
{
    let (count, rest) = two_of(bytes)?;
    list_of(alloc, given, count as u64, rest)
}

/// The same behind a count of four bytes.
pub fn list32_of<G: Copy, T: Item<G>>(alloc: Global, given: G, bytes: &[u8]) -> Read<Sequence<T>>
    ensures { Gives (λ x. (x.0, x.1.now)) result (listed (number_at 4) (list_at (T.item_at given)) bytes.now) }
{
    let (count, rest) = four_of(bytes)?;
    list_of(alloc, given, count as u64, rest)
}

// ---- lists and others behind one another

/// That the items of a list stand behind their count, of one byte.
#[derive(Clone, Copy)]
pub struct Count8;

impl<T: Item<()>> Item<Count8> for Sequence<T> {
    const LEAST_SIZE: usize = 1;

    ghost item_at = { λ _. listed byte_at (list_at (T.item_at tt)) };

    fn read(alloc: Global, _given: Count8, bytes: &[u8]) -> Read<Sequence<T>> {
        list8_of(alloc, (), bytes)
    }
}

/// That they stand behind one of four bytes.
#[derive(Clone, Copy)]
pub struct Count32;

impl<T: Item<()>> Item<Count32> for Sequence<T> {
    const LEAST_SIZE: usize = 4;

    ghost item_at = { λ _. listed (number_at 4) (list_at (T.item_at tt)) };

    fn read(alloc: Global, _given: Count32, bytes: &[u8]) -> Read<Sequence<T>> {
        list32_of(alloc, (), bytes)
    }
}

/// Three things, one behind the other.
pub fn three_of<F: Copy, G: Copy, H: Copy, A: Item<F>, B: Item<G>, C: Item<H>>(
    alloc: Global,
    first: F,
    second: G,
    third: H,
    bytes: &[u8],
) -> Read<(A, (B, C))>
    ensures { Gives (λ x. ((x.0.0, (x.0.1.0, x.0.1.1)), x.1.now)) result ((A.item_at first ⊗ B.item_at second ⊗ C.item_at third) bytes.now) }
{
    let (first, rest) = A::read(alloc, first, bytes)?;
    let (second, rest) = B::read(alloc, second, rest)?;
    let (third, rest) = C::read(alloc, third, rest)?;
    Ok(((first, (second, third)), rest))
}
