//! Lists that are made of others.

ghost use Rattle.std.specs.Prelude.{◌≡◌, ◌++◌, ◌∷◌, [], All, IfOk, IsOk, OnOk, map};

use rmt_bits::sequence::Sequence;
use std::alloc::{AllocError, Global};

/// A kind of part of a program, which items of a text mean beside what all of them share.
pub trait Build<C, T>: Drop {
    ghost fits: { C → T → Type 0 };

    ghost meant: { C → T → Self };

    /// The part that an item means.
    fn build(alloc: Global, shared: &C, item: &T) -> Result<Self, AllocError>
        requires { fits shared.now item.now }
        ensures { IfOk result (λ built. built ≡ meant shared.now item.now) };
}

/// Adds what was made, if anything, at the end of a list.
pub fn add<T: Drop>(list: &mut Sequence<T>, made: Result<T, AllocError>) -> Result<(), AllocError>
    ensures { OnOk result (IsOk made × IfOk made (λ item. list.new ≡ list.old ++ item ∷ [])) }
{
    list.push(made?)
}

/// What each of some items means.
pub fn mapped<C, T, U: Build<C, T>>(
    alloc: Global,
    shared: &C,
    items: &[T],
) -> Result<Sequence<U>, AllocError>
    requires { All (U.fits shared.now) items.now }
    ensures { IfOk result (λ built. built ≡ map (U.meant shared.now) items.now) }
{
    let mut built = Sequence::new(alloc);
    for item in items {
        add(&mut built, U::build(alloc, shared, item))?;
    }
    Ok(built)
}

/// The same, where what the items share is of no further use.
pub fn mapped_with<C: Drop, T, U: Build<C, T>>(
    alloc: Global,
    shared: C,
    items: &[T],
) -> Result<Sequence<U>, AllocError>
    requires { All (U.fits shared) items.now }
    ensures { IfOk result (λ built. built ≡ map (U.meant shared) items.now) }
{
    mapped(alloc, &shared, items)
}
