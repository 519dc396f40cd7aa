//! That no key of a list stands twice: by prints of the keys, and key by key only where two prints are the same.

ghost use Rattle.std.specs.Prelude.{◌≡◌, ◌+◌, ◌*◌, ◌≤◌, ◌++◌, ℕ, List, [], IfOk, OnOk, length, true};
ghost use Rattle.rmt_config.specs.Cells.{blocks_at};
ghost use Rattle.rmt_config.specs.KeyPrints.{NumberKnown, kept_of, kept_of_keys, print, spread as spread_of};
ghost use Rattle.rmt_config.specs.KeysSeen.{news};
ghost use Rattle.rmt_config.specs.Order.{are_new, rises_from};

use crate::form::names::repeats::may_repeat;
use rmt_bits::hash::fnv;
use std::alloc::{AllocError, Global};
use std::collections::BTreeSet;

/// Whether each print is above the one before it.
fn rise(prints: &[u64]) -> bool
    ensures { result ≡ rises_from 0 prints.now }
{
    let mut least: u128 = 0;
    for print in prints {
        if u128::from(*print) < least {
            return false;
        }
        least = u128::from(*print) + 1;
    }
    true
}

/// Whether no number stands twice. Only those that may are sorted.
pub fn all_differ(alloc: Global, numbers: &[u64]) -> Result<bool, AllocError>
    ensures { IfOk result (λ differ. differ ≡ are_new [] numbers.now) }
{
    let mut some = may_repeat(alloc, numbers)?;
    some.sort_unstable();
    Ok(rise(some.as_slice()))
}

/// Adds bytes as numbers.
fn put_bytes(into: &mut Vec<u64>, bytes: &[u8]) -> Result<(), AllocError>
    ensures { OnOk result (into.new.items ≡ into.old.items ++ bytes.now) }
{
    for byte in bytes {
        into.push(u64::from(*byte))?;
    }
    Ok(())
}

/// The print of a number: the halves of its product with a constant, one on the other. So the low bits of prints are
/// spread evenly, whether numbers differ in their low bits or in their high ones.
fn spread(number: u64) -> u64
    ensures { result ≡ spread_of number }
{
    let product = u128::from(number) * 11400714819323198485;
    (product % (1 << 64)) as u64 ^ (product >> 64) as u64
}

/// The print of a key of these bytes, of which the number is known exactly where they are at most 8.
fn print_of(bytes: &[u8], number: Option<u64>) -> u64
    requires { NumberKnown bytes.now number }
    ensures { result ≡ print bytes.now }
{
    match number {
        Some(number) => spread(number),
        None => fnv(bytes),
    }
}

/// Adds what is kept of a key of these bytes, of which the number is known exactly where they are at most 8: all of them,
/// or their print.
pub fn put_kept(
    into: &mut Vec<u64>,
    whole: bool,
    bytes: &[u8],
    number: Option<u64>,
) -> Result<(), AllocError>
    requires { NumberKnown bytes.now number }
    ensures { OnOk result (into.new.items ≡ into.old.items ++ kept_of whole bytes.now) }
{
    if whole {
        put_bytes(into, bytes)?;
    } else {
        into.push(print_of(bytes, number))?;
    }
    Ok(())
}

/// The bytes of the key at a place, where each has so many.
fn key_at(keys: &[u64], size: u64, at: u64) -> &[u64]
    requires { (at + 1) * size ≤ length keys.now }
    ensures { result.now ≡ blocks_at keys.now size at }
{
    let from = (at * size) as usize;
    &keys[from..from + size as usize]
}

/// Whether no key stands twice among the bytes of keys, of which there are so many, of `size` bytes each. The time is
/// that of an ordered set of them.
pub fn each_is_new(alloc: Global, keys: &[u64], size: u64, count: u64) -> Result<bool, AllocError>
    requires { length keys.now ≡ count * size }
    ensures { IfOk result (λ new. (ks : List ℕ) → keys.now ≡ kept_of_keys true size ks → length ks ≡ count → new ≡ news size [] ks) }
{
    let mut seen = BTreeSet::new(alloc);
    for at in 0..count {
        let key = key_at(keys, size, at).to_vec(alloc)?;
        if !seen.insert(key)? {
            return Ok(false);
        }
    }
    Ok(true)
}
