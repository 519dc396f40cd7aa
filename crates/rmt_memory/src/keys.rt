//! Where the keys of a slot stand.

ghost use Rattle.std.specs.Prelude.{◌≤◌, length, None, Some, if◌then◌else◌};
ghost use Rattle.rmt_bits.specs.Bits.{number_of};
ghost use Rattle.rmt_memory.specs.KeysWithin.{HasRowAt, KeysSet, compared_in};
ghost use Rattle.rmt_memory.specs.Sights.{seen_by};

use crate::sliced::Sliced;
use crate::ternary::put_row;
use rmt_config::part_ways::PartWays;

/// Where the keys of a slot stand.
#[derive(Drop)]
pub enum Keys {
    /// Of a slot without memory, and of a gate.
    Nothing,
    /// In the cells of an exact part, by the rows of its four ways.
    InCells(PartWays),
    /// In vectors of bits, which have one for each row of a ternary part.
    InVectors(Sliced),
}

/// Puts the key of a cell where it doesn't stand in the cell itself; sights show it by its head. It takes no memory.
pub fn put_key(keys: &mut Keys, at: usize, head: u8, key: &[u8], mask: &[u8])
    requires row { HasRowAt keys.old at }
    requires key { length key.now ≤ 80 }
    requires mask { length mask.now ≤ 80 }
    ensures { KeysSet at (λ words sight. if seen_by sight head then Some (compared_in words (number_of mask.now) (number_of key.now)) else None) keys.old keys.new }
{
    if let Keys::InVectors(sliced) = keys {
        put_row(sliced, at, head, key, mask);
    }
}

/// Takes the key of a cell away from every sight where it doesn't stand in the cell itself. It takes no memory.
pub fn hide_key(keys: &mut Keys, at: usize)
    requires row { HasRowAt keys.old at }
    ensures { KeysSet at (λ words sight. None) keys.old keys.new }
{
    if let Keys::InVectors(sliced) = keys {
        sliced.hide(at);
    }
}
