//! Keys that are loaded into tables of one part and of two.

ghost use Rattle.std.specs.Prelude.{◌≡◌, ◌<◌, ◌≤◌, ◌^◌, ◌∷◌, [], length, All, IfOk};
ghost use Rattle.rmt_cuckoo.specs.Loading.{cells_of};
ghost use Rattle.rmt_cuckoo.specs.declared.layout.Ways.{Ways};

use rmt_bits::answer::Numbers;
use rmt_bits::sequence::Sequence;
use rmt_cuckoo::fault::LoadFault;
use rmt_cuckoo::layout::{Keys, Layout, Ways};
use rmt_cuckoo::load;
use std::alloc::{AllocError, Global};
use std::test::*;

/// A table of one part.
fn one_part(alloc: Global, part: Ways) -> Result<Layout, AllocError>
    ensures { IfOk result (λ layout. layout ≡ part ∷ []) }
{
    let mut parts = Vec::new(alloc);
    parts.push(part)?;
    Ok(Sequence::from_vec(parts))
}

/// A table of two parts.
fn two_parts(alloc: Global, first: Ways, second: Ways) -> Result<Layout, AllocError>
    ensures { IfOk result (λ layout. layout ≡ first ∷ second ∷ []) }
{
    let mut parts = Vec::new(alloc);
    parts.push(first)?;
    parts.push(second)?;
    Ok(Sequence::from_vec(parts))
}

/// Keys of these bytes.
fn keys_of(alloc: Global, bytes: &[&[u8]]) -> Result<Keys, AllocError> {
    let mut keys = Vec::new(alloc);
    for key in bytes {
        let mut copy = Vec::new(alloc);
        copy.extend_from_slice(key)?;
        keys.push(Sequence::from_vec(copy))?;
    }
    Ok(Sequence::from_vec(keys))
}

/// The keys of one byte from 0 to `most` - 1.
fn short_keys(alloc: Global, most: u8) -> Result<Keys, AllocError> {
    let mut keys = Vec::new(alloc);
    for byte in 0..most {
        let mut key = Vec::new(alloc);
        key.push(byte)?;
        keys.push(Sequence::from_vec(key))?;
    }
    Ok(Sequence::from_vec(keys))
}

/// Loads fewer than 1,000 keys.
fn load_few(alloc: Global, layout: &Layout, keys: &Keys, seed: u8) -> Result<Numbers, LoadFault>
    requires parts { length layout.now ≤ 64 }
    requires rows { All (λ (part : Ways). 1 ≤ part.rows) layout.now }
    requires few_cells { cells_of layout.now < 2 ^ 32 }
{
    if keys.len() >= 1000 {
        return Err(LoadFault::NoMemory);
    }
    load(alloc, layout, keys, seed)
}

/// How many keys were loaded, and 0; or how many keys and cells an overfull list has.
fn told(answer: &Result<Numbers, LoadFault>) -> Option<(usize, u64)> {
    match answer {
        Ok(cells) => Some((cells.len(), 0)),
        Err(LoadFault::Overfull { members, cells }) => Some((members.len(), *cells)),
        Err(_) => None,
    }
}

/// What comes of loading the keys of one byte from 0 to `most` - 1.
fn of_short_keys(alloc: Global, layout: &Layout, most: u8, seed: u8) -> Option<(usize, u64)>
    requires parts { length layout.now ≤ 64 }
    requires rows { All (λ (part : Ways). 1 ≤ part.rows) layout.now }
    requires few_cells { cells_of layout.now < 2 ^ 32 }
{
    match short_keys(alloc, most) {
        Ok(keys) => told(&load_few(alloc, layout, &keys, seed)),
        Err(_) => None,
    }
}

/// One row of one cell in each of four ways: without a key there is nothing to load, 4 keys load under every seed, and 5 have
/// 4 cells.
#[test]
fn four_cells_hold_four_keys(rt: HostRuntime) -> Result<(), Fail> {
    let layout = one_part(rt.alloc(), Ways { rows: 1, per: 1 })?;
    for seed in 0..=255 {
        for &(most, wanted) in &[(0, (0, 0)), (4, (4, 0)), (5, (5, 4))] {
            let got = of_short_keys(rt.alloc(), &layout, most, seed);
            assert!(rt; got == Some(wanted), "{most} keys under seed {seed}");
        }
    }
    Ok(())
}

/// Parts of 1 and 3 cells a row, with one row a way: 4 + 12 cells for all keys.
#[test]
fn two_parts_share_the_keys(rt: HostRuntime) -> Result<(), Fail> {
    let layout = two_parts(
        rt.alloc(),
        Ways { rows: 1, per: 1 },
        Ways { rows: 1, per: 3 },
    )?;
    for &(most, wanted) in &[(16, (16, 0)), (17, (17, 16))] {
        let got = of_short_keys(rt.alloc(), &layout, most, 0);
        assert!(rt; got == Some(wanted), "{most} keys");
    }
    Ok(())
}

/// The rows of each way, which have one cell, keys, and what comes of loading them under seed 0.
const KEYS: [(u32, &[&[u8]], (usize, u64)); 3] = [
    // keys 4 apart have one row in each way: 639, 895, 127 and 383 of 1,024
    (1024, &[&[0, 0], &[0, 4], &[0, 8], &[0, 12]], (4, 0)),
    (
        1024,
        &[&[0, 0], &[0, 4], &[0, 8], &[0, 12], &[0, 16]],
        (5, 4),
    ),
    // these keys have, in this order, the cells 0 3 4 7, 0 2 5 7, 0 2 4 6, 1 3 4 6, 0 2 4 7 and 1 2 4 7: where each takes its
    // first free cell (0, 2, 4, 1, 7) none is left for the last, so keys move
    (
        2,
        &[
            &[12, 2, 0, 0, 0, 0],
            &[4, 9, 0, 0, 0, 0],
            &[2, 2, 0, 0, 0, 0],
            &[4, 11, 0, 0, 0, 0],
            &[8, 1, 0, 0, 0, 0],
            &[1, 9, 0, 0, 0, 0],
        ],
        (6, 0),
    ),
];

#[test]
fn keys_share_cells_and_move(rt: HostRuntime) -> Result<(), Fail> {
    for &(rows, bytes, wanted) in &KEYS {
        assert!(rt; 1 <= rows && rows <= 1024);
        let layout = one_part(rt.alloc(), Ways { rows, per: 1 })?;
        let keys = keys_of(rt.alloc(), bytes)?;
        let got = told(&load_few(rt.alloc(), &layout, &keys, 0));
        assert!(rt; got == Some(wanted));
    }
    Ok(())
}
