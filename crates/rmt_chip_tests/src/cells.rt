//! Linked cells: the worked row, bytes at the edges of a cell, and chains that are put and given back in any order.

ghost use Rattle.std.specs.Prelude.{ℕ, ◌<◌, ◌≤◌, length, map, OnOk, vec_len};
ghost use Rattle.rmt_chip_tests.specs.declared.cells.Kept.{Kept as KeptOf};
ghost use Rattle.rmt_cells.specs.Stands.{Stands};

use rmt_cells::cells::{Cells, Chain};
use std::alloc::{AllocError, Global};
use std::process::Abort;
use std::test::*;

/// A chain, and the bytes that were put.
#[derive(Drop)]
struct Kept {
    chain: Chain,
    bytes: Vec<u8>,
}

/// What is done.
#[derive(Clone, Copy)]
enum Change {
    /// Rising bytes are put: the first of them, and how many.
    Put(u8, u8),
    /// The chain of this place is given back; the one that was put last is at 0.
    Back(usize),
}

/// Puts bytes; false where there is no room.
fn put(cells: &mut Cells, kept: &mut Vec<Kept>, bytes: Vec<u8>) -> Result<bool, AllocError>
    requires some { 0 < length bytes.items }
    requires stands { (count : ℕ) × Stands count (map (λ (k : KeptOf). record { chain = k.chain; bytes = k.bytes.items }) kept.old.items) cells.old }
    ensures { OnOk result ((count : ℕ) → Stands count (map (λ (k : KeptOf). record { chain = k.chain; bytes = k.bytes.items }) kept.old.items) cells.old →
        Stands count (map (λ (k : KeptOf). record { chain = k.chain; bytes = k.bytes.items }) kept.new.items) cells.new) }
{
    match cells.put(bytes.as_slice()) {
        Ok(chain) => {
            kept.insert(0, Kept { chain, bytes })?;
            Ok(true)
        }
        Err(_) => Ok(false),
    }
}

/// Gives a chain back.
fn back(cells: &mut Cells, kept: &mut Vec<Kept>, place: usize)
    requires inside { place < vec_len kept.old }
    requires stands { (count : ℕ) × Stands count (map (λ (k : KeptOf). record { chain = k.chain; bytes = k.bytes.items }) kept.old.items) cells.old }
    ensures { (count : ℕ) → Stands count (map (λ (k : KeptOf). record { chain = k.chain; bytes = k.bytes.items }) kept.old.items) cells.old →
        Stands count (map (λ (k : KeptOf). record { chain = k.chain; bytes = k.bytes.items }) kept.new.items) cells.new }
{
    let Kept { chain, .. } = kept.remove(place);
    cells.give_back(chain);
}

/// The bytes of a chain from a place on, or none where it has fewer.
fn rest(
    alloc: Global,
    cells: &Cells,
    kept: &[Kept],
    place: usize,
    at: u32,
) -> Result<Vec<u8>, AllocError>
    requires inside { place < length kept.now }
    requires stands { (count : ℕ) × Stands count (map (λ (k : KeptOf). record { chain = k.chain; bytes = k.bytes.items }) kept.now) cells.now }
{
    let one = &kept[place];
    let len = one.bytes.len();
    if at as usize > len {
        return Ok(Vec::new(alloc));
    }
    let mut into = vec![in alloc; 0u8; len - at as usize]?;
    cells.read(&one.chain, at, into.as_mut_slice());
    Ok(into)
}

/// Whether each chain reads as the bytes that were put, as a whole and from places at the edges of cells.
fn all_read(alloc: Global, cells: &Cells, kept: &[Kept]) -> Result<bool, AllocError>
    requires { (count : ℕ) × Stands count (map (λ (k : KeptOf). record { chain = k.chain; bytes = k.bytes.items }) kept.now) cells.now }
{
    for place in 0..kept.len() {
        for &at in &[0, 1, 63, 64, 65, 127, 128, 192] {
            let read = rest(alloc, cells, kept, place, at)?;
            let bytes = kept[place].bytes.as_slice();
            let wanted = bytes.get(at as usize..).unwrap_or(&[]);
            if read.as_slice() != wanted {
                return Ok(false);
            }
        }
    }
    Ok(true)
}

/// Bytes that rise from a first one.
fn bytes_from(alloc: Global, first: u8, len: u8) -> Result<Vec<u8>, AllocError> {
    let mut bytes = Vec::new(alloc);
    for number in 0..len {
        bytes.push(first.wrapping_add(number))?;
    }
    Ok(bytes)
}

/// Does a change.
fn act(
    rt: &impl Abort,
    alloc: Global,
    cells: &mut Cells,
    kept: &mut Vec<Kept>,
    step: Change,
) -> Result<(), AllocError>
    requires { (count : ℕ) × Stands count (map (λ (k : KeptOf). record { chain = k.chain; bytes = k.bytes.items }) kept.old.items) cells.old }
    ensures { OnOk result ((count : ℕ) → Stands count (map (λ (k : KeptOf). record { chain = k.chain; bytes = k.bytes.items }) kept.old.items) cells.old →
        Stands count (map (λ (k : KeptOf). record { chain = k.chain; bytes = k.bytes.items }) kept.new.items) cells.new) }
{
    match step {
        Change::Put(first, len) => {
            let bytes = bytes_from(alloc, first, len)?;
            assert!(rt; !bytes.is_empty());
            put(cells, kept, bytes)?;
            Ok(())
        }
        Change::Back(place) => {
            assert!(rt; place < kept.len());
            back(cells, kept, place);
            Ok(())
        }
    }
}

/// A change, and how many cells are free behind it.
type Row = (Change, u32);

/// Does changes over so many cells; behind each so many are free, and every chain reads as its bytes.
fn run(rt: &impl Abort, alloc: Global, count: u32, rows: &[Row]) -> Result<(), Fail>
    requires some { 1 ≤ count }
    requires few { count ≤ 65536 }
{
    let mut cells = Cells::new(alloc, count)?;
    let mut kept = Vec::new(alloc);
    for (step, free) in rows {
        act(rt, alloc, &mut cells, &mut kept, *step)?;
        assert!(rt; cells.free() == *free);
        assert!(rt; all_read(alloc, &cells, kept.as_slice())?);
    }
    Ok(())
}

const TWO_CELLS: [Row; 3] = [
    (Change::Put(0, 128), 0),
    (Change::Put(9, 1), 0),
    (Change::Back(0), 2),
];

#[test]
fn two_cells(rt: HostRuntime) -> Result<(), Fail> {
    run(&rt, rt.alloc(), 2, &TWO_CELLS)
}

#[test]
fn given_back_in_any_order(rt: HostRuntime) -> Result<(), Fail> {
    for first in 0..3 {
        for second in 0..2 {
            let rows = [
                (Change::Put(0, 64), 2),
                (Change::Put(100, 1), 1),
                (Change::Put(200, 63), 0),
                (Change::Put(7, 1), 0),
                (Change::Back(first), 1),
                (Change::Back(second), 2),
                (Change::Back(0), 3),
                (Change::Put(50, 192), 0),
                (Change::Back(0), 3),
            ];
            run(&rt, rt.alloc(), 3, &rows)?;
        }
    }
    Ok(())
}

const EDGES_OF_CELLS: [Row; 13] = [
    (Change::Put(1, 65), 2),
    (Change::Put(2, 64), 1),
    (Change::Put(3, 65), 1), // two cells are needed, and one is free
    (Change::Back(1), 3),
    (Change::Put(4, 129), 0),
    (Change::Back(1), 1),
    (Change::Put(5, 63), 0),
    (Change::Back(1), 3),
    (Change::Put(6, 128), 1),
    (Change::Put(7, 1), 0),
    (Change::Back(2), 1),
    (Change::Back(0), 2),
    (Change::Back(0), 4),
];

#[test]
fn edges_of_cells(rt: HostRuntime) -> Result<(), Fail> {
    run(&rt, rt.alloc(), 4, &EDGES_OF_CELLS)
}
