//! Items that are stored in cells.

ghost use Rattle.std.specs.Prelude.{◌≡◌, ℕ, ◌+◌, ◌*◌, ◌<◌, ◌≤◌, ◌^◌, ◌++◌, ◌∷◌, [], List, length, take, replicate, Contains, IfOk, Some, None, vec_len, vec_capacity};
ghost use Rattle.std.specs.List.{range_with_len};
ghost use Rattle.rmt_cells.specs.declared.cells.Chain.{Chain as ChainOf};
ghost use Rattle.rmt_cells.specs.Stands.{Held, Stands as CellsStand, held_if};
ghost use Rattle.rmt_queues.specs.Stored.{no_item};

use rmt_cells::cells::{Cells, Chain};
use std::alloc::{AllocError, Global};

/// An item that is stored, or no item: then only `chain` counts.
#[derive(Drop)]
pub struct Stored {
    /// Its chain of cells; none where no item is stored here.
    pub chain: Option<Chain>,
    /// How many bytes it has, 1 to 13,320.
    pub len: u32,
    /// How many copies of it stand, 1 to 512.
    pub copies: u16,
}

/// Room for so many items, of which none is stored.
pub fn no_items(alloc: Global, count: u32) -> Result<Vec<Stored>, AllocError>
    ensures { IfOk result (λ stored. stored.items ≡ replicate count no_item) }
{
    let mut stored = Vec::with_capacity(alloc, count as usize)?;
    for _index in 0..count {
        stored.push(Stored {
            chain: None,
            len: 0,
            copies: 0,
        })?;
    }
    Ok(stored)
}

/// The numbers from 0 on, so many of them.
pub fn all_spare(alloc: Global, count: u32) -> Result<Vec<u32>, AllocError>
    ensures numbers { IfOk result (λ spare. spare.items ≡ range_with_len 0 count) }
    ensures room { IfOk result (λ spare. count ≤ vec_capacity spare) }
{
    let mut spare = Vec::with_capacity(alloc, count as usize)?;
    for index in 0..count {
        spare.push_reserved(index);
    }
    Ok(spare)
}

/// Reads an item's bytes to the front of a slice, and answers how many they are.
pub fn read(cells: &Cells, stored: &Stored, into: &mut [u8]) -> u32
    requires held { (held : List Held) × (chain : ChainOf) × (bytes : List ℕ) × CellsStand 65536 held cells.now ×
        Contains held (record { chain = chain; bytes = bytes }) × (stored.now.chain ≡ Some chain) × (stored.now.len ≡ length bytes) × (length bytes ≤ length into.old) }
    ensures len { result ≡ stored.now.len }
    ensures bytes { (held : List Held) → (chain : ChainOf) → (bytes : List ℕ) → CellsStand 65536 held cells.now →
        Contains held (record { chain = chain; bytes = bytes }) → stored.now.chain ≡ Some chain → stored.now.len ≡ length bytes → take result into.new ≡ bytes }
{
    let len = stored.len;
    match &stored.chain {
        Some(chain) => cells.read(chain, 0, &mut into[..len as usize]),
        None => {}
    }
    len
}

/// Gives the cells of a chain back.
pub fn give_back(cells: &mut Cells, chain: Option<Chain>)
    requires { (front : List Held) × (back : List Held) × (bytes : List ℕ) × CellsStand 65536 (front ++ (held_if chain bytes ++ back)) cells.old }
    ensures { (front back : List Held) (bytes : List ℕ) →
        CellsStand 65536 (front ++ (held_if chain bytes ++ back)) cells.old → CellsStand 65536 (front ++ back) cells.new }
{
    if let Some(chain) = chain {
        cells.give_back(chain);
    }
}
