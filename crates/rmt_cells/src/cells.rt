//! Chains of cells: put, read and given back.

ghost use Rattle.std.specs.Prelude.{◌≡◌, ℕ, ◌+◌, ◌*◌, ◌<◌, ◌≤◌, ◌^◌, ◌↔◌, ◌∷◌, ◌++◌, [], List, length, take, drop, Contains, IfOk, OnErr, IsErr, IsErrOf};
ghost use Rattle.std.specs.List.Sorted.{IsPermutation};
ghost use Rattle.rmt_cells.specs.declared.cells.Cells.{Cells as CellsOf};
ghost use Rattle.rmt_cells.specs.Pieces.{cells_for};
ghost use Rattle.rmt_cells.specs.Stands.{Held, Stands, cells_held};

use crate::fault::{CellsFault, Full};
use crate::links::{after, in_a_row};
use crate::pieces::{Block, CELL, cell_count, read, write};
use rmt_bits::fault::OutOfMemory;
use std::alloc::Global;

/// A chain of cells that holds bytes: what `put` gives, and `give_back` takes.
#[derive(Debug, Drop)]
pub struct Chain {
    /// Its first cell.
    first: u32,
    /// How many bytes it holds.
    len: u32,
}

/// Cells of 64 bytes each. Those that are free, and those of each chain that was put and not given back, are linked by
/// index; only `new` takes memory.
#[derive(Drop)]
pub struct Cells {
    /// The bytes of each cell.
    blocks: Vec<Block>,
    /// The cell that comes after each cell, in its chain or among the free ones; nothing is said of the last.
    links: Vec<u32>,
    /// The first free cell.
    first: u32,
    /// How many cells are free.
    free: u32,
}

impl Cells {
    /// So many cells, 1 to 65,536, all free.
    ///
    /// # Errors
    ///
    /// For want of memory alone.
    pub fn new(alloc: Global, count: u32) -> Result<Cells, CellsFault>
        requires some { 1 ≤ count }
        requires few { count ≤ 65536 }
        ensures free { IfOk result (λ cells. Stands count [] cells) }
        ensures no_memory { OnErr result (IsErrOf result OutOfMemory.NoMemory) }
    {
        let links = in_a_row(alloc, count)?;
        let blocks = vec![in alloc; [0; CELL]; count as usize]?;
        Ok(Cells {
            blocks,
            links,
            first: 0,
            free: count,
        })
    }

    /// Puts bytes into free cells, which then are a chain.
    ///
    /// # Errors
    ///
    /// `Full`, and no change, exactly where the bytes need more cells than are free.
    pub fn put(&mut self, bytes: &[u8]) -> Result<Chain, Full>
        requires some { 0 < length bytes.now }
        requires stands { (count : ℕ) × (held : List Held) × Stands count held self.old }
        // The chain is held beside all those from before, each with its bytes.
        ensures stands { IfOk result (λ chain. (count : ℕ) → (held : List Held) → Stands count held self.old →
            Stands count (record { chain = chain; bytes = bytes.now } ∷ held) self.new) }
        ensures full { IsErr result ↔ (self.old.free < cells_for (length bytes.now)) }
        ensures kept { OnErr result (self.new ≡ self.old) }
    {
        let count = cell_count(bytes.len());
        if count > self.free as usize {
            return Err(Full);
        }
        let first = self.first;
        self.first = write(&mut self.blocks, self.links.as_slice(), first, bytes);
        self.free -= count as u32;
        Ok(Chain {
            first,
            len: bytes.len() as u32,
        })
    }

    /// Reads bytes of a chain, from a place in it on.
    pub fn read(&self, chain: &Chain, at: u32, into: &mut [u8])
        requires held { (count : ℕ) × (held : List Held) × (bytes : List ℕ) ×
            Stands count held self.now × Contains held (record { chain = chain.now; bytes = bytes }) × (at + length into.old ≤ length bytes) }
        // They are those that were put.
        ensures bytes { (count : ℕ) → (held : List Held) → (bytes : List ℕ) → Stands count held self.now →
            Contains held (record { chain = chain.now; bytes = bytes }) → at + length into.old ≤ length bytes →
            into.new ≡ take (length into.old) (drop at bytes) }
    {
        let blocks = self.blocks.as_slice();
        read(blocks, self.links.as_slice(), chain.first, at, into);
    }

    /// Gives the cells of a chain back: they are free.
    pub fn give_back(&mut self, chain: Chain)
        requires held { (count : ℕ) × (front : List Held) × (back : List Held) × (bytes : List ℕ) ×
            Stands count (front ++ record { chain = chain; bytes = bytes } ∷ back) self.old }
        // All other chains are held as before, each with its bytes.
        ensures stands { (count : ℕ) → (front back : List Held) → (bytes : List ℕ) →
            Stands count (front ++ record { chain = chain; bytes = bytes } ∷ back) self.old → Stands count (front ++ back) self.new }
    {
        let count = cell_count(chain.len as usize) as u32;
        let last = after(self.links.as_slice(), chain.first, count - 1);
        self.links[last as usize] = self.first;
        self.first = chain.first;
        self.free += count;
    }

    /// How many cells are free: all but those of the chains that are held.
    pub fn free(&self) -> u32
        ensures free { result ≡ self.now.free }
        ensures others { (count : ℕ) → (held : List Held) → Stands count held self.now → result + cells_held held ≡ count }
    {
        self.free
    }
}

/// The chains that are held may be listed in any order.
pub fn any_order()
    ensures { (count : ℕ) (held other : List Held) (cells : CellsOf) → Stands count held cells → IsPermutation held other → Stands count other cells }
{}
