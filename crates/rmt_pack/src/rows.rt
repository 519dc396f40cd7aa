//! The rows of a stage's SRAM blocks.

ghost use Rattle.std.specs.Prelude.{◌≡◌, ◌<◌, ◌^◌, ◌*◌, ℕ, All, IfOk, slice_index, vec_len};

use crate::fault::PackFault;
use std::alloc::{AllocError, Global};

/// How many SRAM blocks a stage has; they are numbered from 0.
pub const BLOCKS: u8 = 106;

/// How many rows an SRAM block has; they are numbered from 0.
pub const BLOCK_ROWS: u16 = 1024;

/// The 1,024 rows, of 112 bits each, of each of a stage's 106 SRAM blocks.
#[derive(Drop, Debug)]
pub struct Rows {
    bits: Vec<u128>,
    pub ghost whole: { vec_len bits ≡ 108544 },
    pub ghost within: { All (λ row. row < 2 ^ 112) bits.items },
}

/// That many rows that are 0.
fn zeros(alloc: Global, many: usize) -> Result<Vec<u128>, AllocError>
    ensures len { IfOk result (λ v. vec_len v ≡ many) }
    ensures zero { IfOk result (λ v. (k : ℕ) → slice_index v.items k ≡ 0) }
{
    vec![in alloc; 0; many]
}

impl Rows {
    ghost use Rattle.rmt_pack.specs.Rows.{blocks_of};

    /// Rows that are all 0. Takes all their memory; fails only without memory.
    pub fn new(alloc: Global) -> Result<Rows, PackFault>
        ensures { IfOk result (λ rows. (block row : ℕ) → blocks_of rows block row ≡ 0) }
    {
        let bits = zeros(alloc, BLOCKS as usize * BLOCK_ROWS as usize)?;
        Ok(Rows { bits })
    }

    /// The 112 bits of one row, below 1,024, of one block, below 106.
    pub fn row(&self, block: u8, row: u16) -> u128
        requires block { block < 106 }
        requires row { row < 1024 }
        ensures value { result ≡ blocks_of self.now block row }
        ensures within { result < 2 ^ 112 }
    {
        self.bits[block as usize * BLOCK_ROWS as usize + row as usize]
    }

    /// Replaces one row, below 1,024, of one block, below 106, by 112 bits.
    pub fn set_row(&mut self, block: u8, row: u16, bits: u128)
        requires block { block < 106 }
        requires row { row < 1024 }
        requires bits { bits < 2 ^ 112 }
        ensures row { blocks_of self.new block row ≡ bits }
        ensures others { (b r : ℕ) → (b ≡ block → r ≡ row → ⊥) → blocks_of self.new b r ≡ blocks_of self.old b r }
    {
        self.bits[block as usize * BLOCK_ROWS as usize + row as usize] = bits;
    }
}
