//! The rows of a stage's TCAM blocks.

ghost use Rattle.std.specs.Prelude.{◌≡◌, ◌<◌, ◌*◌, ◌^◌, ℕ, All, IfOk, bit_and, slice_index, vec_len};

use rmt_pack::tcam::TcamWord;
use std::alloc::{AllocError, Global};

/// How many TCAM blocks a stage has; they are numbered from 0.
pub const BLOCKS: u8 = 16;

/// How many rows a TCAM block has; they are numbered from 0.
pub const BLOCK_ROWS: u16 = 2048;

/// The 2,048 rows, of 40 bits with their masks, of each of a stage's 16 TCAM blocks.
#[derive(Drop)]
pub struct TcamRows {
    values: Vec<u64>,
    masks: Vec<u64>,
    pub ghost values_whole: { vec_len values ≡ 32768 },
    pub ghost masks_whole: { vec_len masks ≡ 32768 },
    pub ghost values_within: { All (λ v. v < 2 ^ 40) values.items },
    pub ghost masks_within: { All (λ m. m < 2 ^ 40) masks.items },
    pub ghost masked: { (k : ℕ) → bit_and (slice_index values.items k) (slice_index masks.items k) ≡ slice_index values.items k },
}

/// That many numbers that are 0.
fn zeros(alloc: Global, many: usize) -> Result<Vec<u64>, AllocError>
    ensures len { IfOk result (λ v. vec_len v ≡ many) }
    ensures zero { IfOk result (λ v. (k : ℕ) → slice_index v.items k ≡ 0) }
{
    vec![in alloc; 0; many]
}

impl TcamRows {
    ghost use Rattle.rmt_filling.specs.Listing.{values_of, masks_of};

    /// Rows that are all 0.
    pub fn new(alloc: Global) -> Result<TcamRows, AllocError>
        ensures values { IfOk result (λ rows. (block row : ℕ) → values_of rows block row ≡ 0) }
        ensures masks { IfOk result (λ rows. (block row : ℕ) → masks_of rows block row ≡ 0) }
    {
        let values = zeros(alloc, BLOCKS as usize * BLOCK_ROWS as usize)?;
        let masks = zeros(alloc, BLOCKS as usize * BLOCK_ROWS as usize)?;
        Ok(TcamRows { values, masks })
    }

    /// Replaces one row, below 2,048, of one block, below 16.
    pub fn set_row(&mut self, block: u8, row: u16, word: TcamWord)
        requires block { block < 16 }
        requires row { row < 2048 }
        requires value { word.value < 2 ^ 40 }
        requires mask { word.mask < 2 ^ 40 }
        requires masked { bit_and word.value word.mask ≡ word.value }
        ensures value { values_of self.new block row ≡ word.value }
        ensures mask { masks_of self.new block row ≡ word.mask }
        ensures other_values { (b r : ℕ) → (b ≡ block → r ≡ row → ⊥) → values_of self.new b r ≡ values_of self.old b r }
        ensures other_masks { (b r : ℕ) → (b ≡ block → r ≡ row → ⊥) → masks_of self.new b r ≡ masks_of self.old b r }
    {
        let at = block as usize * BLOCK_ROWS as usize + row as usize;
        self.values[at] = word.value;
        self.masks[at] = word.mask;
    }

    /// One row, below 2,048, of one block, below 16.
    pub fn row(&self, block: u8, row: u16) -> TcamWord
        requires block { block < 16 }
        requires row { row < 2048 }
        ensures value { result.value ≡ values_of self.now block row }
        ensures mask { result.mask ≡ masks_of self.now block row }
        ensures value_within { result.value < 2 ^ 40 }
        ensures mask_within { result.mask < 2 ^ 40 }
        ensures masked { bit_and result.value result.mask ≡ result.value }
    {
        let at = block as usize * BLOCK_ROWS as usize + row as usize;
        TcamWord {
            value: self.values[at],
            mask: self.masks[at],
        }
    }
}
