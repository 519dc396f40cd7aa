//! Runs of bits in a row of blocks side by side.

ghost use Rattle.std.specs.Prelude.{◌≡◌, ◌≢◌, ℕ, ◌+◌, ◌-◌, ◌*◌, ◌/◌, ◌%◌, ◌^◌, ◌<◌, ◌≤◌, length, replicate, All, AllPairs};
ghost use Rattle.rmt_bits.specs.Bits.{slice as slice_of, deposit as deposit_of, number_of, bytes_of};
ghost use Rattle.rmt_config.specs.BlockCounts.{divided_up};
ghost use Rattle.rmt_config.specs.Cells.{unit_row};
ghost use Rattle.rmt_pack.specs.Rows.{blocks_of};
ghost use Rattle.rmt_pack.specs.Cells.{PutsBits};

use crate::rows::Rows;
use rmt_bits::bits::{bits_of_bytes, bytes_of_bits, deposit, slice};

/// The part of a run that lies in one block: `len` bits from the bit `low` up of the block at a place.
#[derive(Clone, Copy)]
struct Piece {
    block: usize,
    low: u8,
    len: u8,
}

/// The part in the last block of a run of `left` bits that begins at the bit `low` of a row of blocks.
fn last_piece(low: u32, left: u32) -> Piece
    requires some { 0 < left }
    requires fits { low + left < 2 ^ 32 }
    ensures end { result.block * 112 + (result.low + result.len) ≡ low + left }
    ensures some { 0 < result.len }
    ensures within { result.low + result.len ≤ 112 }
    ensures most { result.len ≤ left }
{
    let end = low + left;
    let block = (end - 1) / 112;
    let start = low.max(block * 112);
    Piece {
        block: block as usize,
        low: (start - block * 112) as u8,
        len: (end - start) as u8,
    }
}

/// The `len` highest of the lowest `left` bits of these bytes.
fn taken(bytes: &[u8], left: u32, len: u8) -> u128
    requires within { left ≤ 8 * length bytes.now }
    requires fits { length bytes.now < 2 ^ 16 }
    requires most { len ≤ left }
    requires short { len ≤ 112 }
    ensures bits { result ≡ slice_of (number_of bytes.now) (left - len) len }
    ensures small { result < 2 ^ len }
{
    bits_of_bytes(bytes, 8 * bytes.len() as u32 - left, len)
}

/// Puts bits into one block's row; the row's other bits stay.
fn put(rows: &mut Rows, block: u8, row: u16, piece: Piece, bits: u128)
    requires block { block < 106 }
    requires row { row < 1024 }
    requires within { piece.low + piece.len ≤ 112 }
    requires bits { bits < 2 ^ piece.len }
    ensures row { blocks_of rows.new block row ≡ deposit_of (blocks_of rows.old block row) piece.low piece.len bits }
    ensures others { (b r : ℕ) → (b ≡ block → r ≡ row → ⊥) → blocks_of rows.new b r ≡ blocks_of rows.old b r }
{
    let old = rows.row(block, row);
    rows.set_row(block, row, deposit(old, piece.low, piece.len, bits));
}

/// Writes the lowest `len` bits of these bytes, all others of which are 0, into a row of blocks, from the bit `low` up.
pub fn write_run(rows: &mut Rows, blocks: &[u8], row: u16, low: u32, len: u32, bytes: &[u8])
    requires in_sram { All (λ block. block < 106) blocks.now }
    requires apart { AllPairs ◌≢◌ blocks.now }
    requires row { row < 1024 }
    requires within { low + len ≤ 112 * length blocks.now }
    requires fits { 112 * length blocks.now < 2 ^ 32 }
    requires bytes { length bytes.now ≡ divided_up len 8 }
    requires short { length bytes.now < 2 ^ 16 }
    requires small { number_of bytes.now < 2 ^ len }
    ensures { PutsBits (blocks_of rows.old) (blocks_of rows.new) row blocks.now low len (number_of bytes.now) }
{
    let mut left = len;
    while left > 0 {
        let piece = last_piece(low, left);
        let bits = taken(bytes, left, piece.len);
        put(rows, blocks[piece.block], row, piece, bits);
        left -= piece.len as u32;
    }
}

/// Makes all bytes 0.
fn clear(bytes: &mut [u8])
    ensures { bytes.new ≡ replicate (length bytes.old) 0 }
{
    bytes.fill(0);
}

/// Reads `len` bits of a row of blocks, from the bit `low` up, into bytes; what they held before is lost.
pub fn read_run(rows: &Rows, blocks: &[u8], row: u16, low: u32, len: u32, bytes: &mut [u8])
    requires in_sram { All (λ block. block < 106) blocks.now }
    requires row { row < 1024 }
    requires within { low + len ≤ 112 * length blocks.now }
    requires fits { 112 * length blocks.now < 2 ^ 32 }
    requires bytes { length bytes.old ≡ divided_up len 8 }
    requires short { length bytes.old < 2 ^ 16 }
    ensures { bytes.new ≡ bytes_of (divided_up len 8) (slice_of (unit_row 112 (blocks_of rows.now) row blocks.now) low len) }
{
    clear(bytes);
    let mut left = len;
    while left > 0 {
        let piece = last_piece(low, left);
        let bits = slice(rows.row(blocks[piece.block], row), piece.low, piece.len);
        bytes_of_bits(bits, piece.len, bytes, 8 * bytes.len() as u32 - left);
        left -= piece.len as u32;
    }
}
