//! What entries of a layout hold in SRAM, as bytes.

ghost use Rattle.std.specs.Prelude.{◌≡◌, ◌+◌, ◌%◌, ◌≤◌, IfOk, length};
ghost use Rattle.rmt_bits.specs.Bits.{bytes_of, number_of, slice as slice_of};
ghost use Rattle.rmt_config.specs.BlockCounts.{divided_up};
ghost use Rattle.rmt_verify.specs.SramCells.{IsCellAt, entry_of};

use rmt_config::config::SramRow;
use rmt_config::form::layout::CellLayout;
use rmt_config::form::names::key_bytes::push_entry;
use rmt_config::form::sram::Near;
use std::alloc::{AllocError, Global};

/// A cell of entries: how they lie, the blocks in which they stand, the rows of their stage, and the number of the cell.
#[derive(Clone, Copy)]
pub struct CellAt<'a> {
    pub layout: &'a CellLayout,
    pub blocks: &'a [u8],
    pub rows: &'a [SramRow],
    pub cell: u64,
}

/// Some bits of the entry of a cell as bytes, the highest first.
pub fn entry_bytes(alloc: Global, at: &CellAt, from: u64, len: u64) -> Result<Vec<u8>, AllocError>
    requires cell { IsCellAt at.now.layout.now at.now.blocks.now at.now.rows.now at.now.cell }
    requires bits { from + len ≤ at.now.layout.now.entry }
    ensures { IfOk result (λ bytes. bytes.items
        ≡ bytes_of (divided_up len 8) (slice_of (entry_of at.now.layout.now at.now.blocks.now at.now.rows.now at.now.cell) from len)) }
{
    let mut near = Near::new();
    let mut bytes = Vec::new(alloc);
    push_entry(
        &mut bytes, at.layout, at.blocks, at.rows, at.cell, from, len, &mut near,
    )?;
    Ok(bytes)
}

/// The head of the entry of a cell: its lowest 8 bits.
pub fn head_of(alloc: Global, at: &CellAt) -> Result<u8, AllocError>
    requires cell { IsCellAt at.now.layout.now at.now.blocks.now at.now.rows.now at.now.cell }
    requires head { 8 ≤ at.now.layout.now.entry }
    ensures { IfOk result (λ head. head ≡ entry_of at.now.layout.now at.now.blocks.now at.now.rows.now at.now.cell % 256) }
{
    let bytes = entry_bytes(alloc, at, 0, 8)?;
    Ok(bytes[0])
}

/// Some bits of the entry of a cell as bytes, the highest first, behind 256 bytes that are 0.
pub fn data_bytes(alloc: Global, at: &CellAt, from: u64, len: u64) -> Result<Vec<u8>, AllocError>
    requires cell { IsCellAt at.now.layout.now at.now.blocks.now at.now.rows.now at.now.cell }
    requires bits { from + len ≤ at.now.layout.now.entry }
    ensures number { IfOk result (λ bytes. number_of bytes.items ≡ slice_of (entry_of at.now.layout.now at.now.blocks.now at.now.rows.now at.now.cell) from len) }
    ensures long { IfOk result (λ bytes. length bytes.items ≡ 256 + divided_up len 8) }
{
    let mut near = Near::new();
    let mut bytes = vec![in alloc; 0u8; 256]?;
    push_entry(
        &mut bytes, at.layout, at.blocks, at.rows, at.cell, from, len, &mut near,
    )?;
    Ok(bytes)
}
