//! The entries of a layout in SRAM, as bytes.

ghost use Rattle.std.specs.Prelude.{◌≡◌, ◌-◌, ◌/◌, ◌%◌, ◌<◌, ◌≤◌, IfOk, length};
ghost use Rattle.rmt_bits.specs.Bits.{bytes_of, number_of};
ghost use Rattle.rmt_book.specs.Formed.{divided_up};
ghost use Rattle.rmt_book.specs.Entries.{IsThere, entry_at};

use rmt_config::config::SramRow;
use rmt_config::form::layout::CellLayout;
use rmt_config::form::names::key_bytes::push_entry;
use rmt_config::form::sram::Near;
use std::alloc::{AllocError, Global};

/// Where the entry of a cell stands.
#[derive(Clone, Copy)]
pub struct EntryAt<'a> {
    /// How the entries lie.
    pub layout: &'a CellLayout,
    /// The blocks of all units, by their numbers in the stage.
    pub blocks: &'a [u8],
    /// The rows of SRAM of the stage.
    pub rows: &'a [SramRow],
    /// The number of the cell.
    pub cell: u64,
}

/// An entry as bytes, the highest first, with zero bits on top. The only fault is want of memory.
pub fn entry_bytes(alloc: Global, at: &EntryAt) -> Result<Vec<u8>, AllocError>
    requires { IsThere at.now }
    ensures { IfOk result (λ bytes. bytes.items ≡ bytes_of (divided_up at.now.layout.now.entry 8) (entry_at at.now)) }
{
    let len = at.layout.entry;
    let mut bytes = Vec::with_capacity(alloc, ((len + 7) / 8) as usize)?;
    let mut near = Near::new();
    push_entry(
        &mut bytes, at.layout, at.blocks, at.rows, at.cell, 0, len, &mut near,
    )?;
    Ok(bytes)
}

/// An entry that begins with a head of 8 bits.
#[derive(Drop)]
pub struct HeadedEntry {
    /// The head.
    pub head: u8,
    /// What stands above it, highest byte first.
    pub rest: Vec<u8>,
    pub ghost rest_short: { length rest.items ≤ 8192 },
}

/// An entry that begins with a head. The only fault is want of memory.
pub fn headed_entry(alloc: Global, at: &EntryAt) -> Result<HeadedEntry, AllocError>
    requires there { IsThere at.now }
    requires head { 8 ≤ at.now.layout.now.entry }
    requires few { at.now.layout.now.entry < 65544 }
    ensures head { IfOk result (λ e. e.head ≡ entry_at at.now % 256) }
    ensures rest { IfOk result (λ e. number_of e.rest.items ≡ entry_at at.now / 256) }
    ensures size { IfOk result (λ e. length e.rest.items ≡ divided_up (at.now.layout.now.entry - 8) 8) }
{
    let mut rest = entry_bytes(alloc, at)?;
    let Some(head) = rest.pop() else {
        unreachable!()
    };
    Ok(HeadedEntry { head, rest })
}
