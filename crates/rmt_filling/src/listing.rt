//! The rows of a stage that aren't 0, in lists.

ghost use Rattle.std.specs.Prelude.{◌<◌, ◌+◌, ◌*◌, IfOk, OnOk};
ghost use Rattle.rmt_pack.specs.Rows.{blocks_of};
ghost use Rattle.rmt_filling.specs.Listing.{values_of, masks_of, IsSramListed, IsTcamListed, ListsSram, ListsTcam};

use crate::tcam;
use crate::tcam::TcamRows;
use rmt_bits::sequence::Sequence;
use rmt_config::config::{SramRow, TcamRow};
use rmt_pack::rows::{BLOCK_ROWS, BLOCKS, Rows};
use std::alloc::{AllocError, Global};

/// Adds the rows of a block that aren't 0.
fn push_sram(told: &mut Sequence<SramRow>, rows: &Rows, block: u8) -> Result<(), AllocError>
    requires block { block < 106 }
    requires before { IsSramListed (blocks_of rows.now) (1024 * block) told.old }
    ensures { OnOk result (IsSramListed (blocks_of rows.now) (1024 * (block + 1)) told.new) }
{
    for row in 0..BLOCK_ROWS {
        let bits = rows.row(block, row);
        if bits != 0 {
            told.push(SramRow { block, row, bits })?;
        }
    }
    Ok(())
}

/// The rows that aren't 0, by block and row.
pub fn sram_rows(alloc: Global, rows: &Rows) -> Result<Sequence<SramRow>, AllocError>
    ensures { IfOk result (ListsSram (blocks_of rows.now)) }
{
    let mut told = Sequence::new(alloc);
    for block in 0..BLOCKS {
        push_sram(&mut told, rows, block)?;
    }
    Ok(told)
}

/// Adds the rows of a block whose mask isn't 0.
fn push_tcam(told: &mut Sequence<TcamRow>, rows: &TcamRows, block: u8) -> Result<(), AllocError>
    requires block { block < 16 }
    requires before { IsTcamListed (values_of rows.now) (masks_of rows.now) (2048 * block) told.old }
    ensures { OnOk result (IsTcamListed (values_of rows.now) (masks_of rows.now) (2048 * (block + 1)) told.new) }
{
    for row in 0..tcam::BLOCK_ROWS {
        let word = rows.row(block, row);
        if word.mask != 0 {
            told.push(TcamRow {
                block,
                row,
                value: word.value,
                mask: word.mask,
            })?;
        }
    }
    Ok(())
}

/// The rows whose mask isn't 0, by block and row.
pub fn tcam_rows(alloc: Global, rows: &TcamRows) -> Result<Sequence<TcamRow>, AllocError>
    ensures { IfOk result (ListsTcam (values_of rows.now) (masks_of rows.now)) }
{
    let mut told = Sequence::new(alloc);
    for block in 0..tcam::BLOCKS {
        push_tcam(&mut told, rows, block)?;
    }
    Ok(told)
}
