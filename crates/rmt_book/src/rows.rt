//! What rows of TCAM blocks side by side compare, as words.

ghost use Rattle.std.specs.Prelude.{◌≡◌, ◌<◌, IfOk, map};
ghost use Rattle.rmt_book.specs.Formed.{PrefixRows, TcamRow as TcamRowOf, tcam_row};

use rmt_config::config::TcamRow;
use rmt_config::form::tcam::row_compared;
use std::alloc::{AllocError, Global};

/// What a row of TCAM blocks compares, a word a block.
#[derive(Drop)]
pub struct ComparedWords {
    pub values: Vec<u128>,
    pub masks: Vec<u128>,
}

/// What a row of TCAM blocks compares. The only fault is want of memory.
pub fn tcam_words(
    alloc: Global,
    rows: &[TcamRow],
    blocks: &[u8],
    row: u64,
) -> Result<ComparedWords, AllocError>
    requires rows { PrefixRows rows.now }
    requires row { row < 2048 }
    ensures values { IfOk result (λ words. words.values.items ≡ map (λ b. tcam_row (λ (t : TcamRowOf). t.value) rows.now b row) blocks.now) }
    ensures masks { IfOk result (λ words. words.masks.items ≡ map (λ b. tcam_row (λ (t : TcamRowOf). t.mask) rows.now b row) blocks.now) }
{
    let mut values = Vec::with_capacity(alloc, blocks.len())?;
    let mut masks = Vec::with_capacity(alloc, blocks.len())?;
    let mut near = 0;
    for block in blocks {
        let compared = row_compared(rows, *block, row, &mut near);
        values.push(compared.value as u128)?;
        masks.push(compared.mask as u128)?;
    }
    Ok(ComparedWords { values, masks })
}
