//! The key and the mask in a cell of a prefix table's part, read from the rows of TCAM.

ghost use Rattle.std.specs.Prelude.{◌≡◌, ◌+◌, ◌*◌, ◌^◌, ◌<◌, ◌≤◌, IsTrue, length};
ghost use Rattle.rmt_ast.specs.declared.program.Kind.TheVariants as kind;
ghost use Rattle.rmt_config.specs.Cells.{cells_in, tcam_row, unit_row};
ghost use Rattle.rmt_config.specs.FilledTables.{MemoryIsFormed, PartStands, bits_of_lanes, is_of_kind, part_at};
ghost use Rattle.rmt_config.specs.PrefixRow.{PrefixRows};
ghost use Rattle.rmt_config.specs.RunCells.{own_content};
ghost use Rattle.rmt_config.specs.declared.config.TcamRow.{TcamRow};

use crate::config::{Config, Memory, TcamRow};
use crate::form::lane::key_bits;
use crate::form::layout::divided_up;
use crate::form::names::key_bytes::piece_at;
use crate::form::names::part_list::Part;
use crate::form::tcam::row_compared;

/// A key of at most 128 bits, and the mask of those that count.
#[derive(Clone, Copy)]
pub struct Held {
    pub key: u128,
    pub mask: u128,
}

/// A word of 40 bits below those above it.
fn with_word(above: u128, word: u64) -> u128
    requires { above * 2 ^ 40 + word < 2 ^ 128 }
    ensures { result ≡ above * 2 ^ 40 + word }
{
    above * 0x100_0000_0000 + word as u128
}

/// The values and the masks of a row of blocks side by side, the first lowest.
fn unit_held(rows: &[TcamRow], blocks: &[u8], row: u64, near: &mut usize) -> Held
    requires rows { PrefixRows rows.now }
    requires row { row < 2048 }
    requires short { unit_row 40 (tcam_row (λ (t : TcamRow). t.mask) rows.now) row blocks.now < 2 ^ 128 }
    ensures key { result.key ≡ unit_row 40 (tcam_row (λ (t : TcamRow). t.value) rows.now) row blocks.now }
    ensures mask { result.mask ≡ unit_row 40 (tcam_row (λ (t : TcamRow). t.mask) rows.now) row blocks.now }
{
    let mut key: u128 = 0;
    let mut mask: u128 = 0;
    let mut left = blocks.len();
    while left > 0 {
        left -= 1;
        let word = row_compared(rows, blocks[left], row, near);
        key = with_word(key, word.value);
        mask = with_word(mask, word.mask);
    }
    Held { key, mask }
}

/// What a cell of a prefix part holds as its key and mask.
pub fn held_in(config: &Config, part: &Part, cell: u32, near: &mut usize) -> Held
    requires stands { PartStands config.now (part_at part.now) }
    requires memory { MemoryIsFormed config.now }
    requires kind { IsTrue (is_of_kind kind.Prefix part.now.slot.now.memory) }
    requires short { bits_of_lanes part.now.slot.now.keys ≤ 128 }
    requires within { cell < cells_in part.now.slot.now.memory }
    ensures key { result.key ≡ (own_content config.now part.now.at part.now.place cell).key }
    ensures mask { result.mask ≡ (own_content config.now part.now.at part.now.place cell).mask }
    ensures small_key { result.key < 2 ^ bits_of_lanes part.now.slot.now.keys }
    ensures small_mask { result.mask < 2 ^ bits_of_lanes part.now.slot.now.keys }
{
    let stages = config.stages.as_slice();
    let rows = stages[part.at].trows.as_slice();
    match &part.slot.memory {
        Memory::Ternary { keys, .. } => {
            let side = divided_up(key_bits(part.slot.keys.as_slice()), 40);
            let blocks = piece_at(keys.as_slice(), side, cell as u64 / 2048);
            unit_held(rows, blocks, cell as u64 % 2048, near)
        }
        _ => Held { key: 0, mask: 0 },
    }
}
