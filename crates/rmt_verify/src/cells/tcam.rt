//! What rows of TCAM compare, against the words of an entry.

ghost use Rattle.std.specs.Prelude.{◌≡◌, ◌↔◌, ◌*◌, ◌<◌, IsTrue, map};
ghost use Rattle.rmt_config.specs.Cells.{tcam_row};
ghost use Rattle.rmt_config.specs.PrefixRow.{PrefixRows};
ghost use Rattle.rmt_config.specs.declared.config.TcamRow.{TcamRow as TcamRowOf};
ghost use Rattle.rmt_verify.specs.Wanted.{word_in};

use rmt_config::config::TcamRow;
use rmt_config::form::tcam::row_compared;
use rmt_pack::tcam::TcamWord;

/// What a row of a TCAM block compares, as a word, looked for first near the place where the last one was found.
fn word_at(rows: &[TcamRow], block: u8, row: u64, near: &mut usize) -> TcamWord
    requires rows { PrefixRows rows.now }
    requires row { row < 2048 }
    ensures value { result.value ≡ tcam_row (λ (t : TcamRowOf). t.value) rows.now block row }
    ensures mask { result.mask ≡ tcam_row (λ (t : TcamRowOf). t.mask) rows.now block row }
{
    let compared = row_compared(rows, block, row, near);
    TcamWord {
        value: compared.value,
        mask: compared.mask,
    }
}

/// Whether a row of blocks side by side has these words, the first block lowest.
pub fn are_words(rows: &[TcamRow], blocks: &[u8], row: u64, words: &[TcamWord]) -> bool
    requires rows { PrefixRows rows.now }
    requires row { row < 2048 }
    ensures { IsTrue result ↔ map (word_in rows.now row) blocks.now ≡ words.now }
{
    if blocks.len() != words.len() {
        return false;
    }
    let mut near = 0;
    for (at, block) in blocks.iter().enumerate() {
        if word_at(rows, *block, row, &mut near) != words[at] {
            return false;
        }
    }
    true
}
