//! Words in rows of TCAM blocks.

ghost use Rattle.std.specs.Prelude.{◌≢◌, ◌+◌, ◌*◌, ◌/◌, ◌%◌, ◌<◌, ◌≤◌, All, AllPairs, OnOk, length, map, sum};
ghost use Rattle.std.specs.List.{AllZip};
ghost use Rattle.rmt_ast.specs.WellFormed.{IsTest};
ghost use Rattle.rmt_ast.specs.declared.program.Test.{Test};
ghost use Rattle.rmt_config.specs.Cells.{blocks_at};
ghost use Rattle.rmt_config.specs.BlockCounts.{divided_up};
ghost use Rattle.rmt_pack.specs.declared.tcam.TcamWord.{TcamWord};
ghost use Rattle.rmt_config.specs.Rooms.{tests_as_one};
ghost use Rattle.rmt_filling.specs.Holding.{PutsRow};
ghost use Rattle.rmt_filling.specs.Listing.{values_of, masks_of};
ghost use Rattle.rmt_filling.specs.Words.{IsMaskedWord, WordsSo};

use crate::tcam::TcamRows;
use rmt_ast::program::Test;
use rmt_bits::answer::Bytes;
use rmt_bits::sequence::Sequence;
use rmt_pack::fault::PackFault;
use rmt_pack::tcam::{TcamWord, tcam_row};
use std::alloc::Global;

/// Writes words into a row of blocks side by side, the first of which has this place in the list.
fn put_words(tcam: &mut TcamRows, blocks: &[u8], first: usize, row: u16, words: &[TcamWord])
    requires blocks { All (λ block. block < 16) blocks.now }
    requires apart { AllPairs ◌≢◌ blocks.now }
    requires room { first + length words.now ≤ length blocks.now }
    requires row { row < 2048 }
    requires words { All IsMaskedWord words.now }
    ensures values { WordsSo (values_of tcam.old) (values_of tcam.new) row blocks.now first (length words.now) (map (λ (w : TcamWord). w.value) words.now) }
    ensures masks { WordsSo (masks_of tcam.old) (masks_of tcam.new) row blocks.now first (length words.now) (map (λ (w : TcamWord). w.mask) words.now) }
{
    for at in 0..words.len() {
        tcam.set_row(blocks[first + at], row, words[at]);
    }
}

/// Writes the values and masks of tests of these widths into a row of a part with these TCAM blocks.
///
/// # Errors
///
/// For want of memory alone.
pub fn write_tests(
    alloc: Global,
    tcam: &mut TcamRows,
    blocks: &[u8],
    cell: u32,
    widths: &Bytes,
    tests: &Sequence<Test>,
) -> Result<(), PackFault>
    requires blocks { All (λ block. block < 16) blocks.now }
    requires apart { AllPairs ◌≢◌ blocks.now }
    requires widths { All (λ w. w ≤ 128) widths.now }
    requires narrow { sum widths.now ≤ 640 }
    requires tests { AllZip IsTest widths.now tests.now }
    requires room { cell / 2048 * divided_up (sum widths.now) 40 + divided_up (sum widths.now) 40 ≤ length blocks.now }
    ensures values { OnOk result (PutsRow (values_of tcam.old) (values_of tcam.new) (cell % 2048)
        (blocks_at blocks.now (divided_up (sum widths.now) 40) (cell / 2048)) (tests_as_one (λ (t : Test). t.value) widths.now tests.now)) }
    ensures masks { OnOk result (PutsRow (masks_of tcam.old) (masks_of tcam.new) (cell % 2048)
        (blocks_at blocks.now (divided_up (sum widths.now) 40) (cell / 2048)) (tests_as_one (λ (t : Test). t.mask) widths.now tests.now)) }
{
    let words = tcam_row(alloc, tests, widths)?;
    let words = words.as_slice();
    let first = (cell / 2048) as usize * words.len();
    put_words(tcam, blocks, first, (cell % 2048) as u16, words);
    Ok(())
}
