//! What rows of TCAM compare, read from lists of rows that rise by block and row.

ghost use Rattle.std.specs.Prelude.{◌≡◌, ◌<◌};
ghost use Rattle.rmt_config.specs.Cells.{tcam_row};
ghost use Rattle.rmt_config.specs.PrefixRow.{PrefixRows};
ghost use Rattle.rmt_config.specs.declared.config.TcamRow.{TcamRow as TcamRowOf};

use crate::config::TcamRow;
use crate::form::search::{Numbered, first_near};

/// What a row of a TCAM block compares: the bits of the mask with those of the value.
#[derive(Clone, Copy)]
pub struct Compared {
    pub value: u64,
    pub mask: u64,
}

/// What a row of a TCAM block compares, looked for first near the place where the last one was found; a row that isn't
/// listed compares no bit.
pub fn row_compared(rows: &[TcamRow], block: u8, row: u64, near: &mut usize) -> Compared
    requires rows { PrefixRows rows.now }
    requires row { row < 2048 }
    ensures value { result.value ≡ tcam_row (λ (t : TcamRowOf). t.value) rows.now block row }
    ensures mask { result.mask ≡ tcam_row (λ (t : TcamRowOf). t.mask) rows.now block row }
{
    let number = block as u64 * 2048 + row;
    let at = first_near(rows, number, *near);
    *near = at;
    if at < rows.len() && rows[at].place() as u64 == number {
        Compared {
            value: rows[at].value,
            mask: rows[at].mask,
        }
    } else {
        Compared { value: 0, mask: 0 }
    }
}
