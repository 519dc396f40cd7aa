//! Kept cells as changed ones.

ghost use Rattle.std.specs.Prelude.{◌≡◌, ◌<◌, IfOk};
ghost use Rattle.rmt_book.specs.Coming.{empty_write as empty_of, kept_write as kept_of};

use crate::kept::Kept;
use rmt_bits::answer::Bytes;
use rmt_bits::sequence::Sequence;
use rmt_config::cell_write::CellWrite;
use std::alloc::{AllocError, Global};

/// Equal bytes. The only fault is want of memory.
fn copied(alloc: Global, bytes: &Vec<u8>) -> Result<Bytes, AllocError>
    ensures { IfOk result (λ copy. copy ≡ bytes.now.items) }
{
    Ok(Sequence::from_vec(Vec::from_slice(alloc, bytes.as_slice())?))
}

/// A cell of a slot at a place of a stage that is to hold what is kept, with these visible bits. The only fault is want
/// of memory.
pub fn kept_write(
    alloc: Global,
    stage: usize,
    place: usize,
    visible: u8,
    kept: &Kept,
) -> Result<CellWrite, AllocError>
    requires stage { stage < 256 }
    requires place { place < 256 }
    ensures { IfOk result (λ write. write ≡ kept_of stage place visible kept.now) }
{
    Ok(CellWrite {
        stage: stage as u8,
        unit: place as u8,
        cell: kept.cell,
        visible,
        code: kept.code,
        key: copied(alloc, &kept.key)?,
        mask: copied(alloc, &kept.mask)?,
        held: copied(alloc, &kept.held)?,
        number: kept.number,
    })
}

/// A cell of a slot at a place of a stage that is emptied.
pub fn empty_write(alloc: Global, stage: usize, place: usize, cell: u32) -> CellWrite
    requires stage { stage < 256 }
    requires place { place < 256 }
    ensures { result ≡ empty_of stage place cell }
{
    CellWrite {
        stage: stage as u8,
        unit: place as u8,
        cell,
        visible: 0,
        code: 0,
        key: Sequence::new(alloc),
        mask: Sequence::new(alloc),
        held: Sequence::new(alloc),
        number: 0,
    }
}
