//! Which changed cells a chip takes.

use crate::chip::fixture::{TWO_BYTES, bytes_of, open};
use rmt_chip::chip::Chip;
use rmt_config::cell_write::CellWrite;
use rmt_image_tests::fixtures::image_texts::{NO_ROWS, push_texts};
use std::process::Abort;
use std::test::*;

/// A stage with a gate, an exact slot of 4,096 * 5 cells, a ternary one of 2,048 rows and one without memory. Keys have 12
/// bits, and data has 9.
const FOUR_UNITS: &str = "
01 0000 04                                  # 1 stage with 4 units
00 00 00 01 030008 00000005 000000ff        # the gate of node 0
01 01 00 00 01 01 0009 0002 020008 030004   # an exact table of node 1 with 1 action and 9 data bits
     01 01 0005 01 00 00010203 0405         # k 1, p 5, 1 quantum; blocks of keys and records
     00000000
01 02 00 00 01 01 0009 0002 020008 030004   # a ternary table of node 2, alike
     02 01 00 06                            # 1 quantum; blocks of keys and records
     00000000
01 03 00 00 00 01 0000 0000 00 00000000     # a table of node 3 without a key
00 00 00 00 00                              # 5 instructions that do nothing
";

/// Changed cells, and whether they are taken: stage, unit, cell, visible bits and code, and then key, mask and data, each
/// behind the number of its bytes.
const TRIED: [(&str, bool); 24] = [
    // of the exact slot
    ("00 01 00004fff 03 1f 02 0fff 00 02 01ff", true),
    ("00 01 00000000 01 00 02 0000 00 02 0000", true),
    ("00 01 00005000 03 1f 02 0fff 00 02 01ff", false), // cell 20,480
    ("00 01 00004fff 04 1f 02 0fff 00 02 01ff", false), // visible 4
    ("00 01 00004fff 03 20 02 0fff 00 02 01ff", false), // code 32
    ("00 01 00004fff 03 1f 01 ff 00 02 01ff", false), // a key of a byte
    ("00 01 00004fff 03 1f 03 000fff 00 02 01ff", false), // a key of 3 bytes
    ("00 01 00004fff 03 1f 02 1000 00 02 01ff", false), // a key of 13 bits
    ("00 01 00004fff 03 1f 02 0fff 02 0fff 02 01ff", false), // a mask
    ("00 01 00004fff 03 1f 02 0fff 00 01 ff", false), // data of a byte
    ("00 01 00004fff 03 1f 02 0fff 00 03 0001ff", false), // data of 3 bytes
    ("00 01 00004fff 03 1f 02 0fff 00 02 0200", false), // data of 10 bits
    // of a cell that is emptied only the number counts
    ("00 01 00004fff 00 20 00 02 0fff 00", true),
    ("00 01 00005000 00 00 02 0fff 00 02 01ff", false),
    // of the ternary slot
    ("00 02 000007ff 02 1f 02 0fff 02 0fff 02 01ff", true),
    ("00 02 00000800 02 1f 02 0fff 02 0fff 02 01ff", false), // row 2,048
    ("00 02 000007ff 02 1f 02 0fff 00 02 01ff", false), // no mask
    ("00 02 000007ff 02 1f 02 0fff 01 ff 02 01ff", false), // a mask of a byte
    ("00 02 000007ff 02 1f 02 0fff 02 1000 02 01ff", false), // a mask of 13 bits
    ("00 02 000007ff 00 00 00 00 00", true), // emptied
    // of no slot with memory
    ("00 00 00000000 00 00 00 00 00", false), // the gate
    ("00 03 00000000 00 00 00 00 00", false), // the slot without memory
    ("00 04 00000000 00 00 00 00 00", false), // no such unit
    ("01 01 00000000 00 00 00 00 00", false), // no such stage
];

/// The bytes of a part, and what stands behind it.
fn part(bytes: &[u8]) -> (&[u8], &[u8]) {
    match bytes {
        [] => (bytes, bytes),
        [length, rest @ ..] => rest.split_at(rest.len().min(usize::from(*length))),
    }
}

/// The changed cell of a text.
fn cell_of(rt: &(impl Abort + AllocGlobal), text: &str) -> Result<CellWrite, Fail> {
    let mut bytes = Vec::new(rt.alloc());
    push_texts(&mut bytes, &[text])?;
    let [stage, unit, a, b, c, d, visible, code, rest @ ..] = bytes.as_slice() else {
        panic!(rt; "a changed cell: {text}");
    };
    let (key, rest) = part(rest);
    let (mask, rest) = part(rest);
    let (held, _) = part(rest);
    Ok(CellWrite {
        stage: *stage,
        unit: *unit,
        cell: u32::from_be_bytes([*a, *b, *c, *d]),
        visible: *visible,
        code: *code,
        key: bytes_of(rt.alloc(), key)?,
        mask: bytes_of(rt.alloc(), mask)?,
        held: bytes_of(rt.alloc(), held)?,
        number: 1,
    })
}

/// Whether a chip takes a cell that it is to take, or refuses one that it isn't.
fn is_as_told(
    rt: &(impl Abort + AllocGlobal),
    chip: &Chip,
    text: &str,
    taken: bool,
) -> Result<bool, Fail> {
    let cell = cell_of(rt, text)?;
    Ok(chip.takes(&cell) == taken)
}

/// Tries all cells.
fn try_all(rt: &(impl Abort + AllocGlobal), chip: &Chip) -> Result<(), Fail> {
    for &(text, taken) in &TRIED {
        assert!(rt; is_as_told(rt, chip, text, taken)?, "{text}");
    }
    Ok(())
}

/// Changed cells that are right, and such as are wrong in one thing.
#[test]
fn cells_taken(rt: HostRuntime) -> Result<(), Fail> {
    let chip = open(&rt, &[TWO_BYTES, FOUR_UNITS, NO_ROWS])?;
    try_all(&rt, &chip)
}
