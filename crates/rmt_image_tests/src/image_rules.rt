//! Images with memory, gates and guards: what breaks a rule of form, and what just keeps it.

use crate::fixtures::image_bytes::{GATED, STRICT_AND_WEAK, Splice, WITHOUT_ENTRIES, changed};
use crate::images::read;
use std::process::Abort;
use std::test::*;

/// Changes of an image, the last place first, and what is read then.
type Change = (&'static [Splice], (u8, u8, u8, u32));

const CHANGES_OF_EXACT: [Change; 17] = [
    // a visible bit
    (&[(198, 1, &[3])], (4, 0, 0, 0)),
    // the instruction of the default
    (&[(198, 1, &[9])], (4, 0, 0, 0)),
    // an entry that is not occupied
    (&[(198, 1, &[0])], (4, 0, 0, 0)),
    // data is free
    (&[(214, 2, &[1, 0xff])], (0, 0, 0, 0)),
    // a number of an empty cell
    (
        &[(134, 0, &[0, 0, 0x15, 0xa9, 0, 0, 0, 1]), (125, 1, &[2])],
        (4, 0, 0, 0),
    ),
    // an occupied cell without a number
    (&[(125, 8, &[])], (4, 0, 0, 0)),
    // numbers that fall
    (&[(125, 0, &[2, 0, 0, 0x15, 0xa9, 0, 0, 0])], (4, 0, 0, 0)),
    // a cell that there is not
    (
        &[(134, 0, &[0, 0, 0x70, 0, 0, 0, 0, 1]), (125, 1, &[2])],
        (4, 0, 0, 0),
    ),
    // rows that fall
    (
        &[
            (199, 17, &[]),
            (
                182,
                0,
                &[4, 1, 0xce, 0, 0, 0, 0, 0, 0, 0, 0, 0, 0, 0, 0, 0, 5],
            ),
        ],
        (4, 0, 0, 0),
    ),
    // a row twice
    (
        &[(
            181,
            1,
            &[3, 0, 3, 0x18, 0, 0, 0, 0, 0, 0, 0, 0, 0, 0, 0, 0, 7, 1],
        )],
        (4, 0, 0, 0),
    ),
    // a row that is 0
    (
        &[
            (199, 0, &[1, 0, 0, 0, 0, 0, 0, 0, 0, 0, 0, 0, 0, 0, 0, 0, 0]),
            (181, 1, &[3]),
        ],
        (4, 0, 0, 0),
    ),
    // a row behind the last
    (
        &[
            (216, 0, &[6, 4, 0, 0, 0, 0, 0, 0, 0, 0, 0, 0, 0, 0, 0, 0, 1]),
            (181, 1, &[3]),
        ],
        (4, 0, 0, 0),
    ),
    // a row of a block that is not listed
    (
        &[
            (216, 0, &[7, 0, 0, 0, 0, 0, 0, 0, 0, 0, 0, 0, 0, 0, 0, 0, 1]),
            (181, 1, &[3]),
        ],
        (4, 0, 0, 0),
    ),
    // a row of block 106
    (
        &[
            (
                216,
                0,
                &[0x6a, 0, 0, 0, 0, 0, 0, 0, 0, 0, 0, 0, 0, 0, 0, 0, 1],
            ),
            (181, 1, &[3]),
        ],
        (4, 0, 0, 0),
    ),
    // block 106
    (&[(118, 1, &[0x6a])], (4, 0, 0, 0)),
    // a doubled block under an occupied cell
    (&[(116, 1, &[0])], (4, 0, 0, 0)),
    // 8 cells of 16 bits in 112
    (&[(112, 1, &[8])], (4, 0, 0, 0)),
];

const CHANGES_OF_GATED: [Change; 39] = [
    // an offset of 128
    (&[(36, 1, &[0x80])], (4, 0, 0, 0)),
    // an offset of 127
    (&[(36, 1, &[0x7f])], (0, 0, 0, 0)),
    // offsets that stay
    (&[(35, 1, &[2, 0])], (4, 0, 0, 0)),
    // five lookups
    (&[(35, 2, &[5, 0, 1, 2, 3, 4])], (6, 4, 0, 5)),
    // no state
    (&[(34, 3, &[])], (4, 0, 0, 0)),
    // a mask on an absent byte
    (&[(46, 1, &[1])], (4, 0, 0, 0)),
    // a value outside the mask
    (&[(45, 1, &[0xfe])], (4, 0, 0, 0)),
    // an entry that goes to its own state
    (&[(98, 1, &[2, 1])], (4, 0, 0, 0)),
    // a gate without a test
    (&[(117, 12, &[0])], (4, 0, 0, 0)),
    // a test on a bit outside its lane
    (&[(124, 5, &[2, 0, 0, 0, 2])], (4, 0, 0, 0)),
    // a test outside its mask
    (&[(128, 1, &[0])], (4, 0, 0, 0)),
    // a guard that lets through what has not run
    (&[(179, 1, &[3])], (4, 0, 0, 0)),
    // a guard of a unit that stands later
    (&[(132, 1, &[2])], (4, 0, 0, 0)),
    // a guard of a table whose last part stands later
    (&[(177, 3, &[1, 0, 4])], (4, 0, 0, 0)),
    // a guard of its own node
    (&[(177, 3, &[2, 0, 4])], (4, 0, 0, 0)),
    // a guard of a node that there is not
    (&[(177, 3, &[9, 0, 4])], (4, 0, 0, 0)),
    // the node of a gate twice
    (&[(175, 1, &[0])], (4, 0, 0, 0)),
    // two last parts
    (&[(137, 1, &[1])], (4, 0, 0, 0)),
    // no last part
    (&[(314, 1, &[0])], (4, 0, 0, 0)),
    // a part that is not counted
    (&[(329, 2, &[]), (312, 1, &[0])], (4, 0, 0, 0)),
    // a part of another key
    (&[(323, 1, &[1])], (4, 0, 0, 0)),
    // a part with another guard
    (&[(311, 1, &[2])], (4, 0, 0, 0)),
    // an entry number twice
    (&[(342, 1, &[0])], (4, 0, 0, 0)),
    // starts that stay
    (&[(304, 1, &[0])], (4, 0, 0, 0)),
    // no quantum
    (&[(326, 1, &[0])], (4, 0, 0, 0)),
    // 107 quanta
    (&[(326, 1, &[0x6b])], (4, 0, 0, 0)),
    // TCAM block 16
    (&[(327, 1, &[0x10])], (4, 0, 0, 0)),
    // a bit past the key
    (&[(287, 1, &[3])], (4, 0, 0, 0)),
    // a TCAM row of a free cell
    (
        &[
            (290, 0, &[0, 0, 3, 0, 0, 0, 0, 0, 0, 0, 0, 0, 1]),
            (276, 1, &[3]),
        ],
        (4, 0, 0, 0),
    ),
    // a TCAM row with no mask
    (&[(302, 1, &[0])], (4, 0, 0, 0)),
    // a TCAM value outside its mask
    (&[(289, 1, &[0xfe])], (4, 0, 0, 0)),
    // TCAM row 2,048
    (&[(291, 2, &[8, 0])], (4, 0, 0, 0)),
    // a row in use that matches all
    (&[(290, 13, &[]), (276, 1, &[1])], (0, 0, 0, 0)),
    // a record of a free cell
    (
        &[
            (256, 0, &[0, 0, 1, 0, 0, 0, 0, 0, 0, 0, 0, 0, 0, 0, 0, 0, 2]),
            (238, 1, &[3]),
        ],
        (4, 0, 0, 0),
    ),
    // a bit behind the last record of a row
    (&[(243, 1, &[0x40])], (4, 0, 0, 0)),
    // a record behind the last cell
    (&[(268, 1, &[4])], (4, 0, 0, 0)),
    // a row of a counter block
    (
        &[
            (273, 0, &[1, 0, 0, 0, 0, 0, 0, 0, 0, 0, 0, 0, 0, 0, 0, 0, 1]),
            (238, 1, &[3]),
        ],
        (4, 0, 0, 0),
    ),
    // a start of 373
    (&[(303, 2, &[1, 0x75])], (6, 16, 1, 373)),
    // a start of 372
    (&[(303, 2, &[1, 0x74])], (0, 0, 0, 0)),
];

#[test]
fn read_whole(rt: HostRuntime) {
    assert!(rt; read(rt.alloc(), &STRICT_AND_WEAK) == (0, 0, 0, 0));
    assert!(rt; read(rt.alloc(), &WITHOUT_ENTRIES) == (0, 0, 0, 0));
    assert!(rt; read(rt.alloc(), &GATED) == (0, 0, 0, 0));
}

/// Compares what is read of an image with each of these changes.
fn compare(rt: &(impl Abort + AllocGlobal), image: &[u8], changes: &[Change]) -> Result<(), Fail> {
    for (number, (splices, wanted)) in changes.iter().enumerate() {
        let image = changed(rt.alloc(), image, splices)?;
        assert!(rt; read(rt.alloc(), &image) == *wanted, "row {number}");
    }
    Ok(())
}

#[test]
fn changes_of_exact(rt: HostRuntime) -> Result<(), Fail> {
    compare(&rt, &STRICT_AND_WEAK, &CHANGES_OF_EXACT)
}

#[test]
fn changes_of_gated(rt: HostRuntime) -> Result<(), Fail> {
    compare(&rt, &GATED, &CHANGES_OF_GATED)
}

/// A block that is listed twice passes the last limit, where no entry lies in it.
#[test]
fn a_doubled_block(rt: HostRuntime) {
    let mut image = WITHOUT_ENTRIES;
    image[116] = 0;
    assert!(rt; read(rt.alloc(), &image) == (6, 17, 1, 2));
}

/// Cut short behind the version, an image ends inside an item.
#[test]
fn cut_short(rt: HostRuntime) {
    for len in 6..STRICT_AND_WEAK.len() {
        assert!(rt;
            read(rt.alloc(), &STRICT_AND_WEAK[..len]).0 == 3,
            "{len} bytes"
        );
    }
    for len in 6..GATED.len() {
        assert!(rt; read(rt.alloc(), &GATED[..len]).0 == 3, "{len} bytes");
    }
}
