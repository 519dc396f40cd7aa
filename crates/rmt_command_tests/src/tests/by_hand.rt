//! Images and maps that no command writes, and what `verify` tells of them: formats, cells, blocks, words and stages that no
//! rule chooses, and the placement of a better placer.

use crate::fixtures::cases::{COMPILE_MAPPED, Told, VERIFY, ends, file_of, tells};
use crate::fixtures::commands::{STEADY, put, run_over, shelf_of};
use crate::fixtures::programs::better_order;
use rmt_core::status::Status;
use rmt_io::mem_shelf::MemShelf;
use rmt_tests::fixtures::programs::STRICT_AND_WEAK;
use std::alloc::{AllocError, Global};
use std::test::*;

// ---- pieces of images of the program with the entry `b 7 go 5`

/// The letters, before the version.
const LETTERS: &[u8] = b"RMTI\x00";

/// The seed, the ports, the header, and the parser.
const FRONT: &[u8] = &[
    0, 0x40, 0, 9, 0x41, 0, 9, 0, 0, 1, 1, 0, 1, 1, 1, 1, 1, 0, 8, 0, 1, 0, 0, 1, 0, 0, 0, 0, 0, 0,
    0, 0, 0, 1, 1, 0, 2, 1, 0, 1, 1, 0, 0, 0, 1, 0, 8,
];

/// Stage 0: the slot of `a`, whose default copies word 1 to word 2.
const COPIES: &[u8] = &[
    0, 0, 1, 1, 0, 0, 0, 0, 1, 0, 0, 0, 0, 0, 0, 0, 0, 0, 1, 2, 0, 8, 0, 0, 1, 0, 2, 0, 0, 0, 0, 0,
    0, 0, 0, 0, 0, 0, 0,
];

/// The same with 8 bits of word 100, from bit 3 on, in the place of word 2.
const COPIES_THERE: &[u8] = &[
    0, 0, 1, 1, 0, 0, 0, 0, 1, 0, 0, 0, 0, 0, 0, 0, 0, 0, 1, 100, 3, 8, 0, 0, 1, 0, 2, 0, 0, 0, 0,
    0, 0, 0, 0, 0, 0, 0, 0,
];

/// The slot of `b` before its memory, as its table's last part: one action, 9 bits of data, and the key in word 2.
const LOOKS: &[u8] = &[1, 1, 0, 0, 1, 1, 0, 9, 0, 1, 2, 0, 8];

/// The same as a part that isn't the last.
const LOOKS_FIRST: &[u8] = &[1, 1, 0, 0, 1, 0, 0, 9, 0, 1, 2, 0, 8];

/// The same with the key in word 100.
const LOOKS_THERE: &[u8] = &[1, 1, 0, 0, 1, 1, 0, 9, 0, 1, 100, 3, 8];

/// The slot of `c`.
const CLEARS: &[u8] = &[1, 2, 0, 0, 0, 1, 0, 0, 0, 0, 0, 0, 0, 0, 0];

/// The instructions of `b`: the port is set from the data, and by default nothing is.
const GOES: &[u8] = &[1, 65, 0, 9, 0, 1, 0, 0, 2, 0, 0, 0, 0, 0];

/// The default of `c`, which sets word 2 to 0.
const CLEARED: &[u8] = &[1, 2, 0, 8, 0, 2, 0, 0, 0, 0, 2, 0, 0, 0, 0];

/// The same of word 100.
const CLEARED_THERE: &[u8] = &[1, 100, 3, 8, 0, 2, 0, 0, 0, 0, 2, 0, 0, 0, 0];

/// No rows of SRAM and of TCAM.
const NO_ROWS: &[u8] = &[0, 0, 0, 0, 0, 0, 0, 0];

/// The memory that the rule chooses: 7 cells in a row of one block, and the entry in the first cell of row 792.
const BY_RULE: &[u8] = &[
    1, 1, 0, 7, 1, 0, 0, 1, 2, 3, 4, 5, 6, 0, 0, 0, 1, 0, 0, 0x15, 0xa8, 0, 0, 0, 0,
];

/// Its rows: the entry's, and that of its record.
const ROWS_BY_RULE: &[u8] = &[
    0, 0, 0, 2, 0, 3, 0x18, 0, 0, 0, 0, 0, 0, 0, 0, 0, 0, 0, 0, 7, 7, 4, 1, 0xce, 0, 0, 0, 0, 0, 0,
    0, 0, 0, 0, 0, 0, 0, 5, 0, 0, 0, 0,
];

/// The name of `b`, its key's width and its action.
const NAMES: &[u8] = &[
    1, 1, 0, 0, 0, 1, b'b', 0, 0, 0, 0, 16, 0, 1, 8, 1, 0, 0, 0, 2, b'g', b'o', 1, 9,
];

// ---- pieces of maps

/// The letters, and the lanes of the ports, of `drop`, and of the header's two fields.
const PLACES: &[u8] = &[
    b'R', b'M', b'T', b'M', 0, 1, 0, 0, 0, 6, 1, 64, 0, 9, 1, 65, 0, 9, 1, 0, 0, 1, 1, 0, 1, 1, 1,
    1, 0, 8,
];

/// `meta.x` in word 2, and no join.
const HERE: &[u8] = &[1, 2, 0, 8, 0, 0];

/// `meta.x` in word 100, and no join.
const THERE: &[u8] = &[1, 100, 3, 8, 0, 0];

/// `a` in stage 0, `b` and `c` in stage 1, which starts in cycle 12, and one entry there.
const IN_TWO_STAGES: &[u8] = &[
    0, 3, 0, 0, 0, 1, 1, 1, 0, 1, 2, 1, 0, 1, 2, 0, 0, 0, 12, 0, 0, 0, 1, 0, 0, 0, 0, 1, 0, 0,
];

/// The cell that the rule chooses.
const CELL_BY_RULE: &[u8] = &[0x15, 0xa8];

// ---- formats

/// The memory of `b`, its rows, its entry's cell as the map tells it, and what is told.
const FORMATS: [(&[u8], &[u8], &[u8], &str); 6] = [
    (BY_RULE, ROWS_BY_RULE, CELL_BY_RULE, "yes\n"),
    // 6 cells in a row, the entry in the last one, and the blocks from the last one down
    (
        &[
            1, 1, 0, 6, 1, 0, 105, 104, 103, 102, 1, 0, 0, 0, 0, 1, 0, 0, 0x12, 0x95, 0, 0, 0, 0,
        ],
        &[
            0, 0, 0, 2, 1, 1, 0x8c, 0, 0, 0, 0, 0, 0, 0, 0, 0xa0, 0, 0, 0, 0, 0, 105, 3, 0x18, 0,
            0, 7, 7, 0, 0, 0, 0, 0, 0, 0, 0, 0, 0, 0, 0, 0, 0,
        ],
        &[0x12, 0x95],
        "yes\n",
    ),
    // 14 cells in a row of two blocks, and the entry in the last one
    (
        &[
            1, 2, 0, 14, 1, 0, 0, 1, 2, 3, 4, 5, 6, 7, 8, 9, 10, 11, 12, 0, 0, 0, 1, 0, 0, 0x2b,
            0x5d, 0, 0, 0, 0,
        ],
        &[
            0, 0, 0, 2, 1, 3, 0x18, 7, 7, 0, 0, 0, 0, 0, 0, 0, 0, 0, 0, 0, 0, 8, 3, 0x9d, 0, 0, 0,
            0, 0, 0, 0, 0, 0, 0, 0, 0, 10, 0, 0, 0, 0, 0,
        ],
        &[0x2b, 0x5d],
        "yes\n",
    ),
    // the rule's format, and the entry in the fourth cell of the row of way 2
    (
        &[
            1, 1, 0, 7, 1, 0, 0, 1, 2, 3, 4, 5, 6, 0, 0, 0, 1, 0, 0, 0x4d, 0xab, 0, 0, 0, 0,
        ],
        &[
            0, 0, 0, 2, 2, 3, 0x18, 0, 0, 0, 0, 0, 0, 7, 7, 0, 0, 0, 0, 0, 0, 5, 2, 0x78, 0, 0x28,
            0, 0, 0, 0, 0, 0, 0, 0, 0, 0, 0, 0, 0, 0, 0, 0,
        ],
        &[0x4d, 0xab],
        "yes\n",
    ),
    // a map of another cell, and no entry
    (BY_RULE, ROWS_BY_RULE, &[0x4d, 0xab], "no 4\n"),
    (
        &[1, 1, 0, 7, 1, 0, 0, 1, 2, 3, 4, 5, 6, 0, 0, 0, 0],
        NO_ROWS,
        CELL_BY_RULE,
        "no 4\n",
    ),
];

// ---- placements

/// An image of version 1, which has no names and no visible bit in its cells, of two stages up to the memory of `b`.
const UNNAMED: &[&[u8]] = &[&[1], FRONT, &[2], COPIES, &[0, 12, 2], LOOKS];

/// An image of two stages, up to the memory of `b`.
const NAMED: &[&[u8]] = &[&[2], FRONT, &[2], COPIES, &[0, 12, 2], LOOKS];

/// What stands in two stages behind the memory of `b`, before the rows.
const BESIDE: &[&[u8]] = &[CLEARS, GOES, CLEARED];

/// An image of three stages, up to the second.
const THREE_STAGES: &[&[u8]] = &[&[2], FRONT, &[3], COPIES];

/// `b` alone in stage 1, which starts in cycle 12.
const B_ALONE: &[&[u8]] = &[&[0, 12, 1], LOOKS, BY_RULE, GOES, ROWS_BY_RULE];

/// `c` alone in the last stage, behind its start, and the names.
const C_ALONE: &[&[u8]] = &[&[1], CLEARS, CLEARED, NO_ROWS, NAMES];

/// The map of a table a stage, which start in the cycles 0, 12 and 13.
const IN_THREE_STAGES: &[u8] = &[
    0, 3, 0, 0, 0, 1, 1, 1, 0, 1, 2, 2, 0, 1, 3, 0, 0, 0, 12, 0, 13, 0, 0, 0, 1, 0, 0, 0, 0, 1, 0,
    0,
];

/// The memory of a part without an entry.
const NO_ENTRY: &[u8] = &[1, 1, 0, 7, 1, 0, 0, 1, 2, 3, 4, 5, 6, 0, 0, 0, 0];

/// The memory of a part whose ways are 4 to 7, with the entry.
const IN_LATER_WAYS: &[u8] = &[
    1, 1, 0, 7, 1, 4, 0, 1, 2, 3, 4, 5, 6, 0, 0, 0, 1, 0, 0, 0x15, 0xa8, 0, 0, 0, 0,
];

/// The pieces of an image behind its letters, in groups, those of its map behind its first lanes, and what is told.
type Row = (
    &'static [&'static [&'static [u8]]],
    &'static [&'static [u8]],
    &'static str,
);

const PLACEMENTS: [Row; 7] = [
    // an image without names
    (
        &[
            UNNAMED,
            &[BY_RULE],
            BESIDE,
            &[&[
                0, 0, 0, 2, 0, 3, 0x18, 0, 0, 0, 0, 0, 0, 0, 0, 0, 0, 0, 0, 7, 1, 4, 1, 0xce, 0, 0,
                0, 0, 0, 0, 0, 0, 0, 0, 0, 0, 0, 5, 0, 0, 0, 0,
            ]],
        ],
        &[HERE, IN_TWO_STAGES, CELL_BY_RULE],
        "yes\n",
    ),
    // the same with the entry in row 0, where its key isn't looked for
    (
        &[
            UNNAMED,
            &[&[
                1, 1, 0, 7, 1, 0, 0, 1, 2, 3, 4, 5, 6, 0, 0, 0, 1, 0, 0, 0, 0, 0, 0, 0, 0,
            ]],
            BESIDE,
            &[&[
                0, 0, 0, 2, 0, 0, 0, 0, 0, 0, 0, 0, 0, 0, 0, 0, 0, 0, 0, 7, 1, 4, 0, 0, 0, 0, 0, 0,
                0, 0, 0, 0, 0, 0, 0, 0, 0, 5, 0, 0, 0, 0,
            ]],
        ],
        &[HERE, IN_TWO_STAGES, &[0, 0]],
        "no 4\n",
    ),
    // `meta.x` in another word
    (
        &[
            &[&[2], FRONT, &[2], COPIES_THERE, &[0, 12, 2], LOOKS_THERE],
            &[BY_RULE, CLEARS, GOES, CLEARED_THERE, ROWS_BY_RULE, NAMES],
        ],
        &[THERE, IN_TWO_STAGES, CELL_BY_RULE],
        "yes\n",
    ),
    // `c` in a stage of its own
    (
        &[THREE_STAGES, B_ALONE, &[&[0, 13]], C_ALONE],
        &[HERE, IN_THREE_STAGES, CELL_BY_RULE],
        "yes\n",
    ),
    // the same, but that its stage starts in another cycle than the map tells
    (
        &[THREE_STAGES, B_ALONE, &[&[0, 14]], C_ALONE],
        &[HERE, IN_THREE_STAGES, CELL_BY_RULE],
        "no 3\n",
    ),
    // `b` in two stages, of which the second has the entry, in ways 4 to 7
    (
        &[
            THREE_STAGES,
            &[&[0, 12, 1], LOOKS_FIRST, NO_ENTRY, GOES, NO_ROWS],
            &[&[0, 13, 2], LOOKS, IN_LATER_WAYS],
            BESIDE,
            &[ROWS_BY_RULE, NAMES],
        ],
        &[
            HERE,
            &[
                0, 4, 0, 0, 0, 1, 2, 2, 0, 1, 1, 2, 0, 1, 1, 1, 0, 1, 3, 0, 0, 0, 12, 0, 13, 0, 0,
                0, 1, 0, 0, 0, 0, 2, 0, 0,
            ],
            CELL_BY_RULE,
        ],
        "yes\n",
    ),
    // `c` beside the first part of `b`, before the second has looked
    (
        &[
            THREE_STAGES,
            &[&[0, 12, 2], LOOKS_FIRST, NO_ENTRY],
            BESIDE,
            &[NO_ROWS, &[0, 13, 1], LOOKS, IN_LATER_WAYS],
            &[GOES, ROWS_BY_RULE, NAMES],
        ],
        &[
            HERE,
            &[
                0, 4, 0, 0, 0, 1, 1, 1, 0, 1, 1, 2, 0, 1, 2, 1, 0, 1, 3, 0, 0, 0, 12, 0, 13, 0, 0,
                0, 1, 0, 0, 0, 0, 2, 0, 0,
            ],
            CELL_BY_RULE,
        ],
        "no 6\n",
    ),
];

/// Puts pieces of bytes behind what is there.
fn join(bytes: &mut Vec<u8>, pieces: &[&[u8]]) -> Result<(), AllocError> {
    for piece in pieces {
        bytes.extend_from_slice(*piece)?;
    }
    Ok(())
}

/// An image in groups of pieces, behind what all of them begin with.
fn image_in(alloc: Global, groups: &[&[&[u8]]]) -> Result<Vec<u8>, AllocError> {
    let mut image = Vec::from_slice(alloc, LETTERS)?;
    for pieces in groups {
        join(&mut image, *pieces)?;
    }
    Ok(image)
}

/// A map in pieces, behind what all of them begin with.
fn map_in(alloc: Global, pieces: &[&[u8]]) -> Result<Vec<u8>, AllocError> {
    let mut map = Vec::from_slice(alloc, PLACES)?;
    join(&mut map, pieces)?;
    Ok(map)
}

/// Whether `verify` of an image and a map, both in pieces behind what all of them begin with, tells this.
fn is_told(alloc: Global, image: &[&[&[u8]]], map: &[&[u8]], wanted: &str) -> Result<bool, Fail> {
    let image = image_in(alloc, image)?;
    let map = map_in(alloc, map)?;
    let files = [
        ("p", STRICT_AND_WEAK),
        ("e", b"b 7 go 5\n".as_slice()),
        ("i", image.as_slice()),
        ("m", map.as_slice()),
    ];
    ends(alloc, &files, VERIFY, Status::Done, Told::Is(wanted))
}

#[test]
fn other_formats(rt: HostRuntime) -> Result<(), Fail> {
    for (number, &(memory, rows, cell, wanted)) in FORMATS.iter().enumerate() {
        let image: [&[&[u8]]; 4] = [NAMED, &[memory], BESIDE, &[rows, NAMES]];
        let map = [HERE, IN_TWO_STAGES, cell];
        assert!(rt; is_told(rt.alloc(), &image, &map, wanted)?, "row {number}");
    }
    Ok(())
}

#[test]
fn other_placements(rt: HostRuntime) -> Result<(), Fail> {
    for (number, &(image, map, wanted)) in PLACEMENTS.iter().enumerate() {
        assert!(rt; is_told(rt.alloc(), image, map, wanted)?, "row {number}");
    }
    Ok(())
}

// ---- a better placer

/// How many bytes of the map of the better order's program are behind its joins where it is placed by the rule: 18 parts,
/// three starts, and no cell.
const BY_THE_RULE: usize = 85;

/// The map of a program of 18 nodes with other parts, in two stages: `z` and all but the last of the others in stage 0,
/// and the last and `y` in stage 1, which starts in cycle 3.
fn in_two_stages(alloc: Global, map: &[u8]) -> Result<Vec<u8>, AllocError> {
    let front = map.len().saturating_sub(BY_THE_RULE);
    let mut other = Vec::from_slice(alloc, &map[..front])?;
    other.extend_from_slice(&[0, 18])?;
    for node in 0..18u8 {
        let stage = if node == 15 || node == 17 { 1 } else { 0 };
        other.extend_from_slice(&[node, stage, 0, 1])?;
    }
    other.extend_from_slice(&[2, 0, 0, 0, 3, 0, 0, 0, 0])?;
    Ok(other)
}

/// A shelf with the images `i` of `compile` and `j` of `improve`, and their maps `m` and `n`.
fn two_placements(alloc: Global) -> Result<MemShelf, Fail> {
    let program = better_order(alloc)?;
    let files = [("p", program.as_slice()), ("e", b"".as_slice())];
    let mut shelf = shelf_of(alloc, &files, STEADY)?;
    run_over(alloc, COMPILE_MAPPED, &mut shelf, STEADY)?;
    run_over(alloc, &["improve", "p", "e", "j", "2"], &mut shelf, STEADY)?;
    let map = file_of(alloc, &shelf, "m")?;
    let other = in_two_stages(alloc, map.as_slice())?;
    put(alloc, &mut shelf, "n", other.as_slice())?;
    Ok(shelf)
}

/// Words that verify an image and a map, and what is told.
const BETTER: &[(&[&str], &str)] = &[
    (&["verify", "p", "e", "i", "m"], "yes\n"),
    (&["verify", "p", "e", "j", "n"], "yes\n"),
    (&["verify", "p", "e", "i", "n"], "no 3\n"),
    (&["verify", "p", "e", "j", "m"], "no 3\n"),
];

/// What `improve` wrote has the map of its own placement, and not that of `compile`, whose image has that one alone.
#[test]
fn better_placement(rt: HostRuntime) -> Result<(), Fail> {
    let mut shelf = two_placements(rt.alloc())?;
    for (number, &(words, wanted)) in BETTER.iter().enumerate() {
        let told = Told::Is(wanted);
        let is_told = tells(rt.alloc(), words, &mut shelf, STEADY, Status::Done, told)?;
        assert!(rt; is_told, "row {number}");
    }
    Ok(())
}
