//! Images of version 2: each rule on names broken once, and what just keeps it.

use crate::fixtures::image_bytes::{GATED, NAMES, RANKS, STRICT_AND_WEAK, Splice, changed};
use crate::images::read;
use rmt_image::{read_image, write_image};
use rmt_tests::fixtures::images::IMAGE;
use std::alloc::{AllocError, Global};
use std::process::Abort;
use std::test::*;

/// Changes of an image, the last place first, and the code of what is read then.
type Case = (&'static [Splice], u8);

const OF_EXACT: [Case; 46] = [
    (&[], 0),
    (&[(5, 1, &[1])], 5), // bytes behind the configuration
    (&[(5, 1, &[3])], 3), // no tails behind the names
    (&[(5, 1, &[4])], 2),
    (&[(244, 0, &[0])], 5), // a byte behind the names
    (&[(198, 1, &[1])], 4), // no visible bit
    (&[(198, 1, &[3])], 4), // one visible bit
    (&[(198, 1, &[5])], 4), // the other one
    (&[(220, 24, &[0])], 4), // a table without names
    (&[(220, 1, &[0])], 5),
    (&[(220, 1, &[2])], 3),
    (&[(221, 1, &[0])], 4), // names of a table without memory
    (&[(221, 1, &[2])], 4),
    (&[(221, 1, &[3])], 4), // names of no node
    (&[(222, 5, &[0, 0, 0, 0])], 4), // a name of no byte
    (&[(222, 5, &[0, 0, 0, 2, 0x62, 0x5f])], 0),
    (&[(222, 5, &[0, 0, 0, 2, 0x62, 0x2d])], 4), // a sign in a name
    (&[(226, 1, &[0x31])], 4), // a name that begins with a digit
    (&[(222, 5, &[0, 0, 0, 2, 0x69, 0x66])], 4), // a reserved word
    (&[(222, 5, &[0, 0, 0, 4, 0x74, 0x61, 0x69, 0x6c])], 0), // `tail`, which is none in an image
    (&[(222, 4, &[0xff, 0xff, 0xff, 0xff])], 3), // a name that runs past the end
    (&[(227, 1, &[1])], 4), // prefixes in exact memory
    (&[(227, 1, &[2])], 3), // ranks that are not there
    (&[(244, 0, &[0, 0, 0, 0]), (227, 1, &[2])], 4), // ternary in exact memory
    (&[(227, 1, &[3])], 4), // a kind that is none
    (&[(228, 4, &[0, 0, 0, 0])], 4), // a size of 0
    (&[(228, 4, &[0, 0, 0, 1])], 0),
    (&[(228, 4, &[0, 0x10, 0, 0])], 0),
    (&[(228, 4, &[0, 0x10, 0, 1])], 4), // a size above 1,048,576
    (&[(232, 3, &[0, 0])], 4), // no field
    (&[(232, 3, &[0, 2, 4, 4])], 0),
    (&[(232, 3, &[0, 2, 0, 8])], 4), // a field of no bit
    (&[(234, 1, &[9])], 4), // fields of more bits than the key
    (&[(235, 9, &[0])], 4), // fewer actions than the slot says
    (
        &[(
            235,
            9,
            &[2, 0, 0, 0, 2, 0x67, 0x6f, 1, 9, 0, 0, 0, 1, 0x78, 0],
        )],
        4,
    ), // more
    (&[(240, 1, &[0x20])], 4), // a space in an action's name
    (&[(236, 6, &[0, 0, 0, 3, 0x68, 0x69, 0x74])], 4), // a reserved word
    (&[(242, 2, &[2, 4, 5])], 0),
    (&[(243, 1, &[0])], 4), // a parameter of no bit
    (&[(243, 1, &[10])], 4), // parameters of more bits than the data
    (&[(242, 2, &[0])], 0),
    (&[(130, 4, &[0xff, 0xef, 0xff, 0xff])], 0),
    (&[(130, 4, &[0xff, 0xf0, 0, 0])], 4), // a number that leaves no room for more
    (&[(197, 1, &[8])], 4), // a key that may not stand in its cell
    (&[(5, 1, &[3]), (227, 1, &[3])], 4), // a kind that is none, before tails that are not there
    (&[(5, 1, &[3]), (231, 1, &[0])], 3), // tails that are not there, before a size of 0
];

/// Two entries, of which the second may be the first one's double.
const OF_TWO: [Case; 4] = [
    // `8 go 0` in way 1, row 24
    (
        &[
            (
                199,
                0,
                &[1, 0, 24, 0, 0, 0, 0, 0, 0, 0, 0, 0, 0, 0, 0, 8, 7],
            ),
            (181, 1, &[3]),
            (134, 0, &[0, 0, 0x1c, 0xa8, 0, 0, 0, 1]),
            (125, 1, &[2]),
        ],
        0,
    ),
    // the same, above the size
    (
        &[
            (228, 4, &[0, 0, 0, 1]),
            (
                199,
                0,
                &[1, 0, 24, 0, 0, 0, 0, 0, 0, 0, 0, 0, 0, 0, 0, 8, 7],
            ),
            (181, 1, &[3]),
            (134, 0, &[0, 0, 0x1c, 0xa8, 0, 0, 0, 1]),
            (125, 1, &[2]),
        ],
        4,
    ),
    // `7 go 0` in way 1, row 792
    (
        &[
            (
                199,
                0,
                &[1, 3, 24, 0, 0, 0, 0, 0, 0, 0, 0, 0, 0, 0, 0, 7, 7],
            ),
            (181, 1, &[3]),
            (134, 0, &[0, 0, 0x31, 0xa8, 0, 0, 0, 1]),
            (125, 1, &[2]),
        ],
        4,
    ),
    // the same in version 1, where no rule speaks of it
    (
        &[
            (220, 24, &[]),
            (
                199,
                0,
                &[1, 3, 24, 0, 0, 0, 0, 0, 0, 0, 0, 0, 0, 0, 0, 7, 1],
            ),
            (198, 1, &[1]),
            (181, 1, &[3]),
            (134, 0, &[0, 0, 0x31, 0xa8, 0, 0, 0, 1]),
            (125, 1, &[2]),
            (5, 1, &[1]),
        ],
        0,
    ),
];

/// The last cases are of prefixes: without ranks, and with the kind 1.
const OF_TERNARY: [Case; 21] = [
    (&[], 0),
    (&[(460, 1, &[1])], 4), // rows against the order of ranks
    (&[(460, 1, &[2])], 4), // of one rank, against that of numbers
    (&[(444, 1, &[2])], 0), // of one rank, by number
    (&[(453, 8, &[]), (436, 1, &[2])], 4), // a rank fewer
    (&[(461, 0, &[0, 0, 0, 1, 0, 0, 0, 3]), (436, 1, &[4])], 4), // one more
    (&[(456, 1, &[2]), (448, 1, &[1])], 4), // ranks in another order than rows
    (&[(448, 1, &[7])], 4), // the rank of no entry
    (&[(420, 1, &[2])], 4), // fewer than the entries
    (&[(420, 1, &[3])], 0),
    (&[(419, 2, &[0x10, 0])], 0),
    (&[(419, 2, &[0x10, 1])], 4), // more than the rows
    (&[(433, 28, &[]), (416, 1, &[0])], 4), // exact in ternary memory
    (&[(421, 3, &[0, 2, 8, 9])], 0),
    (&[(433, 28, &[]), (416, 1, &[1])], 4), // a mask of the lowest bit
    (
        &[
            (433, 28, &[]),
            (416, 1, &[1]),
            (298, 5, &[0, 0, 1, 0xff, 0xff]),
        ],
        0,
    ), // lengths 17, 17 and 16
    (
        &[
            (433, 28, &[]),
            (421, 3, &[0, 2, 8, 9]),
            (416, 1, &[1]),
            (298, 5, &[0, 0, 1, 0xff, 0xff]),
        ],
        4,
    ), // a prefix of two fields
    (
        &[
            (433, 28, &[]),
            (416, 1, &[1]),
            (293, 10, &[0, 0, 1, 0x23, 0x45, 0, 0, 1, 0xff, 0xff]),
        ],
        4,
    ), // the same prefix twice
    (
        &[
            (433, 28, &[]),
            (416, 1, &[1]),
            (404, 5, &[0, 0, 1, 0xff, 0xff]),
            (298, 5, &[0, 0, 1, 0xff, 0xfe]),
        ],
        4,
    ), // 16 before 17
    (
        &[
            (433, 28, &[]),
            (416, 1, &[1]),
            (298, 5, &[0, 0, 1, 0xff, 0xfe]),
        ],
        4,
    ), // of one length, against the order of numbers
    (
        &[
            (433, 28, &[]),
            (416, 1, &[1]),
            (396, 13, &[]),
            (395, 1, &[0]),
            (298, 5, &[0, 0, 1, 0xff, 0xff]),
        ],
        0,
    ), // the last one of no bit
];

/// Two exact tables side by side, of nodes 1 and 2, and their names, from byte 197 on: `b` with the actions `go` and `x`,
/// of which the latter has 16 parameters of a bit, and `c` with `go`.
const TWO_TABLES: [u8; 266] = [
    0x52, 0x4d, 0x54, 0x49, 0, 2, 0, 0x40, 0, 9, 0x41, 0, 9, 0, 0, 1, 1, 0, 1, 1, 1, 1, 1, 0, 8, 0,
    1, 0, 0, 1, 0, 0, 0, 0, 0, 0, 0, 0, 0, 1, 1, 0, 2, 1, 0, 1, 1, 0, 0, 0, 1, 0, 8, 2, 0, 0, 1, 1,
    0, 0, 0, 0, 1, 0, 0, 0, 0, 0, 0, 0, 0, 0, 1, 2, 0, 8, 0, 0, 1, 0, 2, 0, 0, 0, 0, 0, 0, 0, 0, 0,
    0, 0, 0, 0, 0x0c, 2, 1, 1, 0, 0, 2, 1, 0, 0x11, 0, 1, 2, 0, 8, 1, 1, 0, 7, 1, 0, 0, 1, 2, 3, 4,
    5, 6, 7, 8, 0, 0, 0, 0, 1, 2, 0, 0, 1, 1, 0, 9, 0, 1, 2, 0, 8, 1, 1, 0, 7, 1, 0, 9, 0x0a, 0x0b,
    0x0c, 0x0d, 0x0e, 0x0f, 0, 0, 0, 0, 1, 0x41, 0, 9, 0, 1, 0, 0, 2, 0, 0, 0, 0, 0, 0, 0, 1, 2, 0,
    8, 0, 2, 0, 0, 0, 0, 2, 0, 0, 0, 0, 0, 0, 0, 0, 0, 0, 0, 0, 2, 1, 0, 0, 0, 1, 0x62, 0, 0, 0, 0,
    0x10, 0, 1, 8, 2, 0, 0, 0, 2, 0x67, 0x6f, 1, 9, 0, 0, 0, 1, 0x78, 0x10, 1, 1, 1, 1, 1, 1, 1, 1,
    1, 1, 1, 1, 1, 1, 1, 1, 2, 0, 0, 0, 1, 0x63, 0, 0, 0, 0, 0x10, 0, 1, 8, 1, 0, 0, 0, 2, 0x67,
    0x6f, 1, 9,
];

const OF_TWO_TABLES: [Case; 6] = [
    (&[], 0),
    (
        &[
            (243, 23, &[]),
            (
                198,
                0,
                &[
                    2, 0, 0, 0, 1, 0x63, 0, 0, 0, 0, 0x10, 0, 1, 8, 1, 0, 0, 0, 2, 0x67, 0x6f, 1, 9,
                ],
            ),
        ],
        4,
    ), // by falling node
    (&[(248, 1, &[0x62])], 4), // two tables of one name
    (&[(221, 5, &[0, 0, 0, 2, 0x67, 0x6f])], 4), // two actions of one name
    (&[(221, 5, &[0, 0, 0, 2, 0x67, 0x78])], 0),
    (&[(227, 0, &[1]), (226, 1, &[17])], 4), // a parameter too many
];

/// The smallest image with names of no table, and a tail: 4 bits of its byte tell 4 bytes each, without 4.
const TAILED: [u8; 106] = [
    0x52, 0x4d, 0x54, 0x49, 0, 3, 0, 0x40, 0, 9, 0x41, 0, 9, 0, 0, 1, 1, 0, 1, 1, 1, 1, 1, 0, 8, 0,
    1, 0, 0, 1, 0, 0, 0, 0, 0, 0, 0, 0, 0, 1, 1, 0, 2, 1, 0, 1, 1, 0, 0, 0, 1, 0, 8, 1, 0, 0, 1, 1,
    0, 0, 0, 0, 1, 0, 0, 0, 0, 0, 0, 0, 0, 0, 1, 0x41, 0, 9, 0, 2, 0, 0, 0, 1, 2, 0, 0, 0, 0, 0, 0,
    0, 0, 0, 0, 0, 0, 0, 0, 1, 0, 0, 0, 0, 0, 4, 4, 4,
];

const OF_TAILS: [Case; 23] = [
    (&[], 0),
    (&[(97, 1, &[0])], 4), // no tail
    (&[(98, 8, &[]), (97, 1, &[0])], 4),
    (&[(97, 1, &[2])], 3), // a second one that is not there
    (&[(106, 0, &[0, 0, 0, 0, 0, 4, 4, 4]), (97, 1, &[2])], 4), // two of one entry
    (&[(99, 1, &[1])], 4), // of no entry
    (&[(100, 1, &[1])], 4), // of no header
    (&[(102, 1, &[4])], 0),
    (&[(102, 1, &[5])], 4), // bits behind those that the entry needs
    (&[(103, 1, &[0])], 4), // no bit
    (&[(103, 3, &[8, 1, 191])], 0),
    (&[(103, 3, &[9, 1, 191])], 4), // 9 bits
    (&[(104, 1, &[0])], 4), // no unit
    (&[(105, 1, &[60])], 0), // a greatest length of 0
    (&[(105, 1, &[61])], 4), // below
    (&[(104, 2, &[5, 11])], 0), // of 64
    (&[(104, 2, &[5, 10])], 4), // above
    (&[(40, 1, &[0])], 4), // an entry that moves by less than it needs
    (&[(106, 0, &[0])], 5),
    (&[(5, 1, &[2])], 5),
    (&[(5, 1, &[1])], 5),
    (&[(5, 1, &[4])], 2),
    (&[(96, 10, &[]), (5, 1, &[2])], 0),
];

/// What is read is written back byte by byte, whichever the version.
fn comes_back(alloc: Global, image: &[u8]) -> bool {
    match read_image(alloc, image) {
        Ok(config) => match write_image(alloc, &config) {
            Ok(bytes) => bytes.as_slice() == image,
            Err(_) => false,
        },
        Err(_) => false,
    }
}

/// The code of an image with these changes, or 9 where it is read but isn't written back.
fn code_with(alloc: Global, image: &[u8], splices: &[Splice]) -> Result<u8, AllocError> {
    let image = changed(alloc, image, splices)?;
    let code = read(alloc, image.as_slice()).0;
    if code == 0 && !comes_back(alloc, image.as_slice()) {
        return Ok(9);
    }
    Ok(code)
}

/// The number of the first case whose code is another, or that of all cases.
fn first_wrong(alloc: Global, image: &[u8], cases: &[Case]) -> Result<usize, AllocError> {
    for (number, (splices, code)) in cases.iter().enumerate() {
        if code_with(alloc, image, splices)? != *code {
            return Ok(number);
        }
    }
    Ok(cases.len())
}

/// Compares what is read of an image that has its names with each case.
fn compare(
    rt: &(impl Abort + AllocGlobal),
    image: &[u8],
    names: &[Splice],
    cases: &[Case],
) -> Result<(), Fail> {
    let image = changed(rt.alloc(), image, names)?;
    let wrong = first_wrong(rt.alloc(), image.as_slice(), cases)?;
    assert!(rt; wrong == cases.len(), "row {wrong}");
    Ok(())
}

#[test]
fn names_of_an_exact_table(rt: HostRuntime) -> Result<(), Fail> {
    compare(&rt, &STRICT_AND_WEAK, &NAMES, &OF_EXACT)?;
    compare(&rt, &STRICT_AND_WEAK, &NAMES, &OF_TWO)
}

#[test]
fn names_of_two_tables(rt: HostRuntime) -> Result<(), Fail> {
    compare(&rt, &TWO_TABLES, &[], &OF_TWO_TABLES)
}

#[test]
fn names_of_a_ternary_table(rt: HostRuntime) -> Result<(), Fail> {
    compare(&rt, &GATED, &RANKS, &OF_TERNARY)
}

#[test]
fn tails(rt: HostRuntime) -> Result<(), Fail> {
    compare(&rt, &TAILED, &[], &OF_TAILS)
}

/// The code of an image that is cut at that length: inside the letters, the version, or an item.
fn code_of_cut(len: usize) -> u8 {
    match len {
        0..=3 => 1,
        4 | 5 => 2,
        _ => 3,
    }
}

/// The first length at which an image that is cut there has another code, or its own length.
fn first_not_cut(alloc: Global, image: &[u8]) -> usize {
    for len in 0..image.len() {
        if read(alloc, &image[..len]).0 != code_of_cut(len) {
            return len;
        }
    }
    image.len()
}

#[test]
fn cut_short(rt: HostRuntime) -> Result<(), Fail> {
    // with all parts: of version 3, with names of a table, and a tail
    let named = changed(rt.alloc(), &STRICT_AND_WEAK, &NAMES)?;
    let tail: [Splice; 2] = [(244, 0, &[0, 1, 0, 0, 0, 0, 0, 4, 4, 4]), (5, 1, &[3])];
    let whole = changed(rt.alloc(), named.as_slice(), &tail)?;
    assert!(rt; read(rt.alloc(), whole.as_slice()).0 == 0);
    let cut = first_not_cut(rt.alloc(), whole.as_slice());
    assert!(rt; cut == whole.len(), "{cut} bytes");
    let ranked = changed(rt.alloc(), &GATED, &RANKS)?;
    let cut = first_not_cut(rt.alloc(), ranked.as_slice());
    assert!(rt; cut == ranked.len(), "{cut} bytes");
    Ok(())
}

#[test]
fn round_trips(rt: HostRuntime) {
    assert!(rt; comes_back(rt.alloc(), &IMAGE));
    assert!(rt; comes_back(rt.alloc(), &STRICT_AND_WEAK));
    assert!(rt; comes_back(rt.alloc(), &GATED));
}
