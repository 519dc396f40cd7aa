//! Images that are read, and the codes of those in which a byte is another.

use rmt_config::config::Config;
use rmt_image::{ImageFault, read_image};
use rmt_tests::fixtures::images::IMAGE;
use std::alloc::{AllocError, Global};
use std::test::*;

/// A place, the byte that stands there instead, and the code of the image that is read then.
const BROKEN: [(usize, u8, u8); 55] = [
    (0, 0x53, 1),
    (3, 0x48, 1),
    (4, 1, 2),
    (5, 0, 2),
    (5, 2, 3), // names that are not there
    (5, 3, 3),
    (5, 4, 2),
    (7, 224, 4), // a word that is none
    (8, 8, 4), // a lane that leaves its word
    (9, 8, 4), // a port of entry of 8 bits
    (12, 8, 4), // a port of exit of 8 bits
    (15, 0, 4), // a lane of no bit
    (15, 2, 4), // a drop of 2 bits
    (16, 65, 4), // 65 headers
    (19, 2, 4), // a valid of 2 bits
    (20, 0, 4), // a header of no byte
    (20, 65, 4), // a header of 65 bytes
    (20, 2, 4), // a header with a byte in no lane
    (24, 33, 4), // a lane of 33 bits
    (26, 0, 4), // no state
    (26, 2, 4), // two states
    (27, 1, 4), // a lookup
    (30, 1, 4), // an entry of a state that is none
    (34, 1, 4), // a value outside the mask
    (38, 1, 4), // a mask on an absent byte
    (40, 2, 4), // an advance above the need
    (41, 2, 4), // a next state that is none
    (41, 3, 4), // a next that is none
    (43, 2, 4), // an extract of no kind
    (46, 2, 4), // the bit 1 into 2 bits
    (49, 1, 4), // bits behind those that are needed
    (55, 1, 4), // a first start of 1
    (57, 0, 4), // a gate
    (57, 2, 4), // a unit that is none
    (59, 1, 4), // a guard
    (60, 1, 4), // counts without memory
    (60, 2, 4), // a flag of 2
    (61, 1, 4), // an action without memory
    (61, 15, 4), // 15 actions
    (62, 0, 4), // a part without memory that is not the last
    (62, 2, 4), // a flag of 2
    (64, 1, 4), // data without memory
    (66, 1, 4), // a key without memory
    (67, 1, 4), // exact memory
    (67, 3, 4), // a memory that is none
    (71, 1, 4), // a number without memory
    (73, 224, 4), // an operation on a word that is none
    (75, 17, 4), // an operation that leaves its word
    (76, 6, 4), // an operation of no kind
    (77, 1, 4), // a data source of a default
    (77, 3, 4), // a source of no kind
    (80, 2, 4), // a constant above the operation's bits
    (82, 0, 4), // a Copy of two sources
    (86, 1, 4), // a Copy with another second constant
    (90, 1, 3), // a row that is not there
];

/// The code of the smallest image where one byte is greater by 1, for each byte.
const NEXT_BYTE: [u8; 95] = [
    1, 1, 1, 1, 2, 3, 0, 0, 0, 4, 0, 0, 4, 0, 0, 4, 4, 0, 0, 4, 4, 4, 0, 4, 4, 4, 4, 4, 4, 4, 4, 4,
    4, 4, 4, 4, 4, 4, 4, 0, 4, 0, 3, 4, 0, 0, 4, 4, 4, 4, 0, 4, 4, 3, 4, 4, 4, 4, 0, 4, 4, 4, 4, 4,
    4, 4, 4, 4, 4, 4, 4, 4, 4, 0, 0, 0, 0, 4, 4, 4, 0, 0, 4, 4, 4, 4, 4, 3, 3, 3, 3, 3, 3, 3, 3,
];

/// The code of an answer, 0 for Ok and 7 for want of memory; for the limits the number and the stage too.
fn code_of(answer: Result<Config, ImageFault>) -> (u8, u8, u8, u32) {
    match answer {
        Ok(_) => (0, 0, 0, 0),
        Err(ImageFault::Magic) => (1, 0, 0, 0),
        Err(ImageFault::Version) => (2, 0, 0, 0),
        Err(ImageFault::Short) => (3, 0, 0, 0),
        Err(ImageFault::Form) => (4, 0, 0, 0),
        Err(ImageFault::Trailing) => (5, 0, 0, 0),
        Err(ImageFault::Limit(hit)) => (6, hit.limit, hit.stage, hit.sum),
        Err(ImageFault::NoMemory) => (7, 0, 0, 0),
    }
}

/// What is read of an image: the code, and for a limit its number, the stage and the sum.
pub fn read(alloc: Global, image: &[u8]) -> (u8, u8, u8, u32) {
    code_of(read_image(alloc, image))
}

#[test]
fn smallest(rt: HostRuntime) {
    assert!(rt; read(rt.alloc(), &IMAGE).0 == 0);
}

#[test]
fn broken_bytes(rt: HostRuntime) {
    for &(place, byte, code) in &BROKEN {
        let mut image = IMAGE;
        assert!(rt; place < 95);
        image[place] = byte;
        assert!(rt;
            read(rt.alloc(), &image).0 == code,
            "byte {place} is {byte}"
        );
    }
}

#[test]
fn each_byte_changed(rt: HostRuntime) {
    for (place, code) in NEXT_BYTE.iter().enumerate() {
        let mut image = IMAGE;
        assert!(rt; place < 95);
        image[place] = image[place].wrapping_add(1);
        assert!(rt; read(rt.alloc(), &image).0 == *code, "byte {place}");
    }
}

#[test]
fn cut_short(rt: HostRuntime) {
    for len in 0..95usize {
        let code = if len < 4 {
            1
        } else if len < 6 {
            2
        } else {
            3
        };
        assert!(rt; read(rt.alloc(), &IMAGE[..len]).0 == code, "{len} bytes");
    }
}

/// Adds a stage of that start with copies of the smallest image's slot; `node` is the first one's node, and then the next.
fn push_stage(image: &mut Vec<u8>, start: u16, slots: u8, node: &mut u8) -> Result<(), AllocError> {
    let [high, low] = start.to_be_bytes();
    image.extend_from_slice(&[high, low, slots])?;
    for _ in 0..slots {
        push_all(image, &[&[1, *node], &IMAGE[59..72]])?;
        *node = node.wrapping_add(1);
    }
    for _ in 0..slots {
        image.extend_from_slice(&IMAGE[72..87])?;
    }
    image.extend_from_slice(&IMAGE[87..95])
}

/// An image of the smallest one's parts: that many copies of the entry and of the stage's slots and stages.
fn image_of(
    alloc: Global,
    entries: u16,
    stages: u8,
    slots: u8,
    apart: u16,
) -> Result<Vec<u8>, AllocError> {
    let mut image = Vec::from_slice(alloc, &IMAGE[..28])?;
    image.extend_from_slice(&entries.to_be_bytes())?;
    for _ in 0..entries {
        image.extend_from_slice(&IMAGE[30..53])?;
    }
    image.push(stages)?;
    let mut node: u8 = 0;
    for stage in 0..stages {
        push_stage(
            &mut image,
            u16::from(stage).wrapping_mul(apart),
            slots,
            &mut node,
        )?;
    }
    Ok(image)
}

/// How many entries, stages and slots of a stage, how far stages stand apart, and what is read.
const MANY: [(u16, u8, u8, u16, (u8, u8, u8, u32)); 11] = [
    (1, 1, 1, 0, (0, 0, 0, 0)),
    (256, 32, 4, 12, (0, 0, 0, 0)),
    (1, 33, 1, 1, (6, 1, 0, 33)),
    (257, 33, 1, 1, (6, 1, 0, 33)),
    (257, 1, 1, 1, (6, 3, 0, 257)),
    (1, 2, 17, 1, (6, 10, 0, 17)),
    (1, 3, 43, 1, (6, 10, 0, 43)),
    (1, 13, 10, 1, (6, 14, 12, 130)),
    (1, 2, 1, 373, (6, 16, 1, 373)),
    (1, 2, 1, 0, (4, 0, 0, 0)), // starts that stay
    (1, 2, 129, 1, (4, 0, 0, 0)), // 257 units with one node twice
];

#[test]
fn limits(rt: HostRuntime) -> Result<(), Fail> {
    for &(entries, stages, slots, apart, answer) in &MANY {
        let image = image_of(rt.alloc(), entries, stages, slots, apart)?;
        assert!(rt; read(rt.alloc(), &image) == answer);
    }
    Ok(())
}

#[test]
fn needs(rt: HostRuntime) {
    for &(need, answer) in &[(128, (0, 0, 0, 0)), (129, (6, 5, 0, 129))] {
        let mut image = IMAGE;
        image[39] = need;
        assert!(rt; read(rt.alloc(), &image) == answer);
    }
}

/// What stands behind the first bytes of the smallest image, how many those are, and the code that is read.
const ENDINGS: [(usize, &[u8], u8); 4] = [
    (95, &[0], 5),
    // a row in a block that no slot has
    (
        87,
        &[
            0, 0, 0, 1, 5, 0, 0, 1, 1, 1, 1, 1, 1, 1, 1, 1, 1, 1, 1, 1, 1, 0, 0, 0, 0,
        ],
        4,
    ),
    // behind it a byte too many comes first
    (
        87,
        &[
            0, 0, 0, 1, 5, 0, 0, 1, 1, 1, 1, 1, 1, 1, 1, 1, 1, 1, 1, 1, 1, 0, 0, 0, 0, 0,
        ],
        5,
    ),
    // two operations on one word
    (
        72,
        &[
            2, 0x41, 0, 9, 0, 2, 0, 0, 0, 1, 2, 0, 0, 0, 0, 0x41, 0, 9, 0, 2, 0, 0, 0, 1, 2, 0, 0,
            0, 0, 0, 0, 0, 0, 0, 0, 0, 0,
        ],
        4,
    ),
];

#[test]
fn endings(rt: HostRuntime) -> Result<(), Fail> {
    for &(len, bytes, code) in &ENDINGS {
        assert!(rt; len <= 95);
        let mut image = Vec::from_slice(rt.alloc(), &IMAGE[..len])?;
        image.extend_from_slice(bytes)?;
        assert!(rt; read(rt.alloc(), &image).0 == code);
    }
    Ok(())
}

/// Adds parts to an image.
fn push_all(image: &mut Vec<u8>, parts: &[&[u8]]) -> Result<(), AllocError> {
    for part in parts {
        image.extend_from_slice(part)?;
    }
    Ok(())
}

/// The code of two stages of the smallest image, the second of which has that node and a guard on the first, and sends to
/// port 2.
fn guarded(alloc: Global, node: u8, guard: &[u8]) -> Result<u8, AllocError> {
    let mut image = Vec::new(alloc);
    let parts: [&[u8]; 9] = [
        &IMAGE[..53],
        &[2, 0, 0, 1, 1, 0, 0],
        &IMAGE[60..95],
        &[0, 12, 1, 1],
        &[node],
        guard,
        &IMAGE[60..81],
        &[2],
        &IMAGE[82..95],
    ];
    push_all(&mut image, &parts)?;
    Ok(read(alloc, &image).0)
}

/// The node of the second stage, its guard, and the code that is read.
const GUARDS: [(u8, &[u8], u8); 7] = [
    (1, &[0], 0),
    (1, &[1, 0, 0, 2], 0),
    (1, &[1, 0, 0, 4], 0),
    (1, &[1, 0, 0, 1], 4), // outcome 0
    (1, &[1, 1, 0, 2], 4), // the node itself
    (1, &[1, 2, 0, 2], 4), // a node that is none
    (0, &[0], 4), // two tables of one node
];

#[test]
fn guards(rt: HostRuntime) -> Result<(), Fail> {
    for &(node, guard, code) in &GUARDS {
        assert!(rt; guarded(rt.alloc(), node, guard)? == code);
    }
    Ok(())
}
