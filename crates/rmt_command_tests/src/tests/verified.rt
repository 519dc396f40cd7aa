//! What `verify` tells of what `compile` writes with a map, of maps and images that are changed, and of bytes that are none.

use crate::fixtures::cases::{
    COMPILE, COMPILE_MAPPED, Case, Told, VERIFY, are_alike, are_same, file_of, has_file, holds,
    tells,
};
use crate::fixtures::commands::{STEADY, put, run_on, run_over, shelf_of};
use crate::fixtures::programs::*;
use rmt_core::status::Status;
use rmt_io::mem_shelf::MemShelf;
use rmt_tests::fixtures::programs::{REALISTIC, REALISTIC_ENTRIES, STRICT_AND_WEAK};
use std::alloc::Global;
use std::test::*;

/// The map of the smallest program: its five fields, no join, the part of its node, the start of its stage, and no cell.
const SMALLEST_MAP: [u8; 45] = [
    0x52, 0x4d, 0x54, 0x4d, 0, 1, 0, 0, 0, 5, 1, 0x40, 0, 9, 1, 0x41, 0, 9, 1, 0, 0, 1, 1, 0, 1, 1,
    1, 1, 0, 8, 0, 0, 0, 1, 0, 0, 0, 1, 1, 0, 0, 0, 0, 0, 0,
];

/// From a place of the map on, how many bytes are left out, the bytes that stand there instead, how `verify` ends, and
/// what it prints.
type Change = (usize, usize, &'static [u8], Status, &'static str);

const CHANGED: [Change; 11] = [
    (0, 0, &[], Status::Done, "yes\n"),
    (15, 1, &[0x42], Status::Done, "no 1\n"), // out_port in another word
    (13, 1, &[8], Status::Done, "no 1\n"), // in_port of 8 bits
    (30, 2, &[0, 1, 0, 0, 0], Status::Done, "no 2\n"), // a join that can't be made
    (35, 1, &[1], Status::Done, "no 3\n"), // a part in a stage that is none
    (30, 6, &[0, 1, 0, 0, 0, 0, 1, 0, 1], Status::Done, "no 2\n"), // both
    (40, 1, &[1], Status::Done, "no 3\n"), // another start
    (
        41,
        4,
        &[0, 0, 0, 1, 0, 0, 0, 0, 0, 0, 0, 0, 0],
        Status::Done,
        "no 4\n",
    ), // a cell that is none
    (44, 1, &[], Status::BadImage, "bad image 7\n"), // a byte less
    (45, 0, &[0], Status::BadImage, "bad image 7\n"), // a byte more
    (3, 1, &[0x49], Status::BadImage, "bad image 7\n"), // the letters of an image
];

/// A map that is changed so.
fn changed(alloc: Global, at: usize, out: usize, bytes: &[u8]) -> Result<Vec<u8>, Fail> {
    let mut map = Vec::new(alloc);
    for (number, byte) in SMALLEST_MAP.iter().enumerate() {
        if number == at {
            map.extend_from_slice(bytes)?;
        }
        if number < at || number - at >= out {
            map.push(*byte)?;
        }
    }
    if SMALLEST_MAP.len() <= at {
        map.extend_from_slice(bytes)?;
    }
    Ok(map)
}

/// Whether `verify` of the smallest program, its image and a changed map ends so.
fn is_told(alloc: Global, change: &Change) -> Result<bool, Fail> {
    let (at, out, bytes, status, printed) = *change;
    let map = changed(alloc, at, out, bytes)?;
    let files = [
        ("p", SMALLEST),
        ("e", b"".as_slice()),
        ("m", map.as_slice()),
    ];
    let case = Case {
        before: &[COMPILE],
        words: VERIFY,
        outside: STEADY,
        status,
        told: Told::Is(printed),
    };
    holds(alloc, &files, case)
}

#[test]
fn smallest(rt: HostRuntime) -> Result<(), Fail> {
    for (number, change) in CHANGED.iter().enumerate() {
        assert!(rt; is_told(rt.alloc(), change)?, "row {number}");
    }
    Ok(())
}

/// Words over the smallest program, its image and its map, and how they end.
const REFUSED: &[(&[&str], Status)] = &[
    (&["verify", "a", "b", "c", "d"], Status::ReadFault),
    (&["verify", "p", "e", "i", "a"], Status::ReadFault),
    (&["verify", "m", "p", "m", "m"], Status::BadProgram),
    (&["verify", "p", "p", "m", "m"], Status::BadEntries),
    (&["verify", "p", "e", "m", "p"], Status::BadImage),
    (&["verify", "p", "e", "i", "i"], Status::BadImage),
];

const MAPPED_FILES: &[(&str, &[u8])] = &[("p", SMALLEST), ("e", b""), ("m", &SMALLEST_MAP)];

/// Which file is bad is told in the order of the words, and a bad image before a bad map.
#[test]
fn order_of_refusals(rt: HostRuntime) -> Result<(), Fail> {
    for (number, &(words, status)) in REFUSED.iter().enumerate() {
        let case = Case {
            before: &[COMPILE],
            words,
            outside: STEADY,
            status,
            told: Told::Any,
        };
        assert!(rt; holds(rt.alloc(), MAPPED_FILES, case)?, "row {number}");
    }
    Ok(())
}

/// Whether `compile` with a map prints what it prints without one and writes that image, and `verify` of the four files then
/// tells this.
fn is_verified(alloc: Global, program: &[u8], entries: &str, wanted: &str) -> Result<bool, Fail> {
    let files = [("p", program), ("e", entries.as_bytes())];
    let mut shelf = shelf_of(alloc, &files, STEADY)?;
    let alone = ["compile", "p", "e", "o"];
    let are_alike = are_alike(alloc, &alone, COMPILE_MAPPED, &mut shelf)?;
    let are_same = are_same(alloc, &shelf, "o", "i")?;
    let is_told = tells(
        alloc,
        VERIFY,
        &mut shelf,
        STEADY,
        Status::Done,
        Told::Is(wanted),
    )?;
    Ok(are_alike && are_same && is_told)
}

/// Programs with their entries.
const PROGRAMS: &[(&[u8], &str)] = &[
    (SMALLEST, ""),
    (NO_STAGE, ""),
    (TWO_FIELDS, ""),
    (PREFIX, PREFIXES),
    (STRICT_AND_WEAK, "b 7 go 5\n"),
    (TWO_TAILS, TWO_TAILS_ENTRIES),
    (REALISTIC, REALISTIC_ENTRIES),
];

#[test]
fn maps_of_compile(rt: HostRuntime) -> Result<(), Fail> {
    for (number, &(program, entries)) in PROGRAMS.iter().enumerate() {
        let is_told = is_verified(rt.alloc(), program, entries, "yes\n")?;
        assert!(rt; is_told, "row {number}");
    }
    Ok(())
}

/// Whether each front of a map of the shelf's program is told to be none.
fn fronts_are_none(alloc: Global, shelf: &mut MemShelf, map: &[u8]) -> Result<bool, Fail> {
    let mut are_none = !map.is_empty();
    let bad = Told::Is("bad image 7\n");
    for length in 0..map.len() {
        put(alloc, shelf, "m", &map[..length])?;
        are_none &= tells(alloc, VERIFY, shelf, STEADY, Status::BadImage, bad)?;
    }
    Ok(are_none)
}

/// Whether each front of the map that `compile` writes is told to be none.
fn has_no_front(alloc: Global, program: &[u8], entries: &str) -> Result<bool, Fail> {
    let files = [("p", program), ("e", entries.as_bytes())];
    let mut shelf = shelf_of(alloc, &files, STEADY)?;
    run_over(alloc, COMPILE_MAPPED, &mut shelf, STEADY)?;
    let map = file_of(alloc, &shelf, "m")?;
    fronts_are_none(alloc, &mut shelf, map.as_slice())
}

/// Programs with their entries.
const MAPPED: &[(&[u8], &str)] = &[
    (SMALLEST, ""),
    (PREFIX, PREFIXES),
    (STRICT_AND_WEAK, "b 7 go 5\n"),
    (REALISTIC, REALISTIC_ENTRIES),
];

#[test]
fn fronts_of_a_map(rt: HostRuntime) -> Result<(), Fail> {
    for (number, &(program, entries)) in MAPPED.iter().enumerate() {
        assert!(rt; has_no_front(rt.alloc(), program, entries)?, "row {number}");
    }
    Ok(())
}

/// Of a program that doesn't fit neither file is written.
#[test]
fn no_map(rt: HostRuntime) -> Result<(), Fail> {
    let alloc = rt.alloc();
    let files = [("p", TOO_DEEP), ("e", b"".as_slice())];
    let left = run_on(alloc, COMPILE_MAPPED, &files, STEADY)?;
    assert!(rt; left.status == Status::NoFit);
    assert!(rt; has_file(alloc, &left.shelf, "i", None)?);
    assert!(rt; has_file(alloc, &left.shelf, "m", None)?);
    Ok(())
}

/// The map that `compile` writes of the smallest program.
#[test]
fn smallest_map(rt: HostRuntime) -> Result<(), Fail> {
    let alloc = rt.alloc();
    let files = [("p", SMALLEST), ("e", b"".as_slice())];
    let left = run_on(alloc, COMPILE_MAPPED, &files, STEADY)?;
    assert!(rt; has_file(alloc, &left.shelf, "m", Some(&SMALLEST_MAP))?);
    Ok(())
}

/// The row of an entry that sends to port 5, in an image: its 14 bytes hold the port alone.
const PORT_ROW: [u8; 14] = [0, 0, 0, 0, 0, 0, 0, 0, 0, 0, 0, 0, 0, 5];

/// An image in which the last such row sends to port 6.
fn to_another_port(alloc: Global, image: &[u8]) -> Result<Vec<u8>, Fail> {
    let mut last = 0;
    for end in PORT_ROW.len()..image.len() {
        if image[..end].ends_with(&PORT_ROW) {
            last = end;
        }
    }
    let mut changed = Vec::new(alloc);
    for (number, byte) in image.iter().enumerate() {
        changed.push(if number + 1 == last { 6 } else { *byte })?;
    }
    Ok(changed)
}

/// Whether the image of a program that sends to another port is told so, with the map of its own.
fn is_other(alloc: Global, program: &[u8], entries: &str, told: &str) -> Result<bool, Fail> {
    let files = [("p", program), ("e", entries.as_bytes())];
    let mut shelf = shelf_of(alloc, &files, STEADY)?;
    run_over(alloc, COMPILE_MAPPED, &mut shelf, STEADY)?;
    let image = file_of(alloc, &shelf, "i")?;
    let other = to_another_port(alloc, image.as_slice())?;
    put(alloc, &mut shelf, "i", other.as_slice())?;
    let told = Told::Is(told);
    tells(alloc, VERIFY, &mut shelf, STEADY, Status::Done, told)
}

/// An image that sends to another port than its entry says, and the map of the entry.
#[test]
fn another_port(rt: HostRuntime) -> Result<(), Fail> {
    assert!(rt; is_other(rt.alloc(), STRICT_AND_WEAK, "b 7 go 5\n", "no 4\n")?);
    Ok(())
}
