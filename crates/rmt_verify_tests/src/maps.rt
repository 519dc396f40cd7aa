//! Maps as bytes: one that is read and written, its first bytes, and bytes that spell none.

use rmt_verify::{MapFault, MapFile, read_map, write_map};
use std::alloc::Global;
use std::test::*;

/// Two fields, the second in two lanes; one join, two parts, two starts and a cell.
const MAP: [u8; 54] = [
    0x52, 0x4d, 0x54, 0x4d, 0, 1, 0, 0, 0, 2, 1, 64, 0, 9, 2, 0, 0, 8, 160, 0, 32, 0, 1, 1, 1, 2,
    0, 2, 0, 0, 0, 1, 1, 2, 2, 1, 2, 0, 0, 1, 12, 0, 0, 0, 1, 0, 0, 0, 7, 2, 0, 1, 0, 1,
];

/// No field, join, part, start and cell.
const NOTHING: [u8; 19] = [
    0x52, 0x4d, 0x54, 0x4d, 0, 1, 0, 0, 0, 0, 0, 0, 0, 0, 0, 0, 0, 0, 0,
];

/// From a place on, bytes that stand there instead, and whether a map is read then.
const CHANGED: [(usize, &[u8], bool); 32] = [
    (0, &[0x53], false),
    (3, &[0x49], false), // the letters of an image
    (4, &[1], false),
    (5, &[0], false),
    (5, &[2], false),
    (6, &[0xff, 0xff, 0xff, 0xff], false), // fields that are not there
    (9, &[1], false),
    (9, &[3], false),
    (10, &[0xff], false), // lanes that are not there
    (11, &[224], false), // a word that is none
    (11, &[223], true),
    (11, &[95, 7, 9], true),
    (11, &[95, 8, 9], false), // a lane that leaves its word
    (11, &[63, 0, 9], false),
    (13, &[0], false), // a lane of no bit
    (13, &[1], true),
    (13, &[17], false),
    (18, &[160, 0, 33], false), // a lane of 33 bits
    (18, &[160, 1, 32], false),
    (18, &[160, 255, 1], false),
    (21, &[0xff, 0xff], false), // joins that are not there
    (22, &[0], false),
    (23, &[0xff, 0xff, 0xff], true),
    (26, &[0xff, 0xff], false), // parts that are not there
    (27, &[3], false),
    (28, &[0xff, 0xff, 0xff, 0xff], true),
    (36, &[0xff], false), // starts that are not there
    (36, &[1], false),
    (37, &[0xff, 0xff, 0, 0], true), // starts in no order
    (41, &[0xff, 0xff, 0xff, 0xff], false), // cells that are not there
    (44, &[0], false),
    (
        45,
        &[0xff, 0xff, 0xff, 0xff, 0xff, 0xff, 0xff, 0xff, 0xff],
        true,
    ),
];

/// Whether a map is read; None for want of memory.
fn reads(alloc: Global, bytes: &[u8]) -> Option<bool> {
    match read_map(alloc, bytes) {
        Ok(_) => Some(true),
        Err(MapFault::Form) => Some(false),
        Err(MapFault::NoMemory) => None,
    }
}

/// Whether a map is read from bytes and written as the same bytes.
fn goes_round(alloc: Global, bytes: &[u8]) -> bool {
    match read_map(alloc, bytes) {
        Ok(map) => match write_map(alloc, &map) {
            Ok(written) => written.as_slice() == bytes,
            Err(_) => false,
        },
        Err(_) => false,
    }
}

/// How many fields, joins, parts, starts and cells a map has.
fn counts(map: &MapFile) -> [usize; 5] {
    let lists = &map.map;
    [
        lists.places.len(),
        map.joins.len(),
        lists.placement.parts.len(),
        lists.starts.len(),
        lists.cells.len(),
    ]
}

/// The numbers behind a map's lanes: of a join, the last part, the last start and a cell.
fn numbers(map: &MapFile) -> Option<[u32; 9]> {
    let lists = &map.map;
    let join = map.joins.get(0)?;
    let part = lists.placement.parts.get(1)?;
    let start = lists.starts.get(1)?;
    let cell = lists.cells.get(0)?;
    Some([
        join.state as u32,
        join.entry as u32,
        part.node,
        part.stage,
        part.quanta,
        *start as u32,
        cell.entry,
        cell.stage,
        cell.cell,
    ])
}

#[test]
fn small(rt: HostRuntime) {
    let read = read_map(rt.alloc(), &MAP);
    assert!(rt; read.is_ok());
    if let Ok(map) = read {
        assert!(rt; counts(&map) == [2, 1, 2, 2, 1]);
        assert!(rt; numbers(&map) == Some([1, 258, 1, 2, 513, 268, 7, 2, 65537]));
    }
}

#[test]
fn both_ways(rt: HostRuntime) {
    assert!(rt; goes_round(rt.alloc(), &MAP));
    assert!(rt; goes_round(rt.alloc(), &NOTHING));
}

#[test]
fn cut_short(rt: HostRuntime) {
    for len in 0..54usize {
        assert!(rt;
            reads(rt.alloc(), &MAP[..len]) == Some(false),
            "{len} bytes"
        );
    }
}

#[test]
fn one_byte_more(rt: HostRuntime) -> Result<(), Fail> {
    for &map in &[&MAP[..], &NOTHING[..]] {
        let mut bytes = Vec::from_slice(rt.alloc(), map)?;
        bytes.push(0)?;
        assert!(rt; reads(rt.alloc(), bytes.as_slice()) == Some(false));
    }
    Ok(())
}

#[test]
fn changed(rt: HostRuntime) -> Result<(), Fail> {
    for &(place, other, is_map) in &CHANGED {
        let mut bytes = Vec::from_slice(rt.alloc(), &MAP[..place.min(54)])?;
        bytes.extend_from_slice(other)?;
        let behind = place.wrapping_add(other.len()).min(54);
        bytes.extend_from_slice(&MAP[behind..])?;
        let answer = reads(rt.alloc(), bytes.as_slice());
        assert!(rt; answer == Some(is_map), "from byte {place}");
    }
    Ok(())
}
