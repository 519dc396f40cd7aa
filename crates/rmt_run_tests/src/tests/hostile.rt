//! Images that no program made, run on one packet.

use rmt_command_tests::fixtures::cases::{SIM, Told, ends};
use rmt_command_tests::fixtures::images::{SMALLEST_IMAGE, image_of};
use rmt_core::status::Status;
use rmt_tests::fixtures::programs::STRICT_AND_WEAK;
use std::alloc::{AllocError, Global};
use std::test::*;

const RUN: &str = "0 1 ff\ncycles 13\nflight 1\n";

/// Whether `sim` of an image on one packet prints a text.
fn prints(alloc: Global, image: &[u8], status: Status, printed: &str) -> Result<bool, Fail> {
    let files = [("i", image), ("k", b"0 ff\n".as_slice())];
    ends(alloc, &files, SIM, status, Told::Is(printed))
}

/// The smallest image with another byte in a place.
fn changed(alloc: Global, at: usize, byte: u8) -> Result<Vec<u8>, AllocError> {
    let mut image = Vec::from_slice(alloc, &SMALLEST_IMAGE)?;
    if let Some(place) = image.get_mut(at) {
        *place = byte;
    }
    Ok(image)
}

/// What is printed of a front of an image that has so many bytes.
fn front_line(count: usize) -> &'static str {
    match count {
        0..4 => "bad image 1\n",
        4..6 => "bad image 2\n",
        _ => "bad image 3\n",
    }
}

#[test]
fn fronts_of_an_image(rt: HostRuntime) -> Result<(), Fail> {
    for count in 0..95usize {
        let front = &SMALLEST_IMAGE[..count];
        let is_bad = prints(rt.alloc(), front, Status::BadImage, front_line(count))?;
        assert!(rt; is_bad, "{count} bytes");
    }
    Ok(())
}

/// A place, the byte there, how a run ends, and what it prints.
type Change = (usize, u8, Status, &'static str);

/// The number of the first changed image that comes out otherwise.
fn first_wrong(alloc: Global, changes: &[Change]) -> Result<Option<usize>, Fail> {
    for (number, &(at, byte, status, printed)) in changes.iter().enumerate() {
        let image = changed(alloc, at, byte)?;
        if !prints(alloc, image.as_slice(), status, printed)? {
            return Ok(Some(number));
        }
    }
    Ok(None)
}

const CHANGES: &[Change] = &[
    (0, 0x51, Status::BadImage, "bad image 1\n"),
    (5, 0, Status::BadImage, "bad image 2\n"),
    (5, 2, Status::BadImage, "bad image 3\n"),
    (9, 8, Status::BadImage, "bad image 4\n"),
    (40, 2, Status::BadImage, "bad image 4\n"),
    (41, 3, Status::BadImage, "bad image 4\n"),
    (50, 0xe0, Status::BadImage, "bad image 4\n"),
    (55, 1, Status::BadImage, "bad image 4\n"),
    (62, 0, Status::BadImage, "bad image 4\n"),
    (75, 0x11, Status::BadImage, "bad image 4\n"),
    (86, 1, Status::BadImage, "bad image 4\n"),
    (90, 1, Status::BadImage, "bad image 3\n"),
];

#[test]
fn one_byte_changed(rt: HostRuntime) -> Result<(), Fail> {
    assert_eq!(rt; first_wrong(rt.alloc(), CHANGES)?, None);
    Ok(())
}

#[test]
fn one_byte_more(rt: HostRuntime) -> Result<(), Fail> {
    let alloc = rt.alloc();
    let mut image = Vec::from_slice(alloc, &SMALLEST_IMAGE)?;
    image.push(0)?;
    assert!(rt; prints(alloc, image.as_slice(), Status::BadImage, "bad image 5\n")?);
    Ok(())
}

/// The second key block of a table is its first one again, where no entry stands in it.
#[test]
fn a_doubled_block(rt: HostRuntime) -> Result<(), Fail> {
    let alloc = rt.alloc();
    let mut image = image_of(alloc, STRICT_AND_WEAK, "")?;
    if let Some(block) = image.get_mut(116) {
        *block = 0;
    }
    let printed = "bad image 6 limit 17 stage 1 sum 2 need 0\n";
    assert!(rt; prints(alloc, image.as_slice(), Status::BadImage, printed)?);
    Ok(())
}

/// A stage of the smallest image with another start, node, guard or port.
#[derive(Clone, Copy)]
struct StageText<'a> {
    start: u16,
    node: u8,
    guard: &'a [u8],
    port: u8,
}

/// Adds a stage.
fn push_stage(image: &mut Vec<u8>, stage: StageText<'_>) -> Result<(), AllocError> {
    image.extend_from_slice(&stage.start.to_be_bytes())?;
    image.extend_from_slice(&SMALLEST_IMAGE[56..58])?;
    image.push(stage.node)?;
    image.extend_from_slice(stage.guard)?;
    image.extend_from_slice(&SMALLEST_IMAGE[60..81])?;
    image.push(stage.port)?;
    image.extend_from_slice(&SMALLEST_IMAGE[82..])
}

/// The smallest image with these stages in place of its one.
fn with_stages(alloc: Global, stages: &[StageText<'_>]) -> Result<Vec<u8>, Fail> {
    let mut image = Vec::from_slice(alloc, &SMALLEST_IMAGE[..53])?;
    image.push(u8::try_from(stages.len())?)?;
    for stage in stages {
        push_stage(&mut image, *stage)?;
    }
    Ok(image)
}

const NO_GUARD: &[u8] = &[0];

/// The first stage of an image with two.
const FIRST: StageText<'static> = StageText {
    start: 0,
    node: 0,
    guard: NO_GUARD,
    port: 1,
};

/// So many stages that begin one cycle after another.
fn in_a_row(alloc: Global, count: u8) -> Result<Vec<u8>, Fail> {
    let mut stages = Vec::new(alloc);
    for k in 0..count {
        stages.push(StageText {
            start: u16::from(k),
            node: k,
            ..FIRST
        })?;
    }
    with_stages(alloc, stages.as_slice())
}

/// Whether a run over so many stages ends so, and prints this.
fn row_prints(alloc: Global, count: u8, status: Status, printed: &str) -> Result<bool, Fail> {
    let image = in_a_row(alloc, count)?;
    prints(alloc, image.as_slice(), status, printed)
}

#[test]
fn stages_in_a_row(rt: HostRuntime) -> Result<(), Fail> {
    let run = "0 1 ff\ncycles 44\nflight 1\n";
    let bad = "bad image 6 limit 1 stage 0 sum 33 need 0\n";
    assert!(rt; row_prints(rt.alloc(), 32, Status::Done, run)?);
    assert!(rt; row_prints(rt.alloc(), 33, Status::BadImage, bad)?);
    Ok(())
}

/// The start, node, guard and port of a second stage, how a run ends, and what it prints.
const SECONDS: &[(u16, u8, &[u8], u8, Status, &str)] = &[
    (
        372,
        1,
        NO_GUARD,
        1,
        Status::Done,
        "0 1 ff\ncycles 385\nflight 1\n",
    ),
    (
        373,
        1,
        NO_GUARD,
        1,
        Status::BadImage,
        "bad image 6 limit 16 stage 1 sum 373 need 0\n",
    ),
    (12, 0, NO_GUARD, 1, Status::BadImage, "bad image 4\n"),
    (
        12,
        1,
        &[1, 0, 0, 2],
        2,
        Status::Done,
        "0 2 ff\ncycles 25\nflight 1\n",
    ),
    (
        12,
        1,
        &[1, 0, 0, 4],
        2,
        Status::Done,
        "0 1 ff\ncycles 25\nflight 1\n",
    ),
    (12, 1, &[1, 0, 0, 1], 2, Status::BadImage, "bad image 4\n"),
];

#[test]
fn two_stages(rt: HostRuntime) -> Result<(), Fail> {
    for (number, &(start, node, guard, port, status, printed)) in SECONDS.iter().enumerate() {
        let second = StageText {
            start,
            node,
            guard,
            port,
        };
        let image = with_stages(rt.alloc(), &[FIRST, second])?;
        let is_told = prints(rt.alloc(), image.as_slice(), status, printed)?;
        assert!(rt; is_told, "row {number}");
    }
    Ok(())
}

#[test]
fn a_guard_on_its_own_node(rt: HostRuntime) -> Result<(), Fail> {
    let alloc = rt.alloc();
    let guarded = StageText {
        guard: &[1, 0, 0, 2],
        ..FIRST
    };
    let image = with_stages(alloc, &[guarded])?;
    assert!(rt; prints(alloc, image.as_slice(), Status::BadImage, "bad image 4\n")?);
    Ok(())
}

const LANES_AND_PORTS: &[Change] = &[
    (5, 1, Status::Done, RUN),
    (75, 10, Status::Done, RUN),
    (81, 2, Status::Done, "0 2 ff\ncycles 13\nflight 1\n"),
];

#[test]
fn other_lanes_and_ports(rt: HostRuntime) -> Result<(), Fail> {
    assert_eq!(rt; first_wrong(rt.alloc(), LANES_AND_PORTS)?, None);
    Ok(())
}

/// The smallest image whose one stage has so many slots.
fn with_slots(alloc: Global, count: u8) -> Result<Vec<u8>, AllocError> {
    let mut image = Vec::from_slice(alloc, &SMALLEST_IMAGE[..56])?;
    image.push(count)?;
    for node in 0..count {
        image.push(1)?;
        image.push(node)?;
        image.extend_from_slice(&SMALLEST_IMAGE[59..72])?;
    }
    for _slot in 0..count {
        image.extend_from_slice(&SMALLEST_IMAGE[72..87])?;
    }
    image.extend_from_slice(&SMALLEST_IMAGE[87..])?;
    Ok(image)
}

#[test]
fn seventeen_slots(rt: HostRuntime) -> Result<(), Fail> {
    let image = with_slots(rt.alloc(), 17)?;
    let bad = "bad image 6 limit 10 stage 0 sum 17 need 0\n";
    assert!(rt; prints(rt.alloc(), image.as_slice(), Status::BadImage, bad)?);
    Ok(())
}
