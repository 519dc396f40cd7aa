//! Switches: group texts that are bad in each way, and runs of captures, whose counts and files are worked out by hand.

use rmt_image::read_image;
use rmt_image_tests::fixtures::image_texts::push_texts;
use rmt_pcap::read_capture;
use rmt_switch::fault::GroupFault;
use rmt_switch::group_table::Groups;
use rmt_switch::switched::{SwitchCounts, Switched};
use rmt_switch::{groups, run, switch_line};
use std::alloc::{AllocError, Global};
use std::process::Abort;
use std::test::*;

/// Group texts, each with its first bad line.
const BAD_GROUPS: [(&str, u32); 27] = [
    ("300 1\n300 2", 2),
    ("300 1\n300 1\n", 2),
    ("# 300 1\n\n300 2\n  \n300 3", 5),
    ("300", 1),
    ("300 ", 1),
    ("255 1", 1),
    ("512 1", 1),
    ("0 1", 1),
    ("300 512", 1),
    ("300 1 1", 1),
    ("300 7 1 7", 1),
    ("300 7 07", 1),
    ("300 0 1 2 3 4 5 6 7 8", 1),
    ("300,1", 1),
    ("300\t1", 1),
    ("300 1\r", 1),
    ("300 0x1", 1),
    ("0x12c 1", 1),
    ("300 -1", 1),
    ("300 +1", 1),
    ("300 1 # one port", 1),
    (" # 300 1", 1),
    ("g300 1", 1),
    ("300 99999999999999999999999999999999999999999999999", 1),
    ("99999999999999999999999999999999999999999999999 1", 1),
    ("256 1\n511 1\n257 1 2\nx\ny", 4),
    ("256 1\n\n\n\n256 1", 5),
];

/// A group text, and for some numbers the ports of their groups.
const GOOD_GROUPS: &str =
    "# ports\n  300   2 1  \n\n256 0000000000000000511\n511 0 1 2 3 4 5 6 7\n00301 301";

const PORTS: [(u16, &[u16]); 8] = [
    (300, &[2, 1]),
    (256, &[511]),
    (511, &[0, 1, 2, 3, 4, 5, 6, 7]),
    (301, &[301]),
    (302, &[]),
    (0, &[]),
    (255, &[]),
    (512, &[]),
];

#[test]
fn bad_groups(rt: HostRuntime) -> Result<(), Fail> {
    for &(text, line) in &BAD_GROUPS {
        assert!(rt; text.len() <= 1_048_576);
        match groups(rt.alloc(), text.as_bytes()) {
            Ok(_) => assert!(rt; false, "a text with a bad line was read"),
            Err(fault) => assert!(rt; fault == GroupFault::At { code: 8, line }),
        }
    }
    Ok(())
}

#[test]
fn good_groups(rt: HostRuntime) -> Result<(), Fail> {
    let groups = groups(rt.alloc(), GOOD_GROUPS.as_bytes())?;
    for &(number, ports) in &PORTS {
        assert!(rt; groups.ports(number) == ports);
        assert!(rt; groups.has(number) == !ports.is_empty());
    }
    let none = Groups::none(rt.alloc())?;
    assert!(rt; !none.has(300));
    Ok(())
}

/// A header of one byte, and a table whose default sends to port 1.
const TO_ONE: &str = "
524d5449 0001 00 400009 410009 010001       # letters, version, seed, in_port, out_port, drop
01 000001 01 01 020008                      # a header with its byte in word 2
0001 00                                     # a state that looks at nothing
0001 00 00000000 00000000 01 01 00 02       # an entry that takes 1 byte
     01000001 000000020008
01                                          # a stage with a table without a key
0000 01 01 00 00 00 00 01 0000 0000 00 00000000
01 410009 00 0200000001 0200000000          # 1 into out_port
00000000 00000000
";

/// The same, but to port 300.
const TO_300: &str = "
524d5449 0001 00 400009 410009 010001
01 000001 01 01 020008
0001 00
0001 00 00000000 00000000 01 01 00 02
     01000001 000000020008
01
0000 01 01 00 00 00 00 01 0000 0000 00 00000000
01 410009 00 020000012c 0200000000          # 300 into out_port
00000000 00000000
";

/// A header of 9 and of 7 bits, and a table whose default sends to the port that the 9 bits say.
const AS_SAID: &str = "
524d5449 0001 00 400009 410009 010001
01 000001 02 02 420009 020007               # a header with 9 bits in word 66 and 7 in word 2
0001 00
0001 00 00000000 00000000 02 02 00 03       # an entry that takes 2 bytes
     01000001 000000420009 000009020007
01
0000 01 01 00 00 00 00 01 0000 0000 00 00000000
01 410009 00 004200 0200000000              # the 9 bits into out_port
00000000 00000000
";

/// The first bytes of captures: the lowest byte first, version 2.4, and 16 bytes that are copied.
const HEAD: [u8; 24] = [
    0xd4, 0xc3, 0xb2, 0xa1, 2, 0, 4, 0, 0, 0, 0, 0, 0, 0, 0, 0, 0xff, 0xff, 0, 0, 1, 0, 0, 0,
];

/// Frames of a capture: a port, how many frames, and of how many bytes each. The first 9 bits say the port; a frame of
/// one byte is `ff`.
type Frames = (u16, u32, u16);

/// Adds the record of a frame, seen in a second.
fn push_record(file: &mut Vec<u8>, second: u32, port: u16, len: u16) -> Result<(), AllocError> {
    let size = u32::from(len).to_le_bytes();
    file.extend_from_slice(&second.to_le_bytes())?;
    file.extend_from_slice(&[9, 8, 7, 0])?;
    file.extend_from_slice(&size)?;
    file.extend_from_slice(&size)?;
    if len == 1 {
        return file.extend_from_slice(&[0xff]);
    }
    let number = (port << 7).to_be_bytes();
    file.extend_from_slice(&number)?;
    for _ in 2..len {
        file.extend_from_slice(&[5])?;
    }
    Ok(())
}

/// A capture of frames, one second apart.
fn capture_of(alloc: Global, frames: &[Frames]) -> Result<Vec<u8>, AllocError> {
    let mut file = HEAD.to_vec(alloc)?;
    let mut second = 0u32;
    for (port, many, len) in frames {
        for _ in 0..*many {
            push_record(&mut file, second, *port, *len)?;
            second = second.wrapping_add(1);
        }
    }
    Ok(file)
}

/// Runs a capture through the chip of an image.
fn switch(
    rt: &(impl Abort + AllocGlobal),
    image: &str,
    lines: &str,
    every: u32,
    file: &[u8],
) -> Result<Switched, Fail> {
    let mut bytes = Vec::new(rt.alloc());
    push_texts(&mut bytes, &[image])?;
    let config = read_image(rt.alloc(), bytes.as_slice())?;
    assert!(rt; config.formed(rt.alloc())?, "a configuration in form");
    assert!(rt; config.fits().is_ok(), "a configuration within limits");
    assert!(rt; every >= 1 && file.len() <= 16_777_216 && lines.len() <= 1_048_576);
    let groups = groups(rt.alloc(), lines.as_bytes())?;
    let capture = read_capture(rt.alloc(), file)?;
    Ok(run(rt.alloc(), config, &groups, every, file, &capture)?)
}

/// An image, a group text, after how many cycles ports take, frames, the numbers that are counted, and of each file its
/// port and its bytes.
type Row<'a> = (
    &'a str,
    &'a str,
    u32,
    &'a [Frames],
    [u64; 6],
    &'a [(u16, usize)],
);

/// Eight ports, and another that is its own group.
const EIGHT: &str = "300 0 1 2 3 4 5 6 7";

const ROWS: [Row<'static>; 12] = [
    // a queue has 64 items, and no more is taken before the end
    (
        TO_ONE,
        "",
        1_000,
        &[(0, 100, 1)],
        [100, 0, 64, 0, 36, 0],
        &[(1, 1_112)],
    ),
    // as many as enter are taken
    (
        TO_ONE,
        "",
        1,
        &[(0, 100, 1)],
        [100, 0, 100, 0, 0, 0],
        &[(1, 1_724)],
    ),
    // two items enter for one that is taken: 64 stand after 126 of them, and one in two finds room from then on
    (
        TO_ONE,
        "",
        2,
        &[(0, 200, 1)],
        [200, 0, 163, 0, 37, 0],
        &[(1, 2_795)],
    ),
    // a group of two ports
    (
        TO_300,
        "300 1 2",
        1,
        &[(0, 3, 1)],
        [3, 0, 6, 0, 0, 0],
        &[(1, 75), (2, 75)],
    ),
    // a group of the port itself, and a port that no group has
    (
        TO_300,
        "300 300",
        1,
        &[(0, 3, 1)],
        [3, 0, 3, 0, 0, 0],
        &[(300, 75)],
    ),
    (
        TO_300,
        "301 1 2",
        1,
        &[(0, 3, 1)],
        [3, 0, 3, 0, 0, 0],
        &[(300, 75)],
    ),
    // cells are short: an item of 9,224 bytes takes 145 of 65,536, and 451 fit
    (
        TO_300,
        EIGHT,
        999_999,
        &[(0, 500, 9_216)],
        [500, 0, 512, 0, 3_488, 0],
        &[
            (0, 590_872),
            (1, 590_872),
            (2, 590_872),
            (3, 590_872),
            (4, 590_872),
            (5, 590_872),
            (6, 590_872),
            (7, 590_872),
        ],
    ),
    // eight ports of which one is full
    (
        AS_SAID,
        EIGHT,
        999_999,
        &[(3, 64, 2), (300, 2, 2), (0, 1, 2)],
        [67, 0, 79, 0, 2, 0],
        &[
            (0, 78),
            (1, 60),
            (2, 60),
            (3, 1_176),
            (4, 60),
            (5, 60),
            (6, 60),
            (7, 60),
        ],
    ),
    // and of which none stays full
    (
        AS_SAID,
        EIGHT,
        1,
        &[(3, 64, 2), (300, 2, 2), (0, 1, 2)],
        [67, 0, 81, 0, 0, 0],
        &[
            (0, 78),
            (1, 60),
            (2, 60),
            (3, 1_212),
            (4, 60),
            (5, 60),
            (6, 60),
            (7, 60),
        ],
    ),
    // frames that are too short are dropped
    (
        AS_SAID,
        "",
        1,
        &[(0, 3, 1), (511, 2, 2)],
        [5, 0, 2, 3, 0, 0],
        &[(511, 60)],
    ),
    // records of no byte, and of more than 9,216, are skipped
    (
        TO_ONE,
        "",
        1,
        &[(0, 1, 9_217), (0, 2, 1)],
        [2, 1, 2, 0, 0, 0],
        &[(1, 58)],
    ),
    // no frame
    (TO_ONE, "", 1, &[], [0, 0, 0, 0, 0, 0], &[]),
];

/// What is counted, in the order in which it is printed.
fn counted(counts: &SwitchCounts) -> [u64; 6] {
    [
        counts.packets,
        counts.skipped,
        counts.out,
        counts.dropped,
        counts.queue,
        counts.cells,
    ]
}

#[test]
fn runs(rt: HostRuntime) -> Result<(), Fail> {
    for &(image, lines, every, frames, counts, files) in &ROWS {
        let file = capture_of(rt.alloc(), frames)?;
        let switched = switch(&rt, image, lines, every, file.as_slice())?;
        assert!(rt; counted(&switched.counts) == counts);
        assert!(rt; switched.files.len() == files.len());
        for (port, len) in files {
            let found = switched
                .files
                .as_slice()
                .iter()
                .any(|f| f.port == *port && f.bytes.len() == *len);
            assert!(rt; found, "a port's file");
        }
    }
    Ok(())
}

/// Frames to the ports from 0 to 7 in turn.
fn in_turn(alloc: Global) -> Result<Vec<u8>, AllocError> {
    let mut file = HEAD.to_vec(alloc)?;
    for number in 0..512u16 {
        push_record(&mut file, u32::from(number), number % 8, 9_216)?;
    }
    Ok(file)
}

#[test]
fn cells_short(rt: HostRuntime) -> Result<(), Fail> {
    let file = in_turn(rt.alloc())?;
    let switched = switch(&rt, AS_SAID, "", 999_999, file.as_slice())?;
    assert!(rt; counted(&switched.counts) == [512, 0, 451, 0, 0, 61]);
    assert!(rt; switched.files.len() == 8);
    Ok(())
}

/// A capture of one record's front alone, and the line that is printed.
#[test]
fn no_record(rt: HostRuntime) -> Result<(), Fail> {
    let mut file = HEAD.to_vec(rt.alloc())?;
    file.extend_from_slice(&[1, 2, 3, 4, 5])?;
    let switched = switch(&rt, TO_ONE, "", 1, file.as_slice())?;
    assert!(rt; switched.files.is_empty());
    let line = switch_line(rt.alloc(), &switched.counts)?;
    assert!(rt; line.as_str() == "switch packets 0 skipped 1 out 0 drop 0 queue 0 cells 0\n");
    Ok(())
}

/// Both copies of each frame are those that came in, with their times.
#[test]
fn two_copies(rt: HostRuntime) -> Result<(), Fail> {
    let file = capture_of(rt.alloc(), &[(0, 3, 1)])?;
    let switched = switch(&rt, TO_300, "300 2 1", 1, file.as_slice())?;
    for made in switched.files.as_slice() {
        assert!(rt; made.bytes.as_slice() == file.as_slice());
    }
    Ok(())
}
