//! What `switch` prints and writes.

use rmt_command_tests::fixtures::captures::{HEAD, add_record, capture_of};
use rmt_command_tests::fixtures::cases::{COMPILE, Told, file_of, has_file, tells};
use rmt_command_tests::fixtures::commands::{STEADY, run_over, shelf_of};
use rmt_command_tests::fixtures::programs::{SMALLEST, TO_A_GROUP, TO_ITS_PORT};
use rmt_core::status::Status;
use rmt_io::mem_shelf::MemShelf;
use std::alloc::{AllocError, Global};
use std::test::*;

/// A run of `switch`.
#[derive(Clone, Copy)]
struct Row<'a> {
    program: &'a [u8],
    groups: &'a str,
    capture: &'a [u8],
    every: &'a str,
    status: Status,
    printed: &'a str,
}

/// A row of its parts.
fn row_of<'a>(
    program: &'a [u8],
    groups: &'a str,
    capture: &'a [u8],
    every: &'a str,
    status: Status,
    printed: &'a str,
) -> Row<'a> {
    Row {
        program,
        groups,
        capture,
        every,
        status,
        printed,
    }
}

/// A shelf behind a run of a row, and whether the run ended as the row says.
fn run_row(alloc: Global, row: Row<'_>) -> Result<(MemShelf, bool), Fail> {
    let files = [
        ("p", row.program),
        ("e", b"".as_slice()),
        ("g", row.groups.as_bytes()),
        ("c", row.capture),
    ];
    let mut shelf = shelf_of(alloc, &files, STEADY)?;
    run_over(alloc, COMPILE, &mut shelf, STEADY)?;
    let words = ["switch", "i", "g", "c", "out", row.every];
    let told = Told::Is(row.printed);
    let is_told = tells(alloc, &words, &mut shelf, STEADY, row.status, told)?;
    Ok((shelf, is_told))
}

/// Whether these ports have files of these bytes, and no other port has one.
fn has_files(
    alloc: Global,
    shelf: &MemShelf,
    ports: &[u16],
    bytes: &[u8],
) -> Result<bool, AllocError> {
    for port in 0..512u16 {
        let name = format!(in alloc; "out.{port}.pcap")?;
        let wanted = if ports.contains(&port) {
            Some(bytes)
        } else {
            None
        };
        if !has_file(alloc, shelf, name.as_str(), wanted)? {
            return Ok(false);
        }
    }
    Ok(true)
}

/// Whether a run ends as its row says, and only these ports have files, of these bytes.
fn ends(alloc: Global, row: Row<'_>, ports: &[u16], bytes: &[u8]) -> Result<bool, Fail> {
    let (shelf, is_told) = run_row(alloc, row)?;
    Ok(is_told && has_files(alloc, &shelf, ports, bytes)?)
}

/// A program, groups and how many frames come in, after how many cycles ports take, how a run ends and what it prints; the
/// ports that have files, and how many frames each of these has.
type Copies = (
    &'static [u8],
    &'static str,
    u16,
    &'static str,
    Status,
    &'static str,
    &'static [u16],
    u16,
);

/// Whether a run over frames of one byte ends as it should.
fn copies(alloc: Global, copies: &Copies) -> Result<bool, Fail> {
    let (program, groups, frames, every, status, printed, ports, sent) = *copies;
    let capture = capture_of(alloc, frames, &[0xff])?;
    let sent = capture_of(alloc, sent, &[0xff])?;
    let row = row_of(program, groups, capture.as_slice(), every, status, printed);
    ends(alloc, row, ports, sent.as_slice())
}

/// The queue of one port is full, so all but the first 64 frames are dropped.
const ONE_PORT: Copies = (
    SMALLEST,
    "",
    100,
    "1000",
    Status::Done,
    "switch packets 100 skipped 0 out 64 drop 0 queue 36 cells 0\n",
    &[1],
    64,
);

#[test]
fn one_port_full(rt: HostRuntime) -> Result<(), Fail> {
    assert!(rt; copies(rt.alloc(), &ONE_PORT)?);
    let sent = capture_of(rt.alloc(), 64, &[0xff])?;
    assert!(rt; sent.len() == 1112);
    Ok(())
}

/// A group of two ports, and of eight of which all become full.
const GROUPS: &[Copies] = &[
    (
        TO_A_GROUP,
        "300 1 2\n",
        3,
        "1",
        Status::Done,
        "switch packets 3 skipped 0 out 6 drop 0 queue 0 cells 0\n",
        &[1, 2],
        3,
    ),
    (
        TO_A_GROUP,
        "# none\n\n 300 511 7 6 5 4 3 2 0 \n256 1\n",
        66,
        "0999999",
        Status::Usage,
        "",
        &[],
        0,
    ),
    (
        TO_A_GROUP,
        "# none\n\n 300 511 7 6 5 4 3 2 0 \n256 1\n",
        66,
        "999999",
        Status::Done,
        "switch packets 66 skipped 0 out 512 drop 0 queue 16 cells 0\n",
        &[0, 2, 3, 4, 5, 6, 7, 511],
        64,
    ),
];

#[test]
fn two_copies(rt: HostRuntime) -> Result<(), Fail> {
    for (number, row) in GROUPS.iter().enumerate() {
        assert!(rt; copies(rt.alloc(), row)?, "row {number}");
    }
    let capture = capture_of(rt.alloc(), 3, &[0xff])?;
    assert!(rt; capture.len() == 75);
    Ok(())
}

/// A capture of frames of 9,216 bytes to the ports from 0 to 7 in turn.
fn in_turn(alloc: Global) -> Result<Vec<u8>, AllocError> {
    let mut capture = Vec::from_slice(alloc, HEAD.as_slice())?;
    let mut frame = vec![in alloc; 0u8; 9216]?;
    for number in 0..512u16 {
        let port = number % 8;
        frame[0] = (port / 2) as u8;
        frame[1] = (port % 2 * 128) as u8;
        add_record(&mut capture, number, frame.as_slice())?;
    }
    Ok(capture)
}

/// Whether the file of a port has so many bytes.
fn has_length(
    alloc: Global,
    shelf: &MemShelf,
    port: u16,
    length: usize,
) -> Result<bool, AllocError> {
    let name = format!(in alloc; "out.{port}.pcap")?;
    Ok(file_of(alloc, shelf, name.as_str())?.len() == length)
}

/// Ports, and how long their files are.
const LENGTHS: &[(u16, usize)] = &[
    (0, 526_248),
    (1, 526_248),
    (2, 526_248),
    (3, 517_016),
    (4, 517_016),
    (5, 517_016),
    (6, 517_016),
    (7, 517_016),
];

/// Frames of 9,216 bytes to eight ports take all cells, so the last ones are not stored.
#[test]
fn cells_short(rt: HostRuntime) -> Result<(), Fail> {
    let capture = in_turn(rt.alloc())?;
    let row = Row {
        program: TO_ITS_PORT,
        groups: "",
        capture: capture.as_slice(),
        every: "999999",
        status: Status::Done,
        printed: "switch packets 512 skipped 0 out 451 drop 0 queue 0 cells 61\n",
    };
    let (shelf, is_told) = run_row(rt.alloc(), row)?;
    assert!(rt; is_told);
    for &(port, length) in LENGTHS {
        assert!(rt;
            has_length(rt.alloc(), &shelf, port, length)?,
            "port {port}"
        );
    }
    Ok(())
}

/// The head of a capture with a record of too few bytes, of another version, and cut.
const NO_RECORD: [u8; 29] = [
    0xd4, 0xc3, 0xb2, 0xa1, 2, 0, 4, 0, 1, 2, 3, 4, 5, 6, 7, 8, 9, 10, 11, 12, 13, 14, 15, 16,
    b's', b'h', b'o', b'r', b't',
];

const OTHER_VERSION: [u8; 24] = [
    0xd4, 0xc3, 0xb2, 0xa1, 3, 0, 4, 0, 1, 2, 3, 4, 5, 6, 7, 8, 9, 10, 11, 12, 13, 14, 15, 16,
];

const CUT: [u8; 23] = [
    0xd4, 0xc3, 0xb2, 0xa1, 2, 0, 4, 0, 1, 2, 3, 4, 5, 6, 7, 8, 9, 10, 11, 12, 13, 14, 15,
];

/// Captures and groups that are bad, alone and together; how the run ends, and what it prints.
const REFUSED: &[(&str, &[u8], Status, &str)] = &[
    (
        "",
        &NO_RECORD,
        Status::Done,
        "switch packets 0 skipped 1 out 0 drop 0 queue 0 cells 0\n",
    ),
    (
        "300 1\n300 2\n",
        &HEAD,
        Status::BadEntries,
        "bad entries 8 line 2\n",
    ),
    ("255 1", &CUT, Status::BadEntries, "bad entries 8 line 1\n"),
    ("512 1", &HEAD, Status::BadEntries, "bad entries 8 line 1\n"),
    ("300", &HEAD, Status::BadEntries, "bad entries 8 line 1\n"),
    (
        "300 1 1",
        &HEAD,
        Status::BadEntries,
        "bad entries 8 line 1\n",
    ),
    (
        "300 1 2 3 4 5 6 7 8 9",
        &HEAD,
        Status::BadEntries,
        "bad entries 8 line 1\n",
    ),
    (
        "300 0x1",
        &HEAD,
        Status::BadEntries,
        "bad entries 8 line 1\n",
    ),
    ("", b"", Status::BadPackets, "bad packets 11 line 0\n"),
    ("", &CUT, Status::BadPackets, "bad packets 13 line 0\n"),
    (
        "",
        &OTHER_VERSION,
        Status::BadPackets,
        "bad packets 12 line 0\n",
    ),
];

/// Over these no file is written.
#[test]
fn refusals(rt: HostRuntime) -> Result<(), Fail> {
    for (number, &(groups, capture, status, printed)) in REFUSED.iter().enumerate() {
        let row = row_of(SMALLEST, groups, capture, "1", status, printed);
        assert!(rt; ends(rt.alloc(), row, &[], &[])?, "row {number}");
    }
    Ok(())
}

/// So many spaces.
fn spaces(alloc: Global, count: usize) -> Result<Vec<u8>, AllocError> {
    vec![in alloc; b' '; count]
}

/// Words over `x`, which is neither an image, groups nor a capture, and `long`, which is too long; how a run ends, and what it
/// prints.
const BAD_FILES: &[(&[&str], Status, &str)] = &[
    (
        &["switch", "x", "x", "x", "o", "1"],
        Status::BadImage,
        "bad image 1\n",
    ),
    (&["switch", "x", "long", "a", "o", "1"], Status::TooLong, ""),
    (&["switch", "x", "x", "a", "o", "1"], Status::ReadFault, ""),
    (
        &["switch", "a", "long", "x", "o", "1"],
        Status::ReadFault,
        "",
    ),
    (&["switch", "x", "x", "x", "o", "0"], Status::Usage, ""),
    (
        &["switch", "x", "x", "x", "o", "1000000"],
        Status::Usage,
        "",
    ),
];

/// A bad image counts before bad groups and a bad capture; a file that is not there before all.
#[test]
fn order_of_refusals(rt: HostRuntime) -> Result<(), Fail> {
    let long = spaces(rt.alloc(), 1_048_577)?;
    let files = [("x", b"x".as_slice()), ("long", long.as_slice())];
    let mut shelf = shelf_of(rt.alloc(), &files, STEADY)?;
    for (number, &(words, status, line)) in BAD_FILES.iter().enumerate() {
        let is_told = tells(
            rt.alloc(),
            words,
            &mut shelf,
            STEADY,
            status,
            Told::Is(line),
        )?;
        assert!(rt; is_told, "row {number}");
    }
    Ok(())
}
