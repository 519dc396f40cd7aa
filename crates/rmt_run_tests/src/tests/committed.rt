//! What `sim` and `probe` print of packet texts that change entries, where `plain` has no such line.

use crate::tests::changes::{COUNTED, ENTRIES};
use rmt_command_tests::fixtures::cases::{COMPILE, Case, PLAIN, SIM, Told, ends, holds};
use rmt_command_tests::fixtures::commands::{STEADY, run_over, shelf_of};
use rmt_command_tests::fixtures::images::{SMALLEST_IMAGE, image_of};
use rmt_command_tests::fixtures::programs::SMALLEST;
use rmt_core::status::Status;
use std::alloc::{AllocError, Global};
use std::test::*;

/// The smallest image as version 1, which has no names.
fn unnamed_image(alloc: Global) -> Result<Vec<u8>, AllocError> {
    let mut image = Vec::new(alloc);
    for (at, byte) in SMALLEST_IMAGE.iter().enumerate() {
        if at < 95 {
            image.push(if at == 5 { 1 } else { *byte })?;
        }
    }
    Ok(image)
}

/// Packets over an image without names, and what is printed.
const UNNAMED: &[(&str, &str)] = &[
    ("commit\n", "bad packets 4 line 1\n"),
    ("+ b 7 go 1\n", "bad packets 4 line 1\n"),
    ("- \n", "bad packets 4 line 1\n"),
    ("0 ff\n# none\ncommit", "0 1 ff\nbad packets 4 line 3\n"),
    ("commits\n", "bad packets 1 line 1\n"),
];

/// Whether `sim` of an image over these packets refuses a line of them, and prints this.
fn refuses(alloc: Global, image: &[u8], packets: &str, printed: &str) -> Result<bool, Fail> {
    let files = [("i", image), ("k", packets.as_bytes())];
    let told = Told::Is(printed);
    ends(alloc, &files, SIM, Status::BadPackets, told)
}

/// Without names each change and each commit is refused, whatever its form; packets before it are answered.
#[test]
fn no_names(rt: HostRuntime) -> Result<(), Fail> {
    let image = unnamed_image(rt.alloc())?;
    for (number, &(packets, printed)) in UNNAMED.iter().enumerate() {
        let is_refused = refuses(rt.alloc(), image.as_slice(), packets, printed)?;
        assert!(rt; is_refused, "row {number}");
    }
    Ok(())
}

/// A packet text that is good, and one that is bad.
const GOOD: &str = "0 ff\ncommit\n0 ff\n";

const BAD: &str = "0 ff\ncommit\n1 abc\n";

/// A packet text, a cycle, how the run ends, and what it prints.
const VECTORS: &[(&str, &str, Status, &str)] = &[
    (GOOD, "1", Status::Done, "0 1 0:02 1:ff\n"),
    (GOOD, "2", Status::Done, "0 2 0:02 1:ff\n1 0 0:02 1:ff\n"),
    (
        BAD,
        "1",
        Status::BadPackets,
        "0 1 0:02 1:ff\nbad packets 1 line 3\n",
    ),
    (BAD, "2", Status::BadPackets, "bad packets 1 line 3\n"),
];

/// A commit takes cycles, in which packets go on; vectors are printed before a bad line where more cycles were made.
#[test]
fn vectors_behind_a_commit(rt: HostRuntime) -> Result<(), Fail> {
    for (number, &(packets, cycle, status, printed)) in VECTORS.iter().enumerate() {
        let files = [
            ("p", SMALLEST),
            ("e", b"".as_slice()),
            ("k", packets.as_bytes()),
        ];
        let case = Case {
            before: &[COMPILE],
            words: &["probe", "i", "k", cycle],
            outside: STEADY,
            status,
            told: Told::Is(printed),
        };
        assert!(rt; holds(rt.alloc(), &files, case)?, "row {number}");
    }
    Ok(())
}

/// A table on 16 bits without parameters.
const WIDE: &[u8] =
    b"header h { f : 16; } next accept;\naction go() { out_port = 1; }\naction away() { drop = 1; }\ntable b { exact h.f; actions go; size 16; default away(); }\ncontrol { apply b; }\n";

/// The image of `WIDE`, whose names say that the table may have 65,536 entries.
fn widened(alloc: Global) -> Result<Vec<u8>, Fail> {
    let mut image = image_of(alloc, WIDE, "")?;
    // Behind the size stand the key's width, and one action without parameters.
    let length = image.len();
    if length >= 15 {
        image[length - 14] = 1;
        image[length - 13] = 0;
        image[length - 12] = 0;
    }
    Ok(image)
}

/// So many additions, and a commit.
fn many_keys(alloc: Global, count: u32) -> Result<String, AllocError> {
    let mut packets = String::new(alloc);
    for key in 0..count {
        write!(packets, "+ b {key} go\n")?;
    }
    packets.push_str("commit\n")?;
    Ok(packets)
}

/// One more key than a table has cells.
#[test]
fn a_commit_that_does_not_load(rt: HostRuntime) -> Result<(), Fail> {
    let image = widened(rt.alloc())?;
    let packets = many_keys(rt.alloc(), 16_385)?;
    let line = "bad packets 10 line 16386\n";
    assert!(rt; refuses(rt.alloc(), image.as_slice(), packets.as_str(), line)?);
    Ok(())
}

/// Ten packets and one commit, so many times; each commit replaces the entry.
fn many(alloc: Global, times: u32) -> Result<String, AllocError> {
    let mut text = String::new(alloc);
    for time in 0..times {
        for _packet in 0..10u8 {
            text.push_str("0 07\n")?;
        }
        let port = time % 512;
        write!(text, "- b 7\n+ b 7 go {port}\ncommit\n")?;
    }
    Ok(text)
}

/// Whether `sim` of a program, its entries and packets prints what `plain` prints, and then of cycles.
fn runs_on(alloc: Global, program: &[u8], entries: &str, packets: &str) -> Result<bool, Fail> {
    let files = [
        ("p", program),
        ("e", entries.as_bytes()),
        ("k", packets.as_bytes()),
    ];
    let mut shelf = shelf_of(alloc, &files, STEADY)?;
    run_over(alloc, COMPILE, &mut shelf, STEADY)?;
    let (said, plain) = run_over(alloc, PLAIN, &mut shelf, STEADY)?;
    let (told, sim) = run_over(alloc, SIM, &mut shelf, STEADY)?;
    let is_on = match sim.as_slice().strip_prefix(plain.as_slice()) {
        Some(last) => last.starts_with(b"cycles "),
        None => false,
    };
    Ok(said == Status::Done && told == Status::Done && is_on)
}

/// 20,000 packets and 2,000 commits: `sim` prints what `plain` prints, and then two lines.
#[test]
fn many_commits(rt: HostRuntime) -> Result<(), Fail> {
    let packets = many(rt.alloc(), 2_000)?;
    assert!(rt; runs_on(rt.alloc(), COUNTED, ENTRIES, packets.as_str())?);
    Ok(())
}
