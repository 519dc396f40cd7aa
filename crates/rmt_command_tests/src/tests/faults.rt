//! Each call of the shelf and of the sink fails in turn, one number at a time, until a run meets no fault.

use crate::fixtures::captures::capture_of;
use crate::fixtures::cases::file_of;
use crate::fixtures::commands::{Left, Outside, STEADY, run_on};
use crate::fixtures::programs::TO_A_GROUP;
use rmt_core::status::Status;
use rmt_io::mem_shelf::MemShelf;
use rmt_tests::fixtures::programs::STRICT_AND_WEAK;
use std::alloc::{AllocError, Global};
use std::test::*;

const ENTRIES: &str = "b 7 go 5\n";

const PACKETS: &str = "0 07\n0 08\n";

/// The group of the ports to which the second image sends.
const GROUPS: &str = "300 2 1\n";

/// The files' names: program, entries, packets, image and map that are read, image that is written, which is there
/// before, map that is written, image that sends to a group, groups, capture, and the captures that are written, of which
/// one is there before.
const NAMES: [&str; 12] = [
    "p", "e", "k", "i", "m", "o", "n", "j", "g", "c", "o.1.pcap", "o.2.pcap",
];

/// Calls that give or take at most 8 bytes.
const SMALL: Outside = Outside {
    given: 8,
    taken: 8,
    ..STEADY
};

/// A command, and how many calls a run of it makes that meets no fault.
#[derive(Clone, Copy)]
struct Row<'a> {
    words: &'a [&'a str],
    /// How many calls of the shelf.
    shelf_calls: u8,
    /// How many of these come before any packet is read. Nothing is printed before them.
    quiet: u8,
    /// The names of the files that are written, in their order. The shelf's last calls write them.
    writes: &'a [&'a str],
    /// How many calls of the sink.
    sink_calls: u8,
}

/// The parts of a row, in its order.
type Parts = (&'static [&'static str], u8, u8, &'static [&'static str], u8);

/// Every command that stands, in the order of the help.
const ROWS: [Parts; 10] = [
    (&["compile", "p", "e", "o"], 3, 3, &["o"], 7),
    (&["compile", "p", "e", "o", "n"], 4, 4, &["o", "n"], 7),
    (&["improve", "p", "e", "o", "3"], 3, 3, &["o"], 7),
    (&["sim", "i", "k"], 5, 2, &[], 5),
    (&["probe", "i", "k", "13"], 5, 2, &[], 5),
    (&["plain", "p", "e", "k"], 6, 3, &[], 2),
    (&["report", "i"], 1, 1, &[], 37),
    (&["sample", "1"], 0, 0, &[], 8),
    (
        &["switch", "j", "g", "c", "o", "1"],
        5,
        5,
        &["o.1.pcap", "o.2.pcap"],
        7,
    ),
    (&["verify", "p", "e", "i", "m"], 4, 4, &[], 1),
];

/// The row of its parts.
fn row_of(parts: &Parts) -> Row<'static> {
    let (words, shelf_calls, quiet, writes, sink_calls) = *parts;
    Row {
        words,
        shelf_calls,
        quiet,
        writes,
        sink_calls,
    }
}

impl Row<'_> {
    /// How many calls of the shelf come before the one that writes the first file.
    fn reads(&self) -> u64 {
        u64::from(self.shelf_calls).saturating_sub(self.writes.len() as u64)
    }

    /// How many files were written before the call of the shelf that fails.
    fn written(&self, outside: Outside) -> u64 {
        if outside.shelf_fails == 0 {
            return self.writes.len() as u64;
        }
        outside
            .shelf_fails
            .saturating_sub(self.reads().saturating_add(1))
    }

    /// Whether a file is one of the first that are written.
    fn writes_early(&self, name: &str, written: u64) -> bool {
        let mut at: u64 = 0;
        for other in self.writes {
            if *other == name {
                return at < written;
            }
            at = at.saturating_add(1);
        }
        false
    }
}

/// The image of a program with its entries, `o`, or its map, `n`.
fn made(alloc: Global, program: &[u8], entries: &str, name: &str) -> Result<Vec<u8>, Fail> {
    let files = [("p", program), ("e", entries.as_bytes())];
    let left = run_on(alloc, &["compile", "p", "e", "o", "n"], &files, STEADY)?;
    Ok(file_of(alloc, &left.shelf, name)?)
}

/// The images, the map and the capture that the commands read.
#[derive(Drop)]
struct Given {
    image: Vec<u8>,
    map: Vec<u8>,
    to_a_group: Vec<u8>,
    capture: Vec<u8>,
}

/// What all runs read.
fn read_files(alloc: Global) -> Result<Given, Fail> {
    Ok(Given {
        image: made(alloc, STRICT_AND_WEAK, ENTRIES, "o")?,
        map: made(alloc, STRICT_AND_WEAK, ENTRIES, "n")?,
        to_a_group: made(alloc, TO_A_GROUP, "", "o")?,
        capture: capture_of(alloc, 3, &[0xff])?,
    })
}

/// Runs a command over the program, its entries, its packets, its image and map, and what `switch` reads.
fn run(alloc: Global, words: &[&str], given: &Given, outside: Outside) -> Result<Left, Fail> {
    let files = [
        ("p", STRICT_AND_WEAK),
        ("e", ENTRIES.as_bytes()),
        ("k", PACKETS.as_bytes()),
        ("i", given.image.as_slice()),
        ("m", given.map.as_slice()),
        ("o", b"before".as_slice()),
        ("j", given.to_a_group.as_slice()),
        ("g", GROUPS.as_bytes()),
        ("c", given.capture.as_slice()),
        ("o.2.pcap", b"before".as_slice()),
    ];
    run_on(alloc, words, &files, outside)
}

/// Whether the first files that a command writes are those of one shelf, and all others those of another.
fn are_of(
    alloc: Global,
    row: Row<'_>,
    written: u64,
    left: &MemShelf,
    whole: &MemShelf,
    before: &MemShelf,
) -> Result<bool, AllocError> {
    let mut are_of = true;
    for name in NAMES.iter() {
        let wanted = if row.writes_early(*name, written) {
            whole
        } else {
            before
        };
        let name = String::from_str(alloc, *name)?;
        are_of = are_of && left.file(&name) == wanted.file(&name);
    }
    Ok(are_of)
}

/// What a call that fails makes of a run: its status, and whether nothing is printed.
fn wanted(row: Row<'_>, outside: Outside) -> (Status, bool) {
    if outside.sink_fails > 0 {
        if outside.sink_fails > u64::from(row.sink_calls) {
            return (Status::Done, false);
        }
        return (Status::WriteFault, outside.sink_fails == 1);
    }
    let call = outside.shelf_fails;
    if call > u64::from(row.shelf_calls) {
        (Status::Done, false)
    } else if call > row.reads() {
        (Status::WriteFault, true)
    } else {
        (Status::ReadFault, call <= u64::from(row.quiet))
    }
}

/// A run that meets no fault, and one of no command, which leaves all files.
#[derive(Drop)]
struct Ends {
    whole: Left,
    before: Left,
}

/// Whether a run with one fault ends as it should: with the fault's status, a front of the whole text or nothing, the files
/// that were written before the fault, and all others as before the call.
fn is_right(
    alloc: Global,
    row: Row<'_>,
    given: &Given,
    ends: &Ends,
    outside: Outside,
) -> Result<bool, Fail> {
    let (status, is_quiet) = wanted(row, outside);
    let ended = run(alloc, row.words, given, outside)?;
    let whole = &ends.whole;
    let front = whole.printed.as_slice();
    let printed = ended.printed.as_slice();
    let is_text = match status {
        Status::Done => printed == front,
        _ => front.starts_with(printed),
    };
    let is_empty = printed.is_empty() || !is_quiet;
    let written = row.written(outside);
    let are_files = are_of(
        alloc,
        row,
        written,
        &ended.shelf,
        &whole.shelf,
        &ends.before.shelf,
    )?;
    Ok(ended.status == status && is_text && is_empty && are_files)
}

/// Whether a command ends as it should for each call of the shelf and of the sink that fails, and at last for none.
fn holds(alloc: Global, row: Row<'_>, given: &Given) -> Result<bool, Fail> {
    let ends = Ends {
        whole: run(alloc, row.words, given, STEADY)?,
        before: run(alloc, &[], given, STEADY)?,
    };
    let mut is_held = ends.whole.status == Status::Done;
    for call in 0..row.shelf_calls.saturating_add(1) {
        let outside = Outside {
            shelf_fails: u64::from(call) + 1,
            ..SMALL
        };
        is_held = is_held && is_right(alloc, row, given, &ends, outside)?;
    }
    for call in 0..row.sink_calls.saturating_add(1) {
        let outside = Outside {
            sink_fails: u64::from(call) + 1,
            ..SMALL
        };
        is_held = is_held && is_right(alloc, row, given, &ends, outside)?;
    }
    Ok(is_held)
}

#[test]
fn each_call_fails(rt: HostRuntime) -> Result<(), Fail> {
    let alloc = rt.alloc();
    let given = read_files(alloc)?;
    for (number, parts) in ROWS.iter().enumerate() {
        assert!(rt; holds(alloc, row_of(parts), &given)?, "row {number}");
    }
    Ok(())
}

/// What is given and taken a byte at a time.
const SINGLE: Outside = Outside {
    given: 1,
    taken: 1,
    ..STEADY
};

/// Whether a command ends as ever where a shelf gives one byte at a time, and a sink takes one.
fn holds_in_bytes(alloc: Global, row: Row<'_>, given: &Given) -> Result<bool, Fail> {
    let whole = run(alloc, row.words, given, STEADY)?;
    let left = run(alloc, row.words, given, SINGLE)?;
    let all = row.writes.len() as u64;
    let are_files = are_of(alloc, row, all, &left.shelf, &whole.shelf, &whole.shelf)?;
    Ok(left.status == Status::Done && left.printed == whole.printed && are_files)
}

#[test]
fn a_byte_at_a_time(rt: HostRuntime) -> Result<(), Fail> {
    let alloc = rt.alloc();
    let given = read_files(alloc)?;
    for (number, parts) in ROWS.iter().enumerate() {
        assert!(rt;
            holds_in_bytes(alloc, row_of(parts), &given)?,
            "row {number}"
        );
    }
    Ok(())
}
