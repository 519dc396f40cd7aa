//! What `plain` and `sim` print of packet texts that change entries: the same lines, and `sim` then the cycles and the flight.

use crate::tests::runs::{Run, both_print, both_tell};
use rmt_command_tests::fixtures::commands::{STEADY, shelf_of};
use rmt_core::status::Status;
use rmt_tests::fixtures::programs::STRICT_AND_WEAK;
use std::alloc::Global;
use std::test::*;

/// A counted table on a byte.
pub const COUNTED: &[u8] =
    b"header h { f : 8; } next accept;\naction go(p : 9) { out_port = p; }\ntable b { exact h.f; actions go; size 16; counted; default go(0); }\ncontrol { apply b; }\n";

/// A ternary and a prefix table.
const ORDERED: &[u8] =
    b"header h { f : 8; g : 8; } next accept;\nmeta { x : 8; }\naction go(p : 9) { out_port = p; }\naction is(v : 8) { meta.x = v; }\ntable t { ternary h.f; actions go; size 16; default go(0); }\ntable u { prefix h.g; actions is; size 16; default is(0); }\naction put() { h.g = meta.x; }\ntable w { default put(); }\ncontrol { apply t; apply u; apply w; }\n";

/// The entry of `b` before the first commit.
pub const ENTRIES: &str = "b 7 go 5\n";

/// A packet text, how a run over it ends, what is printed, and what `sim` prints behind that.
type Row = (&'static str, Status, &'static str, &'static str);

/// Over the program with the table `b` on a byte, which has 16 entries and isn't counted.
const UNCOUNTED_ROWS: [Row; 22] = [
    // an entry that a commit removes and adds again
    (
        "0 07\n- b 7\n+ b 7 go 6\ncommit\n0 07\n",
        Status::Done,
        "0 5 07\n1 6 07\n",
        "cycles 29\nflight 2\n",
    ),
    // and that the next one removes
    (
        "0 07\n- b 7\n+ b 7 go 6\ncommit\n0 07\n- b 7\ncommit\n0 07\n",
        Status::Done,
        "0 5 07\n1 6 07\n2 0 07\n",
        "cycles 52\nflight 2\n",
    ),
    // a commit of no change
    (
        "0 07\ncommit",
        Status::Done,
        "0 5 07\n",
        "cycles 25\nflight 1\n",
    ),
    (
        "commit\ncommit\n0 07\n",
        Status::Done,
        "0 5 07\n",
        "cycles 27\nflight 1\n",
    ),
    // changes behind the last commit
    (
        "- b 7\n0 07\n+ b 8 go 1\n",
        Status::Done,
        "0 5 07\n",
        "cycles 25\nflight 1\n",
    ),
    // an addition that is removed before its commit
    (
        "+ b 8 go 1\n- b 8\ncommit\n0 08\n",
        Status::Done,
        "0 0 08\n",
        "cycles 26\nflight 1\n",
    ),
    (
        "+ b 8 go 1\n# none\n\ncommit\n0 08\n",
        Status::Done,
        "0 1 08\n",
        "cycles 27\nflight 1\n",
    ),
    // each code
    (
        "+ b 256 go 1\n",
        Status::BadPackets,
        "bad packets 5 line 1\n",
        "",
    ),
    ("+ b 7\n", Status::BadPackets, "bad packets 5 line 1\n", ""),
    (
        "+ q 7 go 1\n",
        Status::BadPackets,
        "bad packets 5 line 1\n",
        "",
    ),
    (
        "+ a 7 go 1\n",
        Status::BadPackets,
        "bad packets 5 line 1\n",
        "",
    ),
    ("- a 7\n", Status::BadPackets, "bad packets 5 line 1\n", ""),
    ("- b\n", Status::BadPackets, "bad packets 5 line 1\n", ""),
    (
        "+ b 7 go 512\n",
        Status::BadPackets,
        "bad packets 5 line 1\n",
        "",
    ),
    (
        "+ b 7 go 1\n",
        Status::BadPackets,
        "bad packets 6 line 1\n",
        "",
    ),
    ("- b 8\n", Status::BadPackets, "bad packets 8 line 1\n", ""),
    (
        "- b 7\n- b 7\n",
        Status::BadPackets,
        "bad packets 8 line 2\n",
        "",
    ),
    (
        "+ b 8 go 1\n+ b 8 go 1\n",
        Status::BadPackets,
        "bad packets 6 line 2\n",
        "",
    ),
    // a removal makes room for an addition in the same commit
    (
        "- b 7\n+ b 7 go 1\ncommit\n0 07\n",
        Status::Done,
        "0 1 07\n",
        "cycles 28\nflight 1\n",
    ),
    // the answers before a refused line are printed
    (
        "0 07\n+ b 8 go 9\ncommit\n0 08\n+ b 256 go 1\n0 07\n",
        Status::BadPackets,
        "0 5 07\n1 9 08\nbad packets 5 line 5\n",
        "",
    ),
    // a line of a packet behind changes has the codes of packets
    (
        "+ b 8 go 9\n512 00\n",
        Status::BadPackets,
        "bad packets 2 line 2\n",
        "",
    ),
    // 15 more entries fill the table, and one is too many
    (
        "+ b 8 go 1\n+ b 9 go 1\n+ b 10 go 1\n+ b 11 go 1\n+ b 12 go 1\n+ b 13 go 1\n+ b 14 go 1\n+ b 15 go 1\n+ b 16 go 1\n+ b 17 go 1\n+ b 18 go 1\n+ b 19 go 1\n+ b 20 go 1\n+ b 21 go 1\n+ b 22 go 1\n+ b 23 go 1\n",
        Status::BadPackets,
        "bad packets 7 line 16\n",
        "",
    ),
];

/// Over a counted table: what was removed keeps its count, and what comes has one of its own.
const COUNTED_ROWS: [Row; 2] = [
    (
        "0 07\n- b 7\n+ b 7 go 6\ncommit\n0 07\n0 0708\n",
        Status::Done,
        "0 5 07\n1 6 07\n2 6 0708\ncount 0 1 1\ncount 1 2 3\n",
        "cycles 18\nflight 3\n",
    ),
    (
        "+ b 8 go 1\ncommit\n0 07\n",
        Status::Done,
        "0 5 07\ncount 0 1 1\ncount 1 0 0\n",
        "cycles 15\nflight 1\n",
    ),
];

/// Over a ternary and a prefix table.
const ORDERED_ROWS: [Row; 6] = [
    // of two equal ternary entries the removal takes the one of the least number
    (
        "+ t 0 * go 1\n+ t 0 * go 2\ncommit\n0 0000\n- t 0 *\ncommit\n0 0000\n",
        Status::Done,
        "0 1 0000\n1 2 0000\n",
        "cycles 22\nflight 2\n",
    ),
    // the least priority goes first, whenever it came
    (
        "+ t 9 * go 1\ncommit\n+ t 3 * go 2\ncommit\n0 0000\n- t 3 *\ncommit\n0 0000\n",
        Status::Done,
        "0 2 0000\n1 1 0000\n",
        "cycles 24\nflight 2\n",
    ),
    // rows move once no packet is in flight
    (
        "0 0000\n+ t 9 * go 1\ncommit\n0 0000\n+ t 3 * go 2\ncommit\n0 0000\n",
        Status::Done,
        "0 0 0000\n1 1 0000\n2 2 0000\n",
        "cycles 38\nflight 2\n",
    ),
    // the longest prefix goes first
    (
        "+ u 0/4 is 1\ncommit\n+ u 0/8 is 2\ncommit\n0 0000\n- u 0/8\ncommit\n0 0000\n",
        Status::Done,
        "0 0 0002\n1 0 0001\n",
        "cycles 24\nflight 2\n",
    ),
    (
        "+ u 0/4 is 1\n+ u 3/4 is 1\n",
        Status::BadPackets,
        "bad packets 6 line 2\n",
        "",
    ),
    (
        "+ t 0 * go 1\n- t 1 *\n",
        Status::BadPackets,
        "bad packets 8 line 2\n",
        "",
    ),
];

/// The number of the first row that a program with its entries doesn't keep.
fn first_wrong<'a>(
    alloc: Global,
    program: &'a [u8],
    entries: &'a str,
    rows: &[Row],
) -> Result<Option<usize>, Fail> {
    for (number, &(packets, status, lines, run)) in rows.iter().enumerate() {
        let row = Run {
            program,
            entries,
            packets,
            status,
            lines,
            run,
        };
        if !both_print(alloc, row, STEADY)? {
            return Ok(Some(number));
        }
    }
    Ok(None)
}

#[test]
fn changes(rt: HostRuntime) -> Result<(), Fail> {
    let alloc = rt.alloc();
    let uncounted = first_wrong(alloc, STRICT_AND_WEAK, ENTRIES, &UNCOUNTED_ROWS)?;
    assert_eq!(rt; uncounted, None);
    assert_eq!(rt; first_wrong(alloc, COUNTED, ENTRIES, &COUNTED_ROWS)?, None);
    assert_eq!(rt; first_wrong(alloc, ORDERED, "", &ORDERED_ROWS)?, None);
    Ok(())
}

/// Whether the run over a change whose line has so many bytes comes out so.
fn runs_long(
    alloc: Global,
    length: usize,
    status: Status,
    lines: &str,
    run: &str,
) -> Result<bool, Fail> {
    let change = "+ b 8 go 6";
    let spaces = " ".repeat(alloc, length.saturating_sub(change.len()))?;
    let packets = format!(in alloc; "{change}{spaces}\ncommit\n0 08\n")?;
    let files = [
        ("p", STRICT_AND_WEAK),
        ("e", ENTRIES.as_bytes()),
        ("k", packets.as_bytes()),
    ];
    let mut shelf = shelf_of(alloc, &files, STEADY)?;
    both_tell(alloc, &mut shelf, STEADY, status, lines, run)
}

/// A line of a change that is as long as it may be, and one byte longer.
#[test]
fn longest_change(rt: HostRuntime) -> Result<(), Fail> {
    let run = "cycles 27\nflight 1\n";
    assert!(rt; runs_long(rt.alloc(), 18_443, Status::Done, "0 6 08\n", run)?);
    let bad = "bad packets 5 line 1\n";
    assert!(rt; runs_long(rt.alloc(), 18_444, Status::BadPackets, bad, "")?);
    Ok(())
}
