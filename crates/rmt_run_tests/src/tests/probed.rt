//! What `probe` prints of the smallest image, and what `report` does, of one with a tail too.

use rmt_command_tests::fixtures::cases::{COMPILE, Case, Told, ends, holds};
use rmt_command_tests::fixtures::commands::{Outside, STEADY};
use rmt_command_tests::fixtures::images::SMALLEST_IMAGE;
use rmt_command_tests::fixtures::programs::TAILED;
use rmt_core::status::Status;
use std::test::*;

/// Packet texts of one packet, of two, and of two with a bad line in the place of packet 2.
const ONE: &str = "0 ff\n";

const TWO: &str = "7 0A\n511 ff\n";

const BAD: &str = "0 ff\n1 00\n2 abc\n";

/// A packet text, a word for a cycle, how the run ends, and what it prints.
const VECTORS: &[(&str, &str, Status, &str)] = &[
    (ONE, "11", Status::Done, "0 11 0:02 1:ff\n"),
    (ONE, "12", Status::Done, "0 12 0:02 1:ff 65:0001\n"),
    (ONE, "13", Status::Done, ""),
    (ONE, "0", Status::Done, "0 0 0:02 1:ff\n"),
    (ONE, "000000011", Status::Done, "0 11 0:02 1:ff\n"),
    (ONE, "999999999", Status::Done, ""),
    ("", "0", Status::Done, ""),
    (
        TWO,
        "12",
        Status::Done,
        "0 12 0:02 1:0a 64:0007 65:0001\n1 11 0:02 1:ff 64:01ff\n",
    ),
    (TWO, "13", Status::Done, "1 12 0:02 1:ff 64:01ff 65:0001\n"),
    // A bad line in the place of packet 2.
    (
        BAD,
        "1",
        Status::BadPackets,
        "0 1 0:02 1:ff\n1 0 0:02 64:0001\nbad packets 1 line 3\n",
    ),
    (BAD, "2", Status::BadPackets, "bad packets 1 line 3\n"),
    (BAD, "3", Status::BadPackets, "bad packets 1 line 3\n"),
    // Words that are no cycle.
    (ONE, "", Status::Usage, ""),
    (ONE, "0000000011", Status::Usage, ""),
    (ONE, "+1", Status::Usage, ""),
    (ONE, "1a", Status::Usage, ""),
];

#[test]
fn vectors_in_flight(rt: HostRuntime) -> Result<(), Fail> {
    for (number, &(packets, cycle, status, printed)) in VECTORS.iter().enumerate() {
        let files = [("i", SMALLEST_IMAGE.as_slice()), ("k", packets.as_bytes())];
        let words = ["probe", "i", "k", cycle];
        let is_so = ends(rt.alloc(), &files, &words, status, Told::Is(printed))?;
        assert!(rt; is_so, "row {number}");
    }
    Ok(())
}

const REPORT: &str =
    "{\"latency\":12,\"parser\":{\"entries\":1,\"states\":1},\"stages\":[{\"data\":0,\"exact_bits\":0,\"gates\":0,\"instructions\":1,\"slots\":1,\"sram\":0,\"start\":0,\"tcam\":0,\"ternary_bits\":0}],\"words\":[2,2,0]}\n";

/// An outside, and how a run of `report` ends there and what it prints.
const REPORTS: &[(Outside, Status, &str)] = &[
    (STEADY, Status::Done, REPORT),
    (
        Outside {
            shelf_fails: 1,
            ..STEADY
        },
        Status::ReadFault,
        "",
    ),
    (
        Outside {
            sink_fails: 2,
            taken: 10,
            ..STEADY
        },
        Status::WriteFault,
        "{\"latency\"",
    ),
];

const IMAGE: &[(&str, &[u8])] = &[("i", &SMALLEST_IMAGE)];

#[test]
fn report_of_the_smallest(rt: HostRuntime) -> Result<(), Fail> {
    for (number, &(outside, status, printed)) in REPORTS.iter().enumerate() {
        let case = Case {
            before: &[],
            words: &["report", "i"],
            outside,
            status,
            told: Told::Is(printed),
        };
        assert!(rt; holds(rt.alloc(), IMAGE, case)?, "row {number}");
    }
    Ok(())
}

const TAILED_REPORT: &str =
    "{\"latency\":0,\"parser\":{\"entries\":1,\"states\":1},\"stages\":[],\"words\":[2,2,0]}\n";

const TAILED_FILES: &[(&str, &[u8])] = &[("p", TAILED), ("e", b"")];

const TAILED_CASE: Case<'static> = Case {
    before: &[COMPILE],
    words: &["report", "i"],
    outside: STEADY,
    status: Status::Done,
    told: Told::Is(TAILED_REPORT),
};

#[test]
fn report_with_a_tail(rt: HostRuntime) -> Result<(), Fail> {
    assert!(rt; holds(rt.alloc(), TAILED_FILES, TAILED_CASE)?);
    Ok(())
}
