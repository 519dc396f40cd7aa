//! What `sample` prints, and the report of the program of a switch.

use rmt_command_tests::fixtures::cases::{COMPILE, Case, Told, ends, holds};
use rmt_command_tests::fixtures::commands::STEADY;
use rmt_core::status::Status;
use rmt_tests::fixtures::programs::{REALISTIC, REALISTIC_ENTRIES};
use std::alloc::Global;
use std::test::*;

/// A word for a number, how a run of `sample` ends, and what it prints.
const SAMPLES: &[(&str, Status, &str)] = &[
    (
        "1",
        Status::Done,
        "sample 1 packets 2 out 1 drop 1 sent 14 stages 1 cycles 14\n",
    ),
    (
        "007",
        Status::Done,
        "sample 7 packets 14 out 7 drop 7 sent 158 stages 1 cycles 26\n",
    ),
    (
        "1000",
        Status::Done,
        "sample 1000 packets 2000 out 1000 drop 1000 sent 24000 stages 1 cycles 2012\n",
    ),
    ("0", Status::Usage, ""),
    ("100001", Status::Usage, ""),
    ("0000001", Status::Usage, ""),
    ("", Status::Usage, ""),
    ("x", Status::Usage, ""),
];

#[test]
fn samples(rt: HostRuntime) -> Result<(), Fail> {
    for (number, &(word, status, printed)) in SAMPLES.iter().enumerate() {
        let words = ["sample", word];
        let is_so = ends(rt.alloc(), &[], &words, status, Told::Is(printed))?;
        assert!(rt; is_so, "row {number}");
    }
    Ok(())
}

/// The parser is the clustered one, and stages are 12 cycles apart.
const FRONT: &str = "{\"latency\":36,\"parser\":{\"entries\":13,\"states\":3},\"stages\":[";

/// Whether the report of a program with its entries begins so.
fn is_reported(alloc: Global, program: &[u8], entries: &str, front: &str) -> Result<bool, Fail> {
    let files = [("p", program), ("e", entries.as_bytes())];
    let case = Case {
        before: &[COMPILE],
        words: &["report", "i"],
        outside: STEADY,
        status: Status::Done,
        told: Told::Begins(front),
    };
    holds(alloc, &files, case)
}

#[test]
fn report_of_the_realistic(rt: HostRuntime) -> Result<(), Fail> {
    assert!(rt; is_reported(rt.alloc(), REALISTIC, REALISTIC_ENTRIES, FRONT)?);
    Ok(())
}
