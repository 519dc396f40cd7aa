//! What `improve` prints: what `compile` does, over the best of some tries at placing the tables.

use crate::fixtures::cases::{COMPILE, PLAIN, SIM, Told, are_alike, are_same, is_joined};
use crate::fixtures::commands::{STEADY, put, run_over, shelf_of};
use crate::fixtures::programs::*;
use crate::tests::texts::{Row, Text, bytes_of, first_wrong};
use rmt_core::status::Status;
use rmt_tests::fixtures::programs::{REALISTIC, REALISTIC_ENTRIES, STRICT_AND_WEAK};
use std::alloc::Global;
use std::test::*;

const NO_ENTRY: Text = Text::Str("");

/// The lines of the order by the rule, and of a better one.
const BY_RULE: &str = "stages 3 latency 16\nbound 2 chain z y\nminimal no\n";

const BETTER: &str = "stages 2 latency 15\nbound 2 chain z y\nminimal yes\n";

/// The second try takes first what has the longest path before it, and saves a stage; so do more tries.
const ORDERS: &[Row] = &[
    (
        COMPILE,
        Text::BetterOrder,
        NO_ENTRY,
        Status::Done,
        Told::Is(BY_RULE),
    ),
    (
        &["improve", "p", "e", "i", "1"],
        Text::BetterOrder,
        NO_ENTRY,
        Status::Done,
        Told::Is(BY_RULE),
    ),
    (
        &["improve", "p", "e", "i", "2"],
        Text::BetterOrder,
        NO_ENTRY,
        Status::Done,
        Told::Is(BETTER),
    ),
    (
        &["improve", "p", "e", "i", "0040"],
        Text::BetterOrder,
        NO_ENTRY,
        Status::Done,
        Told::Is(BETTER),
    ),
];

#[test]
fn a_better_order(rt: HostRuntime) -> Result<(), Fail> {
    assert_eq!(rt; first_wrong(rt.alloc(), ORDERS)?, None);
    Ok(())
}

/// Where all tries are stuck, the line is that of the first.
const STUCK: &[Row] = &[(
    &["improve", "p", "e", "i", "5"],
    Text::Chain(33),
    NO_ENTRY,
    Status::NoFit,
    Told::Is("no fit stage t32 32:1:32:1\n"),
)];

#[test]
fn no_order(rt: HostRuntime) -> Result<(), Fail> {
    assert_eq!(rt; first_wrong(rt.alloc(), STUCK)?, None);
    Ok(())
}

/// The words that improve an image with one try, beside that of `compile`.
const ONE_TRY: &[&str] = &["improve", "p", "e", "j", "1"];

/// Whether `improve` with one try ends as `compile` does, with the same lines and the same image.
fn is_compile(alloc: Global, program: Text, entries: Text) -> Result<bool, Fail> {
    let program = bytes_of(alloc, program)?;
    let entries = bytes_of(alloc, entries)?;
    let files = [("p", program.as_slice()), ("e", entries.as_slice())];
    let mut shelf = shelf_of(alloc, &files, STEADY)?;
    let are_alike = are_alike(alloc, COMPILE, ONE_TRY, &mut shelf)?;
    Ok(are_alike && are_same(alloc, &shelf, "i", "j")?)
}

/// Programs with their entries.
const PROGRAMS: &[(Text, Text)] = &[
    (Text::Bytes(SMALLEST), NO_ENTRY),
    (Text::Bytes(NO_STAGE), NO_ENTRY),
    (Text::Bytes(IN_ORDER), NO_ENTRY),
    (Text::Bytes(TWO_FIELDS), NO_ENTRY),
    (Text::Bytes(PREFIX), Text::Str(PREFIXES)),
    (Text::Bytes(STRICT_AND_WEAK), Text::Str("b 7 go 5\n")),
    (Text::Bytes(STRICT_AND_WEAK), Text::Str("b 7 go 512\n")),
    (Text::Bytes(SPLIT), Text::SplitEntries),
    (Text::Bytes(TAILED), NO_ENTRY),
    (Text::Bytes(TWO_TAILS), Text::Str(TWO_TAILS_ENTRIES)),
    (Text::Bytes(LARGE), NO_ENTRY),
    (Text::Bytes(REALISTIC), Text::Str(REALISTIC_ENTRIES)),
    (Text::Bytes(TOO_DEEP), NO_ENTRY),
    (Text::Bytes(CROSSBAR), NO_ENTRY),
    (
        Text::Bytes(COLLIDING),
        Text::Str("t 0 no\nt 4 no\nt 8 no\nt 12 no\nt 16 no\nt 20 no\n"),
    ),
    (Text::LongHeader(64), NO_ENTRY),
    (Text::ManyCases(256), NO_ENTRY),
    (Text::Wide(65), NO_ENTRY),
    (Text::Str("@"), NO_ENTRY),
];

#[test]
fn one_try_is_compile(rt: HostRuntime) -> Result<(), Fail> {
    for (number, &(program, entries)) in PROGRAMS.iter().enumerate() {
        assert!(rt; is_compile(rt.alloc(), program, entries)?, "row {number}");
    }
    Ok(())
}

/// The words that improve an image with 20 tries.
const IMPROVE: &[&str] = &["improve", "p", "e", "i", "20"];

/// The image of a program by `improve` runs as the program does.
fn runs_plainly(
    alloc: Global,
    program: Text,
    entries: &str,
    packets: &str,
    run: &str,
) -> Result<bool, Fail> {
    let program = bytes_of(alloc, program)?;
    let mut shelf = shelf_of(alloc, &[], STEADY)?;
    put(alloc, &mut shelf, "p", program.as_slice())?;
    put(alloc, &mut shelf, "e", entries.as_bytes())?;
    put(alloc, &mut shelf, "k", packets.as_bytes())?;
    run_over(alloc, IMPROVE, &mut shelf, STEADY)?;
    let (said, wanted) = run_over(alloc, PLAIN, &mut shelf, STEADY)?;
    let (told, lines) = run_over(alloc, SIM, &mut shelf, STEADY)?;
    let is_joined = is_joined(lines.as_slice(), wanted.as_slice(), run.as_bytes());
    Ok(said == Status::Done && told == Status::Done && is_joined)
}

/// A program, its entries and packets, and what `sim` prints behind the lines of `plain`.
const RUNS: &[(Text, &str, &str, &str)] = &[
    (
        Text::BetterOrder,
        "",
        "0 ff\n0 00\n",
        "cycles 17\nflight 2\n",
    ),
    (
        Text::Bytes(STRICT_AND_WEAK),
        "b 7 go 5\n",
        "0 07\n",
        "cycles 25\nflight 1\n",
    ),
    (
        Text::Bytes(REALISTIC),
        REALISTIC_ENTRIES,
        REALISTIC_PACKETS,
        "cycles 42\nflight 6\n",
    ),
];

#[test]
fn images_run_plainly(rt: HostRuntime) -> Result<(), Fail> {
    for (number, &(program, entries, packets, run)) in RUNS.iter().enumerate() {
        let is_plain = runs_plainly(rt.alloc(), program, entries, packets, run)?;
        assert!(rt; is_plain, "row {number}");
    }
    Ok(())
}
