//! What `sim` and `plain` print: of one program, its entries and packets the same lines, and then the cycles and the flight.

use crate::tests::runs::{Run, both_print, both_tell};
use rmt_command_tests::fixtures::cases::{COMPILE, Case, PLAIN, SIM, Told, holds};
use rmt_command_tests::fixtures::commands::{Outside, STEADY, run_over, shelf_of};
use rmt_command_tests::fixtures::programs::*;
use rmt_core::status::Status;
use rmt_tests::fixtures::programs::{REALISTIC, REALISTIC_ENTRIES, STRICT_AND_WEAK};
use std::alloc::{AllocError, Global};
use std::test::*;

const REALISTIC_RUN: Run<'static> = Run {
    program: REALISTIC,
    entries: REALISTIC_ENTRIES,
    packets: REALISTIC_PACKETS,
    status: Status::Done,
    lines: REALISTIC_ANSWERS,
    run: "cycles 42\nflight 6\n",
};

/// A program, its entries and packets; the lines of `plain`, and what `sim` prints behind them.
type Row = (
    &'static [u8],
    &'static str,
    &'static str,
    &'static str,
    &'static str,
);

const ROWS: &[Row] = &[
    (SMALLEST, "", "0 ff", "0 1 ff\n", "cycles 13\nflight 1\n"),
    (SMALLEST, "", "", "", "cycles 0\nflight 0\n"),
    (SMALLEST, "", "# none\n", "", "cycles 0\nflight 0\n"),
    (
        SMALLEST,
        "",
        "7 0A0b\n  \n511 FF",
        "0 1 0a0b\n1 1 ff\n",
        "cycles 14\nflight 2\n",
    ),
    (NO_STAGE, "", "5 ff", "0 0 ff\n", "cycles 1\nflight 1\n"),
    (
        TWO_HEADERS,
        "",
        "0 01ff\n0 02ff\n0 01\n",
        "0 2 01ff\n1 2 02ff\n2 drop short\n",
        "cycles 15\nflight 3\n",
    ),
    (
        SHARED_STAGE,
        "",
        "0 ff",
        "0 3 ff\n",
        "cycles 13\nflight 1\n",
    ),
    (
        TAILED_AND_SENT,
        "",
        "0 2faabbccddee\n0 2faabb\n0 0f\n0 1f\n",
        "0 1 2faabbccddee\n1 drop short\n2 drop reject\n3 1 1f\n",
        "cycles 16\nflight 4\n",
    ),
    (
        IN_ORDER,
        "",
        "0 0102",
        "0 0 0202\n",
        "cycles 13\nflight 1\n",
    ),
    (TWO_FIELDS, "", "0 05", "0 0 65\n", "cycles 16\nflight 1\n"),
    (
        TAILED,
        "",
        TAILED_PACKETS,
        TAILED_ANSWERS,
        "cycles 4\nflight 1\n",
    ),
    (
        TWO_TAILS,
        TWO_TAILS_ENTRIES,
        TWO_TAILS_PACKETS,
        TWO_TAILS_ANSWERS,
        "cycles 18\nflight 6\n",
    ),
    (
        PREFIX,
        PREFIXES,
        "0 0a000105\n0 0a000106\n0 0a010000\n0 0b000000\n",
        "0 4 0a000105\n1 3 0a000106\n2 2 0a010000\n3 1 0b000000\ncount 0 1 4\ncount 1 1 4\ncount 2 1 4\ncount 3 1 4\n",
        "cycles 16\nflight 4\n",
    ),
    (
        STRICT_AND_WEAK,
        "b 7 go 5\n",
        "0 07\n0 08\n",
        "0 5 07\n1 0 08\n",
        "cycles 26\nflight 2\n",
    ),
    (
        REALISTIC,
        "",
        "0 0200000000010200000000028100000508",
        "0 drop short\n",
        "cycles 37\nflight 1\n",
    ),
];

#[test]
fn runs(rt: HostRuntime) -> Result<(), Fail> {
    for (number, &(program, entries, packets, lines, run)) in ROWS.iter().enumerate() {
        let row = Run {
            program,
            entries,
            packets,
            status: Status::Done,
            lines,
            run,
        };
        assert!(rt; both_print(rt.alloc(), row, STEADY)?, "row {number}");
    }
    Ok(())
}

/// What is given and taken a byte at a time.
const IN_BYTES: Outside = Outside {
    given: 1,
    taken: 1,
    ..STEADY
};

#[test]
fn realistic(rt: HostRuntime) -> Result<(), Fail> {
    assert!(rt; both_print(rt.alloc(), REALISTIC_RUN, STEADY)?);
    assert!(rt; both_print(rt.alloc(), REALISTIC_RUN, IN_BYTES)?);
    Ok(())
}

/// The second commit waits until the first packet has left, which saw the entries before both.
const COMMITTED: Run<'static> = Run {
    packets: REALISTIC_COMMITS,
    lines: REALISTIC_COMMITTED,
    run: "cycles 80\nflight 2\n",
    ..REALISTIC_RUN
};

#[test]
fn realistic_with_commits(rt: HostRuntime) -> Result<(), Fail> {
    assert!(rt; both_print(rt.alloc(), COMMITTED, STEADY)?);
    Ok(())
}

/// Packets of which a line is bad, and what is printed.
const BAD: &[(&str, &str)] = &[
    (
        "0 ff\n1 00\n2 abc\n",
        "0 1 ff\n1 1 00\nbad packets 1 line 3\n",
    ),
    ("512 ff\n", "bad packets 2 line 1\n"),
    ("\n0 \n", "bad packets 3 line 2\n"),
];

#[test]
fn bad_packets(rt: HostRuntime) -> Result<(), Fail> {
    for (number, &(packets, lines)) in BAD.iter().enumerate() {
        let row = Run {
            program: SMALLEST,
            entries: "",
            packets,
            status: Status::BadPackets,
            lines,
            run: "",
        };
        assert!(rt; both_print(rt.alloc(), row, STEADY)?, "row {number}");
    }
    Ok(())
}

const TOO_DEEP_FILES: &[(&str, &[u8])] = &[("p", TOO_DEEP), ("e", b""), ("k", b"0 010203")];

/// What doesn't fit runs plainly.
const TOO_DEEP_CASE: Case<'static> = Case {
    before: &[COMPILE],
    words: PLAIN,
    outside: STEADY,
    status: Status::Done,
    told: Told::Is("0 0 030603\n"),
};

#[test]
fn too_deep_runs_plainly(rt: HostRuntime) -> Result<(), Fail> {
    assert!(rt; holds(rt.alloc(), TOO_DEEP_FILES, TOO_DEEP_CASE)?);
    Ok(())
}

/// The ends of the packets of the split table, and the ports to which they go.
const SPLIT_PACKETS: &[(&str, u8)] = &[("00", 1), ("0800", 2), ("1388", 3)];

/// Those packets, and the lines of their answers.
fn split_texts(alloc: Global) -> Result<(String, String), AllocError> {
    let mut packets = String::new(alloc);
    let mut lines = String::new(alloc);
    for (number, &(digits, port)) in SPLIT_PACKETS.iter().enumerate() {
        let frame = split_packet(alloc, digits)?;
        write!(packets, "0 {frame}\n")?;
        write!(lines, "{number} {port} {frame}\n")?;
    }
    Ok((packets, lines))
}

#[test]
fn split_ternary(rt: HostRuntime) -> Result<(), Fail> {
    let alloc = rt.alloc();
    let entries = split_entries(alloc)?;
    let (packets, lines) = split_texts(alloc)?;
    let row = Run {
        program: SPLIT,
        entries: entries.as_str(),
        packets: packets.as_str(),
        status: Status::Done,
        lines: lines.as_str(),
        run: "cycles 16\nflight 3\n",
    };
    assert!(rt; both_print(alloc, row, STEADY)?);
    Ok(())
}

/// So many packets of one frame, and the lines of their answers.
fn packets_of(alloc: Global, count: u32, frame: &str) -> Result<(String, String), AllocError> {
    let mut packets = String::new(alloc);
    let mut lines = String::new(alloc);
    for i in 0..count {
        write!(packets, "{} {frame}\n", i % 512)?;
        write!(lines, "{i} 0 {frame}\n")?;
    }
    Ok((packets, lines))
}

/// Whether so many packets of a frame run through a chain of 32 tables as they should.
fn chain_runs(alloc: Global, count: u32, frame: &str, run: &str) -> Result<bool, Fail> {
    let program = chain(alloc, 32)?;
    let (packets, lines) = packets_of(alloc, count, frame)?;
    let files = [
        ("p", program.as_slice()),
        ("e", b"".as_slice()),
        ("k", packets.as_bytes()),
    ];
    let mut shelf = shelf_of(alloc, &files, STEADY)?;
    let lines = lines.as_str();
    both_tell(alloc, &mut shelf, STEADY, Status::Done, lines, run)
}

#[test]
fn greatest_flight(rt: HostRuntime) -> Result<(), Fail> {
    let frame = long_frame(rt.alloc(), 9216)?;
    let run = "cycles 884\nflight 385\n";
    assert!(rt; chain_runs(rt.alloc(), 500, frame.as_str(), run)?);
    Ok(())
}

#[test]
fn many_packets_through_all_stages(rt: HostRuntime) -> Result<(), Fail> {
    let run = "cycles 1884\nflight 385\n";
    assert!(rt; chain_runs(rt.alloc(), 1500, "5a", run)?);
    Ok(())
}

/// How `sim` of the smallest image ends over so many packets where a call of the sink fails, and how many bytes it printed.
fn cut_off(alloc: Global, packets: &str, sink_fails: u64) -> Result<(Status, usize), Fail> {
    let files = [
        ("p", SMALLEST),
        ("e", b"".as_slice()),
        ("k", packets.as_bytes()),
    ];
    let mut shelf = shelf_of(alloc, &files, STEADY)?;
    run_over(alloc, COMPILE, &mut shelf, STEADY)?;
    let outside = Outside {
        sink_fails,
        taken: 8_192,
        ..STEADY
    };
    let (status, text) = run_over(alloc, SIM, &mut shelf, outside)?;
    Ok((status, text.len()))
}

/// Which call of the sink fails, how the run ends, and how many bytes it prints, at least and at most.
const CUT_OFF: &[(u64, Status, usize, usize)] = &[
    (0, Status::Done, 120_913, 120_913),
    (1, Status::WriteFault, 0, 0),
    (16, Status::WriteFault, 100_000, 120_890),
];

/// 12,000 lines have 120,890 bytes, and the cycles and the flight 23 more; a call of the sink takes 8,192.
#[test]
fn sink_fails_near_the_end(rt: HostRuntime) -> Result<(), Fail> {
    let (packets, _lines) = packets_of(rt.alloc(), 12_000, "5a")?;
    for &(sink_fails, status, least, most) in CUT_OFF {
        let (ended, printed) = cut_off(rt.alloc(), packets.as_str(), sink_fails)?;
        let is_right = ended == status && least <= printed && printed <= most;
        assert!(rt; is_right, "{sink_fails}");
    }
    Ok(())
}

const SMALLEST_FILES: &[(&str, &[u8])] = &[("p", SMALLEST), ("e", b""), ("k", b"0 ff")];

/// An image stands where it is read from, whatever its name was before.
const OVER_ITS_PROGRAM: Case<'static> = Case {
    before: &[&["compile", "p", "e", "p"]],
    words: &["sim", "p", "k"],
    outside: STEADY,
    status: Status::Done,
    told: Told::Is("0 1 ff\ncycles 13\nflight 1\n"),
};

#[test]
fn image_over_its_program(rt: HostRuntime) -> Result<(), Fail> {
    assert!(rt; holds(rt.alloc(), SMALLEST_FILES, OVER_ITS_PROGRAM)?);
    Ok(())
}
