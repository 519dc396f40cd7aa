//! Packets of two versions in two stages, worked out by hand. In `BOTH` a packet reads the cells of the first stage as it
//! enters, and those of the second at age 12; it leaves at age 24.

use crate::chip::fixture::{at, bytes_of, commit, open, step, write};
use rmt_bits::answer::Verdict;
use rmt_chip::chip::Chip;
use rmt_chip::out::Out;
use rmt_config::cell_write::CellWrite;
use std::alloc::{AllocError, Global};
use std::process::Abort;
use std::test::*;

/// Two stages of one ternary table each, both on the first byte of the header: an entry of the first gives its second byte,
/// one of the second the port. No entry is listed. The names make visible bits count.
const BOTH: &str = "
524d5449 0002 00 400009 410009 010001       # letters, version, seed, in_port, out_port, drop
01 000001 02 02 020008 030008               # a header with the bytes in words 2 and 3
0001 00                                     # a state that looks at nothing
0001 00 00000000 00000000 02 02 00 03       # an entry that takes 2 bytes and accepts
     01000001 000000020008 000008030008     # it makes the header valid, and fills the words
02                                          # 2 stages
0000 01                                     # the first with 1 unit:
01 00 00 00 01 01 0009 0001 020008          # a table of node 0 with 1 action and 9 data bits, on word 2
     02 01 00 00                            # 1 quantum; blocks of keys and records
     00000000
01 030008 00 010000 0200000000              # the lowest 8 bits of the data into word 3
00                                          # by default nothing
00000000 00000000
000c 01                                     # the second begins at 12, with 1 unit:
01 01 00 00 01 01 0009 0001 020008          # a table of node 1, alike
     02 01 00 00
     00000000
01 410009 00 010000 0200000000              # the data into out_port
00
00000000 00000000
02                                          # 2 tables with a key:
00 00000001 61 02 00000010                  # `a` of node 0, ternary, size 16
     0001 08
     01 00000002 676f 01 09
     00000000
01 00000001 62 02 00000010                  # `b` of node 1, alike
     0001 08
     01 00000002 676f 01 09
     00000000
";

/// The rows of key 7: the stage, the row, the visible bits, and what the entry gives.
const ROWS: [(u8, u32, u8, u8); 4] = [(0, 0, 1, 3), (0, 1, 2, 4), (1, 0, 2, 6), (1, 1, 1, 5)];

/// A changed row of key 7.
fn row_of(alloc: Global, row: (u8, u32, u8, u8)) -> Result<CellWrite, AllocError> {
    let (stage, cell, visible, given) = row;
    Ok(CellWrite {
        stage,
        unit: 0,
        cell,
        visible,
        code: 0,
        key: bytes_of(alloc, &[7])?,
        mask: bytes_of(alloc, &[0xff])?,
        held: bytes_of(alloc, &[0, given])?,
        number: 1,
    })
}

/// What comes in a cycle behind those of the rows: the frame 07 00, or a new version.
#[derive(Clone, Copy, Debug)]
enum Coming {
    Packet,
    Commit,
}

/// A packet of each version enters as the one of the version before it comes to the second stage.
const COMINGS: [(usize, Coming); 5] = [
    (0, Coming::Packet),
    (11, Coming::Commit),
    (12, Coming::Packet),
    (23, Coming::Commit),
    (24, Coming::Packet),
];

/// The ports and second bytes of the answers, by cycle: the third packet's version is even, as the first's.
const ANSWERS: [(usize, (u16, u8)); 3] = [(24, (5, 3)), (36, (6, 4)), (48, (5, 3))];

/// One cycle.
fn cycle(
    rt: &impl Abort,
    chip: &mut Chip,
    out: &mut Out,
    coming: Option<Coming>,
) -> Option<Verdict> {
    match coming {
        None => step(rt, chip, out, None),
        Some(Coming::Packet) => step(rt, chip, out, Some((0, &[7, 0]))),
        Some(Coming::Commit) => commit(rt, chip, out, 0),
    }
}

/// Compares the answer of a cycle with a port and a second byte, if one is wanted.
fn compare(rt: &impl Abort, now: usize, verdict: Option<Verdict>, out: &Out) {
    match at(&ANSWERS, now) {
        None => assert!(rt; verdict == None, "cycle {now}"),
        Some((port, byte)) => {
            assert!(rt; verdict == Some(Verdict::Sent { port }), "cycle {now}");
            assert!(rt; out.bytes() == [7, byte].as_slice(), "cycle {now}");
        }
    }
}

/// The changed rows, packets and versions, and the answers.
fn run(rt: &(impl Abort + AllocGlobal), chip: &mut Chip, out: &mut Out) -> Result<(), Fail> {
    chip.reserve(1)?;
    for row in &ROWS {
        let changed = row_of(rt.alloc(), *row)?;
        write(rt, chip, out, &changed);
    }
    for now in 0..50 {
        let verdict = cycle(rt, chip, out, at(&COMINGS, now));
        compare(rt, now, verdict, out);
    }
    Ok(())
}

/// A packet in the second stage and one of the next version in the first, both answered by the cells of their own version.
#[test]
fn two_versions(rt: HostRuntime) -> Result<(), Fail> {
    let mut out = Out::new(rt.alloc())?;
    let mut chip = open(&rt, &[BOTH])?;
    run(&rt, &mut chip, &mut out)
}
