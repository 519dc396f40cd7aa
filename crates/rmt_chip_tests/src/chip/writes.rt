//! Changed cells and versions while packets are in flight, worked out by hand. In `SEVEN` a packet reads its key at age 12 and
//! leaves at age 24, with the port that the entry of key 7 gives, or port 0 where it finds none.

use crate::chip::fixture::{TWO_BYTES, at, bytes_of, commit, counted, open, step, write};
use rmt_bits::answer::Verdict;
use rmt_bits::sequence::Sequence;
use rmt_chip::chip::Chip;
use rmt_chip::out::Out;
use rmt_config::cell_write::CellWrite;
use std::alloc::{AllocError, Global};
use std::process::Abort;
use std::test::*;

/// The second stage, which begins at age 12, has the table `b`, exact on the header's byte: cell 5,544 has key 7 and the port
/// 5. The cells of key 7 in the first way are 5,544 to 5,550; under seed 1 its row is 536, and they are 3,752 to 3,758. The
/// names make visible bits count.
const SEVEN: &str = "
524d5449 0002 00 400009 410009 000001       # letters, version, seed, in_port, out_port, drop
01 000101 01 01 010008                      # a header with the byte in word 1
0001 00                                     # a state that looks at nothing
0001 00 00000000 00000000 01 01 00 02       # an entry that takes a byte
     01000101 000000010008
02                                          # 2 stages
0000 01 01 00 00 00 00 01 0000 0000 00 00000000
01 02000800 000100 0200000000               # word 1 into word 2
00000000 00000000
000c 02                                     # the second begins at 12, with 2 units:
01 01 00 00 01 01 0009 0001 020008          # a table of node 1 with 1 action and 9 data bits, on word 2
     01 01 0007 01 00 00010203 040506
     00000001 000015a8 00000000             # cell 5,544 has entry 0
01 02 00 00 00 01 0000 0000 00 00000000     # a table without a key
01 41000900 010000 0200000000               # the data into out_port
00                                          # by default nothing
01 02000800 0200000000 0200000000           # 0 into word 2
00000002                                    # 2 rows of SRAM: key 7 with the head, and the data
00 0318 0000000000000000000000000707
04 01ce 0000000000000000000000000005
00000000
01                                          # 1 table with a key:
01 00000001 62 00 00000010                  # `b` of node 1, exact, size 16
     0001 08
     01 00000002 676f 01 09
";

/// What comes in a cycle.
#[derive(Clone, Copy, Debug)]
enum Coming {
    /// The frame 07.
    Seven,
    /// A changed cell of `b`: its number, its visible bits, and the port that it gives key 7.
    Cell(u32, u8, u8),
    /// A new version, with a seed.
    Commit(u8),
}

/// What comes by cycle, and which ports the answers have, by cycle too.
type Run = (&'static [(usize, Coming)], &'static [(usize, u16)]);

const RUNS: [Run; 9] = [
    (&[(0, Coming::Seven)], &[(24, 5)]),
    // a changed cell is seen from the next cycle on, and not in its own
    (
        &[(0, Coming::Seven), (12, Coming::Cell(5544, 3, 6))],
        &[(24, 5)],
    ),
    (
        &[(0, Coming::Seven), (11, Coming::Cell(5544, 3, 6))],
        &[(24, 6)],
    ),
    // so is one that is emptied
    (
        &[(0, Coming::Seven), (12, Coming::Cell(5544, 0, 0))],
        &[(24, 5)],
    ),
    (
        &[(0, Coming::Seven), (11, Coming::Cell(5544, 0, 0))],
        &[(24, 0)],
    ),
    // packets of two versions in flight, each answered by its own
    (
        &[
            (0, Coming::Seven),
            (1, Coming::Cell(5544, 1, 5)),
            (2, Coming::Cell(5545, 2, 6)),
            (3, Coming::Commit(0)),
            (4, Coming::Seven),
        ],
        &[(24, 5), (28, 6)],
    ),
    // the cell of the old version is emptied behind the packet that saw it, and before the next version has one
    (
        &[
            (0, Coming::Seven),
            (1, Coming::Cell(5544, 1, 5)),
            (2, Coming::Commit(0)),
            (3, Coming::Seven),
            (13, Coming::Cell(5544, 0, 0)),
        ],
        &[(24, 5), (27, 0)],
    ),
    // a cell of the next version, before that of this one, is emptied while a packet is in flight that doesn't see it
    (
        &[
            (0, Coming::Cell(5544, 2, 6)),
            (1, Coming::Cell(5545, 1, 5)),
            (2, Coming::Seven),
            (3, Coming::Cell(5544, 0, 0)),
        ],
        &[(26, 5)],
    ),
    // a new seed: a look-up in its own cycle is made under the old one, and one in the next cycle under it
    (
        &[
            (0, Coming::Cell(3752, 3, 6)),
            (1, Coming::Seven),
            (2, Coming::Seven),
            (13, Coming::Commit(1)),
        ],
        &[(25, 5), (26, 6)],
    ),
];

/// A changed cell of `b`.
fn cell_of(alloc: Global, cell: u32, visible: u8, port: u8) -> Result<CellWrite, AllocError> {
    Ok(CellWrite {
        stage: 1,
        unit: 0,
        cell,
        visible,
        code: 0,
        key: bytes_of(alloc, &[7])?,
        mask: Sequence::new(alloc),
        held: bytes_of(alloc, &[0, port])?,
        number: 1,
    })
}

/// One cycle.
fn cycle(
    rt: &(impl Abort + AllocGlobal),
    chip: &mut Chip,
    coming: Option<Coming>,
    out: &mut Out,
) -> Result<Option<Verdict>, Fail> {
    match coming {
        None => Ok(step(rt, chip, out, None)),
        Some(Coming::Seven) => Ok(step(rt, chip, out, Some((0, &[7])))),
        Some(Coming::Cell(cell, visible, port)) => {
            let changed = cell_of(rt.alloc(), cell, visible, port)?;
            Ok(write(rt, chip, out, &changed))
        }
        Some(Coming::Commit(seed)) => Ok(commit(rt, chip, out, seed)),
    }
}

/// The verdict with a port.
fn sent(port: Option<u16>) -> Option<Verdict> {
    match port {
        None => None,
        Some(port) => Some(Verdict::Sent { port }),
    }
}

/// Clocks a chip of `SEVEN` through what comes, and compares the answers.
fn runs(
    rt: &(impl Abort + AllocGlobal),
    chip: &mut Chip,
    out: &mut Out,
    run: Run,
) -> Result<(), Fail> {
    let (comings, answers) = run;
    chip.reserve(1)?;
    for now in 0..30 {
        let verdict = cycle(rt, chip, at(comings, now), out)?;
        assert!(rt; verdict == sent(at(answers, now)), "cycle {now}");
    }
    Ok(())
}

/// A run over a new chip.
fn runs_new(rt: &(impl Abort + AllocGlobal), out: &mut Out, run: Run) -> Result<(), Fail> {
    let mut chip = open(rt, &[SEVEN])?;
    runs(rt, &mut chip, out, run)
}

/// Each packet is answered by the cells as they stand in the cycle in which it reads them, under its own version.
#[test]
fn changed_cells(rt: HostRuntime) -> Result<(), Fail> {
    let mut out = Out::new(rt.alloc())?;
    for run in &RUNS {
        runs_new(&rt, &mut out, *run)?;
    }
    Ok(())
}

/// Clocks a chip of `SEVEN` through the packets of two versions, and looks at the oldest version.
fn ages(rt: &(impl Abort + AllocGlobal), chip: &mut Chip, out: &mut Out) -> Result<(), Fail> {
    let (comings, _) = RUNS[5];
    chip.reserve(1)?;
    assert!(rt; chip.oldest() == None);
    for now in 0..30 {
        cycle(rt, chip, at(comings, now), out)?;
        let oldest = if now < 24 {
            Some(0)
        } else if now < 28 {
            Some(1)
        } else {
            None
        };
        assert!(rt; chip.oldest() == oldest, "cycle {now}");
    }
    Ok(())
}

/// The oldest version of a packet that hasn't left, at each age of it.
#[test]
fn oldest_versions(rt: HostRuntime) -> Result<(), Fail> {
    let mut out = Out::new(rt.alloc())?;
    let mut chip = open(&rt, &[SEVEN])?;
    ages(&rt, &mut chip, &mut out)
}

/// A counted ternary table of two rows, of which the first has entry 4: key 0x42 drops.
const COUNTED: &str = "
01 0000 01                                  # 1 stage with 1 unit
01 00 00 01 01 01 0000 0001 020008          # a counted table of node 0 with 1 action
     02 01 00 00 0102                       # 1 quantum; blocks of keys, records and counters
     00000001 00000000 00000004
01 010001 00 0200000001 0200000000          # 1 into the drop bit
00                                          # by default nothing
00000001 00 0000 0000000000000000 0000 00000001
00000001 00 0000 0000000042 00000000ff
";

/// The counters: numbers, packets and bytes.
fn counts(chip: &Chip) -> [Option<(u32, u64, u64)>; 3] {
    [counted(chip, 0), counted(chip, 1), counted(chip, 2)]
}

/// A changed row that brings the number 9, for key 0x43.
fn row_of_nine(alloc: Global, visible: u8) -> Result<CellWrite, AllocError> {
    Ok(CellWrite {
        stage: 0,
        unit: 0,
        cell: 1,
        visible,
        code: 0,
        key: bytes_of(alloc, &[0x43])?,
        mask: bytes_of(alloc, &[0xff])?,
        held: Sequence::new(alloc),
        number: 9,
    })
}

/// Clocks a chip with `COUNTED` while the row comes and goes, and looks at the counters.
fn counts_nine(
    rt: &(impl Abort + AllocGlobal),
    chip: &mut Chip,
    out: &mut Out,
) -> Result<(), Fail> {
    chip.reserve(1)?;
    let come = row_of_nine(rt.alloc(), 3)?;
    let gone = row_of_nine(rt.alloc(), 0)?;
    write(rt, chip, out, &come);
    assert!(rt; counts(chip) == [Some((4, 0, 0)), Some((9, 0, 0)), None]);
    step(rt, chip, out, Some((0, &[0x43, 1, 2])));
    write(rt, chip, out, &gone);
    for _age in 2..12 {
        step(rt, chip, out, Some((0, &[0x43, 1, 2])));
    }
    assert!(rt; counts(chip) == [Some((4, 0, 0)), Some((9, 1, 3)), None]);
    Ok(())
}

/// A number that only a changed cell brought has a counter from then on, also when its entry goes.
#[test]
fn brought_number(rt: HostRuntime) -> Result<(), Fail> {
    let mut out = Out::new(rt.alloc())?;
    let mut chip = open(&rt, &[TWO_BYTES, COUNTED])?;
    counts_nine(&rt, &mut chip, &mut out)
}

/// For how many numbers room is asked, one after another.
const ROOMS: [u32; 4] = [0, 3, 1, 300];

/// Asks a chip for room for so many numbers.
fn has_room(rt: &impl Abort, chip: &mut Chip, wanted: u32) {
    let before = chip.spare();
    match chip.reserve(wanted) {
        Ok(()) => assert!(rt; chip.spare() >= wanted as usize, "room for {wanted}"),
        Err(_) => assert!(rt; chip.spare() == before, "room for {wanted}"),
    }
}

/// There is room afterwards for as many numbers as were asked for, or as much as before.
#[test]
fn room_for_counters(rt: HostRuntime) -> Result<(), Fail> {
    let mut chip = open(&rt, &[TWO_BYTES, COUNTED])?;
    for wanted in &ROOMS {
        has_room(&rt, &mut chip, *wanted);
    }
    Ok(())
}
