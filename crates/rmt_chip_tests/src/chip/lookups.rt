//! Look-ups and gates in small chips, worked out by hand. A key is the first byte of a frame, and an
//! entry that is hit, or the default, changes the second.

use crate::chip::fixture::{Row, SENT, TWO_BYTES, counted, open, replay, replay_new, step};
use rmt_bits::answer::Verdict;
use rmt_chip::chip::Chip;
use rmt_chip::out::Out;
use rmt_image_tests::fixtures::image_texts::NO_ROWS;
use std::process::Abort;
use std::test::*;

/// An exact table with one entry: key 0x21 and data 0x5c in way 1, whose row for that key is 280, so in cell 1,304. The data
/// is record 1,304: 14 records stand in a row of block 4, so in row 93.
const EXACT: &str = "
01 0000 01                                  # 1 stage with 1 unit:
01 00 00 01 01 01 0008 0001 020008          # a counted table of node 0 with 1 action and 8 data bits
     01 01 0001 01 00 00010203 04 05060708  # k 1, p 1, 1 quantum; blocks of keys, records and counters
     00000001 00000518 00000007             # cell 1,304 has entry 7
01 030008 00 010000 0200000000              # the data into word 3
01 030008 00 02000000ee 0200000000          # by default ee into word 3
00000002                                    # 2 rows of SRAM: the cell and the record
01 0118 0000000000000000 00000000 2101
04 005d 0000000000000000 000000 5c0000
00000000
";

/// The answers of the cycles behind the one in which a packet of three bytes enters, and the counter: at age 8 the packet is
/// counted, and at age 12 it leaves.
fn passes_ages(rt: &impl Abort, chip: &mut Chip, out: &mut Out) {
    for age in 1..13u32 {
        let verdict = if age == 12 { SENT } else { None };
        let count = if age < 8 { (7, 0, 0) } else { (7, 1, 3) };
        assert!(rt; step(rt, chip, out, None) == verdict, "age {age}");
        assert!(rt; counted(chip, 0) == Some(count), "age {age}");
    }
}

const PASSING: [Row; 3] = [
    (0, &[0x20, 0], SENT, &[0x20, 0xee]),
    (0, &[0x21, 0], SENT, &[0x21, 0x5c]),
    (0, &[0x21, 1, 2], SENT, &[0x21, 0x5c, 2]),
];

/// A packet alone, and then all of `PASSING`, with the counter on the way.
fn passes(rt: &impl Abort, chip: &mut Chip, out: &mut Out) {
    assert!(rt; step(rt, chip, out, Some((0, &[0x21, 0, 9]))) == None);
    passes_ages(rt, chip, out);
    assert!(rt; out.bytes() == [0x21, 0x5c, 9].as_slice());
    replay(rt, chip, out, 12, &PASSING, &[]);
    assert!(rt; counted(chip, 0) == Some((7, 3, 8)));
}

/// A hit runs the entry's instruction with its data, and a miss the default.
#[test]
fn exact_hit_and_miss(rt: HostRuntime) -> Result<(), Fail> {
    let mut out = Out::new(rt.alloc())?;
    let mut chip = open(&rt, &[TWO_BYTES, EXACT])?;
    passes(&rt, &mut chip, &mut out);
    Ok(())
}

/// A ternary table in two parts of two rows each. The heads and data of the rows, 16 bits each, stand in a row of SRAM.
const TWO_PARTS: &str = "
02                                          # 2 stages
0000 01                                     # the first with 1 unit:
01 00 00 00 01 00 0008 0001 020008          # a table of node 0 with 1 action and 8 data bits, not its last part
     02 01 00 00                            # 1 quantum; blocks of keys and records
     00000002 00000000 00000000 00000001 00000001
01 030008 00 010000 0200000000              # the data into word 3
01 030008 01 000300 0200000001              # by default word 3 + 1 into word 3
00000001 00 0000 0000000000000000 0000 02010101
00000002 00 0000 0000000010 00000000f0
         00 0001 0000000002 000000000f
0001 01                                     # the second with 1 unit:
01 00 00 00 01 01 0008 0001 020008          # the table's last part
     02 01 00 00
     00000002 00000000 00000002 00000001 00000003
01 030008 00 010000 0200000000
01 030008 01 000300 0200000001
00000001 00 0000 0000000000000000 0000 04010301
00000002 00 0000 0000000020 00000000f0
         00 0001 0000000015 00000000ff
";

const SPLIT: [Row; 6] = [
    (0, &[0x10, 9], SENT, &[0x10, 1]),
    (0, &[0x12, 9], SENT, &[0x12, 1]), // both rows of the first part
    (0, &[0x22, 9], SENT, &[0x22, 2]), // a row of each part
    (0, &[0x15, 9], SENT, &[0x15, 1]),
    (0, &[0x21, 9], SENT, &[0x21, 3]), // the second part alone
    (0, &[0x31, 9], SENT, &[0x31, 10]), // no part: the default, once
];

/// An earlier row, and an earlier part, comes before a later one, and only the last part runs the default, once.
#[test]
fn split_ternary(rt: HostRuntime) -> Result<(), Fail> {
    replay_new(&rt, &[TWO_BYTES, TWO_PARTS], 13, &SPLIT, &[])?;
    Ok(())
}

/// A gate that passes where word 3 is 5, and two tables without a key behind it, one for each outcome.
const ARMS: &str = "
01 0000 03                                  # 1 stage with 3 units
00 01 00 01 030008 00000005 000000ff        # the gate of node 1
01 02 01 01 0004 00 00 01 0000 0000 00 00000000
01 03 01 01 0002 00 00 01 0000 0000 00 00000000
01 030008 00 0200000077 0200000000          # where it passes 77 into word 3
01 030008 01 000300 0200000001              # else word 3 + 1 into word 3
";

const GATED: [Row; 3] = [
    (0, &[1, 5], SENT, &[1, 0x77]),
    (0, &[1, 6], SENT, &[1, 7]),
    (0, &[1, 4], SENT, &[1, 5]),
];

/// A gate and its two arms in one stage.
#[test]
fn gate_with_arms(rt: HostRuntime) -> Result<(), Fail> {
    replay_new(&rt, &[TWO_BYTES, ARMS, NO_ROWS], 12, &GATED, &[])?;
    Ok(())
}

/// A gate that passes where word 3 is 5, and a counted ternary table behind it with the entry 4: key 0x42 drops.
const GUARDED: &str = "
01 0000 02                                  # 1 stage with 2 units
00 01 00 01 030008 00000005 000000ff        # the gate of node 1
01 00 01 01 0004 01 01 01 0000 0001 020008  # a table of node 0 behind it with 1 action
     02 01 00 00 0102                       # 1 quantum; blocks of keys, records and counters
     00000001 00000000 00000004
01 010001 00 0200000001 0200000000          # 1 into the drop bit
01 030008 00 02000000ee 0200000000          # by default ee into word 3
00000001 00 0000 0000000000000000 0000 00000001
00000001 00 0000 0000000042 00000000ff
";

const BEHIND: [Row; 4] = [
    (0, &[0x42, 5, 1], Some(Verdict::Dropped), &[]),
    (0, &[0x42, 6], SENT, &[0x42, 6]), // the guard is false
    (0, &[0x41, 5], SENT, &[0x41, 0xee]), // a miss
    (0, &[0x42, 5], Some(Verdict::Dropped), &[]),
];

/// A table behind a gate: where the guard is false a row that matches does nothing and is not
/// counted; the hit of a packet that is dropped is counted.
#[test]
fn guarded_table(rt: HostRuntime) -> Result<(), Fail> {
    let count = replay_new(&rt, &[TWO_BYTES, GUARDED], 12, &BEHIND, &[])?;
    assert!(rt; count == Some((4, 2, 5)));
    Ok(())
}
