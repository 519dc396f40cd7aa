//! Small chips, cycle by cycle, whose images are written out as docs/image.md has them. The values are worked out by hand
//! from the ages in docs/chip.md: a stage that begins at `o` reads operands and old words at `o + 9`, and writes at `o + 12`.

pub mod fixture;
mod lookups;
mod taken;
mod versions;
mod writes;

use crate::chip::fixture::{Look, NOTHING, Row, SENT, TWO_BYTES, open, replay_new, step};
use rmt_bits::answer::Verdict;
use rmt_chip::chip::Chip;
use rmt_chip::out::Out;
use rmt_image_tests::fixtures::image_texts::NO_ROWS;
use std::process::Abort;
use std::test::*;

/// One packet through the chip of an image in several texts.
fn one_packet(
    rt: &(impl Abort + AllocGlobal),
    texts: &[&str],
    latency: u16,
    frame: &[u8],
    bytes: &[u8],
) -> Result<(), Fail> {
    replay_new(rt, texts, latency, &[(0, frame, SENT, bytes)], &[])?;
    Ok(())
}

/// The second stage reads word 2 before the first has written it, the third reads what both have written, and the fourth
/// what the third has.
const OVERLAPPING: &str = "
524d5449 0001 00 400009 410009 010001       # letters, version, seed, in_port, out_port, drop
01 000001 04 04 020008 030008 040008 050008 # a header with the bytes in words 2 to 5
0001 00                                     # a state that looks at nothing
0001 00 00000000 00000000 02 02 00 03       # an entry that takes 2 bytes
     01000001 000000020008 000008030008     # into words 2 and 3
04                                          # 4 stages, each of one table without a key
0000 01 01 00 00 00 00 01 0000 0000 00 00000000
01 020008 01 000200 0200000010              # word 2 + 16 into word 2
00000000 00000000
0001 01 01 01 00 00 00 01 0000 0000 00 00000000
01 030008 01 000300 000200                  # word 3 + word 2 into word 3
00000000 00000000
0004 01 01 02 00 00 00 01 0000 0000 00 00000000
02 010001 00 000307 0200000000              # the highest bit of word 3 drops
   040008 01 000300 000200                  # word 3 + word 2 into word 4
00000000 00000000
0010 01 01 03 00 00 00 01 0000 0000 00 00000000
02 050008 01 000400 000200                  # word 4 + word 2 into word 5
   410009 01 004000 0200000001              # in_port + 1 into out_port
00000000 00000000
";

/// What is seen of the packets of `stages_overlap`.
const OVERLAPPED: [Look; 29] = [
    (0, 0, 0, Some((0, 1))),
    (0, 0, 2, Some((0, 1))),
    (0, 0, 3, Some((0, 2))),
    (0, 0, 64, Some((0, 5))),
    (0, 1, 2, None), // nothing entered before
    (2, 0, 64, Some((2, 0))), // no words of a packet that is too short
    (3, 0, 0, None), // nothing entered
    (4, 0, 2, Some((3, 100))), // so the fourth packet entered a cycle later
    (5, 0, 64, Some((4, 300))),
    (11, 11, 2, Some((0, 1))),
    (12, 12, 2, Some((0, 17))), // the first stage has written
    (12, 12, 3, Some((0, 2))),
    (13, 13, 3, Some((0, 3))), // the second
    (13, 12, 3, Some((1, 10))),
    (14, 14, 3, Some((0, 3))),
    (14, 13, 3, Some((1, 4))),
    (14, 12, 2, Some((2, 0))),
    (15, 15, 4, Some((0, 0))),
    (16, 16, 4, Some((0, 20))), // the third
    (19, 15, 1, Some((3, 0))),
    (20, 16, 1, Some((3, 1))),
    (20, 17, 0, None),
    (27, 27, 5, Some((0, 0))),
    (27, 27, 65, Some((0, 0))),
    (28, 28, 5, Some((0, 37))), // the fourth
    (28, 28, 65, Some((0, 6))),
    (28, 27, 5, Some((1, 0))),
    (29, 29, 5, None), // it has left
    (33, 28, 65, Some((4, 301))),
];

const ENTERING: [Row; 6] = [
    (
        5,
        &[1, 2, 0xaa],
        Some(Verdict::Sent { port: 6 }),
        &[17, 3, 20, 37, 0xaa],
    ),
    (511, &[250, 10], SENT, &[10, 4, 14, 24]),
    (7, &[9], Some(Verdict::Short), &[]),
    NOTHING,
    (0, &[100, 100, 1, 2, 3], Some(Verdict::Dropped), &[]),
    (
        300,
        &[0, 0, 7],
        Some(Verdict::Sent { port: 301 }),
        &[16, 0, 16, 32, 7],
    ),
];

/// All four stages have several packets in the chip at once.
#[test]
fn stages_overlap(rt: HostRuntime) -> Result<(), Fail> {
    replay_new(&rt, &[OVERLAPPING], 28, &ENTERING, &OVERLAPPED)?;
    Ok(())
}

/// Three bytes in words 2 to 4, and two stages: the first adds 16 to word 2 and sets the low half of word 4.
const FIRST_OF_TWO: &str = "
524d5449 0001 00 400009 410009 010001       # letters, version, seed, in_port, out_port, drop
01 000001 03 03 020008 030008 040008        # a header with the bytes in words 2 to 4
0001 00                                     # a state that looks at nothing
0001 00 00000000 00000000 03 03 00 04       # an entry that takes 3 bytes
     01000001 000000020008 000008030008 000010040008
02                                          # 2 stages
0000 01 01 00 00 00 00 01 0000 0000 00 00000000
02 020008 01 000200 0200000010              # word 2 + 16 into word 2
   040004 00 020000000f 0200000000          # 15 into the low half of word 4
00000000 00000000
";

/// The second stage behind its start: it copies word 2 to word 3, and sets the high half of word 4.
const SECOND_OF_TWO: &str = "
01 01 01 00 00 00 01 0000 0000 00 00000000
02 030008 00 000200 0200000000              # word 2 into word 3
   040404 00 0200000005 0200000000          # 5 into the high half of word 4
00000000 00000000
";

/// How far apart two stages stand, also as it is written, and what the second makes of what the first writes: of an operand,
/// and of the rest of a word.
const DISTANCES: [(u16, &str, [u8; 3]); 5] = [
    (1, "0001", [17, 1, 0x53]),
    (2, "0002", [17, 1, 0x53]),
    (3, "0003", [17, 17, 0x5f]),
    (4, "0004", [17, 17, 0x5f]),
    (12, "000c", [17, 17, 0x5f]),
];

#[test]
fn distances(rt: HostRuntime) -> Result<(), Fail> {
    for &(apart, start, bytes) in &DISTANCES {
        let texts = [FIRST_OF_TWO, start, SECOND_OF_TWO];
        let latency = apart.saturating_add(12);
        one_packet(&rt, &texts, latency, &[1, 0, 0xa3], &bytes)?;
    }
    Ok(())
}

/// One stage from cycle 0 on.
const STAGE: &str = "01 0000";

/// The number of units of a stage, and its tables without a key.
const ONE: &str = "01 01 00 00 00 00 01 0000 0000 00 00000000";

const TWO: &str = "
02 01 00 00 00 00 01 0000 0000 00 00000000
   01 01 00 00 00 01 0000 0000 00 00000000
";

const THREE: &str = "
03 01 00 00 00 00 01 0000 0000 00 00000000
   01 01 00 00 00 01 0000 0000 00 00000000
   01 02 00 00 00 01 0000 0000 00 00000000
";

/// The low half of word 2 becomes 15, and word 3 becomes word 2.
const LOW: &str = "02 020004 00 020000000f 0200000000 030008 00 000200 0200000000";

/// The high half of word 2 becomes 5.
const HIGH: &str = "01 020404 00 0200000005 0200000000";

/// One stage with some units and their instructions, and what it makes of the bytes a3 and 11.
const UNITS: [(&[&str], [u8; 2]); 5] = [
    (&[TWO_BYTES, STAGE, ONE, LOW, NO_ROWS], [0xaf, 0xa3]),
    (&[TWO_BYTES, STAGE, ONE, HIGH, NO_ROWS], [0x53, 0x11]),
    (&[TWO_BYTES, STAGE, TWO, LOW, HIGH, NO_ROWS], [0x53, 0xa3]),
    (&[TWO_BYTES, STAGE, TWO, HIGH, LOW, NO_ROWS], [0xaf, 0xa3]),
    (
        &[TWO_BYTES, STAGE, THREE, LOW, HIGH, LOW, NO_ROWS],
        [0xaf, 0xa3],
    ),
];

/// Units of one stage on one word: the last one's word stands, with the old bits around its lane.
#[test]
fn units_on_one_word(rt: HostRuntime) -> Result<(), Fail> {
    for &(texts, bytes) in &UNITS {
        one_packet(&rt, texts, 12, &[0xa3, 0x11], &bytes)?;
    }
    Ok(())
}

/// Three words of 32 bits, of which the last is sent; and one stage.
const WIDE: &str = "
524d5449 0001 00 400009 410009 010001       # letters, version, seed, in_port, out_port, drop
01 000001 04 01 a20020                      # a header with the bytes in word 162
0001 00                                     # a state that looks at nothing
0001 00 00000000 00000000 0c 0c 00 04       # an entry that takes 12 bytes
     01000001 000000a00020 000020a10020 000040a20020
01 0000 01 01 00 00 00 00 01 0000 0000 00 00000000
01                                          # an operation
";

/// Operations on the lowest bit of word 162, or on all bits, that read the words 160 and 161.
const BIT_COPY: &str = "a20001 00 00a000 0200000000";

const BIT_ADD: &str = "a20001 01 00a000 00a100";

const BIT_SUB: &str = "a20001 02 00a000 00a100";

const BIT_AND: &str = "a20001 03 00a000 00a100";

const BIT_OR: &str = "a20001 04 00a000 00a100";

const BIT_XOR: &str = "a20001 05 00a000 00a100";

const COPY: &str = "a20020 00 00a000 0200000000";

const ADD: &str = "a20020 01 00a000 00a100";

const SUB: &str = "a20020 02 00a000 00a100";

const AND: &str = "a20020 03 00a000 00a100";

const OR: &str = "a20020 04 00a000 00a100";

const XOR: &str = "a20020 05 00a000 00a100";

/// An operation, the words 160 and 161, and the result on a word of 0x8000_0002.
const KINDS: [(&str, u32, u32, u32); 24] = [
    (BIT_COPY, 0xffff_ffff, 0, 0x8000_0003),
    (BIT_COPY, 0xffff_fffe, 0, 0x8000_0002),
    (BIT_ADD, 1, 0, 0x8000_0003),
    (BIT_ADD, 1, 1, 0x8000_0002),
    (BIT_SUB, 1, 1, 0x8000_0002),
    (BIT_SUB, 0, 1, 0x8000_0003),
    (BIT_AND, 1, 1, 0x8000_0003),
    (BIT_AND, 1, 2, 0x8000_0002),
    (BIT_OR, 0, 1, 0x8000_0003),
    (BIT_OR, 2, 4, 0x8000_0002),
    (BIT_XOR, 1, 0, 0x8000_0003),
    (BIT_XOR, 1, 1, 0x8000_0002),
    (COPY, 0x89ab_cdef, 0, 0x89ab_cdef),
    (COPY, 0, 0, 0),
    (ADD, 0x7fff_ffff, 1, 0x8000_0000),
    (ADD, 0xffff_ffff, 2, 1),
    (SUB, 0x8000_0000, 1, 0x7fff_ffff),
    (SUB, 1, 2, 0xffff_ffff),
    (AND, 0xf0f0_f0f0, 0xff00_ff00, 0xf000_f000),
    (AND, 0xffff_ffff, 0, 0),
    (OR, 0xf0f0_f0f0, 0xff00_ff00, 0xfff0_fff0),
    (OR, 0, 0x8000_0001, 0x8000_0001),
    (XOR, 0xf0f0_f0f0, 0xff00_ff00, 0x0ff0_0ff0),
    (XOR, 0xffff_ffff, 0xffff_ffff, 0),
];

/// The words 160 to 162 of a packet.
fn three_words(left: u32, right: u32) -> [u8; 12] {
    let [a, b, c, d] = left.to_be_bytes();
    let [e, f, g, h] = right.to_be_bytes();
    [a, b, c, d, e, f, g, h, 0x80, 0, 0, 2]
}

#[test]
fn kinds_of_operations(rt: HostRuntime) -> Result<(), Fail> {
    for &(operation, left, right, result) in &KINDS {
        let texts = [WIDE, operation, NO_ROWS];
        let frame = three_words(left, right);
        one_packet(&rt, &texts, 12, &frame, &result.to_be_bytes())?;
    }
    Ok(())
}

/// Two bytes that are sent in the other order, and no stage.
const NO_STAGE: &str = "
524d5449 0001 00 400009 410009 010001
01 000001 02 02 030008 020008
0001 00
0001 00 00000000 00000000 02 02 00 03 01000001 000000020008 000008030008
00
";

const SWAPPED: [Row; 4] = [
    (511, &[1, 2, 3], SENT, &[2, 1, 3]),
    NOTHING,
    (0, &[1], Some(Verdict::Short), &[]),
    (0, &[4, 5], SENT, &[5, 4]),
];

const SEEN: [Look; 4] = [
    (0, 0, 64, Some((0, 511))),
    (1, 0, 64, None),
    (1, 1, 64, None),
    (3, 0, 2, Some((2, 4))),
];

/// Without a stage a packet leaves in the cycle in which it enters.
#[test]
fn no_stage(rt: HostRuntime) -> Result<(), Fail> {
    replay_new(&rt, &[NO_STAGE], 0, &SWAPPED, &SEEN)?;
    Ok(())
}

/// A header of one byte, a state, no entry and no stage.
const NO_ENTRY: &str = "
524d5449 0001 00 400009 410009 010001
01 000001 01 01 020008
0001 00
0000
00
";

const REJECTED: [Row; 1] = [(3, &[1, 2], Some(Verdict::Reject), &[])];

const ZEROS: [Look; 2] = [(0, 0, 2, Some((0, 0))), (0, 0, 64, Some((0, 0)))];

/// Without an entry of the parser a packet is rejected, and travels with all words 0.
#[test]
fn no_entry(rt: HostRuntime) -> Result<(), Fail> {
    replay_new(&rt, &[NO_ENTRY], 0, &REJECTED, &ZEROS)?;
    Ok(())
}

/// What enters a cycle of `longest_flight`: a packet in each of the first 800.
fn early(cycle: u16, frame: &[u8]) -> Option<(u16, &[u8])> {
    if cycle < 800 { Some((0, frame)) } else { None }
}

/// The answer in a cycle of `longest_flight`: the packet of 384 cycles before, if one entered.
fn late(rt: &impl Abort, cycle: u16, verdict: Option<Verdict>, bytes: &[u8]) {
    if cycle < 384 || cycle >= 1184 {
        assert!(rt; verdict == None, "cycle {cycle}");
    } else {
        let [high, low] = (cycle - 384).to_be_bytes();
        let a = low.wrapping_add(1);
        let b = a.wrapping_add(high);
        assert!(rt; verdict == Some(Verdict::Sent { port: 0 }), "cycle {cycle}");
        assert!(rt; bytes == [a, b, high].as_slice(), "cycle {cycle}");
    }
}

/// Two stages 372 cycles apart.
const FAR_APART: &str = "
02                                          # 2 stages
0000 01 01 00 00 00 00 01 0000 0000 00 00000000
01 020008 01 000200 0200000001              # word 2 + 1 into word 2
00000000 00000000
0174 01 01 01 00 00 00 01 0000 0000 00 00000000
01 030008 01 000200 000300                  # word 2 + word 3 into word 3
00000000 00000000
";

/// Clocks a chip through the cycles of `longest_flight`.
fn fly(rt: &impl Abort, chip: &mut Chip, out: &mut Out) {
    assert!(rt; chip.latency() == 384);
    for cycle in 0..1200u16 {
        let [high, low] = cycle.to_be_bytes();
        let frame = [low, high, high];
        let verdict = step(rt, chip, out, early(cycle, &frame));
        late(rt, cycle, verdict, out.bytes());
    }
}

/// 800 packets in 800 cycles, each 384 cycles in flight: every place of the ring is used again.
#[test]
fn longest_flight(rt: HostRuntime) -> Result<(), Fail> {
    let mut out = Out::new(rt.alloc())?;
    let mut chip = open(&rt, &[TWO_BYTES, FAR_APART])?;
    fly(&rt, &mut chip, &mut out);
    Ok(())
}
