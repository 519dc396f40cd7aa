//! The plain run: programs and entries as texts, and what comes of packets, a line each.

ghost use Rattle.std.specs.Prelude.{◌<◌, length};

use rmt_check::laws::one_meaning;
use rmt_check::read_program;
use rmt_entries::entries;
use rmt_packets::answer_line::write_answer;
use rmt_packets::packet_line::read_packet;
use rmt_plain::plain::Plain;
use rmt_tests::fixtures::programs::{REALISTIC, REALISTIC_ENTRIES, STRICT_AND_WEAK};
use std::alloc::{AllocError, Global};
use std::process::Abort;
use std::test::*;

/// A program with its entries, packets, the lines of the answers, and those of the counters that are
/// not 0.
struct Case {
    program: &'static [u8],
    entries: &'static str,
    packets: &'static [&'static [u8]],
    answers: &'static [u8],
    counts: &'static str,
}

/// The plain run of two texts; None where one is bad, or for want of memory.
pub(crate) fn started(alloc: Global, program: &[u8], text: &[u8]) -> Option<Plain>
    requires program { length program.now < 4294967295 }
    requires entries { length text.now < 4294967295 }
{
    one_meaning();
    let Ok(program) = read_program(alloc, program) else {
        return None;
    };
    let Ok(entries) = entries(alloc, &program, text) else {
        return None;
    };
    Plain::new(alloc, program, entries).ok()
}

/// The lines of a run's counters, without those of no packet.
pub(crate) fn counted(alloc: Global, plain: &Plain) -> Result<String, AllocError> {
    let mut out = String::new(alloc);
    let counters = plain.counters();
    for at in 0..counters.len() {
        let Some(count) = counters.get(at) else {
            continue;
        };
        if count.packets > 0 {
            let entry = count.entry;
            let packets = count.packets;
            let bytes = count.bytes;
            let line = format!(in alloc; "count {entry} {packets} {bytes}\n")?;
            out.push_str(line.as_str())?;
        }
    }
    Ok(out)
}

/// Runs packets, and adds the lines of their answers.
fn run(rt: &(impl Abort + AllocGlobal), plain: &mut Plain, packets: &[&[u8]], lines: &mut Vec<u8>) {
    let mut frame = vec![in rt.alloc(); 0u8; 0].expect(rt, "memory");
    let mut number = 0u64;
    for packet in packets {
        let port = read_packet(packet, &mut frame).expect(rt, "a packet");
        assert!(rt; port < 512 && !frame.is_empty() && frame.len() <= 9216);
        let answer = plain.packet(rt.alloc(), port, &frame).expect(rt, "memory");
        write_answer(number, &answer, lines).expect(rt, "memory");
        number = number.wrapping_add(1);
    }
}

/// Compares the answers and the counters of a case.
fn compare(rt: &(impl Abort + AllocGlobal), case: &Case) {
    assert!(rt; case.program.len() < 10000 && case.entries.len() < 10000);
    let mut plain = started(rt.alloc(), case.program, case.entries.as_bytes()).expect(
        rt,
        "a program and entries",
    );
    let mut lines = vec![in rt.alloc(); 0u8; 0].expect(rt, "memory");
    run(rt, &mut plain, case.packets, &mut lines);
    assert!(rt; lines.as_slice() == case.answers);
    let counts = counted(rt.alloc(), &plain).expect(rt, "memory");
    assert!(rt; counts.as_str() == case.counts, "told {counts}");
}

/// A program of every kind of table, header and arm, on six frames.
const OF_A_SWITCH: Case = Case {
    program: REALISTIC,
    entries: REALISTIC_ENTRIES,
    packets: &[
        b"0 02000000000102000000000208004500002000000000401100000b000001c0a8010500350035000c0000deadbeef",
        b"0 02000000000102000000000208004500002000000000401100000a000001c0a8010500350035000c0000deadbeef",
        b"0 0200000000010200000000028100000508004500002800000000400600000b000001c0a802050050005100000001000000005002200000000000",
        b"0 02000000000102000000000286dd600000000008114020010db800000000000000000000000220010db80000000000000000000000010035003500080000",
        b"0 02000000000902000000000208060001",
        b"0 02000000000102000000000208004600002000000000401100000b000001c0a80105",
    ],
    answers: b"0 4 02000000000402000000000108004500002000000000401100000b000001c0a8010500350035000c0000deadbeef
1 drop action
2 3 0200000000030200000000018100000508004500002800000000400600000b000001c0a802050050005100000001000000005002200000000000
3 4 02000000000402000000000186dd600000000008114020010db800000000000000000000000220010db80000000000000000000000010035003500080000
4 7 02000000000902000000000208060001
5 drop reject
",
    counts: "count 0 1 46\ncount 1 1 58\ncount 2 1 58\ncount 3 2 92\ncount 7 1 16\n",
};

/// A tail of 4 bytes, one that the frame cuts, one of a negative length, and an empty one.
const TAILS: Case = Case {
    program: b"header o { n : 4; z : 4; tail n * 4 - 4; } next accept;
action send() { out_port = 1; }
table t { default send(); }
control { apply t; }
",
    entries: "",
    packets: &[b"0 2faabbccddee", b"0 2faabb", b"0 0f", b"0 1f"],
    answers: b"0 1 2faabbccddee\n1 drop short\n2 drop reject\n3 1 1f\n",
    counts: "",
};

/// An assignment reads what the earlier one left.
const IN_ORDER: Case = Case {
    program: b"header h { a : 8; b : 8; } next accept;
action swap() { h.a = h.b; h.b = h.a; }
table t { default swap(); }
control { apply t; }
",
    entries: "",
    packets: &[b"0 0102"],
    answers: b"0 0 0202\n",
    counts: "",
};

/// An action that the chip can't fold in one step.
const TOO_DEEP: Case = Case {
    program: b"header h { a : 8; b : 8; c : 8; } next accept;
action deep() { h.a = h.a + h.b; h.b = h.a + h.c; }
table t { default deep(); }
control { apply t; }
",
    entries: "",
    packets: &[b"0 010203", b"0 ffff02"],
    answers: b"0 0 030603\n1 0 fe0002\n",
    counts: "",
};

/// Prefixes of length 0, 8, 24 and 32: the longest that matches is hit.
const PREFIXES: Case = Case {
    program: b"header h { d : 32; } next accept;
action go(p : 9) { out_port = p; }
table r { prefix h.d; actions go; size 1024; counted; default go(0); }
control { apply r; }
",
    entries: "r 0/0 go 1
r 0x0a000000/8 go 2
r 0x0a000100/24 go 3
r 0x0a000105/32 go 4
",
    packets: &[
        b"0 0a000105",
        b"0 0a000106",
        b"0 0a010000",
        b"0 0b000000",
        b"0 0a000105ff",
    ],
    answers: b"0 4 0a000105\n1 3 0a000106\n2 2 0a010000\n3 1 0b000000\n4 4 0a000105ff\n",
    counts: "count 0 1 4\ncount 1 1 4\ncount 2 1 4\ncount 3 2 9\n",
};

/// Ternary entries: the least priority, then the earlier line; one that is never hit counts nothing, and no miss counts.
const TERNARY: Case = Case {
    program: b"header h { a : 8; b : 8; } next accept;
action go(p : 9) { out_port = p; }
table u { ternary h.a, h.b; actions go; size 16; counted; default go(9); }
table v { exact h.b; actions go; size 16; default go(8); }
control { apply u { miss { apply v; } } }
",
    entries: "u 7 1 * go 1
u 7 1 2 go 2
u 3 * 2 go 3
u 3 1&1 0&0 go 4
v 5 go 5
u 2 0x80&0x80 0x80&0x80 go 6
",
    packets: &[
        b"0 0102", b"0 0103", b"0 0202", b"0 0205", b"0 0206", b"0 8180",
    ],
    answers: b"0 3 0102\n1 4 0103\n2 3 0202\n3 5 0205\n4 8 0206\n5 6 8180\n",
    counts: "count 2 2 4\ncount 3 1 2\ncount 5 1 2\n",
};

/// A strict and a weak edge: a table that matches on what an earlier one writes.
const EDGES: Case = Case {
    program: STRICT_AND_WEAK,
    entries: "b 7 go 5\n",
    packets: &[b"0 07", b"0 08"],
    answers: b"0 5 07\n1 0 08\n",
    counts: "",
};

/// A dropped packet that hits is counted too; a tag that the frame cuts makes it short.
const DROPPED: Case = Case {
    program: b"header h { a : 8; } next (a) { 2 : t; else : accept; }
header t { b : 16; } next reject;
action deny() { drop = 1; }
action no() { }
table d { exact h.a; actions deny, no; size 4; counted; default no(); }
control { apply d; }
",
    entries: "d 1 deny\nd 3 no\n",
    packets: &[b"0 01ff", b"511 03", b"0 02ff", b"0 02ffff", b"0 04"],
    answers: b"0 drop action\n1 0 03\n2 drop short\n3 drop reject\n4 0 04\n",
    counts: "count 0 1 2\ncount 1 1 1\n",
};

#[test]
fn realistic(rt: HostRuntime) {
    compare(&rt, &OF_A_SWITCH);
}

#[test]
fn tails_and_actions(rt: HostRuntime) {
    compare(&rt, &TAILS);
    compare(&rt, &IN_ORDER);
    compare(&rt, &TOO_DEEP);
}

#[test]
fn tables(rt: HostRuntime) {
    compare(&rt, &PREFIXES);
    compare(&rt, &TERNARY);
    compare(&rt, &EDGES);
    compare(&rt, &DROPPED);
}
