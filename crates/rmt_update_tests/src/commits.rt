//! The plain run over packets and commits: which entries a packet is answered by, and what is counted.

ghost use Rattle.rmt_lists.specs.Running.{Running};
ghost use Rattle.rmt_lists.specs.Stands.{Stands};

use crate::changes::{COMMIT, change, empty_lists, is_change};
use crate::plain::{counted, started};
use rmt_packets::answer_line::write_answer;
use rmt_packets::packet_line::read_packet;
use rmt_plain::plain::Plain;
use rmt_update::lists::Lists;
use std::alloc::Global;
use std::test::*;

/// The table of `empty_lists`, which a counted one of node 1 is; node 0 sets its key.
const PROGRAM: &[u8] =
    b"header h { f : 8; } next accept;\nmeta { x : 8; }\naction sx() { meta.x = h.f; }\naction go(p : 9) { out_port = p; }\naction no() { }\ntable a { default sx(); }\ntable b { exact meta.x; actions go; size 16; counted; default no(); }\ncontrol { apply a; apply b; }\n";

/// Changes, commits and packets.
const LINES: [&[u8]; 19] = [
    b"0 07",
    b"+ b 7 go 5",
    b"0 07",
    COMMIT,
    b"0 07",
    b"- b 7",
    b"+ b 7 go 6",
    b"0 07",
    COMMIT,
    b"0 07",
    b"- b 7",
    COMMIT,
    b"0 07",
    b"+ b 7 go 9",
    b"+ b 8 go 1",
    COMMIT,
    b"0 08",
    b"0 07",
    COMMIT,
];

/// The answers: each packet meets the entries of the commits before it, whatever was changed since.
const ANSWERS: &[u8] = b"0 0 07
1 0 07
2 5 07
3 5 07
4 6 07
5 0 07
6 1 08
7 9 07
";

/// An entry that is gone keeps its counter, and its key's next entry has one of its own.
const COUNTS: &str = "count 0 2 2\ncount 1 1 1\ncount 2 1 1\ncount 3 1 1\n";

/// The run goes on with the lists as they are now. Whether memory was there.
fn commit(alloc: Global, lists: &mut Lists, plain: &mut Plain) -> bool
    requires { (r : Running) × Stands r lists.old }
    ensures { (r : Running) × Stands r lists.new }
{
    if lists.commit(alloc).is_err() {
        return false;
    }
    match lists.current().copy(alloc) {
        Ok(entries) => plain.commit(alloc, entries).is_ok(),
        Err(_) => false,
    }
}

/// Answers a packet, and writes its line. Whether it is one, and memory was there.
fn answer(
    alloc: Global,
    plain: &mut Plain,
    line: &[u8],
    number: &mut u64,
    lines: &mut Vec<u8>,
) -> bool {
    let mut frame = Vec::new(alloc);
    let Ok(port) = read_packet(line, &mut frame) else {
        return false;
    };
    if port >= 512 || frame.is_empty() || frame.len() > 9216 {
        return false;
    }
    let Ok(answer) = plain.packet(alloc, port, &frame) else {
        return false;
    };
    let written = write_answer(*number, &answer, lines).is_ok();
    *number = number.wrapping_add(1);
    written
}

/// What is told of changes, commits and packets: the lines of the answers, and the run behind them.
fn told(alloc: Global, lines: &[&[u8]]) -> Option<(Vec<u8>, Plain)> {
    let mut out = Vec::new(alloc);
    let mut codes = String::new(alloc);
    let mut number = 0u64;
    let mut plain = started(alloc, PROGRAM, b"")?;
    let mut lists = empty_lists(alloc, 100)?;
    for line in lines {
        let ok = if is_change(line) {
            change(alloc, &mut lists, line, &mut codes)
        } else if *line == COMMIT {
            commit(alloc, &mut lists, &mut plain)
        } else {
            answer(alloc, &mut plain, line, &mut number, &mut out)
        };
        if !ok {
            return None;
        }
    }
    if !codes.is_empty() {
        return None;
    }
    Some((out, plain))
}

#[test]
fn packets_and_commits(rt: HostRuntime) {
    let (lines, plain) = told(rt.alloc(), &LINES).expect(&rt, "memory");
    assert!(rt; lines.as_slice() == ANSWERS);
    let counts = counted(rt.alloc(), &plain).expect(&rt, "memory");
    assert!(rt; counts.as_str() == COUNTS, "told {counts}");
}
