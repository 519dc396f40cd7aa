//! Entry texts: the lists of good lines of each kind of table, and each code of bad ones.

ghost use Rattle.std.specs.Prelude.{◌<◌, length};

use crate::tests::compare::same_text;
use rmt_ast::entry::{Entry, EntryLists};
use rmt_entries::entries;
use rmt_entries::fault::EntryFault;
use rmt_tests::fixtures::programs::{REALISTIC, REALISTIC_ENTRIES, STRICT_AND_WEAK};
use rmt_tests::fixtures::texts::program_of;
use std::alloc::{AllocError, Global};
use std::process::Abort;
use std::test::*;

/// A table of prefixes.
const PREFIX: &[u8] = b"header h { d : 32; } next accept;
action go(p : 9) { out_port = p; }
table r { prefix h.d; actions go; size 1024; counted; default go(0); }
control { apply r; }
";

/// Writes an entry on a line.
fn push_entry(out: &mut String, entry: &Entry) -> Result<(), AllocError> {
    write!(out, "{} #{} rank {}", entry.table, entry.number, entry.rank)?;
    for test in entry.tests.as_slice() {
        write!(out, " {}&{}", test.value, test.mask)?;
    }
    write!(out, " action {}", entry.action)?;
    for arg in entry.args.as_slice() {
        write!(out, " {arg}")?;
    }
    out.push_str("\n")?;
    Ok(())
}

/// The entries of lists, a line each, or a fault.
fn shown(alloc: Global, answer: Result<EntryLists, EntryFault>) -> Result<String, AllocError> {
    let mut out = String::new(alloc);
    match answer {
        Ok(lists) => {
            for list in lists.as_slice() {
                for entry in list.as_slice() {
                    push_entry(&mut out, entry)?;
                }
            }
        }
        Err(EntryFault::At { code, line }) => write!(out, "code {code} line {line}")?,
        Err(EntryFault::NoMemory) => out.push_str("no memory")?,
    }
    Ok(out)
}

/// What a text says of a program that a text means.
fn told(alloc: Global, program: &[u8], text: &[u8]) -> Result<String, AllocError>
    requires program { length program.now < 4294967295 }
    requires entries { length text.now < 4294967295 }
{
    match program_of(alloc, program) {
        Ok(program) => shown(alloc, entries(alloc, &program, text)),
        Err(_) => Err(AllocError),
    }
}

/// Whether a text says this of a program.
fn says(rt: &(impl Abort + AllocGlobal), program: &[u8], text: &[u8], wanted: &str) {
    assert!(rt; program.len() < 1000000 && text.len() < 1000000);
    let told = told(rt.alloc(), program, text).expect(rt, "a program");
    same_text(rt, told.as_str(), wanted);
}

/// A text, and what it says of the program with a table `b` that is exact.
type Row = (&'static [u8], &'static str);

const ROWS: [Row; 14] = [
    (b"", ""),
    (b"b 7 go 5", "1 #0 rank 0 7&255 action 0 5\n"),
    (
        b"# none\n\n b  0x0A go 0x1ff \nb 9 go 0\n",
        "1 #0 rank 0 10&255 action 0 511\n1 #1 rank 0 9&255 action 0 0\n",
    ),
    (b"b\n", "code 1 line 1"),
    (b"q 1 go 1\n", "code 2 line 1"),
    (b"b 256 go 1\n", "code 3 line 1"),
    (b"a 1 go 1\n", "code 3 line 1"),
    (b"b 1\n", "code 4 line 1"),
    (b"b 1 sx\n", "code 4 line 1"),
    (b"b 1 go 512\n", "code 5 line 1"),
    (b"b 1 go 1\nb 1 go 1\n", "code 6 line 2"),
    (
        b"b 0 go 1\nb 1 go 1\nb 2 go 1\nb 3 go 1\nb 4 go 1\nb 5 go 1\nb 6 go 1\nb 7 go 1\nb 8 go 1\nb 9 go 1\nb 10 go 1\nb 11 go 1\nb 12 go 1\nb 13 go 1\nb 14 go 1\nb 15 go 1\nb 16 go 1\n",
        "code 7 line 17",
    ),
    (
        b"b 1 go 1\n\n# x\nb 340282366920938463463374607431768211456 go 1\n",
        "code 3 line 4",
    ),
    (b"b 1 go 1\nb 2 go 1\r\n", "code 1 line 2"),
];

#[test]
fn tells_bad_lines(rt: HostRuntime) {
    for &(text, wanted) in &ROWS {
        says(&rt, STRICT_AND_WEAK, text, wanted);
    }
}

/// Prefixes of length 0 and of all bits; bits behind a prefix are ignored, also where it is found again.
#[test]
fn reads_prefixes(rt: HostRuntime) {
    says(
        &rt,
        PREFIX,
        b"r 0/0 go 1\nr 0x0a0b0c0d/8 go 2\nr 0x0a000105/32 go 4\n",
        "0 #0 rank 0 0&0 action 0 1\n0 #1 rank 8 167772160&4278190080 action 0 2\n0 #2 rank 32 167772421&4294967295 action 0 4\n",
    );
    says(
        &rt,
        PREFIX,
        b"r 0x0a000000/8 go 1\nr 0x0affffff/8 go 2\n",
        "code 6 line 2",
    );
}

/// The entries of a program with tables of each kind, in the list of each node.
#[test]
fn reads_entries_of_each_kind(rt: HostRuntime) {
    says(
        &rt,
        REALISTIC,
        REALISTIC_ENTRIES.as_bytes(),
        "1 #0 rank 10 167772160&4278190080 17&255 action 0
1 #1 rank 20 0&0 6&255 action 1
2 #2 rank 16 3232235520&4294901760 action 0 1
2 #3 rank 24 3232235776&4294967040 action 0 2
4 #4 rank 32 42540766411282592856903984951653826560&340282366841710300949110269838224261120 action 0 2
5 #5 rank 0 1&65535 action 0 3 2199023255555
5 #6 rank 0 2&65535 action 0 4 2199023255556
6 #7 rank 0 2199023255561&281474976710655 action 0 7
",
    );
}
