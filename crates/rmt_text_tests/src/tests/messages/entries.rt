//! Mistakes in entries.

use crate::tests::compare::same_bytes;
use crate::tests::messages::message;
use rmt_entries::entries;
use rmt_entries::fault::EntryFault;
use rmt_explain::ending::Texts;
use rmt_tests::fixtures::texts::program_of;
use std::alloc::{AllocError, Global};
use std::test::*;

/// A program with tables of each kind.
const TABLES: &str = "header h { f : 8; d : 32; } next accept;
action go(p : 9) { out_port = p; }
action put(p : 9, mac : 48) { out_port = p; }
action none() { }
table x { exact h.f; actions go; size 1; default go(0); }
table w { exact h.d; actions put, none; size 8; default none(); }
table r { prefix h.d; actions go; size 8; default go(0); }
table y { ternary h.f; actions go; size 8; default go(0); }
table n { default go(1); }
control { apply x; apply w; apply r; apply y; apply n; }
";

/// The last line that is printed for an entry text of that program.
fn entry_line(alloc: Global, text: &[u8]) -> Result<String, AllocError> {
    if text.len() > 1_000_000 {
        return Ok(String::new(alloc));
    }
    let Ok(program) = program_of(alloc, TABLES.as_bytes()) else {
        return Ok(String::new(alloc));
    };
    match entries(alloc, &program, text) {
        Err(EntryFault::At { code, line }) => {
            format!(in alloc; "bad entries {code} line {line}\n")
        }
        _ => Ok(String::new(alloc)),
    }
}

/// An entry text, and its message.
const ENTRIES: [(&str, &str); 27] = [
    (
        "x",
        "e:1:2: the line has one word: give the table, the key, the action and its arguments
  1 | x
    |  ^
",
    ),
    (
        "x 1 go 1\r\n",
        "e:1:9: a carriage return stands in the line: end lines by a line feed alone
  1 | x 1 go 1 
    |         ^
",
    ),
    (
        "x\t1 go 1",
        "e:1:2: a tab stands in the line: put spaces between the words
  1 | x 1 go 1
    |  ^
",
    ),
    (
        "q 1 go 1",
        "e:1:1: `q` is no table of the program: a line begins with the name of a table that has a key
  1 | q 1 go 1
    | ^
",
    ),
    (
        "n 1 go 1",
        "e:1:3: `1` makes no key of the table: it has no key, so it takes no entries
  1 | n 1 go 1
    |   ^
",
    ),
    (
        "x a go 1",
        "e:1:3: `a` makes no key of the table: give a number for each field of the key, each within the field's width; `h.f` has 8 bits
  1 | x a go 1
    |   ^
",
    ),
    (
        "x 256 go 1",
        "e:1:3: `256` makes no key of the table: give a number for each field of the key, each within the field's width; `h.f` has 8 bits
  1 | x 256 go 1
    |   ^^^
",
    ),
    (
        "r 1/33 go 1",
        "e:1:3: `1/33` makes no key of the table: give `value/length`, the length from 0 to the field's width; `h.d` has 32 bits
  1 | r 1/33 go 1
    |   ^^^^
",
    ),
    (
        "y 1",
        "e:1:4: the key has too few words: give a priority below 2^32, then for each field `value&mask`, `value` or `*`, within its width; `h.f` has 8 bits
  1 | y 1
    |    ^
",
    ),
    (
        "x 1",
        "e:1:4: the action is missing: it stands behind the key
  1 | x 1
    |    ^
",
    ),
    (
        "x 1 no 1",
        "e:1:5: `no` is no action that the table lists: give one of its `actions` behind the key
  1 | x 1 no 1
    |     ^^
",
    ),
    (
        "x 1 go",
        "e:1:7: the argument for parameter `p` is missing: give `go` a number for each of `p` (9 bits)
  1 | x 1 go
    |       ^
",
    ),
    (
        "x 1 go z",
        "e:1:8: `z` is no number for parameter `p` of 9 bits: give `go` a number for each of `p` (9 bits)
  1 | x 1 go z
    |        ^
",
    ),
    (
        "x 1 go 512",
        "e:1:8: `512` does not fit parameter `p` of 9 bits: give `go` a number for each of `p` (9 bits)
  1 | x 1 go 512
    |        ^^^
",
    ),
    (
        "r 1/8 go 1\nr 2/8 go 2",
        "e:2:1: an earlier line of the table has the same key: take one of the two out
  2 | r 2/8 go 2
    | ^
e:1:1: the key stands here first
  1 | r 1/8 go 1
    | ^
",
    ),
    (
        "x 1 go 1\n\nx 2 go 2",
        "e:3:1: the table is full with 1 entries, its `size`: raise its `size`, or take entries out
  3 | x 2 go 2
    | ^
p:5:7: `x` is declared here
  5 | table x { exact h.f; actions go; size 1; default go(0); }
    |       ^
",
    ),
    (
        "x 1 go 1 2",
        "e:1:10: `2` is one argument too many: give `go` a number for each of `p` (9 bits)
  1 | x 1 go 1 2
    |          ^
",
    ),
    (
        "w 1 put 2",
        "e:1:10: the argument for parameter `mac` is missing: give `put` a number for each of `p` (9 bits), `mac` (48 bits)
  1 | w 1 put 2
    |          ^
",
    ),
    (
        "w 1 put 2 0x1000000000000",
        "e:1:11: `0x1000000000000` does not fit parameter `mac` of 48 bits: give `put` a number for each of `p` (9 bits), `mac` (48 bits)
  1 | w 1 put 2 0x1000000000000
    |           ^^^^^^^^^^^^^^^
",
    ),
    (
        "w 1 none 2",
        "e:1:10: `2` is one argument too many: give none, for `none` has no parameters
  1 | w 1 none 2
    |          ^
",
    ),
    (
        "w 0x10 none\n# the same key\nw 17 none\nw 16 put 1 2",
        "e:4:1: an earlier line of the table has the same key: take one of the two out
  4 | w 16 put 1 2
    | ^
e:1:1: the key stands here first
  1 | w 0x10 none
    | ^
",
    ),
    (
        "r 0x0a000001/8 go 1\nr 0x0a0000ff/24 go 1\nr 0x0a000002/24 go 2\nr 0x0a0000fe/24 go 3",
        "e:3:1: an earlier line of the table has the same key: take one of the two out
  3 | r 0x0a000002/24 go 2
    | ^
e:2:1: the key stands here first
  2 | r 0x0a0000ff/24 go 1
    | ^
",
    ),
    (
        "y 4294967296 1 go 1",
        "e:1:3: `4294967296` makes no key of the table: give a priority below 2^32, then for each field `value&mask`, `value` or `*`, within its width
  1 | y 4294967296 1 go 1
    |   ^^^^^^^^^^
",
    ),
    (
        "y 1 1&0x1ff go 1",
        "e:1:5: `1&0x1ff` makes no key of the table: give a priority below 2^32, then for each field `value&mask`, `value` or `*`, within its width; `h.f` has 8 bits
  1 | y 1 1&0x1ff go 1
    |     ^^^^^^^
",
    ),
    (
        "r 1 go 1",
        "e:1:3: `1` makes no key of the table: give `value/length`, the length from 0 to the field's width; `h.d` has 32 bits
  1 | r 1 go 1
    |   ^
",
    ),
    (
        "x  1   no",
        "e:1:8: `no` is no action that the table lists: give one of its `actions` behind the key
  1 | x  1   no
    |        ^^
",
    ),
    (
        "\u{e9} 1",
        "e:1:1: the byte 0xc3 stands in the line: use printable letters, digits and signs alone
  1 | ?? 1
    | ^
",
    ),
];

/// What is told of an entry text of that program.
fn told(alloc: Global, text: &str) -> Result<Vec<u8>, AllocError> {
    let line = entry_line(alloc, text.as_bytes())?;
    let texts = Texts {
        program: Some(TABLES.as_bytes()),
        entries: Some(text.as_bytes()),
        packet_line: None,
    };
    message(alloc, &["compile", "p", "e", "i"], 5, line.as_str(), &texts)
}

#[test]
fn mistakes_in_entries(rt: HostRuntime) {
    for &(text, wanted) in &ENTRIES {
        let told = told(rt.alloc(), text).expect(&rt, "memory");
        same_bytes(&rt, told.as_slice(), wanted);
    }
}
