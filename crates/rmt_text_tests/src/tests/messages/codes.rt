//! The codes of lines that change entries, of captures and of maps.

use crate::tests::compare::same_bytes;
use crate::tests::messages::{PLAIN, SIM, message};
use rmt_explain::ending::Texts;
use std::alloc::{AllocError, Global};
use std::test::*;

/// Words, a code with the line that has it, and what the message says behind the line's place.
const CHANGES: [(&[&str], u64, &str, &str); 7] = [
    (
        SIM,
        4,
        "commit",
        "the image tells no names, so its entries can't be changed: `compile` writes one that does",
    ),
    (
        PLAIN,
        5,
        "+ t 1",
        "the line says no change: behind `+ ` stands an entry, behind `- ` the table and the key of one",
    ),
    (
        PLAIN,
        6,
        "+ t 1 go 2",
        "the table holds an entry with this key: remove that one first",
    ),
    (
        PLAIN,
        7,
        "+ t 1 go 2",
        "the table is full: it holds as many entries as its size",
    ),
    (PLAIN, 8, "- t 1", "the table holds no entry with this key"),
    (
        PLAIN,
        9,
        "+ t 1 go 2",
        "the line is one addition too many: a packet text adds at most 1,048,576 entries",
    ),
    (
        SIM,
        10,
        "commit",
        "the entries of some exact table have no place behind this commit, under each of eight seeds; where many keys differ in their last three bytes alone, a field of 24 bits or more that is always 0 behind the key makes them load",
    ),
];

/// Words with status, last line and message, of files that are no captures and no map.
const FILES: [(&[&str], u8, &str, &str); 3] = [
    (
        &["switch", "i", "g", "c", "o", "7"],
        8,
        "bad packets 12 line 0\n",
        "rmt: c is no capture: its version isn't 2.4; write it again with another program\n",
    ),
    (
        &["switch", "i", "g", "c", "o", "7"],
        8,
        "bad packets 13 line 0\n",
        "rmt: c is no capture: it ends within its head of 24 bytes; copy it again\n",
    ),
    (
        &["verify", "p", "e", "i", "m"],
        7,
        "bad image 7\n",
        "rmt: m is no map: give the file that `compile` wrote beside the image\n",
    ),
];

/// The message where line 3 of a packet text has this code.
fn told(alloc: Global, words: &[&str], code: u64, line: &str) -> Result<Vec<u8>, AllocError> {
    let last_line = format!(in alloc; "bad packets {code} line 3\n")?;
    let texts = Texts {
        packet_line: Some(line.as_bytes()),
        ..Texts::none()
    };
    message(alloc, words, 8, last_line.as_str(), &texts)
}

/// The whole message that says this of the line.
fn wanted(alloc: Global, line: &str, says: &str) -> Result<String, AllocError> {
    format!(in alloc; "k:3:1: {says}\n  3 | {line}\n    | ^\n")
}

#[test]
fn lines_that_change_entries(rt: HostRuntime) {
    for &(words, code, line, says) in &CHANGES {
        let told = told(rt.alloc(), words, code, line).expect(&rt, "memory");
        let wanted = wanted(rt.alloc(), line, says).expect(&rt, "memory");
        same_bytes(&rt, told.as_slice(), wanted.as_str());
    }
}

#[test]
fn files_of_other_kinds(rt: HostRuntime) {
    for &(words, status, last_line, wanted) in &FILES {
        let told = message(rt.alloc(), words, status, last_line, &Texts::none());
        same_bytes(&rt, told.expect(&rt, "memory").as_slice(), wanted);
    }
}
