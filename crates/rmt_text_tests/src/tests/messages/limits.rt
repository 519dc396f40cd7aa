//! The limit of each kind of file, told where the file is too long.

use crate::tests::compare::same_bytes;
use crate::tests::messages::{COMPILE, SWITCH, message_of};
use rmt_explain::ending::Texts;
use std::alloc::{AllocError, Global};
use std::io::ErrorKind;
use std::test::*;

/// Words, the file that is too long, and what stands behind the first line of the message.
const ROWS: [(&[&str], &str, &str); 11] = [
    (COMPILE, "p", "  p: a program has at most 1,048,576 bytes\n"),
    (
        COMPILE,
        "e",
        "  e: an entry text has at most 67,108,864 bytes\n",
    ),
    (
        &["report", "i"],
        "i",
        "  i: an image has at most 268,435,456 bytes\n",
    ),
    (
        &["probe", "i", "k", "7"],
        "k",
        "  k: a packet text has at most 1,099,511,627,776 bytes\n",
    ),
    (
        &["verify", "p", "e", "i", "m"],
        "m",
        "  m: a map has at most 268,435,456 bytes\n",
    ),
    (
        SWITCH,
        "g",
        "  g: a group text has at most 1,048,576 bytes\n",
    ),
    (SWITCH, "c", "  c: a capture has at most 16,777,216 bytes\n"),
    // a file with two names of one kind, of two kinds, and one that is written too
    (
        &["verify", "p", "e", "x", "x"],
        "x",
        "  x: an image has at most 268,435,456 bytes\n  x: a map has at most 268,435,456 bytes\n",
    ),
    (
        &["switch", "x", "x", "c", "o", "7"],
        "x",
        "  x: an image has at most 268,435,456 bytes\n  x: a group text has at most 1,048,576 bytes\n",
    ),
    (
        &["compile", "x", "e", "x"],
        "x",
        "  x: a program has at most 1,048,576 bytes\n",
    ),
    // a file that no word names
    (
        &["plain", "p", "e", "k"],
        "",
        "  p: a program has at most 1,048,576 bytes\n  e: an entry text has at most 67,108,864 bytes\n  k: a packet text has at most 1,099,511,627,776 bytes\n",
    ),
];

/// The message where a file of this name is too long.
fn told(alloc: Global, words: &[&str], name: &str) -> Result<Vec<u8>, AllocError> {
    let fault = Some((name, ErrorKind::FileTooLarge));
    message_of(alloc, words, 9, "", fault, &Texts::none())
}

/// The whole message that ends in these lines.
fn wanted(alloc: Global, lines: &str) -> Result<String, AllocError> {
    format!(in alloc; "rmt: a file is longer than its limit\n{lines}")
}

#[test]
fn limits_of_files(rt: HostRuntime) {
    for &(words, name, lines) in &ROWS {
        let wanted = wanted(rt.alloc(), lines).expect(&rt, "memory");
        let told = told(rt.alloc(), words, name).expect(&rt, "memory");
        same_bytes(&rt, told.as_slice(), wanted.as_str());
    }
}
