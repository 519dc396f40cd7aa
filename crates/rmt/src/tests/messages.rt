//! What standard error is told: the last line that was kept, and messages that quote files read again.

use rmt_explain::ending::Ending;
use rmt_io::mem_shelf::MemShelf;
use rmt_io::mem_sink::MemSink;
use rmt_io::sink::Sink;
use rmt_messages::last_line::LastLine;
use rmt_messages::messages::{Lengths, message_of};
use std::alloc::{AllocError, Global};
use std::test::*;

/// Files that are all regular, and of 20 bytes.
#[derive(Drop)]
struct Short {}

impl Lengths for Short {
    fn length(&self, _name: &String) -> Option<u64> {
        Some(20)
    }
}

/// Words as the program is given them.
pub fn words_of(alloc: Global, words: &[&str]) -> Result<Vec<String>, AllocError> {
    let mut all = Vec::new(alloc);
    for word in words {
        all.push(String::from_str(alloc, *word)?)?;
    }
    Ok(all)
}

/// How a call ended in which no file was at fault.
pub fn ended<'w, 'l>(
    words: &'w Vec<String>,
    status: u8,
    last_line: &'l [u8],
) -> Ending<'w, 'l, 'static> {
    Ending {
        words: words.as_slice(),
        status,
        last_line,
        fault: None,
    }
}

/// The last line behind pieces.
fn kept(alloc: Global, pieces: &[&str]) -> Result<Vec<u8>, Fail> {
    let mut out = LastLine::new(alloc, MemSink::new(Vec::new(alloc), 65_536));
    for piece in pieces {
        let bytes = piece.as_bytes();
        if !bytes.is_empty() {
            let _ = out.write(bytes).is_ok();
        }
    }
    Ok(Vec::from_slice(alloc, out.last_line())?)
}

/// Pieces that are written, and the last line of them.
const PIECES: &[(&[&str], &str)] = &[
    (&[], ""),
    (&["a\nb\n"], "b\n"),
    (&["a\n", "b", "c\n"], "bc\n"),
    (&["a\nb", "\n", "c"], "c"),
    (&["a\n\n"], "\n"),
];

#[test]
fn last_lines(rt: HostRuntime) -> Result<(), Fail> {
    for (number, &(pieces, wanted)) in PIECES.iter().enumerate() {
        let line = kept(rt.alloc(), pieces)?;
        assert!(rt; line.as_slice() == wanted.as_bytes(), "row {number}");
    }
    Ok(())
}

/// A file, words, the status and the last line of a call of them, and the message.
type Row = (
    (&'static str, &'static [u8]),
    &'static [&'static str],
    u8,
    &'static [u8],
    &'static str,
);

/// Whether the message over a shelf of one file, which gives so many bytes at once, is this.
fn is_said(alloc: Global, most: u32, row: &Row) -> Result<bool, Fail> {
    let ((name, bytes), words, status, last_line, wanted) = *row;
    let mut shelf = MemShelf::new(Vec::new(alloc), most.max(1));
    let name = String::from_str(alloc, name)?;
    shelf.put_file(&name, &Vec::from_slice(alloc, bytes)?)?;
    let words = words_of(alloc, words)?;
    let ending = ended(&words, status, last_line);
    let told = message_of(alloc, &ending, &mut shelf, &Short {})?;
    Ok(told.as_slice() == wanted.as_bytes())
}

const PROGRAM: (&str, &[u8]) = ("p", b"control { }\n");

const WARNED: &[Row] = &[
    (
        PROGRAM,
        &["compile", "p", "e", "i"],
        0,
        b"minimal yes\n",
        "p:1:1: warning: no action of a table assigns `out_port`, so each packet that is not dropped leaves on port 0: assign it in an action\n  1 | control { }\n    | ^^^^^^^\n",
    ),
    (
        PROGRAM,
        &["compile", "p", "e", "p"],
        0,
        b"minimal yes\n",
        "",
    ),
    (PROGRAM, &["plain", "p", "e", "k"], 0, b"minimal yes\n", ""),
];

/// A program that compiles is warned of, and no program that the call wrote over.
#[test]
fn a_program_is_warned_of(rt: HostRuntime) -> Result<(), Fail> {
    for (number, row) in WARNED.iter().enumerate() {
        assert!(rt; is_said(rt.alloc(), 7, row)?, "row {number}");
    }
    Ok(())
}

const QUOTED: Row = (
    ("k", b"0 00\n1 0g\n2 00\n"),
    &["sim", "i", "k"],
    8,
    b"bad packets 1 line 2\n",
    "k:2:4: `g` is no hexadecimal digit: the frame is digits up to the end of its line\n  2 | 1 0g\n    |    ^\n",
);

#[test]
fn a_packet_line_is_quoted(rt: HostRuntime) -> Result<(), Fail> {
    assert!(rt; is_said(rt.alloc(), 3, &QUOTED)?);
    Ok(())
}
