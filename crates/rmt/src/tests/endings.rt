//! What standard error is told for each kind of answer, whose number is the exit status: a text after each but Done, and
//! after Done warnings alone.

use crate::call::call;
use crate::end_without_words;
use crate::tests::messages::{ended, words_of};
use rmt_io::mem_shelf::MemShelf;
use rmt_io::mem_sink::MemSink;
use rmt_io::true_shelf::TrueShelf;
use rmt_messages::messages::{Lengths, message_after};
use std::alloc::Global;
use std::io::{ErrorKind, Write};
use std::test::*;

/// Words, how the call ends, and what the message begins with.
const ROWS: [(&[&str], u8, &str); 12] = [
    (&["compile", "p", "e", "i"], 0, ""),
    (&["plain", "w", "e", "e"], 0, ""),
    (&["compile", "w", "e", "i"], 0, "w:1:34: warning: "),
    (&["sim", "p"], 1, "rmt: PACKETS is missing: "),
    (&["--help"], 1, "rmt: a compiler and a simulator "),
    (&["sim", "p", "none"], 2, "rmt: a file can't be read\n"),
    (&["compile", "e", "e", "i"], 4, "e:1:1: "),
    (&["compile", "p", "w", "i"], 5, "w:1:1: "),
    (&["compile", "d", "e", "i"], 6, "d:2:8: "),
    (&["report", "p"], 7, "rmt: p is no image: "),
    (&["plain", "p", "e", "w"], 8, "w:1:1: "),
    (&["compile", "long", "e", "i"], 9, TOO_LONG),
];

const TOO_LONG: &str =
    "rmt: a file is longer than its limit\n  long: a program has at most 1,048,576 bytes\n";

/// Files by their names: a program that compiles, one of which `compile` warns, one with an action that is too deep for the
/// chip, and no entry.
const FILES: [(&str, &[u8]); 4] = [
    (
        "p",
        b"header h { f : 8; } next accept;\naction send() { out_port = 1; }\ntable t { default send(); }\ncontrol { apply t; }\n",
    ),
    ("w", b"header h { f : 8; } next accept; control { }\n"),
    (
        "d",
        b"header h { a : 8; b : 8; c : 8; } next accept;\naction deep() { h.a = h.a + h.b; h.b = h.a + h.c; }\ntable t { default deep(); }\ncontrol { apply t; }\n",
    ),
    ("e", b""),
];

const COMPILE: [&str; 4] = ["compile", "p", "e", "i"];

/// Files of 60 bytes, and one that is longer than any may be.
#[derive(Drop)]
struct Told {}

impl Lengths for Told {
    fn length(&self, name: &String) -> Option<u64> {
        if name.as_str() == "long" {
            Some(1_099_511_627_777)
        } else {
            Some(60)
        }
    }
}

/// Which call of the shelf and of the sink fails, from 1 on; 0 for none.
#[derive(Clone, Copy)]
struct Fails {
    shelf: u64,
    sink: u64,
}

const STEADY: Fails = Fails { shelf: 0, sink: 0 };

/// A shelf with the files of the rows.
fn shelf(alloc: Global, fails: u64) -> Result<MemShelf, Fail> {
    let mut shelf = MemShelf::new([fails].to_vec(alloc)?, 65_536);
    for (name, bytes) in &FILES {
        let name = String::from_str(alloc, *name)?;
        shelf.put_file(&name, &Vec::from_slice(alloc, *bytes)?)?;
    }
    let long = vec![in alloc; b' '; 1_048_577]?;
    shelf.put_file(&String::from_str(alloc, "long")?, &long)?;
    Ok(shelf)
}

/// The exit status of a call over a shelf that names no fault, whose messages are said to a writer.
fn status_of<E: Write>(
    alloc: Global,
    words: &[&str],
    fails: Fails,
    err: &mut E,
) -> Result<u8, Fail> {
    let words = words_of(alloc, words)?;
    let mut shelf = shelf(alloc, fails.shelf)?;
    let out = MemSink::new([fails.sink].to_vec(alloc)?, 65_536);
    Ok(call(alloc, &words, &mut shelf, out, &Told {}, err))
}

/// Whether a text begins so, and is empty where nothing is wanted.
fn is_told(text: &[u8], wanted: &str) -> bool {
    text.starts_with(wanted.as_bytes()) && text.is_empty() == wanted.is_empty()
}

/// Whether a call of words ends so, and what it says begins so.
fn says(
    alloc: Global,
    words: &[&str],
    fails: Fails,
    wanted: u8,
    begins: &str,
) -> Result<bool, Fail> {
    let mut text = Vec::new(alloc);
    let status = status_of(alloc, words, fails, &mut text)?;
    Ok(status == wanted && is_told(text.as_slice(), begins))
}

#[test]
fn each_kind_of_answer(rt: HostRuntime) -> Result<(), Fail> {
    for (number, &(words, wanted, begins)) in ROWS.iter().enumerate() {
        assert!(rt;
            says(rt.alloc(), words, STEADY, wanted, begins)?,
            "row {number}"
        );
    }
    Ok(())
}

const NOT_WRITTEN: &str = "rmt: standard output can't be written, or i; ";

/// The image that is written fails, and then the output; and a message that can't be said changes no status.
#[test]
fn faults_of_what_is_written(rt: HostRuntime) -> Result<(), Fail> {
    let image = Fails { shelf: 3, sink: 0 };
    let output = Fails { shelf: 0, sink: 1 };
    assert!(rt; says(rt.alloc(), &COMPILE, image, 3, NOT_WRITTEN)?);
    assert!(rt; says(rt.alloc(), &COMPILE, output, 3, NOT_WRITTEN)?);
    let mut none: &mut [u8] = &mut [];
    let status = status_of(rt.alloc(), &["report", "p"], STEADY, &mut none)?;
    assert!(rt; status == 7);
    Ok(())
}

const ABSENT: &str =
    "rmt: no_such_folder/i can't be read: there is no file of this name, or no folder of its path\n";

/// A fault of the machine has the file's name, and what the system said.
#[test]
fn a_file_that_is_absent(rt: HostRuntime) -> Result<(), Fail> {
    let alloc = rt.alloc();
    let words = words_of(alloc, &["report", "no_such_folder/i"])?;
    let out = MemSink::new([0].to_vec(alloc)?, 1);
    let mut text = Vec::new(alloc);
    let mut shelf = TrueShelf::new(&rt);
    let status = call(alloc, &words, &mut shelf, out, &Told {}, &mut text);
    assert!(rt; status == 2 && text.as_slice() == ABSENT.as_bytes());
    Ok(())
}

/// What is said after a status with a last line that is empty, and a shelf of no file.
fn said_after(alloc: Global, words: &[&str], status: u8) -> Result<Vec<u8>, Fail> {
    let words = words_of(alloc, words)?;
    let mut shelf = MemShelf::new(Vec::new(alloc), 1);
    Ok(message_after(alloc, &ended(&words, status, b""), &mut shelf, &Told {})?)
}

const PACKETS_TOO_LONG: &str =
    "rmt: a file is longer than its limit\n  long: a packet text has at most 1,099,511,627,776 bytes\n";

/// A packet text is read in pieces, so no shelf names it where it is too long.
#[test]
fn a_packet_text_that_is_too_long(rt: HostRuntime) -> Result<(), Fail> {
    let text = said_after(rt.alloc(), &["sim", "i", "long"], 9)?;
    assert!(rt; text.as_slice() == PACKETS_TOO_LONG.as_bytes());
    Ok(())
}

/// The exit status where the words are refused for this, and whether something is said.
fn refused(alloc: Global, kind: ErrorKind) -> (u8, bool) {
    let mut text = Vec::new(alloc);
    let status = end_without_words(&mut text, kind);
    (status, text.starts_with(b"rmt: "))
}

/// After each status but 0 there is a text, also where nothing is known but the words.
#[test]
fn each_status(rt: HostRuntime) -> Result<(), Fail> {
    for status in 0..11u8 {
        let text = said_after(rt.alloc(), &COMPILE, status)?;
        assert!(rt; text.is_empty() == (status == 0), "{status}");
    }
    assert!(rt; refused(rt.alloc(), ErrorKind::InvalidInput) == (11, true));
    assert!(rt; refused(rt.alloc(), ErrorKind::OutOfMemory) == (10, true));
    Ok(())
}
