//! Messages for people, each as it is printed: for mistakes in programs, entries, packets, words and images, for programs that
//! don't fit, and for what a program that compiled can't mean.

mod codes;
mod entries;
mod limits;
mod others;
mod programs;
mod warnings;

use rmt_explain::ending::{Ending, Texts};
use rmt_explain::explain;
use std::alloc::{AllocError, Global};
use std::io::ErrorKind;

/// A run of `compile`.
const COMPILE: &[&str] = &["compile", "p", "e", "i"];

/// A run of `plain`.
const PLAIN: &[&str] = &["plain", "p", "e", "k"];

/// A run of `sim`.
const SIM: &[&str] = &["sim", "i", "k"];

/// A run of `switch`.
const SWITCH: &[&str] = &["switch", "i", "g", "c", "o", "7"];

/// The message where words ended with a status and a last line, and with a fault of this file, if any.
fn message_of(
    alloc: Global,
    words: &[&str],
    status: u8,
    last_line: &str,
    fault: Option<(&str, ErrorKind)>,
    texts: &Texts,
) -> Result<Vec<u8>, AllocError> {
    let mut owned = Vec::new(alloc);
    for word in words {
        owned.push(String::from_str(alloc, word)?)?;
    }
    let ending = Ending {
        words: owned.as_slice(),
        status,
        last_line: last_line.as_bytes(),
        fault: None,
    };
    match fault {
        Some((name, kind)) => explain(alloc, &ending.with_fault(name, kind), texts),
        None => explain(alloc, &ending, texts),
    }
}

/// The same where no file was at fault.
fn message(
    alloc: Global,
    words: &[&str],
    status: u8,
    last_line: &str,
    texts: &Texts,
) -> Result<Vec<u8>, AllocError> {
    message_of(alloc, words, status, last_line, None, texts)
}
