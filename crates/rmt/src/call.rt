//! A call of the program: the top call, and then the message for people.

use rmt_core::rmt;
use rmt_explain::ending::Ending;
use rmt_io::shelf::Shelf;
use rmt_io::sink::Sink;
use rmt_messages::last_line::LastLine;
use rmt_messages::messages::{KeepsFault, Lengths, message_after};
use std::alloc::{AllocError, Global};
use std::io::Write;

/// Gives the words to the top call, says on standard error how it ended, and answers the exit status.
pub fn call<F: Shelf + KeepsFault, O: Sink + Drop, L: Lengths, E: Write>(
    alloc: Global,
    words: &Vec<String>,
    shelf: &mut F,
    out: O,
    lengths: &L,
    err: &mut E,
) -> u8 {
    let mut out = LastLine::new(alloc, out);
    let status = rmt(alloc, words, shelf, &mut out) as u8;
    let ending = Ending {
        words: words.as_slice(),
        status,
        last_line: out.last_line(),
        fault: None,
    };
    say(err, message_after(alloc, &ending, shelf, lengths));
    status
}

/// Says a message on standard error. That it can't be said changes nothing.
fn say<E: Write>(err: &mut E, text: Result<Vec<u8>, AllocError>) {
    match text {
        Ok(text) if !text.is_empty() => {
            let _ = err.write_all(text.as_slice());
        }
        _ => {}
    }
}
