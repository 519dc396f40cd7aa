//! The message for standard error, with the texts that it quotes read again.

use rmt_explain::commands::{Role, limit_of, role_of, word_of};
use rmt_explain::ending::{Ending, Texts, status};
use rmt_explain::explain;
use rmt_io::mem_shelf::MemShelf;
use rmt_io::shelf::Shelf;
use rmt_io::true_shelf::{MachineFault, TrueShelf};
use std::alloc::{AllocError, Global};
use std::io::ErrorKind;
use std::rt::Files;

/// How many bytes of a packet line are quoted at most.
const LINE_ROOM: usize = 20_000;

/// How many bytes are read at a time.
const PIECE: usize = 65_536;

/// What tells how long files are.
pub trait Lengths {
    /// How many bytes the named file has; None where it is no regular file, which can't be read again.
    fn length(&self, name: &String) -> Option<u64>;
}

/// What keeps the last fault of a file.
pub trait KeepsFault {
    /// The last fault; None where there was none, or no memory for its name.
    fn kept_fault(&self) -> Option<&MachineFault>;
}

/// Files of the machine keep the fault.
impl<R: Files> KeepsFault for TrueShelf<'_, R> {
    fn kept_fault(&self) -> Option<&MachineFault> {
        self.last_fault()
    }
}

/// Files in memory keep none.
impl KeepsFault for MemShelf {
    fn kept_fault(&self) -> Option<&MachineFault> {
        None
    }
}

/// The message of a call that ended; where a file was at fault, no text is read again.
pub fn message_after<F: Shelf + KeepsFault, L: Lengths>(
    alloc: Global,
    ending: &Ending,
    shelf: &mut F,
    lengths: &L,
) -> Result<Vec<u8>, AllocError> {
    match shelf.kept_fault() {
        Some(fault) => explain(
            alloc,
            &ending.with_fault(fault.name.as_str(), fault.kind),
            &Texts::none(),
        ),
        None => message_of(alloc, ending, shelf, lengths),
    }
}

/// The message of a call in which no file was at fault. A file is read again only where it is a regular one.
pub fn message_of<F: Shelf, L: Lengths>(
    alloc: Global,
    ending: &Ending,
    shelf: &mut F,
    lengths: &L,
) -> Result<Vec<u8>, AllocError> {
    let program = read_again(alloc, ending, Role::Program, shelf, lengths);
    let lines = lines_role(ending);
    let entries = read_again(alloc, ending, lines, shelf, lengths);
    let line = read_line_again(alloc, ending, shelf, lengths);
    let texts = Texts {
        program: slice_of(&program),
        entries: slice_of(&entries),
        packet_line: slice_of(&line),
    };
    if ending.status == status::TOO_LONG {
        if let Some(name) = too_long(ending.words, lengths) {
            let told = ending.with_fault(name, ErrorKind::FileTooLarge);
            return explain(alloc, &told, &texts);
        }
    }
    explain(alloc, ending, &texts)
}

/// Which text of lines a command reads: groups, or entries.
fn lines_role(ending: &Ending) -> Role {
    match word_of(ending.words, Role::Groups) {
        Some(_) => Role::Groups,
        None => Role::Entries,
    }
}

/// The bytes that were read.
fn slice_of(bytes: &Option<Vec<u8>>) -> Option<&[u8]> {
    match bytes {
        Some(bytes) => Some(bytes.as_slice()),
        None => None,
    }
}

/// The text of a file that the message may quote.
fn read_again<F: Shelf, L: Lengths>(
    alloc: Global,
    ending: &Ending,
    role: Role,
    shelf: &mut F,
    lengths: &L,
) -> Option<Vec<u8>> {
    let name = ending.quoted_word(role)?;
    let limit = limit_of(role)?;
    if lengths.length(name)? > limit {
        return None;
    }
    let mut text = Vec::new(alloc);
    match shelf.read(alloc, name, limit, &mut text) {
        Ok(()) => Some(text),
        Err(_) => None,
    }
}

/// The front of the packet line that the message may quote.
fn read_line_again<F: Shelf, L: Lengths>(
    alloc: Global,
    ending: &Ending,
    shelf: &mut F,
    lengths: &L,
) -> Option<Vec<u8>> {
    let name = ending.quoted_word(Role::Packets)?;
    let length = lengths.length(name)?;
    match shelf.open(alloc, name) {
        Ok(()) => line_of(alloc, ending.bad_line(), length, shelf),
        Err(_) => None,
    }
}

/// The front of a line of the open file, which has so many bytes.
fn line_of<F: Shelf>(alloc: Global, wanted: u64, length: u64, shelf: &mut F) -> Option<Vec<u8>> {
    let mut line = Vec::new(alloc);
    let mut piece = match vec![in alloc; 0u8; PIECE] {
        Ok(piece) => piece,
        Err(_) => return None,
    };
    let mut number: u64 = 1;
    for _ in 0..length {
        number = take_piece(shelf, piece.as_mut_slice(), &mut line, number, wanted)?;
        if number > wanted {
            break;
        }
    }
    Some(line)
}

/// Takes what the next piece of the open file has of the wanted line, as `take_line`; at the end of the file the number is
/// the last one of its size.
fn take_piece<F: Shelf>(
    shelf: &mut F,
    piece: &mut [u8],
    line: &mut Vec<u8>,
    number: u64,
    wanted: u64,
) -> Option<u64> {
    if piece.is_empty() {
        return None;
    }
    match shelf.next(piece) {
        Ok(0) => Some(u64::MAX),
        Ok(count) => take_line(line, piece.get(..count)?, number, wanted),
        Err(_) => None,
    }
}

/// Takes what a piece has of the wanted line, where its first byte is in the line `number`, and answers the number of the
/// line behind it; None for want of memory.
fn take_line(line: &mut Vec<u8>, piece: &[u8], number: u64, wanted: u64) -> Option<u64> {
    let mut number = number;
    for byte in piece {
        if *byte == b'\n' {
            number = number.saturating_add(1);
        } else if number == wanted && line.len() < LINE_ROOM {
            line.push(*byte).ok()?;
        }
    }
    Some(number)
}

/// The name of the file that is longer than its limit.
fn too_long<'a, L: Lengths>(words: &'a [String], lengths: &L) -> Option<&'a str> {
    for at in 0..words.len() {
        if let Some(role) = role_of(words, at) {
            if is_above(lengths.length(&words[at]), limit_of(role)) {
                return Some(words[at].as_str());
            }
        }
    }
    None
}

/// Whether there is a length above a limit.
fn is_above(length: Option<u64>, limit: Option<u64>) -> bool {
    match (length, limit) {
        (Some(length), Some(limit)) => length > limit,
        _ => false,
    }
}
