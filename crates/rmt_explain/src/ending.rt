//! How a call of the program ended, as far as a message needs it.

use crate::commands::{Role, word_of};
use crate::last_line::number_at;
use std::io::ErrorKind;

/// How a call ended.
#[derive(Clone, Copy, Debug)]
pub struct Ending<'w, 'l, 'f> {
    /// The words behind the program's name.
    pub words: &'w [String],
    /// The exit status, 0 to 10.
    pub status: u8,
    /// The last line that was printed, at most its first 4,096 bytes, with its line feed where it has one.
    pub last_line: &'l [u8],
    /// The file that could not be read or written, and what the system said; none where the fault was of another kind.
    pub fault: Option<FileFault<'f>>,
}

/// A file that could not be read or written.
#[derive(Clone, Copy, Debug)]
pub struct FileFault<'f> {
    /// Its name, as the words have it.
    pub name: &'f str,
    /// What the system said; `FileTooLarge` where it is longer than its limit.
    pub kind: ErrorKind,
}

/// The texts that a message may quote, each where it could be read again.
#[derive(Clone, Copy, Debug)]
pub struct Texts<'p, 'e, 'k> {
    /// The program's text.
    pub program: Option<&'p [u8]>,
    /// The entries' text, or the group text of `switch`.
    pub entries: Option<&'e [u8]>,
    /// The first bytes of the packet line that the last line names; the whole text may be too long to be held.
    pub packet_line: Option<&'k [u8]>,
}

impl Texts<'_, '_, '_> {
    /// None of the texts.
    pub fn none() -> Self {
        Texts {
            program: None,
            entries: None,
            packet_line: None,
        }
    }
}

impl<'w, 'l> Ending<'w, 'l, '_> {
    /// The same, with a fault of a file.
    pub fn with_fault<'f>(&self, name: &'f str, kind: ErrorKind) -> Ending<'w, 'l, 'f> {
        Ending {
            words: self.words,
            status: self.status,
            last_line: self.last_line,
            fault: Some(FileFault { name, kind }),
        }
    }

    /// The word that names the file of a role, where the message may quote that file.
    pub fn quoted_word(&self, role: Role) -> Option<&String> {
        let is_quoted = match self.status {
            status::DONE => role == Role::Program && self.keeps_program(),
            status::BAD_PROGRAM => role == Role::Program,
            status::BAD_ENTRIES => {
                role == Role::Program || role == Role::Entries || role == Role::Groups
            }
            status::NO_FIT => role == Role::Program || role == Role::Entries,
            status::BAD_PACKETS => role == Role::Packets,
            _ => false,
        };
        if is_quoted {
            self.words.get(word_of(self.words, role)?)
        } else {
            None
        }
    }

    /// Whether the call writes files, and others than the program.
    fn keeps_program(&self) -> bool {
        match word_of(self.words, Role::Written) {
            Some(_) => { !self.is_program(Role::Written) && !self.is_program(Role::WrittenMap) }
            None => false,
        }
    }

    /// Whether the word of a role names the program too.
    fn is_program(&self, role: Role) -> bool {
        match (
            word_of(self.words, Role::Program),
            word_of(self.words, role),
        ) {
            (Some(program), Some(other)) => self.words.get(program) == self.words.get(other),
            _ => false,
        }
    }

    /// The line, counted from 1, at which the last line says that a text is bad.
    pub fn bad_line(&self) -> u64 {
        number_at(self.last_line, 4)
    }
}

/// The exit statuses that a message is written for, as docs/commands.md numbers them.
pub mod status {
    pub const DONE: u8 = 0;

    pub const USAGE: u8 = 1;

    pub const READ_FAULT: u8 = 2;

    pub const WRITE_FAULT: u8 = 3;

    pub const BAD_PROGRAM: u8 = 4;

    pub const BAD_ENTRIES: u8 = 5;

    pub const NO_FIT: u8 = 6;

    pub const BAD_IMAGE: u8 = 7;

    pub const BAD_PACKETS: u8 = 8;

    pub const TOO_LONG: u8 = 9;

    pub const NO_MEMORY: u8 = 10;
}
