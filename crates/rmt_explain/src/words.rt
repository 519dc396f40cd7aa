//! The words of an entry line or a packet line, with their columns.

use crate::places::part;
use memchr::memchr;

/// A word of a line.
#[derive(Clone, Copy)]
pub struct Word<'a> {
    pub bytes: &'a [u8],
    /// Its column, from 1.
    pub column: u64,
}

/// The words of a line that stand between spaces, one after another.
#[derive(Clone, Copy)]
pub struct Words<'a> {
    line: &'a [u8],
    at: usize,
}

impl<'a> Words<'a> {
    /// The words of a line from the first on.
    pub fn new(line: &'a [u8]) -> Words<'a> {
        Words { line, at: 0 }
    }

    /// The next word.
    pub fn next(&mut self) -> Option<Word<'a>> {
        let start = self.behind_spaces();
        let rest = part(self.line, start, self.line.len());
        let end = match memchr(b' ', rest) {
            Some(length) => start.saturating_add(length),
            None => self.line.len(),
        };
        self.at = end;
        let bytes = part(self.line, start, end);
        if bytes.is_empty() {
            None
        } else {
            Some(Word {
                bytes,
                column: (start as u64).saturating_add(1),
            })
        }
    }

    /// The first place from here on where no space stands; the line's end where there is no such.
    fn behind_spaces(&self) -> usize {
        for at in self.at..self.line.len() {
            if self.line[at] != b' ' {
                return at;
            }
        }
        self.line.len()
    }
}

/// The word of a number, from 0, of a line.
pub fn word_of_line(line: &[u8], wanted: usize) -> Option<Word<'_>> {
    let mut words = Words::new(line);
    for _ in 0..wanted {
        let _ = words.next()?;
    }
    words.next()
}

/// The place behind a line, where a word is missing.
pub fn missing_word(line: &[u8]) -> Word<'_> {
    Word {
        bytes: b"".as_slice(),
        column: (line.len() as u64).saturating_add(1),
    }
}
