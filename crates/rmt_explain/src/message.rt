//! A message as it is written, piece by piece.

ghost use Rattle.std.specs.Prelude.{◌≤◌, length, IfOk};

use std::alloc::{AllocError, Global};

/// The most bytes of a message.
const LIMIT: usize = 65_536;

/// The most bytes of a word that are shown.
const WORD_LIMIT: usize = 80;

/// What stands where a word is cut.
const CUT: &str = "..";

/// A message. Want of memory is kept, and told at the end.
#[derive(Drop)]
pub struct Message {
    alloc: Global,
    bytes: Vec<u8>,
    is_refused: bool,
}

impl Message {
    /// An empty message.
    pub fn new(alloc: Global) -> Message {
        Message {
            alloc,
            bytes: Vec::new(alloc),
            is_refused: false,
        }
    }

    /// Adds bytes, as long as there is room for them.
    fn add(&mut self, piece: &[u8]) {
        let room = LIMIT.saturating_sub(self.bytes.len());
        if piece.len() <= room && self.bytes.extend_from_slice(piece).is_err() {
            self.is_refused = true;
        }
    }

    /// Adds words.
    pub fn say(&mut self, words: &str) {
        self.add(words.as_bytes());
    }

    /// Adds a number, its digits in groups of three.
    pub fn say_number(&mut self, number: u64) {
        match format!(in self.alloc; "{number}") {
            Ok(digits) => self.add_groups(digits.as_bytes()),
            Err(_) => self.is_refused = true,
        }
    }

    /// Adds a number of bits.
    pub fn say_bits(&mut self, number: u64) {
        self.say_number(number);
        self.say(if number == 1 { " bit" } else { " bits" });
    }

    /// Adds digits in groups of three.
    fn add_groups(&mut self, digits: &[u8]) {
        let mut left = digits.len();
        for digit in digits {
            self.add(&[*digit]);
            left = left.saturating_sub(1);
            if left > 0 && left % 3 == 0 {
                self.say(",");
            }
        }
    }

    /// Adds a number as a place is told, without groups.
    pub fn say_place(&mut self, number: u64) {
        match format!(in self.alloc; "{number}") {
            Ok(digits) => self.say(digits.as_str()),
            Err(_) => self.is_refused = true,
        }
    }

    /// Adds a byte as two hexadecimal digits behind `0x`.
    pub fn say_byte(&mut self, byte: u8) {
        match format!(in self.alloc; "0x{byte:02x}") {
            Ok(digits) => self.say(digits.as_str()),
            Err(_) => self.is_refused = true,
        }
    }

    /// Adds a word of a text between quotes; what isn't seen is a `?`, and a long one is cut.
    pub fn quote(&mut self, word: &[u8]) {
        self.say("`");
        self.show_word(word);
        self.say("`");
    }

    /// Adds a word of a text; what isn't seen is a `?`, and a long one is cut.
    fn show_word(&mut self, word: &[u8]) {
        let mut room = WORD_LIMIT;
        for byte in word {
            if room == 0 {
                self.say(CUT);
                break;
            }
            room -= 1;
            self.show(*byte);
        }
    }

    /// Adds two words of a text between quotes, with a dot between them.
    pub fn quote_two(&mut self, first: &[u8], second: &[u8]) {
        self.say("`");
        self.show_word(first);
        self.say(".");
        self.show_word(second);
        self.say("`");
    }

    /// Adds a byte of a text, `?` where it isn't seen on a screen.
    pub fn show(&mut self, byte: u8) {
        if is_seen(byte) {
            self.add(&[byte]);
        } else {
            self.say("?");
        }
    }

    /// Adds a word of the command line, whose letters are of any script; what moves a screen's cursor is a `?`, and a
    /// long one is cut between two characters.
    pub fn name(&mut self, word: &str) {
        let mut room = WORD_LIMIT;
        for byte in word.as_bytes() {
            let is_inside = 0x80 <= *byte && *byte < 0xc0;
            if room == 0 && !is_inside {
                self.say(CUT);
                break;
            }
            room = room.saturating_sub(1);
            if *byte < 0x20 || *byte == 0x7f {
                self.say("?");
            } else {
                self.add(&[*byte]);
            }
        }
    }

    /// The bytes of the message.
    pub fn finish(mut self) -> Result<Vec<u8>, AllocError>
        ensures short { IfOk result (λ text. length text.items ≤ 65536) }
    {
        if self.is_refused {
            return Err(AllocError);
        }
        self.bytes.truncate(LIMIT);
        Ok(self.bytes)
    }
}

/// Whether a byte is a letter, a digit, a sign or a space.
pub fn is_seen(byte: u8) -> bool {
    0x20 <= byte && byte < 0x7f
}
