//! Bad lines of an entry text.

use crate::arguments::{BadArgument, bad_argument, explain_argument};
use crate::commands::Role;
use crate::ending::{Ending, Texts};
use crate::fields::{Parameter, parameters_of};
use crate::keys::{BadWord, Key, key_of};
use crate::last_line::number_at;
use crate::message::{Message, is_seen};
use crate::places::{
    line_from, line_of, line_start, quote_line, say_head, say_named_byte, say_second_place,
};
use crate::tables::{Declared, Kind, key_words, table_of};
use crate::words::{Word, missing_word, word_of_line};
use std::alloc::Global;

/// A bad line, and what the program declares of its table.
#[derive(Drop)]
struct BadLine<'e, 'p> {
    code: u64,
    number: u64,
    line: &'e [u8],
    table: Option<Declared>,
    key: Option<Key<'p>>,
    /// The parameters of the line's action.
    parameters: Option<Vec<Parameter<'p>>>,
}

/// Tells what is wrong with the bad line, at which word, and what to do.
pub fn explain_entries(alloc: Global, ending: &Ending, texts: &Texts, message: &mut Message) {
    let bad = bad_line(alloc, ending, texts);
    let word = bad.word();
    match ending.quoted_word(Role::Entries) {
        Some(name) => say_head(name.as_str(), bad.number, word.column, message),
        None => message.say("rmt: the entries: "),
    }
    bad.explain(&word, message);
    message.say("\n");
    if texts.entries.is_some() {
        quote_line(bad.number, bad.line, word.column, word.bytes.len(), message);
    }
    if bad.code == 6 {
        explain_earlier(ending, texts, &bad, message);
    }
    if bad.code == 7 {
        explain_size(ending, texts, &bad, message);
    }
}

/// What is known of the bad line.
fn bad_line<'e, 'p>(alloc: Global, ending: &Ending, texts: &Texts<'p, 'e, '_>) -> BadLine<'e, 'p> {
    let number = ending.bad_line();
    let line = line_of(texts, number);
    let name = word_or_none(line, 0);
    let text = match texts.program {
        Some(text) => text,
        None => b"".as_slice(),
    };
    let table = table_of(alloc, text, name);
    let (kind, keys) = match &table {
        Some(table) => (table.kind, key_words(table)),
        None => (Kind::NoKey, 0),
    };
    BadLine {
        code: number_at(ending.last_line, 2),
        number,
        line,
        table,
        key: key_of(alloc, text, name, kind),
        parameters: parameters_of(alloc, text, word_or_none(line, keys.saturating_add(1))),
    }
}

/// The bytes of a word of a line.
fn word_or_none(line: &[u8], number: usize) -> &[u8] {
    match word_of_line(line, number) {
        Some(word) => word.bytes,
        None => b"".as_slice(),
    }
}

impl<'e, 'p> BadLine<'e, 'p> {
    /// The number of the word that names the action.
    fn action_at(&self) -> usize {
        match &self.table {
            Some(table) => key_words(table).saturating_add(1),
            None => 1,
        }
    }

    /// The word of the key that makes none.
    fn bad_key_word(&self) -> Option<BadWord<'e, 'p>> {
        match &self.key {
            Some(key) => key.bad_word(self.line, missing_word(self.line)),
            None => None,
        }
    }

    /// The argument that the action does not take.
    fn bad_argument(&self) -> Option<BadArgument<'e, 'p>> {
        match &self.parameters {
            Some(parameters) => bad_argument(
                self.line,
                self.action_at().saturating_add(1),
                parameters.as_slice(),
                missing_word(self.line),
            ),
            None => None,
        }
    }

    /// The word at which the line breaks its code; the place behind the line where a word is missing.
    fn word(&self) -> Word<'e> {
        let found = match self.code {
            1 => unseen(self.line),
            3 => match self.bad_key_word() {
                Some(bad) => Some(bad.word),
                None => word_of_line(self.line, 1),
            },
            4 => word_of_line(self.line, self.action_at()),
            5 => match self.bad_argument() {
                Some(bad) => Some(bad.word),
                None => word_of_line(self.line, self.action_at().saturating_add(1)),
            },
            _ => word_of_line(self.line, 0),
        };
        match found {
            Some(word) => word,
            None => missing_word(self.line),
        }
    }

    /// What the line's code says of a word.
    fn explain(&self, word: &Word, message: &mut Message) {
        match self.code {
            1 => explain_bytes(word, message),
            2 => {
                message.quote(word.bytes);
                message.say(
                    " is no table of the program: a line begins with the name of a table that \
                        has a key",
                );
            }
            3 => self.explain_key(word, message),
            4 if word.bytes.is_empty() => message.say(
                "the action is missing: it stands behind the key",
            ),
            4 => {
                message.quote(word.bytes);
                message.say(
                    " is no action that the table lists: give one of its `actions` behind the key",
                );
            }
            5 => self.explain_arguments(message),
            6 => message.say(
                "an earlier line of the table has the same key: take one of the two out",
            ),
            7 => explain_full(&self.table, message),
            _ => message.say("the line can't be understood"),
        }
    }

    /// A key that is not of its table's form.
    fn explain_key(&self, word: &Word, message: &mut Message) {
        if word.bytes.is_empty() {
            message.say("the key has too few words");
        } else {
            message.quote(word.bytes);
            message.say(" makes no key of the table");
        }
        let kind = match &self.key {
            Some(key) => key.kind,
            None => Kind::NoKey,
        };
        message.say(match kind {
            Kind::NoKey => ": it has no key, so it takes no entries",
            Kind::Exact => {
                ": give a number for each field of the key, each within the field's width"
            }
            Kind::Prefix => ": give `value/length`, the length from 0 to the field's width",
            Kind::Ternary => {
                ": give a priority below 2^32, then for each field `value&mask`, `value` or `*`, \
                    within its width"
            }
        });
        if let Some(bad) = self.bad_key_word() {
            if let Some((field, bits)) = bad.field {
                message.say("; ");
                field.say(message);
                message.say(" has ");
                message.say_bits(bits);
            }
        }
    }

    /// Arguments that the action does not take.
    fn explain_arguments(&self, message: &mut Message) {
        match (self.bad_argument(), &self.parameters) {
            (Some(bad), Some(parameters)) => {
                let action = word_or_none(self.line, self.action_at());
                explain_argument(&bad, action, parameters.as_slice(), message);
            }
            _ => message.say(
                "the action does not take these arguments: give a number for each of its \
                    parameters, each within its width",
            ),
        }
    }
}

/// The first byte that isn't seen.
fn unseen(line: &[u8]) -> Option<Word<'_>> {
    for at in 0..line.len() {
        if !is_seen(line[at]) {
            return Some(Word {
                bytes: line.get(at..at.saturating_add(1))?,
                column: (at as u64).saturating_add(1),
            });
        }
    }
    None
}

/// A line with a byte that isn't seen, or with one word.
fn explain_bytes(word: &Word, message: &mut Message) {
    match word.bytes.first() {
        Some(byte) => {
            say_named_byte(*byte, message);
            message.say(" stands in the line: ");
            message.say(match *byte {
                b'\r' => "end lines by a line feed alone",
                b'\t' => "put spaces between the words",
                0xef => "save the text without a byte order mark",
                _ => "use printable letters, digits and signs alone",
            });
        }
        None => message.say(
            "the line has one word: give the table, the key, the action and its arguments",
        ),
    }
}

/// A table that is full.
fn explain_full(table: &Option<Declared>, message: &mut Message) {
    message.say("the table is full");
    if let Some(table) = table {
        message.say(" with ");
        message.say_number(table.size);
        message.say(" entries, its `size`");
    }
    message.say(": raise its `size`, or take entries out");
}

/// The earlier line that has the same key.
fn explain_earlier(ending: &Ending, texts: &Texts, bad: &BadLine, message: &mut Message) {
    let (Some(text), Some(key), Some(name)) = (
        texts.entries,
        &bad.key,
        ending.quoted_word(Role::Entries),
    ) else {
        return;
    };
    if let Some(number) = key.earlier_line(text, bad.line, bad.number) {
        if let Some(start) = line_start(text, number) {
            let line = line_from(text, start);
            say_head(name.as_str(), number, 1, message);
            message.say("the key stands here first\n");
            quote_line(number, line, 1, word_or_none(line, 0).len(), message);
        }
    }
}

/// Where the table is declared that is full.
fn explain_size(ending: &Ending, texts: &Texts, bad: &BadLine, message: &mut Message) {
    if let (Some(text), Some(table), Some(name)) = (
        texts.program,
        &bad.table,
        ending.quoted_word(Role::Program),
    ) {
        let word = word_or_none(bad.line, 0);
        say_second_place(
            name.as_str(),
            text,
            table.position,
            word,
            " is declared here\n",
            message,
        );
    }
}
