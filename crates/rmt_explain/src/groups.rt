//! Bad lines of a group text.

use crate::commands::Role;
use crate::ending::{Ending, Texts};
use crate::message::Message;
use crate::places::{line_of, quote_line, say_head};
use crate::words::{Word, Words, missing_word, word_of_line};
use rmt_bits::digits::{are_digits, number_up_to};

/// The first number of a group.
const FIRST_GROUP: u16 = 256;

/// The last number of a group and of a port.
const LAST: u16 = 511;

/// The most ports of a group.
const PORTS: usize = 8;

/// What is wrong with a line.
#[derive(Clone, Copy, PartialEq, Eq)]
enum Wrong {
    Group,
    NoPort,
    Port,
    Twice,
    Many,
    /// The line is a group, so an earlier one has its number.
    Earlier,
}

/// Tells what is wrong with the bad line, and at which word.
pub fn explain_groups(ending: &Ending, texts: &Texts, message: &mut Message) {
    let number = ending.bad_line();
    let line = line_of(texts, number);
    let (word, wrong) = wrong_word(line);
    match ending.quoted_word(Role::Groups) {
        Some(name) => say_head(name.as_str(), number, word.column, message),
        None => message.say("rmt: the groups: "),
    }
    explain_word(&word, wrong, message);
    message.say("\n");
    if texts.entries.is_some() {
        quote_line(number, line, word.column, word.bytes.len(), message);
    }
}

/// The first word that makes a line bad, and how.
fn wrong_word(line: &[u8]) -> (Word<'_>, Wrong) {
    let mut words = Words::new(line);
    let Some(group) = words.next() else {
        return (missing_word(line), Wrong::Group);
    };
    if !is_between(group.bytes, FIRST_GROUP) {
        return (group, Wrong::Group);
    }
    let mut ports = 0usize;
    for _ in 0..line.len() {
        let Some(word) = words.next() else {
            break;
        };
        if !is_between(word.bytes, 0) {
            return (word, Wrong::Port);
        }
        if stands_before(line, ports, word.bytes) {
            return (word, Wrong::Twice);
        }
        ports = ports.saturating_add(1);
        if ports > PORTS {
            return (word, Wrong::Many);
        }
    }
    if ports == 0 {
        return (missing_word(line), Wrong::NoPort);
    }
    (group, Wrong::Earlier)
}

/// The number of a word from `first` on, up to the last one; none where it is no such.
fn number_between(word: &[u8], first: u16) -> Option<u16> {
    if word.is_empty() || !are_digits(word) {
        return None;
    }
    match number_up_to(u128::from(LAST), 10, word) {
        Some(number) if u128::from(first) <= number => Some(number as u16),
        _ => None,
    }
}

/// Whether a word is a number from `first` on, up to the last one.
fn is_between(word: &[u8], first: u16) -> bool {
    number_between(word, first).is_some()
}

/// Whether one of the first ports of a line is that of a word.
fn stands_before(line: &[u8], ports: usize, word: &[u8]) -> bool {
    let port = number_between(word, 0);
    for at in 0..ports {
        if let Some(other) = word_of_line(line, at.saturating_add(1)) {
            if number_between(other.bytes, 0) == port {
                return true;
            }
        }
    }
    false
}

/// Tells what is wrong with a word.
fn explain_word(word: &Word, wrong: Wrong, message: &mut Message) {
    if wrong == Wrong::NoPort {
        message.say("a port is missing: give 1 to 8 ports, from 0 to 511, behind the group");
        return;
    }
    message.quote(word.bytes);
    message.say(match wrong {
        Wrong::Group => " is no group: a line begins with a number from 256 to 511",
        Wrong::Port => " is no port: a number from 0 to 511 is wanted",
        Wrong::Twice => " stands twice: the ports of a group differ",
        Wrong::Many => " is one port too many: a group has at most 8",
        _ => " has a line already: put its ports on one line",
    });
}
