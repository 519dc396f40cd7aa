//! Bad lines of a packet text.

use crate::commands::Role;
use crate::ending::{Ending, Texts};
use crate::last_line::number_at;
use crate::message::Message;
use crate::places::{part, quote_line, say_head, say_named_byte};
use rmt_bits::digits::{digits_len, hex_len, is_hex};

/// Tells what is wrong with the bad line, and where.
pub fn explain_packets(ending: &Ending, texts: &Texts, message: &mut Message) {
    let code = number_at(ending.last_line, 2);
    let line = ending.bad_line();
    let text = match texts.packet_line {
        Some(text) => text,
        None => b"".as_slice(),
    };
    let column = column_of(code, text);
    match ending.quoted_word(Role::Packets) {
        Some(name) => say_head(name.as_str(), line, column, message),
        None => message.say("rmt: the packet text: "),
    }
    match code {
        1 => explain_form(text, column, message),
        2 => message.say("the port is above 511: a packet comes on a port from 0 to 511"),
        3 if part(text, column.saturating_sub(1) as usize, text.len()).is_empty() => {
            message.say("the frame has no byte: give 1 to 9,216 bytes as hexadecimal digits");
        }
        3 => message.say("the frame has more than 18,432 digits: a frame has at most 9,216 bytes"),
        _ => explain_change(code, message),
    }
    message.say("\n");
    if texts.packet_line.is_some() {
        quote_line(line, text, column, 1, message);
    }
}

/// A change of entries that can't be made.
fn explain_change(code: u64, message: &mut Message) {
    match code {
        4 => message.say(
            "the image tells no names, so its entries can't be changed: `compile` writes one that \
                does",
        ),
        5 => message.say(
            "the line says no change: behind `+ ` stands an entry, behind `- ` the table and the key of one",
        ),
        6 => message.say("the table holds an entry with this key: remove that one first"),
        7 => message.say("the table is full: it holds as many entries as its size"),
        8 => message.say("the table holds no entry with this key"),
        10 => message.say(
            "the entries of some exact table have no place behind this commit, under each of \
                eight seeds; where many keys differ in their last three bytes alone, a field of \
                24 bits or more that is always 0 behind the key makes them load",
        ),
        _ => message.say(
            "the line is one addition too many: a packet text adds at most 1,048,576 entries",
        ),
    }
}

/// The column of what is wrong, from 1.
fn column_of(code: u64, line: &[u8]) -> u64 {
    let digits = digits_len(line);
    let frame = digits.saturating_add(1);
    let at = match code {
        1 if !has_port(line) => digits.min(10),
        1 => frame.saturating_add(hex_len(part(line, frame, line.len()))),
        3 => frame,
        _ => 0,
    };
    (at as u64).saturating_add(1)
}

/// Whether a line begins with 1 to 10 digits and a space.
fn has_port(line: &[u8]) -> bool {
    let digits = digits_len(line);
    1 <= digits && digits <= 10 && part(line, digits, digits.saturating_add(1)) == b" ".as_slice()
}

/// A line that has not the form of a packet's.
fn explain_form(line: &[u8], column: u64, message: &mut Message) {
    let at = column.saturating_sub(1) as usize;
    match line.get(at) {
        None if has_port(line) => message.say(
            "the frame ends in the midst of a byte: give two digits a byte",
        ),
        None => message.say("the line ends where a port, one space and a frame are wanted"),
        Some(byte) => {
            say_named_byte(*byte, message);
            if !has_port(line) {
                message.say(" stands where the line has its port of 1 to 10 digits and one space");
            } else if is_hex(*byte) {
                message.say(" has no second digit: give two digits a byte");
            } else {
                message.say(
                    " is no hexadecimal digit: the frame is digits up to the end of its line",
                );
            }
        }
    }
}
