//! Faults of a program's text.

use crate::commands::Role;
use crate::ending::{Ending, Texts};
use crate::fields::{Width, width_of};
use crate::grammar::{Want, is_reserved, is_word, say_wanted, want_at, wants_name};
use crate::last_line::number_at;
use crate::message::Message;
use crate::places::{
    line_from, line_start, part, quote_line, say_head, say_named_byte, say_second_place,
};
use crate::program_codes::{BYTE_HABITS, SENTENCES, WORD_HABITS};
use crate::scan::{Token, byte_at, token_from};
use crate::subjects::{Operand, Subject, operand_at, subject_at};
use crate::tables::declaration;
use std::alloc::Global;

/// Tells where a program breaks a rule, which one, and what to do.
pub fn explain_program(alloc: Global, ending: &Ending, texts: &Texts, message: &mut Message) {
    let code = number_at(ending.last_line, 2);
    let line = number_at(ending.last_line, 4);
    let column = number_at(ending.last_line, 6);
    match ending.quoted_word(Role::Program) {
        Some(name) => say_head(name.as_str(), line, column, message),
        None => message.say("rmt: the program: "),
    }
    let text = match texts.program {
        Some(text) => text,
        None => b"".as_slice(),
    };
    match line_start(text, line) {
        Some(start) if texts.program.is_some() => {
            let at = start.saturating_add(column.saturating_sub(1) as usize);
            explain_at(alloc, code, text, at, message);
            message.say("\n");
            let width = word_at(text, at).len();
            quote_line(line, line_from(text, start), column, width, message);
            if code == 5 {
                explain_first(alloc, ending, text, at, message);
            }
            if code == 10 {
                explain_declared(alloc, ending, text, at, message);
            }
        }
        _ => {
            say_code(code, b"", message);
            message.say("\n");
        }
    }
}

/// Where a header, an action or a table is declared first that a text declares a second time.
fn explain_first(alloc: Global, ending: &Ending, text: &[u8], at: usize, message: &mut Message) {
    let want = want_at(alloc, text, at);
    if !matches!(want, Want::HeaderName | Want::ActionName | Want::TableName) {
        return;
    }
    let word = word_at(text, at);
    if let (Some(name), Some(first)) = (
        ending.quoted_word(Role::Program),
        declaration(alloc, text, want, word),
    ) {
        say_second_place(
            name.as_str(),
            text,
            first,
            word,
            " is declared here first\n",
            message,
        );
    }
}

/// Where the two are declared whose widths differ.
fn explain_declared(alloc: Global, ending: &Ending, text: &[u8], at: usize, message: &mut Message) {
    let (Some(name), Some(subject)) = (
        ending.quoted_word(Role::Program),
        subject_at(alloc, text, at),
    ) else {
        return;
    };
    let field = subject.field;
    if let Some(width) = width_of(alloc, text, field) {
        say_declared(name.as_str(), text, field.name, width, message);
    }
    match operand_at(alloc, text, at, &subject) {
        Some(Operand::Field(field, width)) => {
            say_declared(name.as_str(), text, field.name, width, message);
        }
        Some(Operand::Parameter(parameter)) => {
            say_declared(
                name.as_str(),
                text,
                parameter.name,
                parameter.width,
                message,
            );
        }
        Some(Operand::Number(_)) | None => {}
    }
}

/// Where a name is declared, if it is.
fn say_declared(name: &str, text: &[u8], word: &[u8], width: Width, message: &mut Message) {
    if let Some(position) = width.position {
        say_second_place(name, text, position, word, " is declared here\n", message);
    }
}

/// The token that begins at a position; nothing where none begins there.
fn word_at(text: &[u8], at: usize) -> &[u8] {
    match token_from(text, at) {
        Some(Token { word, start, .. }) if start == at => word,
        _ => b"".as_slice(),
    }
}

/// Tells a code with the word at its place.
fn explain_at(alloc: Global, code: u64, text: &[u8], at: usize, message: &mut Message) {
    let word = word_at(text, at);
    match code {
        1 => explain_byte(text, at, message),
        2 => explain_number(word, message),
        3 => explain_token(alloc, text, at, word, message),
        10 => explain_widths(alloc, text, at, word, message),
        _ => say_code(code, word, message),
    }
}

/// An operand or a number of another width than the field that it stands beside.
fn explain_widths(alloc: Global, text: &[u8], at: usize, word: &[u8], message: &mut Message) {
    let is_told = match subject_at(alloc, text, at) {
        Some(subject) => match (
            operand_at(alloc, text, at, &subject),
            width_of(alloc, text, subject.field),
        ) {
            (Some(operand), Some(width)) => {
                say_widths(&operand, &subject, width, message);
                true
            }
            _ => false,
        },
        None => false,
    };
    if is_told {
        message.say(": use a field, parameter or number of the field's width");
    } else {
        say_code(10, word, message);
    }
}

/// The widths of an operand and of the field that it stands beside.
fn say_widths(operand: &Operand, subject: &Subject, width: Width, message: &mut Message) {
    operand.say(message);
    match operand.width() {
        Some(other) => {
            message.say(" has ");
            message.say_bits(other.bits);
            message.say(", and ");
            subject.field.say(message);
            message.say(" has ");
            message.say_number(width.bits);
        }
        None => {
            message.say(" does not fit ");
            subject.field.say(message);
            message.say(", which has ");
            message.say_bits(width.bits);
        }
    }
}

/// A code's sentence, the word put in.
fn say_code(code: u64, word: &[u8], message: &mut Message) {
    let mut is_told = false;
    for sentence in SENTENCES.iter() {
        if sentence.code == code && !is_told {
            say_with(sentence.wrong, word, message);
            message.say(": ");
            message.say(sentence.remedy);
            is_told = true;
        }
    }
    if !is_told {
        message.say("the text breaks rule ");
        message.say_number(code);
        message.say(" of docs/language.md");
    }
}

/// Words in which `%` stands for a word of the text.
fn say_with(words: &str, word: &[u8], message: &mut Message) {
    for byte in words.as_bytes() {
        if *byte == b'%' {
            say_word(word, message);
        } else {
            message.show(*byte);
        }
    }
}

/// A word of the text, or that it ends.
fn say_word(word: &[u8], message: &mut Message) {
    if word.is_empty() {
        message.say("this place");
    } else {
        message.quote(word);
    }
}

/// A byte that begins no token.
fn explain_byte(text: &[u8], at: usize, message: &mut Message) {
    let byte = byte_at(text, at);
    let rest = part(text, at, text.len());
    if rest.starts_with(b"\xef\xbb\xbf") {
        message.say("the text has a byte order mark here: save it without one");
        return;
    }
    say_named_byte(byte, message);
    message.say(" begins no word, number or sign of the language");
    for habit in BYTE_HABITS.iter() {
        if rest.starts_with(habit.word.as_bytes()) {
            message.say(": ");
            message.say(habit.remedy);
            return;
        }
    }
    message.say(": take it out, or put it behind `//`");
}

/// A number that is too large, or has no digit.
fn explain_number(word: &[u8], message: &mut Message) {
    if word == b"0x".as_slice() {
        message.say("`0x` has no hexadecimal digit behind it: write one, as `0x0`");
    } else {
        message.quote(word);
        message.say(" is 2^128 or more: no field is wider than 128 bits");
    }
}

/// A token that can't stand where it does.
fn explain_token(alloc: Global, text: &[u8], at: usize, word: &[u8], message: &mut Message) {
    let want = want_at(alloc, text, at);
    if word.is_empty() {
        message.say("the text ends");
    } else {
        message.quote(word);
        message.say(" stands");
    }
    message.say(" where ");
    say_wanted(want, message);
    message.say(" is wanted");
    if is_call_of_apply(text, at, word) {
        message.say(": write `apply NAME;` for `NAME.apply();`");
    } else if is_reserved(word) && wants_name(want) {
        message.say(": the word is reserved, so take another name");
    } else {
        say_habit(want, word, message);
    }
}

/// Whether a name is followed by `.apply`.
fn is_call_of_apply(text: &[u8], at: usize, word: &[u8]) -> bool {
    let behind = part(text, at.saturating_add(word.len()), text.len());
    is_word(word) && behind.starts_with(b".apply")
}

/// What stands here for a word of another language.
fn say_habit(want: Want, word: &[u8], message: &mut Message) {
    if matches!(want, Want::End) {
        message.say(": nothing stands behind `control`");
        return;
    }
    for habit in WORD_HABITS.iter() {
        if habit.word.as_bytes() == word {
            message.say(": ");
            message.say(habit.remedy);
            return;
        }
    }
}
