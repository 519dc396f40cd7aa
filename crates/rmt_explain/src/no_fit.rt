//! Programs that don't fit the chip.

use crate::commands::Role;
use crate::ending::{Ending, Texts};
use crate::grammar::Want;
use crate::keys::key_of;
use crate::last_line::{number_at, word_at};
use crate::limits::limit_of;
use crate::message::Message;
use crate::places::{line_from, line_start, place_of, quote_line, say_head};
use crate::tables::{Kind, declaration};
use std::alloc::Global;

/// Tells what doesn't fit, where it is declared, and what helps.
pub fn explain_no_fit(alloc: Global, ending: &Ending, texts: &Texts, message: &mut Message) {
    let line = ending.last_line;
    let form = word_or_none(line, 2);
    let name = word_or_none(line, 3);
    let place = declared_place(alloc, texts, form, name);
    say_start(ending, texts, place, message);
    let late = late_lines(alloc, texts, form, name);
    say_form(form, line, late, message);
    message.say("\n");
    if let (Some(text), Some(at)) = (texts.program, place) {
        let (number, column) = place_of(text, at);
        if let Some(start) = line_start(text, number) {
            quote_line(number, line_from(text, start), column, name.len(), message);
        }
    }
}

/// A word of the last line.
fn word_or_none(line: &[u8], at: usize) -> &[u8] {
    match word_at(line, at) {
        Some(word) => word,
        None => b"".as_slice(),
    }
}

/// The place in the program, where it is known.
fn say_start(ending: &Ending, texts: &Texts, place: Option<usize>, message: &mut Message) {
    if let (Some(text), Some(at)) = (texts.program, place) {
        if let Some(name) = ending.quoted_word(Role::Program) {
            let (line, column) = place_of(text, at);
            say_head(name.as_str(), line, column, message);
            return;
        }
    }
    message.say("rmt: ");
}

/// Where the thing is declared that a refusal names.
fn declared_place(alloc: Global, texts: &Texts, form: &[u8], name: &[u8]) -> Option<usize> {
    let place = match form_of(form) {
        Form::Lookup | Form::Step => Want::HeaderName,
        Form::Action => Want::ActionName,
        Form::Stage | Form::Load => Want::TableName,
        Form::Parser | Form::Phv | Form::Other => return None,
    };
    declaration(alloc, texts.program?, place, name)
}

/// The forms of a refusal.
#[derive(Clone, Copy)]
enum Form {
    Lookup,
    Step,
    Parser,
    Action,
    Phv,
    Stage,
    Load,
    Other,
}

/// The words of the forms.
const FORMS: [(&str, Form); 7] = [
    ("lookup", Form::Lookup),
    ("step", Form::Step),
    ("parser", Form::Parser),
    ("action", Form::Action),
    ("phv", Form::Phv),
    ("stage", Form::Stage),
    ("load", Form::Load),
];

/// The form that a word says.
fn form_of(word: &[u8]) -> Form {
    for (name, form) in FORMS.iter() {
        if name.as_bytes() == word {
            return *form;
        }
    }
    Form::Other
}

/// What doesn't fit, in words, and what helps.
fn say_form(form: &[u8], line: &[u8], late: Option<u64>, message: &mut Message) {
    match form_of(form) {
        Form::Lookup => {
            say_two(
                "the `next` of header ",
                line,
                " selects by fields with bits in ",
                message,
            );
            say_of(
                line,
                4,
                "4 bytes: select by fewer fields, or by ones that lie side by side",
                message,
            );
        }
        Form::Step => {
            say_two("header ", line, " takes ", message);
            say_of(
                line,
                4,
                "64 extracts, one and one for each piece of a field: join fields that are used \
                    together, or split the header in two",
                message,
            );
        }
        Form::Parser => {
            message.say("the headers have ");
            say_of(
                line,
                3,
                "256 cases and `else`s: take fewer cases, or put a mask on them",
                message,
            );
        }
        Form::Action => {
            say_two("what action ", line, " leaves in ", message);
            message.quote(word_or_none(line, 4));
            message.say(
                " takes more than one operation on old values: do one operation here, and the \
                    others in the action of a table applied behind it",
            );
        }
        Form::Phv => {
            message.say("no word of ");
            message.say_number(number_at(line, 4));
            message.say(" bits or more is left in the header vector");
            say_two(
                " for a piece of ",
                line,
                ": take fewer or narrower fields",
                message,
            );
        }
        Form::Stage => say_stage(line, message),
        Form::Load => say_load(line, late, message),
        Form::Other => message.say("the program doesn't fit the chip"),
    }
}

/// Words, the name that the refusal tells, and words.
fn say_two(before: &str, line: &[u8], behind: &str, message: &mut Message) {
    message.say(before);
    message.quote(word_or_none(line, 3));
    message.say(behind);
}

/// A number of the last line, of at most what the words behind it say.
fn say_of(line: &[u8], at: usize, behind: &str, message: &mut Message) {
    message.say_number(number_at(line, at));
    message.say(", and the chip has room for ");
    message.say(behind);
}

/// How many entries a table has that doesn't load, where their keys differ in their last three bytes alone.
fn late_lines(alloc: Global, texts: &Texts, form: &[u8], name: &[u8]) -> Option<u64> {
    match form_of(form) {
        Form::Load => {
            let key = key_of(alloc, texts.program?, name, Kind::Exact)?;
            key.late_lines(alloc, texts.entries?, name)
        }
        _ => None,
    }
}

/// Entries that find no cells.
fn say_load(line: &[u8], late: Option<u64>, message: &mut Message) {
    say_two("table ", line, " has ", message);
    message.say_number(number_at(line, 4));
    message.say(" entries that have only ");
    message.say_number(number_at(line, 5));
    message.say(" cells together, under each of eight seeds: ");
    match late {
        Some(count) => {
            message.say("its ");
            message.say_number(count);
            message.say(
                " keys differ in their last three bytes alone, so put a field of 24 bits or more \
                    that is always 0 behind the key, as `meta { zero : 24; }`, and a 0 into each \
                    entry; `tools/spread` writes both",
            );
        }
        None => message.say(
            "raise the table's `size`; where many keys differ in their last three bytes alone, a \
                field of 24 bits or more that is always 0 behind the key makes them load",
        ),
    }
}

/// A table or an `if` that has no room in any stage: the first stage's limit, and how many stages there are.
fn say_stage(line: &[u8], message: &mut Message) {
    say_two(
        "",
        line,
        " has no room in any stage from its earliest one on",
        message,
    );
    let mut last: u64 = 0;
    for at in 4..36 {
        let hit = word_or_none(line, at);
        let limit = part_at(hit, 1);
        if !hit.is_empty() && limit != last {
            say_hit(hit, limit, message);
            last = limit;
        }
    }
    message.say(": ");
    message.say(remedy(last));
}

/// What is used of a limit in the first stage of a group that passes it.
fn say_hit(hit: &[u8], limit: u64, message: &mut Message) {
    message.say("; in stage ");
    message.say_place(part_at(hit, 0));
    message.say(" ");
    message.say_number(part_at(hit, 2));
    if let Some(limit) = limit_of(limit) {
        message.say(" of ");
        message.say_number(limit.most);
        message.say(" ");
        message.say(limit.what);
    }
    message.say(" are in use, and it needs ");
    message.say_number(part_at(hit, 3));
    message.say(" more");
}

/// A number of a hit, whose numbers stand between colons.
fn part_at(hit: &[u8], wanted: usize) -> u64 {
    let mut at = 0usize;
    let mut number: u64 = 0;
    for byte in hit {
        if *byte == b':' {
            at = at.saturating_add(1);
        } else if at == wanted {
            number = number
                .saturating_mul(10)
                .saturating_add(u64::from(byte.saturating_sub(b'0')));
        }
    }
    number
}

/// What helps with a limit of a stage.
fn remedy(limit: u64) -> &'static str {
    match limit {
        1 => "each table of a chain stands a stage behind the one whose result it needs, so \
                shorten the chain",
        6 => "make exact tables smaller, their keys narrower, or their action parameters fewer",
        7 => "make ternary and prefix tables smaller or narrower, or use exact ones",
        8 => "use narrower exact keys, or fields that share words",
        9 => "use narrower ternary and prefix keys, or fewer fields in `if`s",
        10 => "apply fewer tables that need nothing of one another",
        11 => "list fewer actions in the tables",
        12 => "give actions fewer or narrower parameters",
        13 => "use fewer `if`s; a table's arms decide too",
        15 => "use a narrower key",
        _ => "make tables smaller, or keys narrower",
    }
}
