//! What a program that compiled can't mean: declarations that nothing uses, arms that never run, a port that is never set.

mod arms;
mod uses;

use crate::commands::Role;
use crate::ending::{Ending, Texts};
use crate::message::Message;
use crate::places::{line_from, line_start, place_of, quote_line, say_head};
use crate::reader::Reader;
use crate::scan::token_from;
use crate::warnings::arms::Arms;
use crate::warnings::uses::Uses;
use std::alloc::{AllocError, Global};

/// The most warnings that are told.
const MOST: usize = 20;

/// What is wrong with a program that can be compiled.
#[derive(Clone, Copy)]
enum Cause {
    /// A header to which no header before it goes on.
    Header,
    /// An action that no table lists or takes as its default.
    Action,
    /// A metadata field that nothing names.
    Metadata,
    /// An arm all of whose outcomes an earlier arm takes.
    Arm,
    /// No action that a table has assigns `out_port`.
    Port,
}

/// A warning: what, and where.
#[derive(Clone, Copy)]
struct Warning {
    cause: Cause,
    /// The position of the word in the text.
    position: usize,
}

/// Warns of what a program that was compiled can't mean. Where memory is refused, no warning is told.
pub fn explain_warnings(alloc: Global, ending: &Ending, texts: &Texts, message: &mut Message) {
    if let (Some(name), Some(text)) = (ending.quoted_word(Role::Program), texts.program) {
        if let Ok(warnings) = warnings_of(alloc, text) {
            for k in 0..warnings.len().min(MOST) {
                say_warning(name.as_str(), text, warnings[k], message);
            }
            if warnings.len() > MOST {
                message.say("rmt: and ");
                message.say_number((warnings.len() - MOST) as u64);
                message.say(" more warnings\n");
            }
        }
    }
}

/// The warnings of a text that is a program.
fn warnings_of(alloc: Global, text: &[u8]) -> Result<Vec<Warning>, AllocError> {
    let mut uses = Uses::new(alloc);
    let mut arms = Arms::new(alloc);
    let mut reader = Reader::new(alloc, text);
    let mut warnings = Vec::new(alloc);
    for _ in 0..text.len() {
        let Some(step) = reader.next() else {
            break;
        };
        uses.note(&step)?;
        if arms.note(&step)? {
            warnings.push(Warning {
                cause: Cause::Arm,
                position: step.token.start,
            })?;
        }
    }
    uses.warn(&mut warnings)?;
    Ok(warnings)
}

/// Tells a warning with its place, its line and what to do.
fn say_warning(name: &str, text: &[u8], warning: Warning, message: &mut Message) {
    let word = match token_from(text, warning.position) {
        Some(token) => token.word,
        None => b"".as_slice(),
    };
    let (line, column) = place_of(text, warning.position);
    say_head(name, line, column, message);
    message.say("warning: ");
    say_cause(warning.cause, word, message);
    message.say("\n");
    if let Some(start) = line_start(text, line) {
        quote_line(line, line_from(text, start), column, word.len(), message);
    }
}

/// What is wrong with a word, and what to do.
fn say_cause(cause: Cause, word: &[u8], message: &mut Message) {
    match cause {
        Cause::Header => message.say("header "),
        Cause::Action => message.say("action "),
        Cause::Metadata => message.say("metadata field "),
        Cause::Arm => message.say("the arm "),
        Cause::Port => {
            message.say(
                "no action of a table assigns `out_port`, so each packet that is not dropped \
                    leaves on port 0: assign it in an action",
            );
            return;
        }
    }
    message.quote(word);
    message.say(match cause {
        Cause::Header => {
            " is never reached, since no header before it goes on to it: name it in a `next`, or \
                take it out"
        }
        Cause::Action => {
            " is in no table's list, and no table's default: list it in a table, or take it out"
        }
        Cause::Metadata => " is named nowhere: use it, or take it out",
        Cause::Arm | Cause::Port => {
            " never runs, since an earlier arm takes all its outcomes: put it before that arm, or \
                take it out"
        }
    });
}
