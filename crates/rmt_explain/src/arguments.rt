//! The arguments of entry lines, against the parameters that the program declares.

use crate::fields::Parameter;
use crate::message::Message;
use crate::numbers::{is_number_of, value_of};
use crate::words::{Word, word_of_line};

/// What is wrong with an argument.
#[derive(Clone, Copy, PartialEq, Eq)]
enum Wrong {
    Missing,
    NoNumber,
    TooLarge,
    Extra,
}

/// An argument that its action does not take.
#[derive(Clone, Copy)]
pub struct BadArgument<'a, 't> {
    pub word: Word<'a>,
    wrong: Wrong,
    /// The parameter that it stands for.
    parameter: Option<Parameter<'t>>,
}

/// The first argument, the words counted from one on, that these parameters don't take; none where they take all.
pub fn bad_argument<'a, 't>(
    line: &'a [u8],
    from: usize,
    parameters: &[Parameter<'t>],
    missing: Word<'a>,
) -> Option<BadArgument<'a, 't>> {
    for k in 0..parameters.len() {
        let parameter = parameters[k];
        let (word, wrong) = match word_of_line(line, from.saturating_add(k)) {
            None => (missing, Wrong::Missing),
            Some(word) if is_number_of(word.bytes, parameter.width.bits) => continue,
            Some(word) if is_number(word.bytes) => (word, Wrong::TooLarge),
            Some(word) => (word, Wrong::NoNumber),
        };
        return Some(BadArgument {
            word,
            wrong,
            parameter: Some(parameter),
        });
    }
    let word = word_of_line(line, from.saturating_add(parameters.len()))?;
    Some(BadArgument {
        word,
        wrong: Wrong::Extra,
        parameter: None,
    })
}

/// Whether a word is a number.
fn is_number(word: &[u8]) -> bool {
    value_of(word).is_some()
}

/// Tells what is wrong with an argument of an action, and which ones it takes.
pub fn explain_argument(
    bad: &BadArgument,
    action: &[u8],
    parameters: &[Parameter],
    message: &mut Message,
) {
    match &bad.parameter {
        Some(parameter) => {
            if bad.wrong == Wrong::Missing {
                message.say("the argument for parameter ");
                message.quote(parameter.name);
                message.say(" is missing");
            } else {
                message.quote(bad.word.bytes);
                message.say(match bad.wrong {
                    Wrong::NoNumber => " is no number for parameter ",
                    _ => " does not fit parameter ",
                });
                message.quote(parameter.name);
                message.say(" of ");
                message.say_bits(parameter.width.bits);
            }
        }
        None => {
            message.quote(bad.word.bytes);
            message.say(" is one argument too many");
        }
    }
    message.say(": give ");
    say_parameters(action, parameters, message);
}

/// What an action takes, as `go` takes `port : 9`.
fn say_parameters(action: &[u8], parameters: &[Parameter], message: &mut Message) {
    if parameters.is_empty() {
        message.say("none, for ");
        message.quote(action);
        message.say(" has no parameters");
        return;
    }
    message.quote(action);
    message.say(" a number for each of ");
    let mut is_first = true;
    for parameter in parameters {
        if !is_first {
            message.say(", ");
        }
        is_first = false;
        message.quote(parameter.name);
        message.say(" (");
        message.say_bits(parameter.width.bits);
        message.say(")");
    }
}
