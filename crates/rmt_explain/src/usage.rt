//! Words that are no command.

use crate::commands::{FORMS, Form, form_of};
use crate::message::Message;

/// Words that ask for help.
const HELP: [&str; 3] = ["help", "--help", "-h"];

/// What stands behind the forms of the commands in the whole help.
const NOTES: [&str; 13] = [
    "A file name is any word. BUDGET is a number from 1 to 1,000, CYCLE 1 to 9 decimal digits,",
    "N a number from 1 to 100,000, and EVERY one from 1 to 999,999.",
    "A program has at most 1,048,576 bytes, an entry text 67,108,864, an image or a map 268,435,456,",
    "a packet text 1,099,511,627,776, a group text 1,048,576, and a capture 16,777,216.",
    "",
    "Results go to standard output, and messages like this one to standard error.",
    "Exit status: 0 done, 1 no command, 2 a file can't be read, 3 a file or the output can't be",
    "written, 4 a bad program, 5 bad entries, 6 the program doesn't fit the chip, 7 a bad image,",
    "8 bad packets, 9 a file is too long, 10 no memory, 11 the words are no text.",
    "",
    "docs/commands.md tells each command, docs/language.md the language of programs, entries",
    "and packets, and docs/glossary.md the words.",
    "",
];

/// Tells which word is wrong, and the forms of all commands; or, where it is asked for, the whole help.
pub fn explain_usage(words: &[String], message: &mut Message) {
    match words.first() {
        Some(word) if is_help(word.as_str()) => explain_all(message),
        Some(word) => {
            explain_wrong(word.as_str(), words, message);
            explain_forms(message);
        }
        None => {
            message.say("rmt: no command is given\n");
            explain_forms(message);
        }
    }
}

/// Whether a word asks for help.
fn is_help(word: &str) -> bool {
    for help in HELP.iter() {
        if *help == word {
            return true;
        }
    }
    false
}

/// The whole help.
fn explain_all(message: &mut Message) {
    message.say("rmt: a compiler and a simulator for a match-action switch chip\n");
    explain_forms(message);
    for note in NOTES.iter() {
        message.say(note);
        message.say("\n");
    }
}

/// The forms of all commands.
fn explain_forms(message: &mut Message) {
    message.say("The commands:\n");
    for form in FORMS.iter() {
        message.say("  rmt ");
        message.say(form.name);
        say_operands(form, message);
        message.say("\n      ");
        message.say(form.purpose);
        message.say("\n");
    }
}

/// The words behind a command's name, each behind a space.
fn say_operands(form: &Form, message: &mut Message) {
    for operand in form.operands {
        message.say(" ");
        message.say(operand);
    }
}

/// Tells the word that is wrong, or the one that is missing.
fn explain_wrong(first: &str, words: &[String], message: &mut Message) {
    match form_of(words) {
        None => {
            say_word(1, first, message);
            message.say(" is no command\n");
        }
        Some(form) => match words.get(words_of(form) as usize) {
            Some(extra) => {
                say_word(words_of(form).saturating_add(1), extra.as_str(), message);
                message.say(" is one too many: the command is `");
                say_form(form, message);
                message.say("`\n");
            }
            None => explain_operands(form, words, message),
        },
    }
}

/// How many words a command has, its name among them.
fn words_of(form: &Form) -> u64 {
    (form.operands.len() as u64).saturating_add(1)
}

/// A word of the command line, with its place.
fn say_word(place: u64, word: &str, message: &mut Message) {
    message.say("rmt: word ");
    message.say_number(place);
    message.say(", `");
    message.name(word);
    message.say("`,");
}

/// A command with the words behind it.
fn say_form(form: &Form, message: &mut Message) {
    message.say(form.name);
    say_operands(form, message);
}

/// Tells which words are missing, or what is wrong with the last one.
fn explain_operands(form: &Form, words: &[String], message: &mut Message) {
    match form.operands.get(words.len().saturating_sub(1)) {
        Some(missing) => {
            message.say("rmt: ");
            message.say(missing);
            message.say(" is missing: the command is `");
            say_form(form, message);
            message.say("`\n");
        }
        None => explain_last(form, words, message),
    }
}

/// Tells that the last word is no number of the command, or that a map has the name of the image.
fn explain_last(form: &Form, words: &[String], message: &mut Message) {
    if let Some(last) = words.last() {
        say_word(words.len() as u64, last.as_str(), message);
        message.say(match form.name {
            "compile" => " names the image already: give the map another name\n",
            "improve" => " is no BUDGET: a number from 1 to 1,000 is wanted, in decimal digits\n",
            "probe" => " is no CYCLE: 1 to 9 decimal digits are wanted\n",
            "switch" => " is no EVERY: a number from 1 to 999,999 is wanted, in decimal digits\n",
            _ => " is no N: a number from 1 to 100,000 is wanted, in decimal digits\n",
        });
    }
}
