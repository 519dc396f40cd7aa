//! Files and the output that can't be read or written.

use crate::commands::{Role, limit_of, role_name, role_of, word_of};
use crate::ending::{Ending, FileFault};
use crate::message::Message;
use std::io::ErrorKind;

/// Tells which file can't be read, and why.
pub fn explain_read(ending: &Ending, message: &mut Message) {
    message.say("rmt: ");
    match &ending.fault {
        Some(fault) => {
            say_fault(fault, " can't be read: ", message);
        }
        None => message.say("a file can't be read"),
    }
    message.say("\n");
}

/// Tells which file can't be written, and why; or that standard output can't.
pub fn explain_write(ending: &Ending, message: &mut Message) {
    message.say("rmt: ");
    match &ending.fault {
        Some(fault) => {
            say_fault(fault, " can't be written: ", message);
            message.say("; what it holds now is not known");
            if word_of(ending.words, Role::Prefix).is_some() {
                message.say(", and the captures of lower ports stand whole");
            }
            if word_is(ending, Role::WrittenMap, fault.name) {
                message.say(", and the image stands whole");
            }
        }
        None => explain_output(ending, message),
    }
    message.say("\n");
}

/// The file at fault, what can't be done with it, and why.
fn say_fault(fault: &FileFault, refusal: &str, message: &mut Message) {
    message.name(fault.name);
    message.say(refusal);
    message.say(reason(fault.kind));
}

/// Whether the word of a role is this name.
fn word_is(ending: &Ending, role: Role, name: &str) -> bool {
    match word_of(ending.words, role) {
        Some(at) => match ending.words.get(at) {
            Some(word) => word.as_str() == name,
            None => false,
        },
        None => false,
    }
}

/// Tells that standard output can't be written, and what stands nevertheless.
fn explain_output(ending: &Ending, message: &mut Message) {
    message.say("standard output can't be written");
    if word_of(ending.words, Role::Prefix).is_some() {
        message.say(", or a capture; captures that were written stand whole");
    }
    if let Some(at) = word_of(ending.words, Role::Written) {
        if let Some(image) = ending.words.get(at) {
            message.say(", or ");
            message.name(image.as_str());
            if word_of(ending.words, Role::WrittenMap).is_some() {
                message.say(", or the map");
            }
            message.say("; if the image was written, it stands whole");
        }
    }
}

/// Tells which file is too long, with its limit; where it isn't known, the limits of all that are read.
pub fn explain_too_long(ending: &Ending, message: &mut Message) {
    message.say("rmt: a file is longer than its limit\n");
    let mut is_told = false;
    for at in 1..ending.words.len() {
        if word_is_at_fault(ending, at) {
            say_limit(ending.words, at, message);
            is_told = true;
        }
    }
    if !is_told {
        for at in 1..ending.words.len() {
            say_limit(ending.words, at, message);
        }
    }
}

/// Whether a word names the file that was at fault. Two words may, and then either limit may be the one.
fn word_is_at_fault(ending: &Ending, at: usize) -> bool {
    match (&ending.fault, ending.words.get(at)) {
        (Some(fault), Some(word)) => word.as_str() == fault.name,
        _ => false,
    }
}

/// A file and how many bytes it may have.
fn say_limit(words: &[String], at: usize, message: &mut Message) {
    if let (Some(name), Some(role)) = (words.get(at), role_of(words, at)) {
        if let Some(limit) = limit_of(role) {
            message.say("  ");
            message.name(name.as_str());
            message.say(": ");
            message.say(role_name(role));
            message.say(" has at most ");
            message.say_number(limit);
            message.say(" bytes\n");
        }
    }
}

/// What the system said, in words.
fn reason(kind: ErrorKind) -> &'static str {
    match kind {
        ErrorKind::NotFound => "there is no file of this name, or no folder of its path",
        ErrorKind::PermissionDenied => "there is no permission",
        ErrorKind::IsADirectory => "it is a folder",
        ErrorKind::NotADirectory => "a part of its path is no folder",
        ErrorKind::InvalidFilename => "the system takes no such name",
        ErrorKind::InvalidInput => "the system takes no such name",
        ErrorKind::FilesystemLoop => "the links of its path go in a circle",
        ErrorKind::ReadOnlyFilesystem => "its disk can only be read",
        ErrorKind::StorageFull => "the disk is full",
        ErrorKind::QuotaExceeded => "the quota is used up",
        ErrorKind::FileTooLarge => "the system takes no file of this length",
        ErrorKind::ResourceBusy => "it is in use",
        ErrorKind::ExecutableFileBusy => "it is a program that runs",
        ErrorKind::BrokenPipe => "nobody reads the other end",
        ErrorKind::StaleNetworkFileHandle => "its server no longer knows it",
        ErrorKind::TimedOut => "the system gave no answer in time",
        ErrorKind::WriteZero => "the system takes no more bytes",
        ErrorKind::OutOfMemory => "the system refused memory",
        _ => "the system refused, and gave no reason that has words here",
    }
}
