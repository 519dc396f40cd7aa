//! Want of memory.

use crate::commands::{Role, word_of};
use crate::ending::Ending;
use crate::message::Message;

/// Tells that memory was refused.
pub fn explain_memory(ending: &Ending, message: &mut Message) {
    message.say("rmt: the system refused memory; ");
    message.say(if word_of(ending.words, Role::Prefix).is_some() {
        "captures that were written before stand whole\n"
    } else if word_of(ending.words, Role::WrittenMap).is_some() {
        "the map was not changed, and if the image was written, it stands whole\n"
    } else {
        "no file was changed\n"
    });
    message.say(
        "  Give the program more memory, or make the tables, entries or packets smaller.\n",
    );
}
