//! Files that are no capture.

use crate::commands::{Role, word_of};
use crate::ending::Ending;
use crate::last_line::number_at;
use crate::message::Message;

/// Tells why a file is no capture.
pub fn explain_capture(ending: &Ending, message: &mut Message) {
    message.say("rmt: ");
    match word_of(ending.words, Role::Capture) {
        Some(at) => match ending.words.get(at) {
            Some(name) => message.name(name.as_str()),
            None => message.say("the file"),
        },
        None => message.say("the file"),
    }
    message.say(" is no capture: ");
    message.say(sentence(number_at(ending.last_line, 2)));
    message.say("\n");
}

/// What each code says.
fn sentence(code: u64) -> &'static str {
    match code {
        11 => {
            "it doesn't begin with a magic of pcap, so it is another kind of file; of a capture \
                in pcapng `editcap -F pcap` makes one"
        }
        12 => "its version isn't 2.4; write it again with another program",
        13 => "it ends within its head of 24 bytes; copy it again",
        _ => "it can't be understood",
    }
}
