//! Files that are no image of the chip, or no map of one.

use crate::commands::{Role, word_of};
use crate::ending::Ending;
use crate::last_line::number_at;
use crate::limits::limit_of;
use crate::message::Message;

/// Tells why a file is no image.
pub fn explain_image(ending: &Ending, message: &mut Message) {
    let code = number_at(ending.last_line, 2);
    message.say("rmt: ");
    say_file(
        ending,
        if code == 7 { Role::Map } else { Role::Image },
        message,
    );
    match code {
        6 => explain_limit(ending.last_line, message),
        7 => message.say(" is no map: give the file that `compile` wrote beside the image\n"),
        _ => {
            message.say(" is no image: ");
            message.say(sentence(code));
            message.say("\n");
        }
    }
}

/// The name of the file of a role.
fn say_file(ending: &Ending, role: Role, message: &mut Message) {
    match word_of(ending.words, role) {
        Some(at) => match ending.words.get(at) {
            Some(name) => message.name(name.as_str()),
            None => message.say("the file"),
        },
        None => message.say("the file"),
    }
}

/// What each code says but the one of a limit.
fn sentence(code: u64) -> &'static str {
    match code {
        1 => {
            "it doesn't begin with the letters RMTI, so it is another kind of file; give the \
                file that `compile` wrote"
        }
        2 => "its version is none of 1, 2 and 3; compile it again with this program",
        3 => "it ends too early; copy it again, or compile it again",
        4 => "it breaks a rule of form, so it is damaged or was made otherwise; compile it again",
        5 => "bytes stand behind its end; copy it again, or compile it again",
        _ => "it can't be understood",
    }
}

/// Tells the limit that an image passes, by `bad image 6 limit L stage K sum S need N`.
fn explain_limit(line: &[u8], message: &mut Message) {
    let sum = number_at(line, 8);
    message.say(" doesn't fit the chip: ");
    match limit_of(number_at(line, 4)) {
        Some(limit) => {
            if limit.is_of_stage {
                message.say("stage ");
                message.say_place(number_at(line, 6));
                message.say(" takes ");
            } else {
                message.say("it takes ");
            }
            message.say_number(sum);
            message.say(" of at most ");
            message.say_number(limit.most);
            message.say(" ");
            message.say(limit.what);
        }
        None => message.say("a limit is passed"),
    }
    message.say("; stages are counted from 0\n");
}
