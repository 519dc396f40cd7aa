//! The message of a call that ended.

ghost use Rattle.std.specs.Prelude.{◌≤◌, length, IfOk};

use crate::captures::explain_capture;
use crate::commands::{Role, word_of};
use crate::ending::{Ending, Texts, status};
use crate::entries::explain_entries;
use crate::files::{explain_read, explain_too_long, explain_write};
use crate::groups::explain_groups;
use crate::images::explain_image;
use crate::memory::explain_memory;
use crate::message::Message;
use crate::no_fit::explain_no_fit;
use crate::packets::explain_packets;
use crate::programs::explain_program;
use crate::usage::explain_usage;
use crate::warnings::explain_warnings;
use std::alloc::{AllocError, Global};

/// The lines for standard error. After `Done` these are the warnings of `compile`, if there are any.
///
/// # Errors
///
/// Want of memory alone.
pub fn explain(alloc: Global, ending: &Ending, texts: &Texts) -> Result<Vec<u8>, AllocError>
    ensures short { IfOk result (λ text. length text.items ≤ 65536) }
{
    let mut message = Message::new(alloc);
    match ending.status {
        status::DONE => explain_warnings(alloc, ending, texts, &mut message),
        status::USAGE => explain_usage(ending.words, &mut message),
        status::READ_FAULT => explain_read(ending, &mut message),
        status::WRITE_FAULT => explain_write(ending, &mut message),
        status::BAD_PROGRAM => explain_program(alloc, ending, texts, &mut message),
        status::BAD_ENTRIES if has_word(ending, Role::Groups) => {
            explain_groups(ending, texts, &mut message);
        }
        status::BAD_ENTRIES => explain_entries(alloc, ending, texts, &mut message),
        status::NO_FIT => explain_no_fit(alloc, ending, texts, &mut message),
        status::BAD_PACKETS if has_word(ending, Role::Capture) => {
            explain_capture(ending, &mut message);
        }
        status::BAD_PACKETS => explain_packets(ending, texts, &mut message),
        status::BAD_IMAGE => explain_image(ending, &mut message),
        status::TOO_LONG => explain_too_long(ending, &mut message),
        status::NO_MEMORY => explain_memory(ending, &mut message),
        _ => {}
    }
    message.finish()
}

/// Whether a word of the command names the file of a role.
fn has_word(ending: &Ending, role: Role) -> bool {
    word_of(ending.words, role).is_some()
}
