//! What changes entries in a run.

ghost use Rattle.std.specs.Prelude.{◌≡◌, IfOk, None};
ghost use Rattle.rmt_config.specs.Form.{Formed};
ghost use Rattle.rmt_drive.specs.CommitsOf.{AreCommitsOf};

use rmt_config::config::Config;
use rmt_update::book::Book;
use rmt_update::lists::Lists;
use std::alloc::{AllocError, Global};

/// How many entries a packet text may add.
const MOST_ADDITIONS: u32 = 1_048_576;

/// The entries of a run, as the lines of a text change them, and the cells that have them.
#[derive(Drop)]
pub struct Commits {
    pub lists: Lists,
    pub book: Book,
}

/// The entries and the cells of a configuration before a line changed any; None where it has no names.
pub fn commits_of(alloc: Global, config: &Config) -> Result<Option<Commits>, AllocError>
    requires { Formed config.now }
    ensures commits { IfOk result (λ commits. AreCommitsOf config.now commits) }
    ensures unnamed { IfOk result (λ commits. commits ≡ None → config.now.names ≡ None) }
{
    let Some(names) = &config.names else {
        return Ok(None);
    };
    let Ok(names) = names.copy(alloc) else {
        return Err(AllocError);
    };
    let Ok(book) = Book::new(alloc, config) else {
        return Err(AllocError);
    };
    let Ok(entries) = book.entries(alloc) else {
        return Err(AllocError);
    };
    match Lists::new(alloc, names, entries, MOST_ADDITIONS) {
        Ok(lists) => Ok(Some(Commits { lists, book })),
        Err(_) => Err(AllocError),
    }
}
