//! Books: the entries that the cells and the names of an image tell.

ghost use Rattle.std.specs.Prelude.{IfSome, IsSome};
ghost use Rattle.rmt_config.specs.Form.{Formed};

use crate::changes::push_entry;
use rmt_ast::entry::EntryLists;
use rmt_config::config::Config;
use rmt_image::read_image;
use rmt_image_tests::fixtures::image_bytes::{
    GATED, NAMES, RANKS, STRICT_AND_WEAK, Splice, changed,
};
use rmt_update::book::Book;
use std::alloc::{AllocError, Global};
use std::test::*;

/// An image, its names, further changes of it, the last place first, and the entries of its book.
type Row = (
    &'static [u8],
    &'static [Splice],
    &'static [Splice],
    &'static str,
);

/// Exact, ternary, and as prefixes of the lengths 17, 17 and 16, and of which the last has none.
const ROWS: [Row; 4] = [
    (
        &STRICT_AND_WEAK,
        &NAMES,
        &[],
        " 1 #0 rank 0 7&255 action 0 5",
    ),
    (
        &GATED,
        &RANKS,
        &[],
        " 1 #0 rank 0 74565&131071 action 0 5 1 #1 rank 3 9320&131070 action 0 6 1 #2 rank 2 0&1 action 0 7",
    ),
    (
        &GATED,
        &RANKS,
        &[
            (433, 28, &[]),
            (416, 1, &[1]),
            (298, 5, &[0, 0, 1, 0xff, 0xff]),
        ],
        " 1 #0 rank 17 74565&131071 action 0 5 1 #1 rank 16 9320&131070 action 0 6 1 #2 rank 17 0&131071 action 0 7",
    ),
    (
        &GATED,
        &RANKS,
        &[
            (433, 28, &[]),
            (416, 1, &[1]),
            (396, 13, &[]),
            (395, 1, &[0]),
            (298, 5, &[0, 0, 1, 0xff, 0xff]),
        ],
        " 1 #0 rank 17 74565&131071 action 0 5 1 #1 rank 0 0&0 action 0 6 1 #2 rank 17 0&131071 action 0 7",
    ),
];

/// The configuration of an image with names.
pub(crate) fn config_of(alloc: Global, image: &[u8]) -> Option<Config>
    ensures formed { IfSome result (λ c. Formed c) }
    ensures named { IfSome result (λ c. IsSome c.names) }
{
    let Ok(config) = read_image(alloc, image) else {
        return None;
    };
    if config.names.is_some() {
        Some(config)
    } else {
        None
    }
}

/// The entries of all tables.
pub(crate) fn entries_told(alloc: Global, lists: &EntryLists) -> Result<String, AllocError> {
    let mut out = String::new(alloc);
    for list in lists.as_slice() {
        for entry in list.as_slice() {
            push_entry(&mut out, entry)?;
        }
    }
    Ok(out)
}

/// The entries of the book of an image, or None where it has no names or for want of memory.
fn told(alloc: Global, image: &[u8]) -> Option<String> {
    let config = config_of(alloc, image)?;
    let Ok(book) = Book::new(alloc, &config) else {
        return None;
    };
    let Ok(lists) = book.entries(alloc) else {
        return None;
    };
    entries_told(alloc, &lists).ok()
}

#[test]
fn entries_of_books(rt: HostRuntime) -> Result<(), Fail> {
    for &(image, names, splices, wanted) in &ROWS {
        let named = changed(rt.alloc(), image, names)?;
        let image = changed(rt.alloc(), named.as_slice(), splices)?;
        let entries = told(rt.alloc(), image.as_slice()).expect(&rt, "a book");
        assert!(rt; entries.as_str() == wanted, "told {entries}");
    }
    Ok(())
}
