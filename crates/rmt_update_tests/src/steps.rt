//! A plain run and a book that take the same changes, step by step.

ghost use Rattle.std.specs.Prelude.{◌≡◌, true};
ghost use Rattle.rmt_update.specs.declared.book.Book.{Book as BookOf};
ghost use Rattle.rmt_update_tests.specs.Planning.{AreReady};

use crate::books::entries_told;
use crate::plain::started;
use crate::plans::{CODE, FRONT, Image, change, commit, config_in, lists_of};
use rmt_ast::entry::EntryLists;
use rmt_image_tests::fixtures::image_texts::NO_ROWS;
use rmt_plain::plain::Plain;
use rmt_update::book::Book;
use rmt_update::book::plan::Plan;
use rmt_update::lists::Lists;
use std::alloc::{AllocError, Global};
use std::collections::BTreeSet;
use std::test::*;

/// Three counted tables behind one that sets their key: `b` is exact, `c` is of prefixes and `d` is ternary.
const PROGRAM: &[u8] =
    b"header h { f : 8; } next accept;\nmeta { x : 8; }\naction sx() { meta.x = h.f; }\naction go(p : 9) { out_port = p; }\naction no() { }\ntable a { default sx(); }\ntable b { exact meta.x; actions go; size 16; counted; default no(); }\ntable c { prefix meta.x; actions go; size 16; counted; default no(); }\ntable d { ternary meta.x; actions go; size 16; counted; default no(); }\ncontrol { apply a; apply b; apply c; apply d; }\n";

/// The cells of the three, all without entries: four ways of 1,024 rows for `b`, and 2,048 rows each for the others.
const TABLES: &str = "
03
01 01 00 01 01 01 0009 0001 020008 01 01 0001 01 00 00010203 04 05060708 00000000
01 02 00 01 01 01 0009 0001 020008 02 01 00 09 0a0b 00000000
01 03 00 01 01 01 0009 0001 020008 02 01 01 0c 0d0e 00000000
";

/// Their names.
const B_C_AND_D: &str = "
03
01 00000001 62 00 00000010 0001 08 01 00000002 676f 01 09
02 00000001 63 01 00000010 0001 08 01 00000002 676f 01 09
03 00000001 64 02 00000010 0001 08 01 00000002 676f 01 09 00000000
";

const IMAGE: Image = &[FRONT, TABLES, CODE, CODE, CODE, NO_ROWS, B_C_AND_D];

/// How many changes there are, and how many a commit has.
const CHANGES: usize = 200;

const OF_A_COMMIT: u32 = 4;

/// The next number of a hard-wired sequence.
fn next(state: &mut u32) -> u32 {
    *state = state.wrapping_mul(1_664_525).wrapping_add(1_013_904_223);
    *state >> 16
}

/// Writes what names one of 48 entries: 16 exact ones, 16 prefixes of four lengths, and 16 ternary ones of four
/// priorities.
fn push_name(line: &mut String, choice: u32) -> Result<(), AllocError> {
    let high = choice / 4 % 4;
    let low = choice % 4;
    match choice / 16 {
        0 => write!(line, "b {choice}"),
        1 => write!(line, "c {}/{}", high.wrapping_mul(64), low.wrapping_add(2)),
        _ => write!(line, "d {low} {high}&3"),
    }
}

/// A change of one of the 48 entries: it goes where it is there, and else it comes.
fn line_of(alloc: Global, choice: u32, there: &mut BTreeSet<u32>) -> Result<String, AllocError> {
    let mut line = String::new(alloc);
    if there.remove(&choice) {
        line.push_str("- ")?;
        push_name(&mut line, choice)?;
    } else {
        there.insert(choice)?;
        line.push_str("+ ")?;
        push_name(&mut line, choice)?;
        write!(line, " go {choice}")?;
    }
    Ok(line)
}

/// Takes the changes of a commit, of different entries. Whether nothing stands against them.
fn take_changes(
    alloc: Global,
    lists: &mut Lists,
    state: &mut u32,
    there: &mut BTreeSet<u32>,
) -> bool
    requires { (b : BookOf) × AreReady lists.old b }
    ensures { (b : BookOf) → AreReady lists.old b → AreReady lists.new b }
{
    for place in 0..OF_A_COMMIT {
        let choice = next(state) % 12 * OF_A_COMMIT + place;
        let Ok(line) = line_of(alloc, choice, there) else {
            return false;
        };
        if !change(alloc, lists, line.as_str().as_bytes()) {
            return false;
        }
    }
    true
}

/// The entries of a book, where they are those of lists as of their last commit.
fn agreed(alloc: Global, lists: &Lists, book: &Book) -> Option<EntryLists>
    requires { AreReady lists.now book.now }
{
    let Ok(entries) = book.entries(alloc) else {
        return None;
    };
    let in_book = entries_told(alloc, &entries).ok()?;
    let in_lists = entries_told(alloc, lists.current()).ok()?;
    if in_book.as_str() == in_lists.as_str() {
        Some(entries)
    } else {
        None
    }
}

/// Lets a plain run go on with the entries of a book. Whether they are those of the lists.
fn go_on(alloc: Global, lists: &Lists, book: &Book, plain: &mut Plain) -> bool
    requires { AreReady lists.now book.now }
{
    match agreed(alloc, lists, book) {
        Some(entries) => plain.commit(alloc, entries).is_ok(),
        None => false,
    }
}

/// Whether a plan moves cells, or changes no more than so many.
fn is_few(plan: &Plan, most: usize) -> bool {
    plan.moved || plan.writes.len() <= most
}

/// Commits. Whether the book and the plain run then have the same entries, and no more than so many cells change where
/// none moves.
fn commit_both(
    alloc: Global,
    lists: &mut Lists,
    book: &mut Book,
    plain: &mut Plain,
    most: usize,
) -> bool
    requires { AreReady lists.old book.old }
    ensures { result ≡ true → AreReady lists.new book.new }
{
    match commit(alloc, lists, book) {
        Ok(plan) => is_few(&plan, most) && go_on(alloc, lists, book, plain),
        Err(_) => false,
    }
}

/// Takes all changes. Whether all agree behind each commit, where those that move no cell change at most as many cells
/// as it and the one before it have changes; and whether the plain run has a counter for each entry that came.
fn run(alloc: Global, lists: &mut Lists, book: &mut Book, plain: &mut Plain) -> bool
    requires { AreReady lists.old book.old }
{
    let mut state = 47;
    let mut there = BTreeSet::new(alloc);
    for at in 0..50u32 {
        let most = if at == 0 { 4 } else { 8 };
        if !take_changes(alloc, lists, &mut state, &mut there)
            || !commit_both(alloc, lists, book, plain, most)
        {
            return false;
        }
    }
    // each change is an addition or a removal, and the additions are as many more as entries are there
    plain.counters().len() == there.len().wrapping_add(CHANGES) / 2
}

/// What comes of the run of a plain run and a book, or None for want of memory.
fn told(alloc: Global) -> Option<bool> {
    let config = config_in(alloc, IMAGE)?;
    let Ok(mut book) = Book::new(alloc, &config) else {
        return None;
    };
    let mut lists = lists_of(alloc, &config, &book)?;
    let mut plain = started(alloc, PROGRAM, b"")?;
    Some(run(alloc, &mut lists, &mut book, &mut plain))
}

#[test]
fn plain_and_book(rt: HostRuntime) {
    let agree = told(rt.alloc()).expect(&rt, "a plain run and a book");
    assert!(rt; agree);
}
