//! Plans of commits: which cells change, whether cells move, and the seed behind it.

ghost use Rattle.std.specs.Prelude.{◌≡◌, IfSome, IsSome, OnErr, OnOk, nat_lt, true};
ghost use Rattle.std.specs.List.{list_all};
ghost use Rattle.rmt_ast.specs.declared.entry.Entry.{Entry as EntryOf};
ghost use Rattle.rmt_config.specs.Form.{Formed};
ghost use Rattle.rmt_update.specs.declared.book.Book.{Book as BookOf};
ghost use Rattle.rmt_lists.specs.declared.lists.Lists.{Lists as ListsOf};
ghost use Rattle.rmt_update_tests.specs.Planning.{AreReady, IsNew};

use crate::books::config_of;
use crate::changes::{COMMIT, is_change};
use rmt_ast::entry::{Entry, EntryLists};
use rmt_config::config::Config;
use rmt_image_tests::fixtures::image_texts::{NO_ROWS, push_texts};
use rmt_update::book::Book;
use rmt_update::book::plan::Plan;
use rmt_update::fault::UpdateFault;
use rmt_update::lists::Lists;
use std::alloc::{AllocError, Global};
use std::test::*;

/// The front of each image here, of version 2 and with seed 0: up to the start of its second stage, which has all
/// tables.
pub(crate) const FRONT: &str = "
524d5449 0002 00 400009 410009 000001       # letters, version, seed, in_port, out_port, drop
01 000101 01 01 010008                      # a header of a byte in word 1
0001 00                                     # a state that looks at nothing
0001 00 00000000 00000000 01 01 00 02       # an entry that takes a byte and accepts
     01000101 000000010008
02                                          # two stages
0000 01 01 00 00 00 00 01 0000 0000 00 00000000
     01 02000800 000100 0200000000          # the first copies the byte to word 2
     00000000 00000000
000c
";

/// A table's instructions: a hit sets the port from 9 bits of data, and a miss does nothing.
pub(crate) const CODE: &str = "01 41000900 010000 0200000000 00";

/// Exact tables without entries of the nodes 1 and 2, keyed by word 2; a row of a way has one cell.
const TWO_EXACT: &str = "
02
01 01 00 00 01 01 0009 0001 020008 01 01 0001 01 00 00010203 04 00000000
01 02 00 00 01 01 0009 0001 020008 01 01 0001 01 00 05060708 09 00000000
";

/// Their names, `b` and `c`.
const B_AND_C: &str = "
02
01 00000001 62 00 00000010 0001 08 01 00000002 676f 01 09
02 00000001 63 00 00000010 0001 08 01 00000002 676f 01 09
";

/// An exact table with keys of 32 bits.
const WIDE: &str = "
01 01 01 00 00 01 01 0009 0001 a00020 01 01 0001 01 00 00010203 04 00000000
";

const WIDE_B: &str = "01 01 00000001 62 00 00000010 0001 20 01 00000002 676f 01 09";

/// A table of 2,048 rows with keys of 8 bits.
const ROWS: &str = "
01 01 01 00 00 01 01 0009 0001 020008 02 01 00 00 00000000
";

const TERNARY_B: &str = "01 01 00000001 62 02 00000010 0001 08 01 00000002 676f 01 09 00000000";

const PREFIX_B: &str = "01 01 00000001 62 01 00000010 0001 08 01 00000002 676f 01 09";

/// An image of several texts.
pub(crate) type Image = &'static [&'static str];

const EXACT: Image = &[FRONT, TWO_EXACT, CODE, CODE, NO_ROWS, B_AND_C];

const TERNARY: Image = &[FRONT, ROWS, CODE, NO_ROWS, TERNARY_B];

const PREFIX: Image = &[FRONT, ROWS, CODE, NO_ROWS, PREFIX_B];

const WIDE_EXACT: Image = &[FRONT, WIDE, CODE, NO_ROWS, WIDE_B];

/// Lines, of which those that are no change commit.
type Lines = &'static [&'static [u8]];

/// The configuration of an image in several texts.
pub(crate) fn config_in(alloc: Global, image: Image) -> Option<Config>
    ensures formed { IfSome result (λ c. Formed c) }
    ensures named { IfSome result (λ c. IsSome c.names) }
{
    let mut bytes = Vec::new(alloc);
    if push_texts(&mut bytes, image).is_err() {
        return None;
    }
    config_of(alloc, bytes.as_slice())
}

/// Whether the numbers of entries leave room for those of additions.
fn are_small(entries: &[Entry]) -> bool
    ensures { result ≡ list_all (λ (e : EntryOf). nat_lt e.number 4293918720) entries.now }
{
    entries.iter().all(|entry| entry.number < 4_293_918_720)
}

fn all_are_small(lists: &EntryLists) -> bool
    ensures { result ≡ list_all (λ es. list_all (λ (e : EntryOf). nat_lt e.number 4293918720) es) lists.now }
{
    lists
        .as_slice()
        .iter()
        .all(|list| are_small(list.as_slice()))
}

/// The entry lists of a book before its first commit, which may have 200 additions.
pub(crate) fn lists_of(alloc: Global, config: &Config, book: &Book) -> Option<Lists>
    requires formed { Formed config.now }
    requires named { IsSome config.now.names }
    requires new { IsNew config.now book.now }
    ensures { IfSome result (λ lists. AreReady lists book.now) }
{
    let Some(names) = &config.names else {
        return None;
    };
    let Ok(names) = names.copy(alloc) else {
        return None;
    };
    let Ok(entries) = book.entries(alloc) else {
        return None;
    };
    if !all_are_small(&entries) {
        return None;
    }
    match Lists::new(alloc, names, entries, 200) {
        Ok(lists) => Some(lists),
        Err(_) => None,
    }
}

/// Takes a change. Whether it is one, and nothing stands against it.
pub(crate) fn change(alloc: Global, lists: &mut Lists, line: &[u8]) -> bool
    requires { (b : BookOf) × AreReady lists.old b }
    ensures { (b : BookOf) → AreReady lists.old b → AreReady lists.new b }
{
    if !is_change(line) {
        return false;
    }
    match lists.change(alloc, line) {
        Ok(()) => true,
        Err(_) => false,
    }
}

/// Takes changes, up to one that is refused. Whether none is.
fn change_all(alloc: Global, lists: &mut Lists, lines: &[&[u8]]) -> bool
    requires { (b : BookOf) × AreReady lists.old b }
    ensures { (b : BookOf) → AreReady lists.old b → AreReady lists.new b }
{
    for line in lines {
        if !change(alloc, lists, line) {
            return false;
        }
    }
    true
}

/// Commits the changes since the last commit. Where it is refused, the book still stands for what it stood for.
pub(crate) fn commit(alloc: Global, lists: &mut Lists, book: &mut Book) -> Result<Plan, UpdateFault>
    requires { AreReady lists.old book.old }
    ensures ready { OnOk result (AreReady lists.new book.new) }
    ensures kept { OnErr result ((other : ListsOf) → AreReady other book.old → AreReady other book.new) }
{
    match lists.commit(alloc) {
        Ok(changes) => book.plan(alloc, &changes),
        Err(fault) => Err(fault),
    }
}

/// Writes whether cells move, the seed, and the changed cells: stage, unit, cell and visible bits, and the number
/// of the entry where numbers are asked for.
fn push_plan(out: &mut String, plan: &Plan, is_numbered: bool) -> Result<(), AllocError> {
    let moves = if plan.moved { "moves" } else { "stays" };
    write!(out, "{moves} {}", plan.seed)?;
    for write in plan.writes.as_slice() {
        write!(
            out,
            ", {} {} {} {}",
            write.stage, write.unit, write.cell, write.visible
        )?;
        if is_numbered {
            write!(out, " {}", write.number)?;
        }
    }
    out.push_str("\n")?;
    Ok(())
}

/// Takes a line. Whether nothing stands against it.
fn take(
    alloc: Global,
    lists: &mut Lists,
    book: &mut Book,
    line: &[u8],
    is_numbered: bool,
    out: &mut String,
) -> bool
    requires { AreReady lists.old book.old }
    ensures { result ≡ true → AreReady lists.new book.new }
{
    if is_change(line) {
        return change(alloc, lists, line);
    }
    match commit(alloc, lists, book) {
        Ok(plan) => push_plan(out, &plan, is_numbered).is_ok(),
        Err(_) => false,
    }
}

/// Takes lines, up to one that something stands against. Whether there is none.
fn take_all(
    alloc: Global,
    lists: &mut Lists,
    book: &mut Book,
    lines: &[&[u8]],
    is_numbered: bool,
    out: &mut String,
) -> bool
    requires { AreReady lists.old book.old }
{
    for line in lines {
        if !take(alloc, lists, book, line, is_numbered, out) {
            return false;
        }
    }
    true
}

/// The plans of the commits of lines, or None where a line is refused, and for want of memory.
fn told(alloc: Global, image: Image, lines: Lines, is_numbered: bool) -> Option<String> {
    let mut out = String::new(alloc);
    let config = config_in(alloc, image)?;
    let Ok(mut book) = Book::new(alloc, &config) else {
        return None;
    };
    let mut lists = lists_of(alloc, &config, &book)?;
    if take_all(alloc, &mut lists, &mut book, lines, is_numbered, &mut out) {
        Some(out)
    } else {
        None
    }
}

/// Commits what finds no room, and writes the first table that has none, how many of its keys have too few cells,
/// and how many these are. Whether it is so.
fn refuse(alloc: Global, lists: &mut Lists, book: &mut Book, out: &mut String) -> bool
    requires { AreReady lists.old book.old }
    ensures { result ≡ true → (other : ListsOf) → AreReady other book.old → AreReady other book.new }
{
    match commit(alloc, lists, book) {
        Ok(_) => false,
        Err(
            UpdateFault::LoadFull {
                table,
                members,
                cells,
            },
        ) => write!(out, "full {table} {members} {cells}\n").is_ok(),
        Err(UpdateFault::NoMemory) => false,
    }
}

/// What comes of a commit of changes that find no room, and then of the same changes with further lines.
fn told_full(alloc: Global, changes: Lines, later: Lines) -> Option<String> {
    let mut out = String::new(alloc);
    let config = config_in(alloc, EXACT)?;
    let Ok(mut book) = Book::new(alloc, &config) else {
        return None;
    };
    let mut ahead = lists_of(alloc, &config, &book)?;
    let mut lists = lists_of(alloc, &config, &book)?;
    if !change_all(alloc, &mut ahead, changes) || !change_all(alloc, &mut lists, changes) {
        return None;
    }
    if !refuse(alloc, &mut ahead, &mut book, &mut out) {
        return None;
    }
    if take_all(alloc, &mut lists, &mut book, later, true, &mut out) {
        Some(out)
    } else {
        None
    }
}

/// An image, lines, and the plans of their commits.
type Row = (Image, Lines, &'static str);

const PLANS: [Row; 6] = [
    // Keys 4 apart have the cells 536, 1048, 2584 and 3096.
    (
        EXACT,
        &[
            b"+ b 0 go 1",
            b"+ b 4 go 2",
            COMMIT,
            // the cell of a removed entry isn't taken, and stays as it is for the version that sees it
            b"- b 0",
            b"+ b 8 go 3",
            COMMIT,
            // it is cleared by the next commit
            COMMIT,
            b"- b 4",
            COMMIT,
            // a cell that the commit before gave up is taken
            b"+ b 12 go 4",
            b"+ b 16 go 5",
            COMMIT,
            // the last free cell
            b"+ b 20 go 6",
            COMMIT,
            COMMIT,
            COMMIT,
        ],
        "stays 0, 1 0 536 2 0, 1 0 1048 2 1
stays 0, 1 0 1048 3 1, 1 0 2584 1 2
stays 0, 1 0 536 0 0, 1 0 2584 3 2
stays 0, 1 0 1048 2 1
stays 0, 1 0 536 2 3, 1 0 1048 2 4
stays 0, 1 0 536 3 3, 1 0 1048 3 4, 1 0 3096 1 5
stays 0, 1 0 3096 3 5
stays 0
",
    ),
    // Tables side by side: changed cells stand by unit, and an addition that is gone before its commit takes none.
    (
        EXACT,
        &[
            b"+ c 3 go 1",
            b"+ b 7 go 1",
            b"+ c 7 go 1",
            b"- c 3",
            b"+ b 2 go 1",
            COMMIT,
        ],
        "stays 0, 1 0 24 2 3, 1 0 792 2 1, 1 1 792 2 2\n",
    ),
    // A ternary table, by priority.
    (
        TERNARY,
        &[
            b"+ b 1 1 go 1",
            b"+ b 5 5 go 1",
            b"+ b 9 9 go 1",
            COMMIT,
            // the row of a removed entry isn't taken
            b"- b 9 9",
            b"+ b 9 8 go 1",
            COMMIT,
            b"- b 5 5",
            COMMIT,
            // the row that the commit before gave up
            b"+ b 5 6 go 1",
            COMMIT,
            // one row lies between those of the priorities 5 and 9
            b"+ b 6 3&7 go 1",
            COMMIT,
            // none lies between those of 1 and 5
            b"+ b 3 * go 1",
            COMMIT,
            b"- b 1 1",
            COMMIT,
        ],
        "stays 0, 1 0 0 2 0, 1 0 1 2 1, 1 0 2 2 2
stays 0, 1 0 0 3 0, 1 0 1 3 1, 1 0 3 1 3
stays 0, 1 0 1 1 1, 1 0 2 0 0, 1 0 3 3 3
stays 0, 1 0 1 1 4
stays 0, 1 0 1 3 4, 1 0 2 2 5
moves 0, 1 0 1 3 6, 1 0 2 3 4, 1 0 3 3 5, 1 0 4 3 3
stays 0, 1 0 0 1 0
",
    ),
    // A removal makes no row free for an addition of its own commit, so rows move.
    (
        TERNARY,
        &[
            b"+ b 1 1 go 1",
            b"+ b 5 5 go 1",
            b"+ b 9 9 go 1",
            COMMIT,
            b"- b 5 5",
            b"+ b 5 6 go 1",
            COMMIT,
            COMMIT,
        ],
        "stays 0, 1 0 0 2 0, 1 0 1 2 1, 1 0 2 2 2
moves 0, 1 0 0 3 0, 1 0 1 3 3, 1 0 2 3 2
stays 0
",
    ),
    // Of equal priorities the least number stands first, and goes first.
    (
        TERNARY,
        &[
            b"+ b 2 7 go 1",
            b"+ b 2 7 go 1",
            b"+ b 1 7 go 1",
            COMMIT,
            b"- b 2 7",
            COMMIT,
            COMMIT,
        ],
        "moves 0, 1 0 0 3 2, 1 0 1 3 0, 1 0 2 3 1
stays 0, 1 0 1 2 0
stays 0, 1 0 1 0 0
",
    ),
    // Prefixes, the longest first and then by number.
    (
        PREFIX,
        &[
            b"+ b 192/2 go 1",
            b"+ b 128/1 go 1",
            COMMIT,
            b"+ b 224/3 go 1",
            COMMIT,
            b"- b 192/2",
            COMMIT,
            b"+ b 64/2 go 1",
            COMMIT,
            b"+ b 0/2 go 1",
            COMMIT,
        ],
        "stays 0, 1 0 0 2 0, 1 0 1 2 1
moves 0, 1 0 0 3 2, 1 0 1 3 0, 1 0 2 3 1
stays 0, 1 0 1 1 0
stays 0, 1 0 1 1 3
moves 0, 1 0 1 3 3, 1 0 2 3 4, 1 0 3 3 1
",
    ),
];

#[test]
fn plans_of_commits(rt: HostRuntime) {
    for &(image, lines, wanted) in &PLANS {
        let said = told(rt.alloc(), image, lines, true).expect(&rt, "plans");
        assert!(rt; said.as_str() == wanted, "told {said}");
    }
}

/// Keys 4 apart have one row in each way: under seed 0 the first four the cells 276, 1825, 2388 and 3876, and the
/// others 276, 1956, 2304 and 3743, so that eight keys have seven cells; under seed 1 these are 377, 1923, 2422 and
/// 3945, and 243, 1875, 2554 and 3942. Which key of four has which cell is left open there.
const EIGHT_KEYS: Lines = &[
    b"+ b 0x3cfde600 go 1",
    b"+ b 0x3cfde604 go 1",
    b"+ b 0x3cfde608 go 1",
    b"+ b 0x3cfde60c go 1",
    b"+ b 0xf4a13300 go 1",
    b"+ b 0xf4a13304 go 1",
    b"+ b 0xf4a13308 go 1",
    COMMIT,
    b"+ b 0xf4a1330c go 1",
    COMMIT,
    COMMIT,
];

const UNDER_TWO_SEEDS: &str =
    "stays 0, 1 0 276 2, 1 0 1825 2, 1 0 1956 2, 1 0 2304 2, 1 0 2388 2, 1 0 3743 2, 1 0 3876 2
moves 1, 1 0 243 3, 1 0 276 0, 1 0 377 3, 1 0 1825 0, 1 0 1875 3, 1 0 1923 3, 1 0 1956 0, 1 0 2304 0, 1 0 2388 0, 1 0 2422 3, 1 0 2554 3, 1 0 3743 0, 1 0 3876 0, 1 0 3942 3, 1 0 3945 3
stays 1
";

#[test]
fn another_seed(rt: HostRuntime) {
    let said = told(rt.alloc(), WIDE_EXACT, EIGHT_KEYS, false).expect(&rt, "plans");
    assert!(rt; said.as_str() == UNDER_TWO_SEEDS, "told {said}");
}

/// Changes whose commit is refused, further lines, and what comes of both. Keys 4 apart have four cells under each
/// seed.
type FullRow = (Lines, Lines, &'static str);

const FULL: [FullRow; 2] = [
    (
        &[
            b"+ b 1 go 1",
            b"+ c 0 go 1",
            b"+ c 4 go 1",
            b"+ c 8 go 1",
            b"+ c 12 go 1",
            b"+ c 16 go 1",
        ],
        &[b"- c 16", COMMIT],
        "full 2 5 4
stays 0, 1 0 280 2 0, 1 1 536 2 1, 1 1 1048 2 2, 1 1 2584 2 3, 1 1 3096 2 4
",
    ),
    // the first of two
    (
        &[
            b"+ c 0 go 1",
            b"+ c 4 go 1",
            b"+ c 8 go 1",
            b"+ c 12 go 1",
            b"+ c 16 go 1",
            b"+ b 0 go 1",
            b"+ b 4 go 1",
            b"+ b 8 go 1",
            b"+ b 12 go 1",
            b"+ b 16 go 1",
        ],
        &[
            b"- c 4", b"- c 8", b"- c 12", b"- b 4", b"- b 8", b"- b 12", COMMIT,
        ],
        "full 1 5 4
stays 0, 1 0 536 2 5, 1 0 1048 2 9, 1 1 536 2 0, 1 1 1048 2 4
",
    ),
];

#[test]
fn full_tables(rt: HostRuntime) {
    for &(changes, later, wanted) in &FULL {
        let said = told_full(rt.alloc(), changes, later).expect(&rt, "a refusal");
        assert!(rt; said.as_str() == wanted, "told {said}");
    }
}
