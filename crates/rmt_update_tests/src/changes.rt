//! Changes of a run's entries: what lines say by names, and lists from commit to commit.

ghost use Rattle.std.specs.Prelude.{◌≡◌, ◌<◌, ◌∷◌, [], IfOk, IfSome, IsTrue};
ghost use Rattle.rmt_ast.specs.NameRules.{AreEntriesOf, names_are_formed};
ghost use Rattle.rmt_lists.specs.Running.{Running, begins, is_change};
ghost use Rattle.rmt_lists.specs.Stands.{Stands};

use rmt_ast::entry::{Entry, EntryLists};
use rmt_ast::name::Name;
use rmt_ast::names::{ActionName, Names, TableName};
use rmt_ast::program::{Kind, Test};
use rmt_bits::sequence::Sequence;
use rmt_entries::fault::EntryFault;
use rmt_entries::named::EntryName;
use rmt_entries::{entry, key};
use rmt_update::fault::ChangeFault;
use rmt_update::lists::{Changes, Lists};
use std::alloc::{AllocError, Global};
use std::test::*;

/// A sequence of one item.
fn one<T: Drop>(alloc: Global, item: T) -> Result<Sequence<T>, AllocError>
    ensures { IfOk result (λ items. items ≡ item ∷ []) }
{
    let mut items = Sequence::new(alloc);
    items.push(item)?;
    Ok(items)
}

/// A name of some bytes.
fn named(alloc: Global, bytes: &[u8]) -> Result<Name, AllocError>
    ensures { IfOk result (λ name. name ≡ bytes.now) }
{
    Ok(Name::from_vec(Vec::from_slice(alloc, bytes)?))
}

/// The names of one table: `b` of node 1, exact on 8 bits, of size 16, with an action `go` of 9 bits.
fn names_of_b(alloc: Global) -> Result<Names, AllocError>
    ensures formed { IfOk result (λ names. IsTrue (names_are_formed names)) }
    ensures no_entries { IfOk result (λ names. AreEntriesOf names ([] ∷ [] ∷ [])) }
{
    let go = ActionName {
        name: named(alloc, b"go")?,
        params: one(alloc, 9u8)?,
    };
    let table = TableName {
        node: 1,
        name: named(alloc, b"b")?,
        kind: Kind::Exact,
        size: 16,
        keys: one(alloc, 8u8)?,
        actions: one(alloc, go)?,
        ranks: Sequence::new(alloc),
    };
    Ok(Names {
        tables: one(alloc, table)?,
    })
}

/// Writes tests, a value and a mask each.
fn push_tests(out: &mut String, tests: &[Test]) -> Result<(), AllocError> {
    for test in tests {
        write!(out, " {}&{}", test.value, test.mask)?;
    }
    Ok(())
}

/// Writes an entry.
pub(crate) fn push_entry(out: &mut String, entry: &Entry) -> Result<(), AllocError> {
    write!(
        out,
        " {} #{} rank {}",
        entry.table, entry.number, entry.rank
    )?;
    push_tests(out, entry.tests.as_slice())?;
    write!(out, " action {}", entry.action)?;
    for arg in entry.args.as_slice() {
        write!(out, " {arg}")?;
    }
    Ok(())
}

/// An entry, or the code of its fault.
fn shown_entry(alloc: Global, answer: Result<Entry, EntryFault>) -> Result<String, AllocError> {
    let mut out = String::new(alloc);
    match answer {
        Ok(entry) => push_entry(&mut out, &entry)?,
        Err(EntryFault::At { code, line }) => write!(out, " code {code} line {line}")?,
        Err(EntryFault::NoMemory) => out.push_str(" no memory")?,
    }
    Ok(out)
}

/// A key, or the code of its fault.
fn shown_key(alloc: Global, answer: Result<EntryName, EntryFault>) -> Result<String, AllocError> {
    let mut out = String::new(alloc);
    match answer {
        Ok(key) => {
            write!(out, " {} rank {}", key.table, key.rank)?;
            push_tests(&mut out, key.tests.as_slice())?;
        }
        Err(EntryFault::At { code, line }) => write!(out, " code {code} line {line}")?,
        Err(EntryFault::NoMemory) => out.push_str(" no memory")?,
    }
    Ok(out)
}

/// A line, the entry that it says, and the key.
type Row = (&'static [u8], &'static str, &'static str);

const ROWS: [Row; 21] = [
    (b"", " code 1 line 1", " code 1 line 1"),
    (b"  ", " code 1 line 1", " code 1 line 1"),
    (b"#", " code 1 line 1", " code 1 line 1"),
    (b"b", " code 1 line 1", " code 1 line 1"),
    (b"b 7\tgo 5", " code 1 line 1", " code 1 line 1"),
    (b"# b 7", " code 2 line 1", " code 2 line 1"),
    (b"q 7 go 5", " code 2 line 1", " code 2 line 1"),
    (b"B 7", " code 2 line 1", " code 2 line 1"),
    (b"b 256 go 5", " code 3 line 1", " code 3 line 1"),
    (b"b go 5", " code 3 line 1", " code 3 line 1"),
    (b"b 7/8 go 5", " code 3 line 1", " code 3 line 1"),
    (b"b 7&255 go 5", " code 3 line 1", " code 3 line 1"),
    (b"b * go 5", " code 3 line 1", " code 3 line 1"),
    (b"b 7", " code 4 line 1", " 1 rank 0 7&255"),
    (b" b  0x0A ", " code 4 line 1", " 1 rank 0 10&255"),
    (b"b 7 stay", " code 4 line 1", " code 3 line 1"),
    (b"b 7 go", " code 5 line 1", " code 3 line 1"),
    (b"b 7 go 512", " code 5 line 1", " code 3 line 1"),
    (b"b 7 go 5 6", " code 5 line 1", " code 3 line 1"),
    (
        b"b 7 go 5",
        " 1 #0 rank 0 7&255 action 0 5",
        " code 3 line 1",
    ),
    (
        b" b  0xff  go 0x1ff ",
        " 1 #0 rank 0 255&255 action 0 511",
        " code 3 line 1",
    ),
];

#[test]
fn lines_by_names(rt: HostRuntime) {
    let alloc = rt.alloc();
    let names = names_of_b(alloc).expect(&rt, "memory");
    for &(line, wanted_entry, wanted_key) in &ROWS {
        let said = shown_entry(alloc, entry(alloc, &names, line)).expect(&rt, "memory");
        let key_said = shown_key(alloc, key(alloc, &names, line)).expect(&rt, "memory");
        assert!(rt; said.as_str() == wanted_entry && key_said.as_str() == wanted_key);
    }
}

/// Whether a line begins with a byte.
pub(crate) fn begins(byte: u8, line: &[u8]) -> bool
    ensures { result ≡ begins byte line.now }
{
    match line.first() {
        Some(first) => *first == byte,
        None => false,
    }
}

/// Whether a line is an addition or a removal.
pub(crate) fn is_change(line: &[u8]) -> bool
    ensures { result ≡ is_change line.now }
{
    if line.is_empty() {
        return false;
    }
    (begins(b'+', line) || begins(b'-', line)) && begins(b' ', &line[1..])
}

/// A run of no entry, which may have so many additions.
pub(crate) fn empty_lists(alloc: Global, most: u32) -> Option<Lists>
    requires { most < 1048577 }
    ensures { IfSome result (λ lists. (r : Running) × Stands r lists) }
{
    let Ok(names) = names_of_b(alloc) else {
        return None;
    };
    let mut entries = EntryLists::new(alloc);
    if entries.push(Sequence::new(alloc)).is_err() {
        return None;
    }
    if entries.push(Sequence::new(alloc)).is_err() {
        return None;
    }
    Lists::new(alloc, names, entries, most).ok()
}

/// Writes what a commit changes.
fn push_changes(out: &mut String, changes: &Changes) -> Result<(), AllocError> {
    out.push_str("gone")?;
    for number in changes.gone.as_slice() {
        write!(out, " {number}")?;
    }
    out.push_str(" come")?;
    for entry in changes.come.as_slice() {
        push_entry(out, entry)?;
    }
    Ok(())
}

/// Writes the numbers of entries and their keys.
fn push_current(out: &mut String, lists: &EntryLists) -> Result<(), AllocError> {
    out.push_str(" now")?;
    for list in lists.as_slice() {
        for entry in list.as_slice() {
            write!(out, " #{}", entry.number)?;
            push_tests(out, entry.tests.as_slice())?;
        }
    }
    out.push_str("\n")?;
    Ok(())
}

/// Commits, and tells what it changes and what stands then.
fn commit(alloc: Global, lists: &mut Lists, out: &mut String) -> bool
    requires { (r : Running) × Stands r lists.old }
    ensures { (r : Running) × Stands r lists.new }
{
    match lists.commit(alloc) {
        Ok(changes) => {
            push_changes(out, &changes).is_ok() && push_current(out, lists.current()).is_ok()
        }
        Err(_) => false,
    }
}

/// Takes a change, and tells the code of one that is refused.
pub(crate) fn change(alloc: Global, lists: &mut Lists, line: &[u8], out: &mut String) -> bool
    requires change { IsTrue (is_change line.now) }
    requires stands { (r : Running) × Stands r lists.old }
    ensures { (r : Running) × Stands r lists.new }
{
    match lists.change(alloc, line) {
        Ok(()) => true,
        Err(ChangeFault::Refused { code }) => write!(out, "code {code}\n").is_ok(),
        Err(ChangeFault::NoMemory) => false,
    }
}

/// Takes lines, of which those that are no change commit, and tells what comes of them. Whether memory was there.
fn take_all(alloc: Global, lists: &mut Lists, lines: &[&[u8]], out: &mut String) -> bool
    requires { (r : Running) × Stands r lists.old }
    ensures { (r : Running) × Stands r lists.new }
{
    for line in lines {
        let ok = if is_change(line) {
            change(alloc, lists, line, out)
        } else {
            commit(alloc, lists, out)
        };
        if !ok {
            return false;
        }
    }
    true
}

/// What comes of lines, and then of further ones; None for want of memory.
fn told(alloc: Global, most: u32, first: &[&[u8]], then: &[&[u8]]) -> Option<String>
    requires { most < 1048577 }
{
    let mut out = String::new(alloc);
    let mut lists = empty_lists(alloc, most)?;
    if take_all(alloc, &mut lists, first, &mut out) && take_all(alloc, &mut lists, then, &mut out) {
        Some(out)
    } else {
        None
    }
}

/// How many additions there may be, lines, further ones, and what comes of all.
type Run = (
    u32,
    &'static [&'static [u8]],
    &'static [&'static [u8]],
    &'static str,
);

pub(crate) const COMMIT: &[u8] = b"commit";

/// Additions of 17 entries, one more than the table may have.
const SEVENTEEN: [&[u8]; 17] = [
    b"+ b 7 go 5",
    b"+ b 8 go 1",
    b"+ b 9 go 1",
    b"+ b 10 go 1",
    b"+ b 11 go 1",
    b"+ b 12 go 1",
    b"+ b 13 go 1",
    b"+ b 14 go 1",
    b"+ b 15 go 1",
    b"+ b 16 go 1",
    b"+ b 17 go 1",
    b"+ b 18 go 1",
    b"+ b 19 go 1",
    b"+ b 20 go 1",
    b"+ b 21 go 1",
    b"+ b 22 go 1",
    b"+ b 23 go 1",
];

const RUNS: [Run; 9] = [
    // An entry comes, gives way to another with the next number, and nothing is left to do.
    (
        100,
        &[],
        &[
            b"+ b 7 go 5",
            COMMIT,
            b"- b 7",
            b"+ b 7 go 6",
            COMMIT,
            COMMIT,
            b"- b 7",
            COMMIT,
        ],
        "gone come 1 #0 rank 0 7&255 action 0 5 now #0 7&255
gone 0 come 1 #1 rank 0 7&255 action 0 6 now #1 7&255
gone come now #1 7&255
gone 1 come now
",
    ),
    // The lines that are refused change nothing: their form is bad, or the key is held or isn't.
    (
        100,
        &[],
        &[
            b"+ b 7 go 5",
            COMMIT,
            b"+ b 256 go 1",
            b"+ b 7 go 1",
            b"- b 8",
            b"- b 7 go",
            b"- q 7",
            b"- b",
            b"+ b 8 stay",
            b"+ b 8 go",
            COMMIT,
            b"+ b 8 go 2",
            COMMIT,
        ],
        "gone come 1 #0 rank 0 7&255 action 0 5 now #0 7&255
code 5
code 6
code 8
code 5
code 5
code 5
code 5
code 5
gone come now #0 7&255
gone come 1 #1 rank 0 8&255 action 0 2 now #0 7&255 #1 8&255
",
    ),
    // An addition that is removed before its commit is no change; its number is used up.
    (
        100,
        &[],
        &[
            b"+ b 7 go 5",
            b"- b 7",
            b"- b 7",
            COMMIT,
            b"+ b 9 go 1",
            b"+ b 8 go 1",
            b"- b 9",
            b"+ b 9 go 2",
            COMMIT,
        ],
        "code 8
gone come now
gone come 1 #2 rank 0 8&255 action 0 1 1 #3 rank 0 9&255 action 0 2 now #2 8&255 #3 9&255
",
    ),
    // What goes is named by rising number, and the others stay in their order.
    (
        100,
        &[],
        &[
            b"+ b 3 go 1",
            b"+ b 2 go 1",
            b"+ b 1 go 1",
            COMMIT,
            b"- b 1",
            b"- b 3",
            COMMIT,
        ],
        "gone come 1 #0 rank 0 3&255 action 0 1 1 #1 rank 0 2&255 action 0 1 1 #2 rank 0 1&255 action 0 1 now #0 3&255 #1 2&255 #2 1&255
gone 0 2 come now #1 2&255
",
    ),
    // The third addition is one too many, also behind a removal and a commit; a removal isn't counted.
    (
        2,
        &[],
        &[
            b"+ b 1 go 1",
            b"+ b 2 go 1",
            b"+ b 3 go 1",
            b"+ b 2 go 1",
            b"- b 2",
            b"+ b 2 go 1",
            COMMIT,
            b"+ b 3 go 1",
            b"- b 1",
            COMMIT,
        ],
        "code 9
code 6
code 9
gone come 1 #0 rank 0 1&255 action 0 1 now #0 1&255
code 9
gone 0 come now
",
    ),
    // No addition at all.
    (
        0,
        &[],
        &[b"+ b 1 go 1", b"- b 1", COMMIT],
        "code 9\ncode 8\ngone come now\n",
    ),
    // The 17th entry finds the table full, until one is removed.
    (
        17,
        &SEVENTEEN,
        &[b"+ b 7 go 1", b"- b 7", b"+ b 24 go 1", b"+ b 7 go 1"],
        "code 7\ncode 6\ncode 7\n",
    ),
    // A full table before too many additions.
    (
        16,
        &SEVENTEEN,
        &[b"- b 7", b"+ b 23 go 1"],
        "code 7\ncode 9\n",
    ),
    // No line.
    (1, &[], &[], ""),
];

#[test]
fn lists_through_commits(rt: HostRuntime) {
    for &(most, first, then, wanted) in &RUNS {
        assert!(rt; most < 1048577);
        let said = told(rt.alloc(), most, first, then).expect(&rt, "memory");
        assert!(rt; said.as_str() == wanted, "told {said}");
    }
}

/// A line of spaces behind a good addition, as long as told.
fn long_line(alloc: Global, length: usize) -> Result<Vec<u8>, AllocError> {
    let mut line = Vec::from_slice(alloc, b"+ b 7 go 5")?;
    line.resize(length, b' ')?;
    Ok(line)
}

#[test]
fn long_lines(rt: HostRuntime) {
    for &(length, wanted) in &[
        (
            18443,
            "gone come 1 #0 rank 0 7&255 action 0 5 now #0 7&255\n",
        ),
        (18444, "code 5\ngone come now\n"),
    ] {
        let line = long_line(rt.alloc(), length).expect(&rt, "memory");
        let lines: [&[u8]; 2] = [&line, COMMIT];
        let said = told(rt.alloc(), 100, &lines, &[]).expect(&rt, "memory");
        assert!(rt; said.as_str() == wanted, "told {said}");
    }
}
