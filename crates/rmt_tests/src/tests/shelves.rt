//! Shelves in memory and of the machine, step by step.

use rmt_io::mem_shelf::MemShelf;
use rmt_io::shelf::{Shelf, ShelfFault};
use rmt_io::true_shelf::{MachineFault, TrueShelf};
use std::alloc::{AllocError, Global};
use std::fs;
use std::io::ErrorKind;
use std::process::Abort;
use std::test::*;

/// What is asked of a shelf for a file.
#[derive(Clone, Copy)]
enum Step {
    /// It is made these bytes.
    Write(&'static [u8]),
    /// It is read, where it has at most so many bytes.
    Read(u64),
    /// It is opened.
    Open,
    /// The next bytes of the open file are read, at most so many.
    Next(usize),
}

/// The name of a file, what is asked, the answer, and the bytes that stand in the buffer then; before each step `-` does.
type Row = (&'static str, Step, Result<(), ShelfFault>, &'static [u8]);

/// Reads the next bytes of the open file.
fn next<S: Shelf>(
    alloc: Global,
    shelf: &mut S,
    room: usize,
    read: &mut Vec<u8>,
) -> Result<Result<(), ShelfFault>, AllocError> {
    if room == 0 {
        return Err(AllocError);
    }
    let mut piece = vec![in alloc; 0u8; room]?;
    match shelf.next(piece.as_mut_slice()) {
        Ok(count) => {
            read.clear();
            read.extend_from_slice(&piece[..count])?;
            Ok(Ok(()))
        }
        Err(fault) => Ok(Err(fault)),
    }
}

/// Takes a step.
fn act<S: Shelf>(
    alloc: Global,
    shelf: &mut S,
    name: &str,
    step: Step,
    read: &mut Vec<u8>,
) -> Result<Result<(), ShelfFault>, AllocError> {
    let name = String::from_str(alloc, name)?;
    match step {
        Step::Write(bytes) => {
            let bytes = Vec::from_slice(alloc, bytes)?;
            Ok(shelf.write(alloc, &name, &bytes))
        }
        Step::Read(most) => Ok(shelf.read(alloc, &name, most, read)),
        Step::Open => Ok(shelf.open(alloc, &name)),
        Step::Next(room) => next(alloc, shelf, room, read),
    }
}

/// Whether a step is answered so, and leaves these bytes in the buffer.
fn is_answered<S: Shelf>(alloc: Global, shelf: &mut S, row: Row) -> Result<bool, AllocError> {
    let (name, step, answer, bytes) = row;
    let mut read = Vec::new(alloc);
    read.push(b'-')?;
    Ok(act(alloc, shelf, name, step, &mut read)? == answer && read.as_slice() == bytes)
}

/// Takes steps, and compares their answers.
fn run<S: Shelf>(
    rt: &(impl Abort + AllocGlobal),
    shelf: &mut S,
    rows: &[Row],
) -> Result<(), AllocError> {
    for &row in rows {
        assert!(rt; is_answered(rt.alloc(), shelf, row)?);
    }
    Ok(())
}

/// Replaces or makes a file of a shelf in memory; an error for want of memory.
fn put(alloc: Global, shelf: &mut MemShelf, name: &str, bytes: &[u8]) -> Result<(), AllocError> {
    let name = String::from_str(alloc, name)?;
    let bytes = Vec::from_slice(alloc, bytes)?;
    match shelf.put_file(&name, &bytes) {
        Ok(()) => Ok(()),
        Err(_) => Err(AllocError),
    }
}

/// A shelf in memory with the file `a`, of which the calls of these numbers fail, and a call reads so many bytes at most.
fn shelf_with(
    alloc: Global,
    failing: &[u64],
    most: u32,
    bytes: &[u8],
) -> Result<MemShelf, AllocError> {
    if most == 0 {
        return Err(AllocError);
    }
    let mut shelf = MemShelf::new(Vec::from_slice(alloc, failing)?, most);
    put(alloc, &mut shelf, "a", bytes)?;
    Ok(shelf)
}

/// How many bytes a file of a shelf in memory has.
fn size_of(alloc: Global, shelf: &MemShelf, name: &str) -> Result<Option<usize>, AllocError> {
    let name = String::from_str(alloc, name)?;
    match shelf.file(&name) {
        None => Ok(None),
        Some(bytes) => Ok(Some(bytes.len())),
    }
}

const READ: [Row; 6] = [
    ("b", Step::Write(&[3]), Ok(()), b"-"),
    ("a", Step::Read(2), Ok(()), &[1, 2]),
    ("b", Step::Read(2), Ok(()), &[3]),
    ("a", Step::Read(1), Err(ShelfFault::TooLong), b""),
    ("a", Step::Write(b""), Ok(()), b"-"),
    ("a", Step::Read(0), Ok(()), b""),
];

#[test]
fn shelf_in_memory(rt: HostRuntime) -> Result<(), Fail> {
    let mut shelf = MemShelf::new(Vec::new(rt.alloc()), 5);
    assert!(rt; size_of(rt.alloc(), &shelf, "a")?.is_none());
    put(rt.alloc(), &mut shelf, "a", &[1, 2])?;
    run(&rt, &mut shelf, &READ)?;
    assert!(rt; size_of(rt.alloc(), &shelf, "a")? == Some(0));
    Ok(())
}

const READS: Row = ("a", Step::Read(1), Ok(()), b"7");

const READS_NEW: Row = ("a", Step::Read(1), Ok(()), b"8");

const CANNOT_READ: Row = ("a", Step::Read(1), Err(ShelfFault::Failed), b"");

const WRITES: Row = ("a", Step::Write(b"8"), Ok(()), b"-");

const CANNOT_WRITE: Row = ("a", Step::Write(b"8"), Err(ShelfFault::Failed), b"-");

/// The number of the call that fails, and what is read and written.
const FAILING: [(u64, &[Row]); 3] = [
    (1, &[CANNOT_READ, WRITES, READS_NEW, WRITES, READS_NEW]),
    (2, &[READS, CANNOT_WRITE, READS, WRITES, READS_NEW]),
    (3, &[READS, WRITES, CANNOT_READ, WRITES, READS_NEW]),
];

#[test]
fn shelf_calls_fail_by_number(rt: HostRuntime) -> Result<(), Fail> {
    for &(number, rows) in &FAILING {
        let mut shelf = shelf_with(rt.alloc(), &[number], 5, b"7")?;
        run(&rt, &mut shelf, rows)?;
    }
    Ok(())
}

const OPENS: Row = ("a", Step::Open, Ok(()), b"-");

const CANNOT_OPEN: Row = ("a", Step::Open, Err(ShelfFault::Failed), b"-");

const CANNOT_GO_ON: Row = ("a", Step::Next(1), Err(ShelfFault::Failed), b"-");

/// The number of the call that fails, and what is read of "ab", a byte a call.
const FAILING_OPEN: [(u64, &[Row]); 5] = [
    (
        1,
        &[
            CANNOT_OPEN,
            ("a", Step::Next(1), Ok(()), b""),
            ("a", Step::Next(1), Ok(()), b""),
            ("a", Step::Next(1), Ok(()), b""),
        ],
    ),
    (
        2,
        &[
            OPENS,
            CANNOT_GO_ON,
            ("a", Step::Next(1), Ok(()), b"a"),
            ("a", Step::Next(1), Ok(()), b"b"),
        ],
    ),
    (
        3,
        &[
            OPENS,
            ("a", Step::Next(1), Ok(()), b"a"),
            CANNOT_GO_ON,
            ("a", Step::Next(1), Ok(()), b"b"),
        ],
    ),
    (
        4,
        &[
            OPENS,
            ("a", Step::Next(1), Ok(()), b"a"),
            ("a", Step::Next(1), Ok(()), b"b"),
            CANNOT_GO_ON,
        ],
    ),
    (
        5,
        &[
            OPENS,
            ("a", Step::Next(1), Ok(()), b"a"),
            ("a", Step::Next(1), Ok(()), b"b"),
            ("a", Step::Next(1), Ok(()), b""),
        ],
    ),
];

#[test]
fn each_call_of_an_open_file_fails(rt: HostRuntime) -> Result<(), Fail> {
    for &(number, rows) in &FAILING_OPEN {
        let mut shelf = shelf_with(rt.alloc(), &[number], 1, b"ab")?;
        run(&rt, &mut shelf, rows)?;
    }
    Ok(())
}

/// The most bytes of a call, the file, and how it is read.
const PIECES: [(u32, &[u8], &[Row]); 6] = [
    (
        1,
        b"abcde",
        &[
            OPENS,
            ("a", Step::Next(8), Ok(()), b"a"),
            ("a", Step::Next(8), Ok(()), b"b"),
            ("a", Step::Next(8), Ok(()), b"c"),
            ("a", Step::Next(8), Ok(()), b"d"),
            ("a", Step::Next(8), Ok(()), b"e"),
            ("a", Step::Next(8), Ok(()), b""),
        ],
    ),
    (
        8,
        b"abcde",
        &[
            ("a", Step::Next(2), Ok(()), b""),
            OPENS,
            ("a", Step::Next(2), Ok(()), b"ab"),
            ("a", Step::Next(2), Ok(()), b"cd"),
            ("a", Step::Next(2), Ok(()), b"e"),
            ("a", Step::Next(2), Ok(()), b""),
            ("a", Step::Next(2), Ok(()), b""),
        ],
    ),
    (
        3,
        b"abcde",
        &[
            OPENS,
            ("a", Step::Next(8), Ok(()), b"abc"),
            OPENS,
            ("a", Step::Next(8), Ok(()), b"abc"),
            ("a", Step::Next(8), Ok(()), b"de"),
            ("a", Step::Next(8), Ok(()), b""),
        ],
    ),
    (
        5,
        b"abcde",
        &[
            OPENS,
            ("a", Step::Next(5), Ok(()), b"abcde"),
            ("a", Step::Next(5), Ok(()), b""),
        ],
    ),
    (
        9,
        b"abcde",
        &[
            OPENS,
            ("a", Step::Next(9), Ok(()), b"abcde"),
            ("a", Step::Next(9), Ok(()), b""),
        ],
    ),
    (
        1,
        b"",
        &[
            OPENS,
            ("a", Step::Next(1), Ok(()), b""),
            ("a", Step::Next(1), Ok(()), b""),
        ],
    ),
];

#[test]
fn a_file_in_pieces(rt: HostRuntime) -> Result<(), Fail> {
    for &(most, bytes, rows) in &PIECES {
        let mut shelf = shelf_with(rt.alloc(), &[], most, bytes)?;
        run(&rt, &mut shelf, rows)?;
    }
    Ok(())
}

const CLOSED: [Row; 10] = [
    ("a", Step::Next(1), Ok(()), b""),
    OPENS,
    ("a", Step::Write(b"new"), Ok(()), b"-"),
    ("a", Step::Next(1), Ok(()), b""),
    OPENS,
    ("a", Step::Read(3), Ok(()), b"new"),
    ("a", Step::Next(1), Ok(()), b""),
    OPENS,
    ("b", Step::Open, Err(ShelfFault::Failed), b"-"),
    ("a", Step::Next(1), Ok(()), b""),
];

/// What the file is made, and what is asked then: the first and the second byte are read, and it ends.
const REPLACED: [(&[u8], &[Row]); 3] = [
    (b"abc", &[OPENS, ("a", Step::Next(1), Ok(()), b"a")]),
    (b"xyz", &[("a", Step::Next(1), Ok(()), b"y")]),
    (b"x", &CLOSED),
];

/// A file that is replaced goes on in its new bytes, and ends where it has no more; a write, a read and a refusal close it.
#[test]
fn what_closes_a_file(rt: HostRuntime) -> Result<(), Fail> {
    let mut shelf = MemShelf::new(Vec::new(rt.alloc()), 2);
    for &(bytes, rows) in &REPLACED {
        put(rt.alloc(), &mut shelf, "a", bytes)?;
        run(&rt, &mut shelf, rows)?;
    }
    Ok(())
}

/// Names that no other file of the tests' folder has.
const NAME: &str = "rmt_io_open_file_test";

const LONG_NAME: &str = "rmt_io_true_shelf_test";

const OF_THE_MACHINE: [Row; 18] = [
    (NAME, Step::Next(2), Ok(()), b""),
    (NAME, Step::Open, Err(ShelfFault::Failed), b"-"),
    (NAME, Step::Read(9), Err(ShelfFault::Failed), b""),
    (
        "rmt_io_no_folder/file",
        Step::Write(b"x"),
        Err(ShelfFault::Failed),
        b"-",
    ),
    (NAME, Step::Write(b"abcde"), Ok(()), b"-"),
    (NAME, Step::Open, Ok(()), b"-"),
    (NAME, Step::Next(2), Ok(()), b"ab"),
    (NAME, Step::Next(2), Ok(()), b"cd"),
    (NAME, Step::Next(2), Ok(()), b"e"),
    (NAME, Step::Next(2), Ok(()), b""),
    (NAME, Step::Open, Ok(()), b"-"),
    (NAME, Step::Read(5), Ok(()), b"abcde"),
    (NAME, Step::Next(2), Ok(()), b""),
    (NAME, Step::Open, Ok(()), b"-"),
    (NAME, Step::Write(b""), Ok(()), b"-"),
    (NAME, Step::Next(2), Ok(()), b""),
    (NAME, Step::Open, Ok(()), b"-"),
    (NAME, Step::Next(2), Ok(()), b""),
];

#[test]
fn a_file_of_the_machine(rt: HostRuntime) -> Result<(), Fail> {
    let mut shelf = TrueShelf::new(&rt);
    run(&rt, &mut shelf, &OF_THE_MACHINE)?;
    fs::remove_file(&rt, NAME)?;
    Ok(())
}

/// The name of a file, and why the machine refused it.
type Refusal = (&'static str, ErrorKind);

const ABSENT: Refusal = ("rmt_io_absent_test", ErrorKind::NotFound);

const FOLDER: Refusal = (".", ErrorKind::IsADirectory);

const FULL: Refusal = ("/dev/full", ErrorKind::StorageFull);

const ENDLESS: Refusal = ("/dev/zero", ErrorKind::FileTooLarge);

const CANNOT: Result<(), ShelfFault> = Err(ShelfFault::Failed);

const TOO_LONG: Result<(), ShelfFault> = Err(ShelfFault::TooLong);

/// The name of a file, what is asked, the answer, and the last refusal then. `/dev/null` cannot keep
/// bytes, which is no fault; a file that is too long is kept as one.
const REFUSALS: [(&str, Step, Result<(), ShelfFault>, Refusal); 8] = [
    ("rmt_io_absent_test", Step::Open, CANNOT, ABSENT),
    (".", Step::Open, Ok(()), ABSENT),
    (".", Step::Next(2), CANNOT, FOLDER),
    (".", Step::Next(2), CANNOT, FOLDER),
    ("/dev/full", Step::Write(b"x"), CANNOT, FULL),
    ("/dev/null", Step::Write(b"x"), Ok(()), FULL),
    ("/dev/zero", Step::Read(9), TOO_LONG, ENDLESS),
    (".", Step::Read(9), CANNOT, FOLDER),
];

/// Whether this was refused last.
fn is_last(fault: Option<&MachineFault>, refusal: Refusal) -> bool {
    match fault {
        Some(fault) => fault.name.as_str() == refusal.0 && fault.kind == refusal.1,
        None => false,
    }
}

#[test]
fn what_the_machine_refuses(rt: HostRuntime) -> Result<(), Fail> {
    let mut shelf = TrueShelf::new(&rt);
    let mut read = Vec::new(rt.alloc());
    assert!(rt; shelf.last_fault().is_none());
    for &(name, step, answer, refusal) in &REFUSALS {
        assert!(rt; act(rt.alloc(), &mut shelf, name, step, &mut read)? == answer);
        assert!(rt; is_last(shelf.last_fault(), refusal));
    }
    Ok(())
}

/// How many bytes a file has that is read in many calls of the system.
const LONG: usize = 3 << 20;

/// The bytes of that file.
fn long_bytes(alloc: Global) -> Result<Vec<u8>, AllocError> {
    let mut bytes = vec![in alloc; 0u8; LONG]?;
    for (place, byte) in bytes.iter_mut().enumerate() {
        *byte = (place % 251) as u8;
    }
    Ok(bytes)
}

/// Whether a file is written and read back where it may be so long.
fn comes_back<S: Shelf>(
    alloc: Global,
    shelf: &mut S,
    name: &String,
    bytes: &Vec<u8>,
) -> Result<bool, ShelfFault> {
    let mut into = Vec::new(alloc);
    shelf.write(alloc, name, bytes)?;
    shelf.read(alloc, name, LONG as u64, &mut into)?;
    Ok(into.as_slice() == bytes.as_slice())
}

/// Whether a file is too long for a limit, and nothing of it stands in the buffer then.
fn is_too_long<S: Shelf>(
    alloc: Global,
    shelf: &mut S,
    name: &String,
    limit: u64,
) -> Result<bool, AllocError> {
    let mut into = Vec::new(alloc);
    into.push(7)?;
    Ok(shelf.read(alloc, name, limit, &mut into) == TOO_LONG && into.is_empty())
}

#[test]
fn a_long_file_of_the_machine(rt: HostRuntime) -> Result<(), Fail> {
    let mut shelf = TrueShelf::new(&rt);
    let name = String::from_str(rt.alloc(), LONG_NAME)?;
    let bytes = long_bytes(rt.alloc())?;
    assert!(rt; comes_back(rt.alloc(), &mut shelf, &name, &bytes) == Ok(true));
    for &limit in &[LONG as u64 - 1, 0] {
        assert!(rt; is_too_long(rt.alloc(), &mut shelf, &name, limit)?);
    }
    fs::remove_file(&rt, LONG_NAME)?;
    Ok(())
}
