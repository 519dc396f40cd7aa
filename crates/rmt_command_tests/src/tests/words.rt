//! Words that are a command and words that are none, files that are absent or too long, and the numbers of the statuses.

use crate::fixtures::cases::{COMPILE, Told, ends};
use crate::fixtures::programs::SMALLEST;
use rmt_core::status::Status;
use std::alloc::Global;
use std::test::*;

/// Words, and how a run of them ends over the files `p`, the smallest program, and `e`, no entry.
const LINES: &[(&[&str], Status)] = &[
    (&["compile", "p", "e", ""], Status::Done),
    (&["plain", "p", "e", "e"], Status::Done),
    (&["improve", "p", "e", "i", "1"], Status::Done),
    (&["improve", "p", "e", "i", "0001"], Status::Done),
    (&["improve", "p", "e", "i", "1000"], Status::Done),
    (&["improve", "p", "e", "i", "0"], Status::Usage),
    (&["improve", "p", "e", "i", "1001"], Status::Usage),
    (&["improve", "p", "e", "i", "00001"], Status::Usage),
    (&["improve", "p", "e", "i", ""], Status::Usage),
    (&["improve", "p", "e", "i", "x"], Status::Usage),
    (&["improve", "p", "e", "i"], Status::Usage),
    (&["compile", "p", "e", "i", "1"], Status::Done),
    (&["compile", "p", "e", "i", "i"], Status::Usage),
    (&["compile", "p", "e", "i", "m", "m"], Status::Usage),
    (&["improve", "a", "e", "i", "1"], Status::ReadFault),
    (&["improve", "p", "a", "i", "1"], Status::ReadFault),
    (&["improve", "e", "p", "i", "1"], Status::BadProgram),
    (&["improve", "p", "p", "i", "1"], Status::BadEntries),
    (&["compile", "a", "b"], Status::Usage),
    (&["sim", "i"], Status::Usage),
    (&["plain", "p", "e"], Status::Usage),
    (&["probe", "i", "k"], Status::Usage),
    (&["probe", "i", "k", "1", "1"], Status::Usage),
    (&["report"], Status::Usage),
    (&["verify", "p", "e", "i"], Status::Usage),
    (&["verify", "p", "e", "i", "m", "m"], Status::Usage),
    (&["--help"], Status::Usage),
    (&[], Status::Usage),
    (&["compile", "a", "e", "i"], Status::ReadFault),
    (&["compile", "p", "a", "i"], Status::ReadFault),
    (&["sim", "a", "e"], Status::ReadFault),
    (&["sim", "p", "a"], Status::ReadFault),
    (&["probe", "a", "k", "1"], Status::ReadFault),
    (&["plain", "p", "e", "a"], Status::ReadFault),
    (&["report", "a"], Status::ReadFault),
    (&["report", "p"], Status::BadImage),
    (&["sim", "p", "e"], Status::BadImage),
    (&["compile", "e", "p", "i"], Status::BadProgram),
    (&["plain", "e", "p", "p"], Status::BadProgram),
    (&["compile", "p", "p", "i"], Status::BadEntries),
    (&["plain", "p", "e", "p"], Status::BadPackets),
];

const FILES: &[(&str, &[u8])] = &[("p", SMALLEST), ("e", b"")];

#[test]
fn words_and_files(rt: HostRuntime) -> Result<(), Fail> {
    for (number, &(words, status)) in LINES.iter().enumerate() {
        let is_so = ends(rt.alloc(), FILES, words, status, Told::Any)?;
        assert!(rt; is_so, "row {number}");
    }
    Ok(())
}

/// Whether `compile` of a program of so many bytes ends so.
fn ends_at(alloc: Global, length: usize, status: Status) -> Result<bool, Fail> {
    let program = vec![in alloc; b'{'; length]?;
    let files = [("p", program.as_slice()), ("e", b"".as_slice())];
    ends(alloc, &files, COMPILE, status, Told::Any)
}

#[test]
fn one_byte_too_many(rt: HostRuntime) -> Result<(), Fail> {
    assert!(rt; ends_at(rt.alloc(), 1_048_576, Status::BadProgram)?);
    assert!(rt; ends_at(rt.alloc(), 1_048_577, Status::TooLong)?);
    Ok(())
}

const NUMBERS: &[(Status, u8)] = &[
    (Status::Done, 0),
    (Status::Usage, 1),
    (Status::ReadFault, 2),
    (Status::WriteFault, 3),
    (Status::BadProgram, 4),
    (Status::BadEntries, 5),
    (Status::NoFit, 6),
    (Status::BadImage, 7),
    (Status::BadPackets, 8),
    (Status::TooLong, 9),
    (Status::NoMemory, 10),
];

#[test]
fn numbers_of_the_statuses(rt: HostRuntime) {
    for &(status, number) in NUMBERS {
        assert!(rt; status as u8 == number);
    }
}
