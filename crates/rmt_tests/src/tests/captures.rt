//! Captures: hostile files, files cut at each byte, and files that are written and read back.

ghost use Rattle.std.specs.Prelude.{All, IfOk};
ghost use Rattle.rmt_pcap.specs.Written.{IsItem};

use rmt_bits::answer::Bytes;
use rmt_bits::sequence::Sequence;
use rmt_pcap::capture::{Capture, Record};
use rmt_pcap::fault::CaptureFault;
use rmt_pcap::{read_capture, write_capture};
use std::alloc::{AllocError, Global};
use std::process::Abort;
use std::test::*;

/// What is looked at of a file: the order of its bytes, how many records it has, and how many are skipped; or its code.
type Told = Result<(bool, usize, u32), CaptureFault>;

/// No magic stands first.
const NO_MAGIC: Told = Err(CaptureFault::Code(11));

/// The version is another one.
const OTHER_VERSION: Told = Err(CaptureFault::Code(12));

/// A head that is cut.
const CUT_HEAD: Told = Err(CaptureFault::Code(13));

/// The first eight bytes of files: their magic and version, the highest byte first.
const BIG: [u8; 8] = [0xa1, 0xb2, 0xc3, 0xd4, 0, 2, 0, 4];

/// The same of nanoseconds, the lowest byte first.
const LITTLE: [u8; 8] = [0x4d, 0x3c, 0xb2, 0xa1, 2, 0, 4, 0];

/// A record of two bytes, the highest byte first.
const TWO: [u8; 18] = [0, 0, 0, 9, 0, 0, 0, 8, 0, 0, 0, 2, 0, 0, 0, 60, 0xaa, 0xbb];

/// A record of no byte, the lowest byte first.
const NONE: [u8; 16] = [9, 0, 0, 0, 8, 0, 0, 0, 0, 0, 0, 0, 60, 0, 0, 0];

/// The front of a file, what stands behind its head, and what is told.
const FILES: [([u8; 8], &[u8], Told); 12] = [
    (BIG, &[], Ok((true, 0, 0))),
    (LITTLE, &[], Ok((false, 0, 0))),
    ([0xa1, 0xb2, 0x3c, 0x4d, 0, 2, 0, 4], &[], Ok((true, 0, 0))),
    ([0xd4, 0xc3, 0xb2, 0xa1, 2, 0, 4, 0], &[], Ok((false, 0, 0))),
    // no magic: in the order of 16-bit numbers, and one bit off
    ([0xb2, 0xa1, 0xd4, 0xc3, 2, 0, 4, 0], &[], NO_MAGIC),
    ([0xa1, 0xb2, 0xc3, 0xd5, 0, 2, 0, 4], &[], NO_MAGIC),
    // other versions, and 2.4 in the other order
    ([0xa1, 0xb2, 0xc3, 0xd4, 0, 2, 0, 3], &[], OTHER_VERSION),
    ([0xa1, 0xb2, 0xc3, 0xd4, 1, 2, 0, 4], &[], OTHER_VERSION),
    ([0xa1, 0xb2, 0xc3, 0xd4, 2, 0, 4, 0], &[], OTHER_VERSION),
    (LITTLE, &NONE, Ok((false, 0, 1))),
    // the greatest length, which runs past the end
    (
        BIG,
        &[0, 0, 0, 9, 0, 0, 0, 8, 255, 255, 255, 255, 0, 0, 0, 60],
        Ok((true, 0, 1)),
    ),
    (BIG, &[1, 2, 3, 4, 5], Ok((true, 0, 1))),
];

/// A file with a front of eight bytes, the rest of its head, and parts behind it.
fn file(alloc: Global, front: [u8; 8], parts: &[&[u8]]) -> Result<Vec<u8>, AllocError> {
    let mut bytes = front.to_vec(alloc)?;
    bytes.extend_from_slice(&[7; 16])?;
    for part in parts {
        bytes.extend_from_slice(part)?;
    }
    Ok(bytes)
}

/// Reads a file, of at most 65,536 bytes.
fn read(alloc: Global, bytes: &[u8]) -> Result<Capture, CaptureFault> {
    if bytes.len() > 65536 {
        return Err(CaptureFault::Code(0));
    }
    read_capture(alloc, bytes)
}

/// What is told of a file.
fn told(alloc: Global, bytes: &[u8]) -> Told {
    let capture = read(alloc, bytes)?;
    Ok((capture.big, capture.records.len(), capture.skipped))
}

#[test]
fn hostile_captures(rt: HostRuntime) -> Result<(), Fail> {
    for &(front, back, wanted) in &FILES {
        let bytes = file(rt.alloc(), front, &[back])?;
        assert!(rt; told(rt.alloc(), bytes.as_slice()) == wanted);
    }
    Ok(())
}

/// Where cuts end, from the one before on, and what is told of a file of two records that is cut there.
const CUTS: [(usize, Told); 7] = [
    (4, NO_MAGIC),
    (24, CUT_HEAD),
    (25, Ok((true, 0, 0))),
    (42, Ok((true, 0, 1))),
    (43, Ok((true, 1, 0))),
    (60, Ok((true, 1, 1))),
    (61, Ok((true, 2, 0))),
];

/// Whether this is told of a file that is cut at each of these places.
fn is_told_of_cuts(alloc: Global, bytes: &[u8], from: usize, to: usize, wanted: Told) -> bool {
    for len in from..to {
        if told(alloc, bytes.get(..len).unwrap_or(&[])) != wanted {
            return false;
        }
    }
    true
}

#[test]
fn cut_at_each_byte(rt: HostRuntime) -> Result<(), Fail> {
    let bytes = file(rt.alloc(), BIG, &[&TWO, &TWO])?;
    assert!(rt; bytes.len() == 60);
    let mut from = 0;
    for &(to, wanted) in &CUTS {
        assert!(rt; is_told_of_cuts(rt.alloc(), bytes.as_slice(), from, to, wanted));
        from = to;
    }
    Ok(())
}

/// The high and the low byte of a captured length, and what is told of a file with a record of so many bytes.
const LONG: [(u8, u8, usize, Told); 2] = [
    (0x24, 0, 9216, Ok((true, 1, 0))),
    (0x24, 1, 9217, Ok((true, 0, 1))),
];

/// What is told of a file with a record of so many bytes, whose captured length has this high and low byte.
fn told_of_long(alloc: Global, high: u8, low: u8, len: usize) -> Result<Told, AllocError> {
    let before = [0, 0, 0, 9, 0, 0, 0, 8, 0, 0, high, low, 0, 0, 255, 255];
    let frame = vec![in alloc; 5u8; len]?;
    let bytes = file(alloc, BIG, &[&before, frame.as_slice()])?;
    Ok(told(alloc, bytes.as_slice()))
}

#[test]
fn longest_record(rt: HostRuntime) -> Result<(), Fail> {
    for &(high, low, len, wanted) in &LONG {
        assert!(rt; told_of_long(rt.alloc(), high, low, len)? == wanted);
    }
    Ok(())
}

/// An item of a time and three bytes, and one of a time and one byte.
fn items(alloc: Global) -> Result<Sequence<Bytes>, AllocError>
    ensures { IfOk result (λ items. All IsItem items) }
{
    let mut items = Sequence::new(alloc);
    items.push(Bytes::from_vec([1, 2, 3, 4, 5, 6, 7, 8, 0xaa, 0xbb, 0xcc].to_vec(alloc)?))?;
    items.push(Bytes::from_vec([9, 9, 9, 9, 8, 8, 8, 8, 0xdd].to_vec(alloc)?))?;
    Ok(items)
}

/// The records of these items, the highest byte first.
const BIG_RECORDS: [u8; 36] = [
    1, 2, 3, 4, 5, 6, 7, 8, 0, 0, 0, 3, 0, 0, 0, 3, 0xaa, 0xbb, 0xcc, 9, 9, 9, 9, 8, 8, 8, 8, 0, 0,
    0, 1, 0, 0, 0, 1, 0xdd,
];

/// The same, the lowest byte first.
const LITTLE_RECORDS: [u8; 36] = [
    1, 2, 3, 4, 5, 6, 7, 8, 3, 0, 0, 0, 3, 0, 0, 0, 0xaa, 0xbb, 0xcc, 9, 9, 9, 9, 8, 8, 8, 8, 1, 0,
    0, 0, 1, 0, 0, 0, 0xdd,
];

/// The front of a file, and the records behind its head.
const WRITTEN: [([u8; 8], [u8; 36]); 2] = [(BIG, BIG_RECORDS), (LITTLE, LITTLE_RECORDS)];

/// Where the captured bytes of a record are.
fn bytes_at(record: &Record) -> (u32, u32) {
    (record.from, record.len)
}

/// How many records of a file are skipped, and where the captured bytes of the first and of the last one are.
type Seen = (u32, Option<(u32, u32)>, Option<(u32, u32)>);

/// What is seen of a file.
fn seen(alloc: Global, bytes: &[u8]) -> Result<Seen, CaptureFault> {
    let capture = read(alloc, bytes)?;
    let places = capture.records.as_slice();
    let first = places.first().map(bytes_at);
    Ok((capture.skipped, first, places.last().map(bytes_at)))
}

/// What a capture with a head of 24 bytes is written as, with the items.
fn rewritten(alloc: Global, capture: &Capture) -> Result<Sequence<u8>, CaptureFault> {
    if capture.head.len() != 24 {
        return Err(CaptureFault::Code(0));
    }
    let items = items(alloc)?;
    write_capture(alloc, &capture.head, capture.big, &items)
}

/// Whether a file of the items is read, and written as it was.
fn comes_back(alloc: Global, bytes: &[u8]) -> Result<bool, CaptureFault> {
    let capture = read(alloc, bytes)?;
    let written = rewritten(alloc, &capture)?;
    Ok(written.as_slice() == bytes)
}

#[test]
fn written_and_read(rt: HostRuntime) -> Result<(), Fail> {
    for &(front, records) in &WRITTEN {
        let bytes = file(rt.alloc(), front, &[&records])?;
        let seen = seen(rt.alloc(), bytes.as_slice());
        assert!(rt; seen == Ok((0, Some((40, 3)), Some((59, 1)))));
        assert!(rt; comes_back(rt.alloc(), bytes.as_slice()) == Ok(true));
    }
    Ok(())
}
