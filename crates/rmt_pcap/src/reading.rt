//! Capture files, read.

ghost use Rattle.std.specs.Prelude.{◌≡◌, ◌+◌, ◌≤◌, ⊤, length, take, drop, All, IfOk, IfErr};
ghost use Rattle.rmt_pcap.specs.Captures.{IsHead, IsOfFile, capture_of, is_kept, is_magic, is_version, order_of, said_from};
ghost use Rattle.rmt_pcap.specs.Fault.{MatchFault};
ghost use Rattle.rmt_pcap.specs.Steps.{whole_len};

use crate::capture::{Capture, Record};
use crate::fault::CaptureFault;
use crate::numbers::{four_at, two_at};
use rmt_bits::answer::Bytes;
use rmt_bits::sequence::Sequence;
use std::alloc::{AllocError, Global};

/// How many bytes stand before the first record.
const HEAD: usize = 24;

/// How many bytes stand before the captured bytes of a record.
const RECORD_HEAD: usize = 16;

/// The most captured bytes of a record that is kept.
const LONGEST: u32 = 9216;

/// The magics: that of files whose fractions are microseconds, and that of those whose fractions are nanoseconds.
const MAGICS: [u32; 2] = [0xa1b2_c3d4, 0xa1b2_3c4d];

/// Reads a capture file of at most 4,294,967,294 bytes. It takes memory for the head and for the records that are kept.
///
/// # Errors
///
/// Code 11 where no magic stands first, as in fewer than 4 bytes; 13 where one does, but fewer than 24 bytes are there;
/// 12 where the version is not 2.4. `NoMemory` for want of memory.
pub fn read_capture(alloc: Global, bytes: &[u8]) -> Result<Capture, CaptureFault>
    requires { length bytes.now ≤ 4294967294 }
    ensures capture { IfOk result (λ capture. capture_of bytes.now ≡ Ok capture) }
    ensures code { IfErr result (λ fault.
        MatchFault fault ⊤ (λ code. capture_of bytes.now ≡ Err code)) }

    // What a file that was read keeps.
    ensures head { IfOk result (λ capture. IsHead capture.big capture.head) }
    ensures records { IfOk result (λ capture. All (IsOfFile bytes.now) capture.records) }
{
    let Some(big) = order_of_bytes(bytes) else {
        return Err(CaptureFault::Code(11));
    };
    if bytes.len() < HEAD {
        return Err(CaptureFault::Code(13));
    }
    if !has_version(big, bytes) {
        return Err(CaptureFault::Code(12));
    }
    let head = copy(alloc, &bytes[..HEAD])?;
    let (records, skipped) = read_records(alloc, big, bytes)?;
    Ok(Capture {
        head,
        big,
        records,
        skipped,
    })
}

/// Whether numbers have their highest byte first, by the magic that stands first.
fn order_of_bytes(bytes: &[u8]) -> Option<bool>
    ensures { result ≡ order_of bytes.now }
{
    if bytes.len() < 4 {
        return None;
    }
    if is_magic(four_at(true, bytes, 0)) {
        Some(true)
    } else if is_magic(four_at(false, bytes, 0)) {
        Some(false)
    } else {
        None
    }
}

/// Whether a number is one of the two magics.
fn is_magic(number: u32) -> bool
    ensures { result ≡ is_magic number }
{
    MAGICS.contains(&number)
}

/// Whether the version is 2.4.
fn has_version(big: bool, bytes: &[u8]) -> bool
    requires { 8 ≤ length bytes.now }
    ensures { result ≡ is_version big bytes.now }
{
    two_at(big, bytes, 4) == 2 && two_at(big, bytes, 6) == 4
}

/// The same bytes.
fn copy(alloc: Global, bytes: &[u8]) -> Result<Bytes, AllocError>
    ensures { IfOk result (λ copy. copy ≡ bytes.now) }
{
    Ok(Bytes::from_vec(bytes.to_vec(alloc)?))
}

/// The records of a file that are kept, and how many are skipped.
fn read_records(
    alloc: Global,
    big: bool,
    bytes: &[u8],
) -> Result<(Sequence<Record>, u32), AllocError>
    requires head { 24 ≤ length bytes.now }
    requires short { length bytes.now ≤ 4294967294 }
    ensures { IfOk result (λ read.
        record { records = read.0; skipped = read.1 } ≡ said_from big 24 0 (drop 24 bytes.now)) }
{
    let mut records = Sequence::new(alloc);
    let mut skipped = 0;
    let mut at = HEAD;
    while at < bytes.len() {
        let rest = &bytes[at..];
        let Some(len) = captured(big, rest) else {
            return Ok((records, skipped + 1));
        };
        if is_kept(len) {
            records.push(record_of(alloc, rest, at, len)?)?;
        } else {
            skipped += 1;
        }
        at += RECORD_HEAD + len as usize;
    }
    Ok((records, skipped))
}

/// How many bytes the record that stands first captured, where it is whole.
fn captured(big: bool, rest: &[u8]) -> Option<u32>
    ensures { result ≡ whole_len big rest.now }
{
    if rest.len() < RECORD_HEAD {
        return None;
    }
    let len = four_at(big, rest, 8);
    if rest.len() - RECORD_HEAD < len as usize {
        return None;
    }
    Some(len)
}

/// Whether a record of so many captured bytes is kept.
fn is_kept(len: u32) -> bool
    ensures { result ≡ is_kept len }
{
    1 <= len && len <= LONGEST
}

/// The record at a place of a file, whose bytes from there on are given.
fn record_of(alloc: Global, rest: &[u8], at: usize, len: u32) -> Result<Record, AllocError>
    requires whole { 16 ≤ length rest.now }
    requires short { at + 16 ≤ 4294967294 }
    ensures { IfOk result (λ made.
        made ≡ record { time = take 8 rest.now; from = at + 16; len = len }) }
{
    let time = copy(alloc, &rest[..8])?;
    Ok(Record {
        time,
        from: (at + RECORD_HEAD) as u32,
        len,
    })
}
