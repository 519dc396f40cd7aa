//! What a capture file has.

use rmt_bits::answer::Bytes;
use rmt_bits::sequence::Sequence;

/// A frame of a capture file, and when it was seen.
#[derive(Drop, Debug)]
pub struct Record {
    /// The time at which it was seen: the 8 bytes of seconds and fraction as they stand in the file.
    pub time: Bytes,
    /// The place of its first captured byte in the file, from 0.
    pub from: u32,
    /// How many bytes were captured, 1 to 9,216.
    pub len: u32,
}

/// A capture file that was read.
#[derive(Drop, Debug)]
pub struct Capture {
    /// Its first 24 bytes as they stand: the magic, the version 2.4 and 16 bytes that only are copied.
    pub head: Bytes,
    /// Whether its numbers have their highest byte first; else they have their lowest first.
    pub big: bool,
    /// Its records of 1 to 9,216 captured bytes, in their order.
    pub records: Sequence<Record>,
    /// How many are skipped: the other whole records, and 1 where bytes at the end are no whole record.
    pub skipped: u32,
}
