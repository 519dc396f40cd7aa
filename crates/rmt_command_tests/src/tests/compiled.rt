//! What `compile` prints, the smallest image, and the names and tails that stand behind a configuration.

use crate::fixtures::cases::{COMPILE, Told};
use crate::fixtures::images::{SMALLEST_IMAGE, image_of};
use crate::fixtures::programs::*;
use crate::tests::texts::{Row, Text, first_wrong};
use rmt_core::status::Status;
use rmt_tests::fixtures::programs::{REALISTIC, REALISTIC_ENTRIES, STRICT_AND_WEAK};
use std::test::*;

const NO_ENTRY: Text = Text::Str("");

/// The lines of a program whose 32 tables stand in a stage each.
const CHAINED_LINES: &str =
    "stages 32 latency 384\nbound 32 chain t0 t1 t2 t3 t4 t5 t6 t7 t8 t9 t10 t11 \
     t12 t13 t14 t15 t16 t17 t18 t19 t20 t21 t22 t23 t24 t25 t26 t27 t28 t29 t30 \
     t31\nminimal yes\n";

/// Programs that fit.
const FITS: &[Row] = &[
    (
        COMPILE,
        Text::Chain(32),
        NO_ENTRY,
        Status::Done,
        Told::Is(CHAINED_LINES),
    ),
    (
        COMPILE,
        Text::Bytes(SPLIT),
        Text::SplitEntries,
        Status::Done,
        Told::Is("stages 2 latency 13\nbound 2 chain t\nminimal yes\n"),
    ),
    (
        COMPILE,
        Text::Bytes(SHARED_STAGE),
        NO_ENTRY,
        Status::Done,
        Told::Is("stages 1 latency 12\nbound 1 chain t\nminimal yes\n"),
    ),
    (
        COMPILE,
        Text::Bytes(TAILED_AND_SENT),
        NO_ENTRY,
        Status::Done,
        Told::Is("stages 1 latency 12\nbound 1 chain t\nminimal yes\n"),
    ),
    (
        COMPILE,
        Text::Bytes(SMALLEST),
        NO_ENTRY,
        Status::Done,
        Told::Is("stages 1 latency 12\nbound 1 chain t\nminimal yes\n"),
    ),
    (
        COMPILE,
        Text::Bytes(NO_STAGE),
        NO_ENTRY,
        Status::Done,
        Told::Is("stages 0 latency 0\nbound 0 chain\nminimal yes\n"),
    ),
    (
        COMPILE,
        Text::Bytes(TAILED),
        NO_ENTRY,
        Status::Done,
        Told::Is("stages 0 latency 0\nbound 0 chain\nminimal yes\n"),
    ),
    (
        COMPILE,
        Text::Bytes(TWO_TAILS),
        Text::Str(TWO_TAILS_ENTRIES),
        Status::Done,
        Told::Is("stages 1 latency 12\nbound 1 chain t\nminimal yes\n"),
    ),
    (
        COMPILE,
        Text::Bytes(TWO_FIELDS),
        NO_ENTRY,
        Status::Done,
        Told::Is("stages 2 latency 15\nbound 1 chain t1\nminimal no\n"),
    ),
    (
        COMPILE,
        Text::Bytes(STRICT_AND_WEAK),
        Text::Str("b 7 go 5\n"),
        Status::Done,
        Told::Is("stages 2 latency 24\nbound 2 chain a b\nminimal yes\n"),
    ),
    (
        COMPILE,
        Text::Bytes(LARGE),
        NO_ENTRY,
        Status::Done,
        Told::Is("stages 17 latency 28\nbound 16 sram 1600\nminimal no\n"),
    ),
    (
        COMPILE,
        Text::Bytes(REALISTIC),
        Text::Str(REALISTIC_ENTRIES),
        Status::Done,
        Told::Is("stages 3 latency 36\nbound 3 chain routes4 hop macs\nminimal yes\n"),
    ),
];

#[test]
fn programs_that_fit(rt: HostRuntime) -> Result<(), Fail> {
    assert_eq!(rt; first_wrong(rt.alloc(), FITS)?, None);
    Ok(())
}

/// A look-up of two fields of 24 bits.
const TWO_FIELDS_OF_24: &[u8] =
    b"header h { x : 24; y : 24; } next (x, y) { 1, 2 : accept; else : reject; }\ncontrol { }\n";

/// The line of the crossbar's row: in each stage the node's key needs 648 bits, where 640 are there.
const CROSSBAR_LINE: &str =
    "no fit stage t 0:8:0:648 1:8:0:648 2:8:0:648 3:8:0:648 4:8:0:648 5:8:0:648 \
     6:8:0:648 7:8:0:648 8:8:0:648 9:8:0:648 10:8:0:648 11:8:0:648 12:8:0:648 \
     13:8:0:648 14:8:0:648 15:8:0:648 16:8:0:648 17:8:0:648 18:8:0:648 19:8:0:648 \
     20:8:0:648 21:8:0:648 22:8:0:648 23:8:0:648 24:8:0:648 25:8:0:648 26:8:0:648 \
     27:8:0:648 28:8:0:648 29:8:0:648 30:8:0:648 31:8:0:648\n";

/// Programs that don't fit.
const NO_FIT: &[Row] = &[
    (
        COMPILE,
        Text::Bytes(TWO_FIELDS_OF_24),
        NO_ENTRY,
        Status::NoFit,
        Told::Is("no fit lookup h 6\n"),
    ),
    (
        COMPILE,
        Text::LongHeader(64),
        NO_ENTRY,
        Status::NoFit,
        Told::Is("no fit step h 65\n"),
    ),
    (
        COMPILE,
        Text::ManyCases(256),
        NO_ENTRY,
        Status::NoFit,
        Told::Is("no fit parser 257\n"),
    ),
    (
        COMPILE,
        Text::Bytes(TOO_DEEP),
        NO_ENTRY,
        Status::NoFit,
        Told::Is("no fit action deep h.b\n"),
    ),
    (
        COMPILE,
        Text::Wide(65),
        NO_ENTRY,
        Status::NoFit,
        Told::Is("no fit phv meta.m64 32\n"),
    ),
    (
        COMPILE,
        Text::Bytes(CROSSBAR),
        NO_ENTRY,
        Status::NoFit,
        Told::Is(CROSSBAR_LINE),
    ),
    (
        COMPILE,
        Text::Chain(33),
        NO_ENTRY,
        Status::NoFit,
        Told::Is("no fit stage t32 32:1:32:1\n"),
    ),
];

#[test]
fn programs_that_do_not_fit(rt: HostRuntime) -> Result<(), Fail> {
    assert_eq!(rt; first_wrong(rt.alloc(), NO_FIT)?, None);
    Ok(())
}

/// Programs that are bad, where the entries are too.
const BAD_PROGRAMS: &[Row] = &[
    (
        COMPILE,
        Text::Str("@"),
        Text::Str("b"),
        Status::BadProgram,
        Told::Is("bad program 1 line 1 column 1\n"),
    ),
    (
        COMPILE,
        Text::Str(""),
        Text::Str("b"),
        Status::BadProgram,
        Told::Is("bad program 18 line 1 column 1\n"),
    ),
    (
        COMPILE,
        Text::Str("header h { f : 7; } next accept; control { }"),
        Text::Str("b"),
        Status::BadProgram,
        Told::Is("bad program 8 line 1 column 8\n"),
    ),
    (
        COMPILE,
        Text::Str("340282366920938463463374607431768211456"),
        Text::Str("b"),
        Status::BadProgram,
        Told::Is("bad program 2 line 1 column 1\n"),
    ),
    (
        COMPILE,
        Text::Str("340282366920938463463374607431768211455"),
        Text::Str("b"),
        Status::BadProgram,
        Told::Is("bad program 3 line 1 column 1\n"),
    ),
    (
        COMPILE,
        Text::Str("control { } control { }"),
        Text::Str("b"),
        Status::BadProgram,
        Told::Is("bad program 3 line 1 column 13\n"),
    ),
    (
        COMPILE,
        Text::Str(
            "control{if(drop==1){if(drop==1){if(drop==1){if(drop==1){if(drop==1){if(drop==1){if(drop==1){if(drop==1){if(drop==1){if(drop==1){if(drop==1){if(drop==1){if(drop==1){if(drop==1){if(drop==1){if(drop==1){if(drop==1){if(drop==1){if(drop==1){if(drop==1){if(drop==1){if(drop==1){if(drop==1){if(drop==1){if(drop==1){if(drop==1){if(drop==1){if(drop==1){if(drop==1){if(drop==1){if(drop==1){if(drop==1){",
        ),
        Text::Str("b"),
        Status::BadProgram,
        Told::Is("bad program 4 line 1 column 392\n"),
    ),
];

#[test]
fn texts_that_are_bad(rt: HostRuntime) -> Result<(), Fail> {
    assert_eq!(rt; first_wrong(rt.alloc(), BAD_PROGRAMS)?, None);
    Ok(())
}

/// Entries that are bad.
const BAD_ENTRIES: &[Row] = &[
    (
        COMPILE,
        Text::Bytes(STRICT_AND_WEAK),
        Text::Str("b"),
        Status::BadEntries,
        Told::Is("bad entries 1 line 1\n"),
    ),
    (
        COMPILE,
        Text::Bytes(STRICT_AND_WEAK),
        Text::Str("q 1 go 1"),
        Status::BadEntries,
        Told::Is("bad entries 2 line 1\n"),
    ),
    (
        COMPILE,
        Text::Bytes(STRICT_AND_WEAK),
        Text::Str("b 256 go 1"),
        Status::BadEntries,
        Told::Is("bad entries 3 line 1\n"),
    ),
    (
        COMPILE,
        Text::Bytes(STRICT_AND_WEAK),
        Text::Str("a 1 go 1"),
        Status::BadEntries,
        Told::Is("bad entries 3 line 1\n"),
    ),
    (
        COMPILE,
        Text::Bytes(STRICT_AND_WEAK),
        Text::Str("b 1"),
        Status::BadEntries,
        Told::Is("bad entries 4 line 1\n"),
    ),
    (
        COMPILE,
        Text::Bytes(STRICT_AND_WEAK),
        Text::Str("b 1 sx"),
        Status::BadEntries,
        Told::Is("bad entries 4 line 1\n"),
    ),
    (
        COMPILE,
        Text::Bytes(STRICT_AND_WEAK),
        Text::Str("b 1 go 512"),
        Status::BadEntries,
        Told::Is("bad entries 5 line 1\n"),
    ),
    (
        COMPILE,
        Text::Bytes(STRICT_AND_WEAK),
        Text::Str("b 1 go 1\nb 1 go 1\n"),
        Status::BadEntries,
        Told::Is("bad entries 6 line 2\n"),
    ),
    (
        COMPILE,
        Text::Bytes(STRICT_AND_WEAK),
        Text::Str(
            "b 0 go 1\nb 1 go 1\nb 2 go 1\nb 3 go 1\nb 4 go 1\nb 5 go 1\nb 6 go 1\nb 7 go 1\nb 8 go 1\nb 9 go 1\nb 10 go 1\nb 11 go 1\nb 12 go 1\nb 13 go 1\nb 14 go 1\nb 15 go 1\nb 16 go 1\n",
        ),
        Status::BadEntries,
        Told::Is("bad entries 7 line 17\n"),
    ),
];

#[test]
fn entries_that_are_bad(rt: HostRuntime) -> Result<(), Fail> {
    assert_eq!(rt; first_wrong(rt.alloc(), BAD_ENTRIES)?, None);
    Ok(())
}

/// Which entries are told is free, and so are the numbers of the line.
const COLLIDES: &[Row] = &[(
    COMPILE,
    Text::Bytes(COLLIDING),
    Text::Str("t 0 no\nt 4 no\nt 8 no\nt 12 no\nt 16 no\nt 20 no\n"),
    Status::NoFit,
    Told::Begins("no fit load t "),
)];

#[test]
fn a_table_that_does_not_load(rt: HostRuntime) -> Result<(), Fail> {
    assert_eq!(rt; first_wrong(rt.alloc(), COLLIDES)?, None);
    Ok(())
}

/// The version is 2, and behind the configuration stands how many tables have names: none, since this one has no key.
#[test]
fn smallest_image(rt: HostRuntime) -> Result<(), Fail> {
    let image = image_of(rt.alloc(), SMALLEST, "")?;
    let bytes = image.as_slice();
    assert!(rt; bytes.len() == 96 && bytes[6..95] == SMALLEST_IMAGE[6..]);
    assert!(rt; bytes.starts_with(b"RMTI\x00\x02") && bytes.ends_with(&[0]));
    Ok(())
}

/// The names of the program with an exact table: 1 table, of node 1, `b`, exact, size 16, a key of 8 bits, and its action
/// `go` with a parameter of 9 bits.
const NAMES: [u8; 24] = [
    0x01, 0x01, 0x00, 0x00, 0x00, 0x01, 0x62, 0x00, 0x00, 0x00, 0x00, 0x10, 0x00, 0x01, 0x08, 0x01,
    0x00, 0x00, 0x00, 0x02, 0x67, 0x6f, 0x01, 0x09,
];

/// No table with a key, and the tail of entry 0 and header 0: bits 0 to 3 tell its length, unit 4, base 4.
const TAIL: [u8; 11] = [
    0x00, 0x00, 0x01, 0x00, 0x00, 0x00, 0x00, 0x00, 0x04, 0x04, 0x04,
];

/// A program with its entries, and how its image begins and ends: its version, and what stands behind the configuration.
const ENDS: &[(&[u8], &str, &[u8], &[u8])] = &[
    (STRICT_AND_WEAK, "b 7 go 5\n", b"RMTI\x00\x02", &NAMES),
    (TAILED, "", b"RMTI\x00\x03", &TAIL),
];

#[test]
fn names_and_tails(rt: HostRuntime) -> Result<(), Fail> {
    for &(program, entries, front, end) in ENDS {
        let image = image_of(rt.alloc(), program, entries)?;
        let bytes = image.as_slice();
        assert!(rt; bytes.starts_with(front) && bytes.ends_with(end));
    }
    Ok(())
}
