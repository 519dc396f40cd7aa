//! Headers with a tail: texts of whole programs through tokens, syntax and check.

ghost use Rattle.std.specs.Prelude.{◌<◌, length};

use crate::tests::compare::same_text;
use rmt_ast::program::{Header, Program};
use rmt_check::read_program;
use rmt_lexer::fault::ProgramFault;
use rmt_tests::fixtures::shown::push_name;
use std::alloc::{AllocError, Global};
use std::process::Abort;
use std::test::*;

/// Writes the fields of a program with their widths, and its headers with their tails.
fn push_program(out: &mut String, program: &Program) -> Result<(), AllocError> {
    for field in program.fields.as_slice() {
        push_name(out, &field.name)?;
        write!(out, " {}, ", field.width)?;
    }
    for header in program.headers.as_slice() {
        push_header(out, header)?;
    }
    Ok(())
}

/// Writes a header with its tail.
fn push_header(out: &mut String, header: &Header) -> Result<(), AllocError> {
    push_name(out, &header.name)?;
    write!(out, " valid {} bytes {} fields", header.valid, header.bytes)?;
    for number in header.fields.as_slice() {
        write!(out, " {number}")?;
    }
    if let Some(tail) = &header.tail {
        write!(out, " tail {} * {} - {}", tail.field, tail.unit, tail.base)?;
    }
    out.push_str(";")
}

/// The program in short.
fn shown(alloc: Global, program: &Program) -> Result<String, AllocError> {
    let mut out = String::new(alloc);
    push_program(&mut out, program)?;
    Ok(out)
}

/// What a text means: its program in short, or its fault.
fn meaning(alloc: Global, text: &[u8]) -> Result<String, AllocError>
    requires { length text.now < 4294967295 }
{
    match read_program(alloc, text) {
        Ok(program) => shown(alloc, &program),
        Err(ProgramFault::At { code, line, column }) => format!(in alloc;
            "code {code} at {line}:{column}"
        ),
        Err(ProgramFault::NoMemory) => Err(AllocError),
    }
}

/// A text, and what it means.
type Row = (&'static [u8], &'static str);

/// Compares the meaning of each text.
fn compares(rt: &(impl Abort + AllocGlobal), rows: &[Row]) {
    for &(text, want) in rows {
        assert!(rt; text.len() < 10000);
        let got = meaning(rt.alloc(), text).expect(rt, "memory");
        same_text(rt, got.as_str(), want);
    }
}

/// Tails, among them those of the greatest unit, base, length and base above a length.
const READ: [Row; 8] = [
    (
        b"header o { n : 4; z : 4; tail n * 4 - 4; } next accept; control { }",
        "in_port 9, out_port 9, drop 1, o.valid 1, o.n 4, o.z 4, o valid 3 bytes 1 fields 4 5 tail 4 * 4 - 4;",
    ),
    (
        b"header o { n : 4; z : 4; } next p; header p { z : 4; n : 4; tail n * 0x4 - 0x14; } next accept; control { }",
        "in_port 9, out_port 9, drop 1, o.valid 1, o.n 4, o.z 4, p.valid 1, p.z 4, p.n 4, o valid 3 bytes 1 fields 4 5;p valid 6 bytes 1 fields 7 8 tail 8 * 4 - 20;",
    ),
    (
        b"header o { n : 1; z : 7; tail n * 255 - 191; } next accept; control { }",
        "in_port 9, out_port 9, drop 1, o.valid 1, o.n 1, o.z 7, o valid 3 bytes 1 fields 4 5 tail 4 * 255 - 191;",
    ),
    (
        b"header o { n : 1; z : 7; tail n * 255 - 255; } next accept; control { }",
        "in_port 9, out_port 9, drop 1, o.valid 1, o.n 1, o.z 7, o valid 3 bytes 1 fields 4 5 tail 4 * 255 - 255;",
    ),
    (
        b"header o { n : 8; tail n * 1 - 191; } next accept; control { }",
        "in_port 9, out_port 9, drop 1, o.valid 1, o.n 8, o valid 3 bytes 1 fields 4 tail 4 * 1 - 191;",
    ),
    (
        b"header o { n : 4; z : 4; tail n * 4 - 60; } next accept; control { }",
        "in_port 9, out_port 9, drop 1, o.valid 1, o.n 4, o.z 4, o valid 3 bytes 1 fields 4 5 tail 4 * 4 - 60;",
    ),
    (
        b"header o { n : 4; z : 4; tail n * 5 - 11; } next accept; control { }",
        "in_port 9, out_port 9, drop 1, o.valid 1, o.n 4, o.z 4, o valid 3 bytes 1 fields 4 5 tail 4 * 5 - 11;",
    ),
    (
        b"header o { n : 4; z : 4; tail n * 4 - 0; } next (z) { 1 : o2; else : accept; } header o2 { n : 8; } next accept; control { }",
        "in_port 9, out_port 9, drop 1, o.valid 1, o.n 4, o.z 4, o2.valid 1, o2.n 8, o valid 3 bytes 1 fields 4 5 tail 4 * 4 - 0;o2 valid 6 bytes 1 fields 7;",
    ),
];

/// Each cause of code 21, at the word `tail`; those that are told before it.
const OUT_OF_RANGE: [Row; 13] = [
    (
        b"header o { n : 4; z : 4; tail n * 5 - 4; } next accept; control { }",
        "code 21 at 1:26",
    ),
    (
        b"header o { n : 9; z : 7; tail n * 1 - 0; } next accept; control { }",
        "code 21 at 1:26",
    ),
    (
        b"header o { n : 4; z : 4; tail n * 0 - 0; } next accept; control { }",
        "code 21 at 1:26",
    ),
    (
        b"header o { n : 1; z : 7; tail n * 256 - 192; } next accept; control { }",
        "code 21 at 1:26",
    ),
    (
        b"header o { n : 1; z : 7;\n tail n * 340282366920938463463374607431768211455 - 4; } next accept; control { }",
        "code 21 at 2:2",
    ),
    (
        b"header o { n : 2; z : 6; tail n * 100 - 256; } next accept; control { }",
        "code 21 at 1:26",
    ),
    (
        b"header o { n : 4; z : 4; tail n * 4 - 61; } next accept; control { }",
        "code 21 at 1:26",
    ),
    (
        b"header o { n : 4; z : 4; tail n * 5 - 10; } next accept; control { }",
        "code 21 at 1:26",
    ),
    (
        b"header o { n : 1; z : 7; tail n * 255 - 190; } next accept; control { }",
        "code 21 at 1:26",
    ),
    (
        b"header o { n : 4; z : 4; tail n * 5 - 4; } next accept; header p { n : 4; z : 4; tail n * 0 - 4; } next accept; control { }",
        "code 21 at 1:26",
    ),
    (
        b"header o { n : 9; z : 8; tail n * 1 - 0; } next accept; control { }",
        "code 8 at 1:8",
    ),
    (
        b"header o { n : 0; z : 8; tail n * 1 - 0; } next accept; control { }",
        "code 7 at 1:16",
    ),
    (
        b"header o { n : 9; z : 7; tail n * 1 - 0; } next accept; control { apply t; }",
        "code 6 at 1:73",
    ),
];

/// The name of a tail that no field of the header has.
const UNKNOWN: [Row; 4] = [
    (
        b"header o { n : 4; z : 4; tail m * 4 - 4; } next accept; control { }",
        "code 6 at 1:31",
    ),
    (
        b"header o { n : 4; z : 4; tail o * 4 - 4; } next accept; control { }",
        "code 6 at 1:31",
    ),
    (
        b"header m { m : 8; } next o; header o { n : 4; z : 4; tail m * 4 - 4; } next accept; control { }",
        "code 6 at 1:59",
    ),
    (
        b"meta { m : 8; } header o { n : 4; z : 4; tail m * 4 - 4; } next accept; control { }",
        "code 6 at 1:47",
    ),
];

/// The word `tail` as a name, and tails that are written otherwise.
const UNREADABLE: [Row; 13] = [
    (
        b"header tail { n : 8; } next accept; control { }",
        "code 3 at 1:8",
    ),
    (b"action tail() { } control { }", "code 3 at 1:8"),
    (b"meta { tail : 8; } control { }", "code 3 at 1:8"),
    (b"table tail { default a(); } control { }", "code 3 at 1:7"),
    (
        b"header o { tail : 8; } next accept; control { }",
        "code 3 at 1:17",
    ),
    (b"action a(tail : 8) { } control { }", "code 3 at 1:10"),
    (
        b"header o { n : 4; tail n * 4 - 4; z : 4; } next accept; control { }",
        "code 3 at 1:35",
    ),
    (
        b"header o { n : 4; z : 4; tail n * 4 - 4; tail n * 4 - 4; } next accept; control { }",
        "code 3 at 1:42",
    ),
    (
        b"header o { n : 4; z : 4; tail n * 4; } next accept; control { }",
        "code 3 at 1:36",
    ),
    (
        b"header o { n : 4; z : 4; tail valid * 4 - 4; } next accept; control { }",
        "code 3 at 1:31",
    ),
    (
        b"header o { n : 4; z : 4; tail 4 * n - 4; } next accept; control { }",
        "code 3 at 1:31",
    ),
    (
        b"header o { n : 4; z : 4; tail n * 4 + 4; } next accept; control { }",
        "code 3 at 1:37",
    ),
    (
        b"header h { f : 8; } next accept; action a() { h.f = h.f * 2; } control { }",
        "code 3 at 1:57",
    ),
];

#[test]
fn reads_tails(rt: HostRuntime) {
    compares(&rt, &READ);
}

#[test]
fn tells_tails_out_of_range(rt: HostRuntime) {
    compares(&rt, &OUT_OF_RANGE);
}

#[test]
fn tells_tails_of_unknown_fields(rt: HostRuntime) {
    compares(&rt, &UNKNOWN);
}

#[test]
fn tells_tails_that_the_grammar_lacks(rt: HostRuntime) {
    compares(&rt, &UNREADABLE);
}
