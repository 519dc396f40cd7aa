//! Texts through tokens, syntax and check: the fault of each, or its program.

ghost use Rattle.std.specs.Prelude.{◌<◌, length};

use crate::tests::compare::same_text;
use rmt_ast::program::Program;
use rmt_check::check;
use rmt_lexer::fault::ProgramFault;
use rmt_lexer::tokens;
use rmt_syntax::syntax;
use rmt_tests::fixtures::programs::{
    ARMS, ARMS_SHOWN, REALISTIC, REALISTIC_SHOWN, TWINS, TWINS_SHOWN,
};
use rmt_tests::fixtures::shown::shown;
use rmt_tests::fixtures::texts::repeated;
use std::alloc::{AllocError, Global};
use std::process::Abort;
use std::test::*;

/// The program of a text, or its fault.
fn answer(alloc: Global, text: &[u8]) -> Result<Program, ProgramFault>
    requires { length text.now < 4294967295 }
{
    let list = tokens(alloc, text)?;
    let tree = syntax(alloc, &list)?;
    check(alloc, &tree)
}

/// A text, the code of its fault, and the line and the column where it is told.
type Row = (&'static [u8], u8, u32, u32);

/// Each code, for each of its causes.
const FAULTS: [Row; 74] = [
    (
        b"header h { f : 8; } next accept; header h { f : 8; } next accept; control { }",
        5,
        1,
        41,
    ),
    (
        b"header h { f : 8; f : 8; } next accept; control { }",
        5,
        1,
        19,
    ),
    (b"meta { x : 8; }\nmeta { y : 8; } control { }", 5, 2, 1),
    (b"meta { x : 8; x : 8; } control { }", 5, 1, 15),
    (b"action a() { } action a() { } control { }", 5, 1, 23),
    (b"action a(p : 9, q : 1, p : 9) { } control { }", 5, 1, 24),
    (
        b"action a() { } table t { default a(); } table t { default a(); } control { apply t; }",
        5,
        1,
        47,
    ),
    (
        b"meta { x : 8; y : 8; } action a() { } table t { exact meta.x; actions a, a; size 1; default a(); } control { apply t; }",
        5,
        1,
        74,
    ),
    (
        b"header h { f : 8; } next (g) { else : accept; } control { }",
        6,
        1,
        27,
    ),
    (b"header h { f : 8; } next k; control { }", 6, 1, 26),
    (
        b"header h { f : 8; } next (f) { 1 : k; else : accept; } control { }",
        6,
        1,
        36,
    ),
    (
        b"header h { f : 8; } next (f) { else : k; } control { }",
        6,
        1,
        39,
    ),
    (
        b"header h { f : 8; g : 8; } next accept; action b() { k.f = 1; } control { }",
        6,
        1,
        54,
    ),
    (
        b"header h { f : 8; g : 8; } next accept; action b() { k.valid = 1; } control { }",
        6,
        1,
        54,
    ),
    (
        b"header h { f : 8; g : 8; } next accept; action b() { h.k = 1; } control { }",
        6,
        1,
        56,
    ),
    (
        b"header h { f : 8; } next accept; header i { g : 8; } next accept; action b() { h.f = 1; i.f = 1; } control { }",
        6,
        1,
        91,
    ),
    (
        b"header h { f : 8; g : 8; } next accept; action b() { meta.x = 1; } control { }",
        6,
        1,
        59,
    ),
    (
        b"header h { f : 8; g : 8; } next accept; action b() { h.f = h.g + h.k; } control { }",
        6,
        1,
        68,
    ),
    (
        b"header h { f : 8; g : 8; } next accept; action b(p : 8) { h.f = q; } action c(q : 8) { } control { }",
        6,
        1,
        65,
    ),
    (
        b"header h { f : 8; g : 8; } next accept; action a() { } table t { exact h.f, h.k; actions a; size 1; default a(); } control { apply t; }",
        6,
        1,
        79,
    ),
    (
        b"header h { f : 8; g : 8; } next accept; action a() { } table t { exact h.f; actions a, b; size 1; default a(); } control { apply t; }",
        6,
        1,
        88,
    ),
    (
        b"header h { f : 8; g : 8; } next accept; table t { default a(); } control { apply t; }",
        6,
        1,
        59,
    ),
    (
        b"header h { f : 8; g : 8; } next accept; control { apply t; }",
        6,
        1,
        57,
    ),
    (
        b"header h { f : 8; g : 8; } next accept; control { if (meta.x == 1) { } }",
        6,
        1,
        60,
    ),
    (
        b"header h { f : 8; g : 8; } next accept; action a() { } action b() { } table t { exact h.f; actions a; size 1; default b(); } control { apply t { a { } b { } } }",
        6,
        1,
        152,
    ),
    (
        b"header h { f : 8; g : 8; } next accept; action a() { } table t { default a(); } control { apply t { a { } } }",
        6,
        1,
        101,
    ),
    (b"header h { f : 0; } next accept; control { }", 7, 1, 16),
    (
        b"header h { f : 8; g : 129; } next accept; control { }",
        7,
        1,
        23,
    ),
    (
        b"header h { f : 8; g : 8; } next accept; meta { x : 128; y : 0x81; } control { }",
        7,
        1,
        61,
    ),
    (
        b"header h { f : 8; g : 8; } next accept; action b(p : 1, q : 340282366920938463463374607431768211455) { } control { }",
        7,
        1,
        61,
    ),
    (
        b"header h { f : 8; } next accept; header k { } next accept; control { }",
        8,
        1,
        41,
    ),
    (b"header h { f : 7; } next accept; control { }", 8, 1, 8),
    (
        b"header h { a : 128; b : 128; c : 128; d : 128; e : 8; } next accept; control { }",
        8,
        1,
        8,
    ),
    (b"header h { f : 8; } next h; control { }", 9, 1, 26),
    (
        b"header h { f : 8; } next accept; header k { f : 8; } next (f) { 1 : h; else : accept; } control { }",
        9,
        1,
        69,
    ),
    (
        b"header h { f : 8; } next k; header k { f : 8; } next (f) { 1 : accept; else : k; } control { }",
        9,
        1,
        79,
    ),
    (
        b"header h { f : 8; g : 8; } next accept; action b() { h.f = out_port; } control { }",
        10,
        1,
        60,
    ),
    (
        b"header h { f : 8; g : 8; } next accept; action b() { h.f = h.g + h.valid; } control { }",
        10,
        1,
        66,
    ),
    (
        b"header h { f : 8; g : 8; } next accept; action b(p : 9) { h.f = p; } control { }",
        10,
        1,
        65,
    ),
    (
        b"header h { f : 8; g : 8; } next accept; action b() { h.f = 256; } control { }",
        10,
        1,
        60,
    ),
    (
        b"header h { f : 8; g : 8; } next accept; action b() { h.f = h.g & 0x100; } control { }",
        10,
        1,
        66,
    ),
    (
        b"header h { f : 8; } next (f) { 255 : accept; 256 : reject; else : accept; } control { }",
        10,
        1,
        46,
    ),
    (
        b"header h { f : 8; } next (f) { 256 : i; else : accept; } header i { f : 16; } next (f) { 256 : reject; else : accept; } control { }",
        10,
        1,
        32,
    ),
    (
        b"header h { f : 8; } next (f) { 1 & 256 : reject; else : accept; } control { }",
        10,
        1,
        36,
    ),
    (
        b"header h { f : 8; g : 8; } next (f, g) { 1, 256 : reject; else : accept; } control { }",
        10,
        1,
        45,
    ),
    (
        b"header h { f : 8; g : 8; } next accept; control { if (drop == 2) { } }",
        10,
        1,
        63,
    ),
    (
        b"header h { f : 8; g : 8; } next accept; control { if (h.f & 256 == 1) { } }",
        10,
        1,
        61,
    ),
    (
        b"header h { f : 8; g : 8; } next accept; meta { w : 33; } action b() { meta.w = meta.w + 1; } control { }",
        11,
        1,
        87,
    ),
    (
        b"header h { f : 8; g : 8; } next accept; meta { w : 33; } action b() { meta.w = 1 - meta.w; } control { }",
        11,
        1,
        82,
    ),
    (
        b"header h { f : 8; g : 8; } next accept; action b() { in_port = 1; } control { }",
        12,
        1,
        54,
    ),
    (
        b"header h { f : 8; g : 8; } next accept; action a() { } table t { default a(); } control { apply t; if (drop == 0) { apply t; } }",
        13,
        1,
        123,
    ),
    (
        b"header h { f : 8; g : 8; } next accept; action a() { } table t { prefix h.f, h.g; actions a; size 1; default a(); } control { apply t; }",
        14,
        1,
        78,
    ),
    (
        b"header h { f : 8; g : 8; } next accept; action a() { } table t { exact h.f, h.g, h.f; actions a; size 1; default a(); } control { apply t; }",
        14,
        1,
        82,
    ),
    (
        b"header h { f : 8; } next accept; header i { f : 8; } next accept; action a() { } table t { exact h.f, i.f, h.f; actions a; size 1; default a(); } control { apply t; }",
        14,
        1,
        108,
    ),
    (
        b"header h { f : 8; g : 8; } next accept; action a() { } table t { ternary h.f, h.f; actions a; size 1; default a(); } control { apply t; }",
        14,
        1,
        79,
    ),
    (
        b"header h { f : 8; g : 8; } next (f, g, f) { else : accept; } control { }",
        14,
        1,
        40,
    ),
    (
        b"header h { f : 8; g : 8; } next accept; meta { a : 128; b : 128; c : 128; d : 128; e : 128; } action a() { } table t { exact meta.a, meta.b, meta.c, meta.d, meta.e, drop; actions a; size 1; default a(); } control { apply t; }",
        15,
        1,
        116,
    ),
    (
        b"header h { f : 8; g : 8; } next (f, g) { 1 : reject; else : accept; } control { }",
        17,
        1,
        42,
    ),
    (
        b"header h { f : 8; } next (f) { 1, 2 : reject; else : accept; } control { }",
        17,
        1,
        32,
    ),
    (
        b"header h { f : 8; g : 8; } next accept; action b(p : 9) { } table t { default b(); } control { apply t; }",
        17,
        1,
        79,
    ),
    (
        b"header h { f : 8; g : 8; } next accept; action b(p : 9) { } table t { default b(1, 2); } control { apply t; }",
        17,
        1,
        79,
    ),
    (
        b"header h { f : 8; g : 8; } next accept; action b(p : 9, q : 1) { } table t { default b(511, 2); } control { apply t; }",
        17,
        1,
        93,
    ),
    (b"", 18, 1, 1),
    (b"// nothing\ncontrol { }", 18, 1, 1),
    (
        b"header h { f : 8; g : 8; } next accept; action a() { } table t { exact h.f; actions a; size 0; default a(); } control { apply t; }",
        18,
        1,
        93,
    ),
    (
        b"header h { f : 8; g : 8; } next accept; action a() { } table t { exact h.f; actions a; size 1048577; default a(); } control { apply t; }",
        18,
        1,
        93,
    ),
    (b"header h { f : 8; g : 8; } next accept; \n", 19, 2, 1),
    (
        b"header h { f : 8; g : 8; } next accept; action a() { } table t { default a(); } table u { default a(); } control { apply t; }",
        20,
        1,
        87,
    ),
    (
        b"header h { f : 0; } next x; action a() { } action a() { }",
        5,
        1,
        51,
    ),
    (
        b"header h { f : 7; } next accept; control { apply t; }",
        6,
        1,
        50,
    ),
    (
        b"header h { f : 8; } next h; action b(p : 0) { in_port = 1; }",
        7,
        1,
        42,
    ),
    (
        b"header h { f : 8; g : 8; } next accept; action b() { h.f = 256; } action c() { h.f = 257; in_port = 1; } control { }",
        10,
        1,
        60,
    ),
    (
        b"header h { f : 8; g : 8; } next accept; action a() { } table t { default a(); } action b() { in_port = 3; } control { apply t; apply t; }",
        12,
        1,
        94,
    ),
    (
        b"header h { f : 8; g : 8; } next accept; control { apply t { nothing { } } apply u; }",
        6,
        1,
        57,
    ),
];

/// The same of a text whose middle part is repeated: what stands before it, the part, in which `#` is its number
/// from 0 on, how often, and what stands behind it.
type LongRow = (
    &'static [u8],
    &'static [u8],
    u16,
    &'static [u8],
    u8,
    u32,
    u32,
);

const LONG_FAULTS: [LongRow; 7] = [
    (
        b"header h { f : 8; g : 8; } next accept; action a0() { } action a1() { } action a2() { } action a3() { } action a4() { } action a5() { } action a6() { } action a7() { } action a8() { } action a9() { } action a10() { } action a11() { } action a12() { } action a13() { } action a14() { } table t { exact h.f; actions ",
        b"a#, ",
        14,
        b"a14; size 1; default a0(); } control { apply t; }",
        16,
        1,
        375,
    ),
    (
        b"header h { f : 8; g : 8; } next accept; action b(",
        b"p# : 1, ",
        16,
        b"p16 : 1) { } control { }",
        18,
        1,
        184,
    ),
    (
        b"header h { f : 8; g : 8; } next accept; action b() { ",
        b"drop = 1; ",
        64,
        b"drop = 0; } control { }",
        18,
        1,
        694,
    ),
    (
        b"",
        b"header h# { f : 8; } next accept; ",
        64,
        b"header h64 { f : 8; } next accept; control { }",
        18,
        1,
        2238,
    ),
    (
        b"header h { f : 8; g : 8; } next accept; ",
        b"action a#() { } ",
        256,
        b"action a256() { } control { }",
        18,
        1,
        4546,
    ),
    (
        b"header h { f : 8; g : 8; } next accept; meta { ",
        b"m# : 1; ",
        256,
        b"m256 : 1; } control { }",
        18,
        1,
        2498,
    ),
    (
        b"header h { f : 8; g : 8; } next accept; control { ",
        b"if (drop == 0) { } ",
        128,
        b"if (drop == 0) { } }",
        18,
        1,
        2483,
    ),
];

/// The code, the line and the column of a text's fault; None where it means a program, or memory is wanting.
fn fault_of(alloc: Global, text: &[u8]) -> Option<(u8, u32, u32)>
    requires { length text.now < 4294967295 }
{
    match answer(alloc, text) {
        Err(ProgramFault::At { code, line, column }) => Some((code, line, column)),
        _ => None,
    }
}

/// Compares the fault of a text.
fn tells(rt: &(impl Abort + AllocGlobal), text: &[u8], code: u8, line: u32, column: u32) {
    assert!(rt; text.len() < 10000000);
    let is_told = fault_of(rt.alloc(), text) == Some((code, line, column));
    assert!(rt; is_told, "not code {code} at {line}:{column}");
}

#[test]
fn tells_faults(rt: HostRuntime) {
    for &(text, code, line, column) in &FAULTS {
        tells(&rt, text, code, line, column);
    }
}

#[test]
fn tells_faults_of_long_texts(rt: HostRuntime) {
    for &(front, piece, times, back, code, line, column) in &LONG_FAULTS {
        let text = repeated(rt.alloc(), front, piece, times, back).expect(&rt, "memory");
        tells(&rt, text.as_slice(), code, line, column);
    }
}

/// A header of a very long name, with so many fields that its bits are too many.
fn long_header(alloc: Global) -> Result<Vec<u8>, AllocError> {
    let front = repeated(alloc, b"header ", b"h", 50000, b" { ")?;
    let back = b"} next accept; control { }";
    repeated(alloc, front.as_slice(), b"f# : 1; ", 50000, back)
}

#[test]
fn tells_of_a_long_name_with_many_fields(rt: HostRuntime) {
    let text = long_header(rt.alloc()).expect(&rt, "memory");
    tells(&rt, text.as_slice(), 8, 1, 8);
}

/// Names that are the same in different spaces are no fault.
const SPACES: &[u8] =
    b"header x { x : 8; } next accept; meta { x : 8; } action x(x : 8) { x.x = x; } table x { exact meta.x; actions x; size 1; default x(1); } control { apply x; }";

const PROGRAMS: [(&[u8], &str); 4] = [
    (REALISTIC, REALISTIC_SHOWN),
    (ARMS, ARMS_SHOWN),
    (TWINS, TWINS_SHOWN),
    (
        SPACES,
        "field in_port 9\nfield out_port 9\nfield drop 1\nfield x.valid 1\nfield x.x 8\nfield meta.x 8\nheader x valid 3 fields 4 bytes 1 select else accept\naction x params 8 f4=p0\ntable x exact key 5 actions 0 default 0 args 1 size 1 uncounted\nnode apply 0\n",
    ),
];

/// The lines of a text's program.
fn lines_of(alloc: Global, text: &[u8]) -> Result<String, ProgramFault>
    requires { length text.now < 4294967295 }
{
    let program = answer(alloc, text)?;
    match shown(alloc, &program) {
        Ok(lines) => Ok(lines),
        Err(_) => Err(ProgramFault::NoMemory),
    }
}

#[test]
fn reads_programs(rt: HostRuntime) {
    for &(text, want) in &PROGRAMS {
        assert!(rt; text.len() < 10000);
        let got = lines_of(rt.alloc(), text).expect(&rt, "a program");
        same_text(&rt, got.as_str(), want);
    }
}
