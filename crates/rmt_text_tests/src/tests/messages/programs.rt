//! Mistakes in programs.

use crate::tests::compare::same_bytes;
use crate::tests::messages::message;
use rmt_check::read_program;
use rmt_explain::ending::Texts;
use rmt_lexer::fault::ProgramFault;
use std::alloc::{AllocError, Global};
use std::process::Abort;
use std::test::*;

/// The last line that is printed for a program text.
fn program_line(alloc: Global, text: &[u8]) -> Result<String, AllocError> {
    if text.len() > 1_000_000 {
        return Ok(String::new(alloc));
    }
    match read_program(alloc, text) {
        Err(ProgramFault::At { code, line, column }) => {
            format!(in alloc; "bad program {code} line {line} column {column}\n")
        }
        _ => Ok(String::new(alloc)),
    }
}

/// A program's text, and its message.
type Row = (&'static str, &'static str);

/// What is told of a program text.
fn told(alloc: Global, text: &str) -> Result<Vec<u8>, AllocError> {
    let line = program_line(alloc, text.as_bytes())?;
    let texts = Texts {
        program: Some(text.as_bytes()),
        ..Texts::none()
    };
    message(alloc, &["compile", "p", "e", "i"], 4, line.as_str(), &texts)
}

/// Compares the message of each row's program.
fn compares(rt: &(impl Abort + AllocGlobal), rows: &[Row]) {
    for &(text, wanted) in rows {
        let told = told(rt.alloc(), text).expect(rt, "memory");
        same_bytes(rt, told.as_slice(), wanted);
    }
}

/// Bytes and words that the language doesn't have, and numbers that are too great.
const WORDS: [Row; 10] = [
    (
        "/* a */",
        "p:1:1: `/` begins no word, number or sign of the language: a comment begins with `//` and ends with its line
  1 | /* a */
    | ^
",
    ),
    (
        "# a",
        "p:1:1: `#` begins no word, number or sign of the language: a comment begins with `//`; nothing is included
  1 | # a
    | ^
",
    ),
    (
        "control { if (drop != 1) { } }",
        "p:1:20: `!` begins no word, number or sign of the language: there is only `==`: put what is done otherwise into `else`
  1 | control { if (drop != 1) { } }
    |                    ^
",
    ),
    (
        "header h { bit<8> f; }",
        "p:1:15: `<` begins no word, number or sign of the language: a width stands behind the name, as `kind : 16;`, and there is only `==` to compare
  1 | header h { bit<8> f; }
    |               ^
",
    ),
    (
        "@name",
        "p:1:1: `@` begins no word, number or sign of the language: there are no annotations
  1 | @name
    | ^
",
    ),
    (
        "control { \u{0} }",
        "p:1:11: a byte 0 begins no word, number or sign of the language: take it out, or put it behind `//`
  1 | control { ? }
    |           ^
",
    ),
    (
        "control { } \u{e9}",
        "p:1:13: the byte 0xc3 begins no word, number or sign of the language: take it out, or put it behind `//`
  1 | control { } ??
    |             ^
",
    ),
    (
        "\u{feff}control { }",
        "p:1:1: the text has a byte order mark here: save it without one
  1 | ???control { }
    | ^
",
    ),
    (
        "header h { f : 0x; }",
        "p:1:16: `0x` has no hexadecimal digit behind it: write one, as `0x0`
  1 | header h { f : 0x; }
    |                ^^
",
    ),
    (
        "header h { f : 340282366920938463463374607431768211456; }",
        "p:1:16: `340282366920938463463374607431768211456` is 2^128 or more: no field is wider than 128 bits
  1 | header h { f : 340282366920938463463374607431768211456; }
    |                ^^^^^^^^^^^^^^^^^^^^^^^^^^^^^^^^^^^^^^^
",
    ),
];

/// Words that stand where others are wanted.
const GRAMMAR: [Row; 22] = [
    (
        "control { } control { }",
        "p:1:13: `control` stands where the end of the text is wanted: nothing stands behind `control`
  1 | control { } control { }
    |             ^^^^^^^
",
    ),
    (
        "header h { f : 8; }",
        "p:1:20: the text ends where `next` is wanted
  1 | header h { f : 8; }
    |                    ^
",
    ),
    (
        "header next { }",
        "p:1:8: `next` stands where a name is wanted: the word is reserved, so take another name
  1 | header next { }
    |        ^^^^
",
    ),
    (
        "header h { f 8; }",
        "p:1:14: `8` stands where `:` is wanted
  1 | header h { f 8; }
    |              ^
",
    ),
    (
        "header h { f : a; }",
        "p:1:16: `a` stands where a number is wanted
  1 | header h { f : a; }
    |                ^
",
    ),
    (
        "header h { f : 8 }",
        "p:1:18: `}` stands where `;` is wanted
  1 | header h { f : 8 }
    |                  ^
",
    ),
    (
        "parser p { }",
        "p:1:1: `parser` stands where `header`, `meta`, `action`, `table`, `control` or the end of the text is wanted: there is no parser: each header says by `next` what follows it
  1 | parser p { }
    | ^^^^^^
",
    ),
    (
        "struct s { }",
        "p:1:1: `struct` stands where `header`, `meta`, `action`, `table`, `control` or the end of the text is wanted: declare fields that belong to no header in one `meta { }`
  1 | struct s { }
    | ^^^^^^
",
    ),
    (
        "table t { lpm h.f; }",
        "p:1:11: `lpm` stands where `exact`, `prefix`, `ternary` or `default` is wanted: write `prefix` before the field, for the longest prefix
  1 | table t { lpm h.f; }
    |           ^^^
",
    ),
    (
        "table t { key = h; }",
        "p:1:11: `key` stands where `exact`, `prefix`, `ternary` or `default` is wanted: write the kind and the fields: `exact h.f;`, `prefix h.f;` or `ternary h.f;`
  1 | table t { key = h; }
    |           ^^^
",
    ),
    (
        "table t { default_action = a; }",
        "p:1:11: `default_action` stands where `exact`, `prefix`, `ternary` or `default` is wanted: write `default NAME();`
  1 | table t { default_action = a; }
    |           ^^^^^^^^^^^^^^
",
    ),
    (
        "table t { exact h.f; actions a; size = 8; }",
        "p:1:38: `=` stands where a number is wanted: `=` stands in assignments alone: compare with `==`, and give sizes and lists without a sign
  1 | table t { exact h.f; actions a; size = 8; }
    |                                      ^
",
    ),
    (
        "control { t.apply(); }",
        "p:1:11: `t` stands where `apply`, `if` or `}` is wanted: write `apply NAME;` for `NAME.apply();`
  1 | control { t.apply(); }
    |           ^
",
    ),
    (
        "control { if (drop == 1) { } else if (drop == 0) { } }",
        "p:1:35: `if` stands where `{` is wanted: `else` takes a block: write `else { if (..) { } }`
  1 | control { if (drop == 1) { } else if (drop == 0) { } }
    |                                   ^^
",
    ),
    (
        "control { if (drop = 1) { } }",
        "p:1:20: `=` stands where `&` or `==` is wanted: `=` stands in assignments alone: compare with `==`, and give sizes and lists without a sign
  1 | control { if (drop = 1) { } }
    |                    ^
",
    ),
    (
        "action a() { h.f += 1; }",
        "p:1:18: `+` stands where `=` is wanted: an assignment has the form `h.f = h.g + 1;` with one operator
  1 | action a() { h.f += 1; }
    |                  ^
",
    ),
    (
        "action a() { h.f = h.g + 1 + 2; }",
        "p:1:28: `+` stands where `;` is wanted: an assignment has the form `h.f = h.g + 1;` with one operator
  1 | action a() { h.f = h.g + 1 + 2; }
    |                            ^
",
    ),
    (
        "action a() { mark(); }",
        "p:1:18: `(` stands where `.` is wanted: nothing is called here: write `apply t;` for a table, and `h.valid` for whether a header is there
  1 | action a() { mark(); }
    |                  ^
",
    ),
    (
        "action a() { return; }",
        "p:1:20: `;` stands where `.` is wanted
  1 | action a() { return; }
    |                    ^
",
    ),
    (
        "control { return; }",
        "p:1:11: `return` stands where `apply`, `if` or `}` is wanted: nothing returns early; use `if` and arms
  1 | control { return; }
    |           ^^^^^^
",
    ),
    (
        "control { apply t { hit apply u; } }",
        "p:1:25: `apply` stands where `{` is wanted
  1 | control { apply t { hit apply u; } }
    |                         ^^^^^
",
    ),
    (
        "header h { f : 8; } next (f) { 5 accept; }",
        "p:1:34: `accept` stands where `&`, `,` or `:` is wanted
  1 | header h { f : 8; } next (f) { 5 accept; }
    |                                  ^^^^^^
",
    ),
];

/// Texts of the right form that break a rule of the language.
const RULES: [Row; 13] = [
    (
        "header h { f : 8; } next accept; header h { f : 8; } next accept; control { }",
        "p:1:41: `h` stands a second time: rename this one or take it out; put all metadata into one `meta`
  1 | header h { f : 8; } next accept; header h { f : 8; } next accept; control { }
    |                                         ^
p:1:8: `h` is declared here first
  1 | header h { f : 8; } next accept; header h { f : 8; } next accept; control { }
    |        ^
",
    ),
    (
        "header h { f : 8; } next k; control { }",
        "p:1:26: `k` is declared nowhere that counts here: declare it, or mend its spelling
  1 | header h { f : 8; } next k; control { }
    |                          ^
",
    ),
    (
        "header h { f : 0; } next accept; control { }",
        "p:1:16: the width `0` is not from 1 to 128 bits: use a width from 1 to 128, or split the field
  1 | header h { f : 0; } next accept; control { }
    |                ^
",
    ),
    (
        "header h { f : 7; } next accept; control { }",
        "p:1:8: header `h` has no bit, more than 512 bits, or no whole number of bytes: fill it up to whole bytes, or split it in two
  1 | header h { f : 7; } next accept; control { }
    |        ^
",
    ),
    (
        "header h { f : 8; } next h; control { }",
        "p:1:26: a header goes on to `h`, which is declared at or before it: declare the next header behind this one
  1 | header h { f : 8; } next h; control { }
    |                          ^
",
    ),
    (
        "header h { f : 8; } next accept; action b() { h.f = 256; } control { }",
        "p:1:53: `256` does not fit `h.f`, which has 8 bits: use a field, parameter or number of the field's width
  1 | header h { f : 8; } next accept; action b() { h.f = 256; } control { }
    |                                                     ^^^
p:1:12: `f` is declared here
  1 | header h { f : 8; } next accept; action b() { h.f = 256; } control { }
    |            ^
",
    ),
    (
        "header h { f : 8; } next accept; action b() { in_port = 1; } control { }",
        "p:1:47: `in_port` is the port that the packet came on, and can't be assigned: assign `out_port` or another field
  1 | header h { f : 8; } next accept; action b() { in_port = 1; } control { }
    |                                               ^^^^^^^
",
    ),
    (
        "header h { f : 8; } next accept; action a() { } table t { default a(); } control { apply t; apply t; }",
        "p:1:99: table `t` is applied a second time: declare a second table for this place
  1 | ..n a() { } table t { default a(); } control { apply t; apply t; }
    |                                                               ^
",
    ),
    (
        "",
        "p:1:1: at this place a count of the language is passed: keep to 1 to 64 headers, 256 actions, 16 parameters, 64 assignments, 256 metadata fields, 128 `apply`s and `if`s, and sizes from 1 to 1,048,576
  1 | 
    | ^
",
    ),
    (
        "header h { f : 8; } next accept;",
        "p:1:33: the text ends without a `control`: write one, if need be `control { }`
  1 | header h { f : 8; } next accept;
    |                                 ^
",
    ),
    (
        "header h { f : 8; } next accept; action a() { } table t { default a(); } control { }",
        "p:1:55: table `t` is never applied: apply it in `control`, or take it out
  1 | header h { f : 8; } next accept; action a() { } table t { default a(); } control { }
    |                                                       ^
",
    ),
    (
        "header k { n : 4; z : 4; tail n * 5 - 4; } next accept; control { }",
        "p:1:26: the length of the tail can't be told from its field: use a field of at most 8 bits, a unit from 1 to 255 and a base up to 255 with which its greatest value makes 0 to 64 bytes
  1 | header k { n : 4; z : 4; tail n * 5 - 4; } next accept; control { }
    |                          ^^^^
",
    ),
    (
        "control {if (drop == 1) {
if (drop == 1) {
if (drop == 1) {
if (drop == 1) {
if (drop == 1) {
if (drop == 1) {
if (drop == 1) {
if (drop == 1) {
if (drop == 1) {
if (drop == 1) {
if (drop == 1) {
if (drop == 1) {
if (drop == 1) {
if (drop == 1) {
if (drop == 1) {
if (drop == 1) {
if (drop == 1) {
if (drop == 1) {
if (drop == 1) {
if (drop == 1) {
if (drop == 1) {
if (drop == 1) {
if (drop == 1) {
if (drop == 1) {
if (drop == 1) {
if (drop == 1) {
if (drop == 1) {
if (drop == 1) {
if (drop == 1) {
if (drop == 1) {
if (drop == 1) {
if (drop == 1) {",
        "p:32:16: this block stands inside 32 others: use tables' arms or fewer nested `if`s
  32 | if (drop == 1) {
     |                ^
",
    ),
];

/// Rules again: names that stand twice, widths that differ, values and keys.
const SECOND: [Row; 19] = [
    (
        "meta { a : 8; } meta { b : 8; } control { }",
        "p:1:17: `meta` stands a second time: rename this one or take it out; put all metadata into one `meta`
  1 | meta { a : 8; } meta { b : 8; } control { }
    |                 ^^^^
",
    ),
    (
        "action a() { }\naction b() { }\naction a() { }\ncontrol { }",
        "p:3:8: `a` stands a second time: rename this one or take it out; put all metadata into one `meta`
  3 | action a() { }
    |        ^
p:1:8: `a` is declared here first
  1 | action a() { }
    |        ^
",
    ),
    (
        "header h { f : 8; g : 8; } next accept;
action a() { }
table t { exact h.f; actions a, a; size 1; default a(); }
control { apply t; }",
        "p:3:33: `a` stands a second time: rename this one or take it out; put all metadata into one `meta`
  3 | table t { exact h.f; actions a, a; size 1; default a(); }
    |                                 ^
",
    ),
    (
        "header h { f : 8; w : 16; } next accept;\naction b() {\n  h.f = h.w;\n}\ncontrol { }",
        "p:3:9: `h.w` has 16 bits, and `h.f` has 8: use a field, parameter or number of the field's width
  3 |   h.f = h.w;
    |         ^
p:1:12: `f` is declared here
  1 | header h { f : 8; w : 16; } next accept;
    |            ^
p:1:19: `w` is declared here
  1 | header h { f : 8; w : 16; } next accept;
    |                   ^
",
    ),
    (
        "header h { f : 8; w : 16; } next accept;
action b(p : 9) {
  h.f = h.f + p;
}
control { }",
        "p:3:15: `p` has 9 bits, and `h.f` has 8: use a field, parameter or number of the field's width
  3 |   h.f = h.f + p;
    |               ^
p:1:12: `f` is declared here
  1 | header h { f : 8; w : 16; } next accept;
    |            ^
p:2:10: `p` is declared here
  2 | action b(p : 9) {
    |          ^
",
    ),
    (
        "header h { f : 8; w : 16; } next accept;
action b() { out_port = drop; } control { }",
        "p:2:25: `drop` has 1 bit, and `out_port` has 9: use a field, parameter or number of the field's width
  2 | action b() { out_port = drop; } control { }
    |                         ^^^^
",
    ),
    (
        "header h { f : 8; w : 16; } next (w, f) { 1, 2 : accept; 3, 256 : accept; else : reject; } control { }",
        "p:1:61: `256` does not fit `h.f`, which has 8 bits: use a field, parameter or number of the field's width
  1 | header h { f : 8; w : 16; } next (w, f) { 1, 2 : accept; 3, 256 : accept; else : reject; } control {..
    |                                                             ^^^
p:1:12: `f` is declared here
  1 | header h { f : 8; w : 16; } next (w, f) { 1, 2 : accept; 3, 256 : accept; else : reject; } control {..
    |            ^
",
    ),
    (
        "header h { f : 8; w : 16; } next accept;\ncontrol { if (h.f & 0x1ff == 1) { } }",
        "p:2:21: `0x1ff` does not fit `h.f`, which has 8 bits: use a field, parameter or number of the field's width
  2 | control { if (h.f & 0x1ff == 1) { } }
    |                     ^^^^^
p:1:12: `f` is declared here
  1 | header h { f : 8; w : 16; } next accept;
    |            ^
",
    ),
    (
        "header h { f : 8; g : 8; } next accept;
meta { wide : 33; }
action b() { meta.wide = meta.wide + 1; }
control { }",
        "p:3:36: `+` assigns a field of more than 32 bits: split the field, or use `&`, `|` or `^`
  3 | action b() { meta.wide = meta.wide + 1; }
    |                                    ^
",
    ),
    (
        "header h { f : 8; g : 8; } next accept;
action a() { }
table t { prefix h.f, h.g; actions a; size 1; default a(); }
control { apply t; }",
        "p:3:23: at `h` the key has a second field behind a prefix, or a field twice: use `ternary` for more fields, and name each field once
  3 | table t { prefix h.f, h.g; actions a; size 1; default a(); }
    |                       ^
",
    ),
    (
        "header h { f : 8; g : 8; } next accept;
action a() { }
table t { exact h.f, h.f; actions a; size 1; default a(); }
control { apply t; }",
        "p:3:22: at `h` the key has a second field behind a prefix, or a field twice: use `ternary` for more fields, and name each field once
  3 | table t { exact h.f, h.f; actions a; size 1; default a(); }
    |                      ^
",
    ),
    (
        "header h { f : 8; g : 8; } next accept;
action a() { }
meta { p : 128; q : 128; r : 128; s : 128; t : 128; }
table k { exact meta.p, meta.q, meta.r, meta.s, meta.t, drop; actions a; size 1; default a(); }
control { apply k; }",
        "p:4:7: the key of table `k` has more than 640 bits: leave fields out of the key
  4 | table k { exact meta.p, meta.q, meta.r, meta.s, meta.t, drop; actions a; size 1; default a(); }
    |       ^
",
    ),
    (
        "header h { f : 8; g : 8; } next accept;
action a0() { } action a1() { } action a2() { } action a3() { } action a4() { } action a5() { } action a6() { } action a7() { } action a8() { } action a9() { } action a10() { } action a11() { } action a12() { } action a13() { } action a14() { }
table t { exact h.f; actions a0, a1, a2, a3, a4, a5, a6, a7, a8, a9, a10, a11, a12, a13, a14; size 1; default a0(); }
control { apply t; }",
        "p:3:90: action `a14` is the 15th of its table, which may list 14: split the table in two
  3 | ..a0, a1, a2, a3, a4, a5, a6, a7, a8, a9, a10, a11, a12, a13, a14; size 1; default a0(); }
    |                                                               ^^^
",
    ),
    (
        "header h { f : 8; g : 8; } next accept;
action b(p : 9) { }
table t { default b(); }
control { apply t; }",
        "p:3:19: at `b` the number of values or arguments is wrong, or one does not fit its width: give one for each name or parameter, each within its width
  3 | table t { default b(); }
    |                   ^
",
    ),
    (
        "header h { f : 8; g : 8; } next accept;
action b(p : 9) { }
table t { default b(512); }
control { apply t; }",
        "p:3:21: at `512` the number of values or arguments is wrong, or one does not fit its width: give one for each name or parameter, each within its width
  3 | table t { default b(512); }
    |                     ^^^
",
    ),
    (
        "header h { f : 8; g : 8; } next (f, g) { 1 : accept; else : reject; } control { }",
        "p:1:42: at `1` the number of values or arguments is wrong, or one does not fit its width: give one for each name or parameter, each within its width
  1 | header h { f : 8; g : 8; } next (f, g) { 1 : accept; else : reject; } control { }
    |                                          ^
",
    ),
    (
        "header h { f : 8; g : 8; } next accept;
action a() { }
table t { exact h.f; actions a; size 0; default a(); }
control { apply t; }",
        "p:3:38: at `0` a count of the language is passed: keep to 1 to 64 headers, 256 actions, 16 parameters, 64 assignments, 256 metadata fields, 128 `apply`s and `if`s, and sizes from 1 to 1,048,576
  3 | table t { exact h.f; actions a; size 0; default a(); }
    |                                      ^
",
    ),
    (
        "header h { f : 8; g : 8; } next accept;\ncontrol { apply u; }",
        "p:2:17: `u` is declared nowhere that counts here: declare it, or mend its spelling
  2 | control { apply u; }
    |                 ^
",
    ),
    (
        "header h { f : 8; g : 8; } next accept;\naction b() { h.k = 1; } control { }",
        "p:2:16: `k` is declared nowhere that counts here: declare it, or mend its spelling
  2 | action b() { h.k = 1; } control { }
    |                ^
",
    ),
];

#[test]
fn words_of_no_meaning(rt: HostRuntime) {
    compares(&rt, &WORDS);
}

#[test]
fn words_in_wrong_places(rt: HostRuntime) {
    compares(&rt, &GRAMMAR);
}

#[test]
fn broken_rules(rt: HostRuntime) {
    compares(&rt, &RULES);
}

#[test]
fn names_widths_and_values(rt: HostRuntime) {
    compares(&rt, &SECOND);
}
