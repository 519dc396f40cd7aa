//! Actions of program texts, folded and as instructions.

ghost use Rattle.std.specs.Prelude.{◌<◌, length};
ghost use Rattle.rmt_ast.specs.WellFormed.{IsProgram};

use rmt_ast::program::Program;
use rmt_bits::fault::OutOfMemory;
use rmt_config::config::{OpKind, Operation, Source, Vliw};
use rmt_phv::pack_fields;
use rmt_tests::fixtures::shown::push_assigns;
use rmt_tests::fixtures::texts::program_of;
use rmt_vliw::fault::{ActionDeep, VliwFault};
use rmt_vliw::{default_instruction, fold_action, instruction};
use std::alloc::{AllocError, Global};
use std::process::Abort;
use std::test::*;

/// The widths of the parameters and the values of the first action of a text, folded; or which field is too deep.
fn folded(alloc: Global, text: &[u8]) -> Result<String, AllocError>
    requires { length text.now < 4294967295 }
{
    let Ok(program) = program_of(alloc, text) else {
        return Err(AllocError);
    };
    if program.actions.is_empty() {
        return Err(AllocError);
    }
    match fold_action(alloc, &program, 0) {
        Ok(folded) => {
            let mut out = String::new(alloc);
            for width in folded.params.as_slice() {
                write!(out, " {width}")?;
            }
            push_assigns(&mut out, folded.values.as_slice())?;
            Ok(out)
        }
        Err(ActionDeep::At { action, field }) => format!(in alloc; "deep {action} {field}"),
        Err(ActionDeep::NoMemory) => Err(AllocError),
    }
}

/// The instruction of an action of a program, where its fields are packed.
fn instruction_in(alloc: Global, program: &Program, action: u32) -> Result<Vliw, VliwFault>
    requires program { IsProgram program.now }
    requires action { action < length program.now.actions }
{
    let Ok(folded) = fold_action(alloc, program, action) else {
        return Err(OutOfMemory::NoMemory);
    };
    let Ok(places) = pack_fields(alloc, program) else {
        return Err(OutOfMemory::NoMemory);
    };
    instruction(alloc, program, &folded, &places)
}

/// The instruction of the default of a program's table.
fn default_in(alloc: Global, program: &Program, table: usize) -> Result<Vliw, VliwFault>
    requires program { IsProgram program.now }
    requires table { table < length program.now.tables }
{
    let table = &program.tables.as_slice()[table];
    let Ok(folded) = fold_action(alloc, program, table.default) else {
        return Err(OutOfMemory::NoMemory);
    };
    let Ok(places) = pack_fields(alloc, program) else {
        return Err(OutOfMemory::NoMemory);
    };
    default_instruction(alloc, program, &folded, &table.args, &places)
}

/// The instruction of the first action of a text.
fn first_instruction(alloc: Global, text: &[u8]) -> Result<Vliw, VliwFault>
    requires { length text.now < 4294967295 }
{
    let Ok(program) = program_of(alloc, text) else {
        return Err(OutOfMemory::NoMemory);
    };
    if program.actions.is_empty() {
        return Err(OutOfMemory::NoMemory);
    }
    instruction_in(alloc, &program, 0)
}

/// The instruction of the default of the first table of a text.
fn first_default(alloc: Global, text: &[u8]) -> Result<Vliw, VliwFault>
    requires { length text.now < 4294967295 }
{
    let Ok(program) = program_of(alloc, text) else {
        return Err(OutOfMemory::NoMemory);
    };
    if program.tables.is_empty() {
        return Err(OutOfMemory::NoMemory);
    }
    default_in(alloc, &program, 0)
}

/// A text, and what its first action folds to. Fields 4, 5 and 6 are h.a, h.b and h.c, and field 7 is meta.x.
const FOLDED: [(&[u8], &str); 4] = [
    // a swap through metadata
    (
        b"header h { a : 8; b : 8; c : 8; } next accept; meta { x : 8; } action swap() { meta.x = h.a; h.a = h.b; h.b = meta.x; } control { }",
        " f7=f4 f4=f5 f5=f4",
    ),
    // both fields are set to h.b
    (
        b"header h { a : 8; b : 8; } next accept; action copy() { h.a = h.b; h.b = h.a; } control { }",
        " f4=f5 f5=f5",
    ),
    // a field that is written twice
    (
        b"header h { a : 8; b : 8; } next accept; action twice(p : 8) { h.a = h.a + h.b; h.a = h.a + p; h.b = 3; h.a = h.b ^ p; } control { }",
        " 8 f4=n3^p0 f5=n3",
    ),
    // h.b is set to the sum of three fields
    (
        b"header h { a : 8; b : 8; c : 8; } next accept; action deep() { h.a = h.a + h.b; h.b = h.a + h.c; } control { }",
        "deep 0 5",
    ),
];

#[test]
fn folds(rt: HostRuntime) -> Result<(), Fail> {
    for &(text, wanted) in &FOLDED {
        assert!(rt; text.len() < 10000);
        let got = folded(rt.alloc(), text)?;
        assert!(rt; got.as_str() == wanted, "told {got}");
    }
    Ok(())
}

/// A field of 32 bits in a word of its own that is copied from another.
fn copied(word: u8, from: u8) -> Operation {
    Operation {
        word,
        low: 0,
        len: 32,
        kind: OpKind::Copy,
        left: Source::Word { word: from, low: 0 },
        right: Source::Constant { value: 0 },
    }
}

/// Two fields of 128 bits in four words each.
#[test]
fn copies_128_bits(rt: HostRuntime) -> Result<(), Fail> {
    let copy = first_instruction(
        rt.alloc(),
        b"header h { a : 128; b : 128; } next accept; action copy() { h.a = h.b; } control { }",
    )?;
    assert!(rt;
        copy.ops.as_slice()
            == [
                copied(160, 164),
                copied(161, 165),
                copied(162, 166),
                copied(163, 167)
            ]
            .as_slice()
    );
    Ok(())
}

/// `out_port` and a field of 64 bits, set to parameters of 9 and 64 bits: `out_port` stands in word 65, the field in words
/// 160 and 161.
const SEND: &[u8] =
    b"header h { a : 64; } next accept; action send(p : 9, q : 64) { h.a = q; out_port = p; } table t { default send(3, 30064771083); } control { apply t; }";

/// A value that is put into the low bits of a word.
fn put(word: u8, len: u8, left: Source) -> Operation {
    Operation {
        word,
        low: 0,
        len,
        kind: OpKind::Copy,
        left,
        right: Source::Constant { value: 0 },
    }
}

/// Compares an instruction with one that puts values into `out_port` and into both words of the field.
fn sends(rt: &impl Abort, send: &Vliw, port: Source, high: Source, low: Source) {
    let wanted = [put(65, 9, port), put(160, 32, high), put(161, 32, low)];
    assert!(rt; send.ops.as_slice() == wanted.as_slice());
}

#[test]
fn reads_parameters(rt: HostRuntime) -> Result<(), Fail> {
    let send = first_instruction(rt.alloc(), SEND)?;
    let port = Source::Held { low: 0 };
    let high = Source::Held { low: 9 };
    sends(&rt, &send, port, high, Source::Held { low: 41 });
    Ok(())
}

#[test]
fn takes_arguments(rt: HostRuntime) -> Result<(), Fail> {
    let send = first_default(rt.alloc(), SEND)?;
    let port = Source::Constant { value: 3 };
    let high = Source::Constant { value: 11 };
    sends(&rt, &send, port, high, Source::Constant { value: 7 });
    Ok(())
}
