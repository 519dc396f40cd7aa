//! The names of programs with their entries, and copies of entries and of names.

ghost use Rattle.std.specs.Prelude.{◌<◌, length};

use crate::tests::compare::same_text;
use rmt_ast::names::{Names, TableName};
use rmt_ast::naming::names_of;
use rmt_entries::entries;
use rmt_tests::fixtures::programs::STRICT_AND_WEAK;
use rmt_tests::fixtures::shown::push_name;
use rmt_tests::fixtures::texts::program_of;
use std::alloc::{AllocError, Global};
use std::process::Abort;
use std::test::*;

/// A table of each kind behind an `if`, applied in another order than they are declared in.
const EACH_KIND: &[u8] = b"header h { f : 8; d : 32; } next accept;
action go(p : 9) { out_port = p; }
action two(a : 8, b : 32) { h.f = a; h.d = b; }
action no() { }
table x { exact h.f, h.d; actions two, go; size 4; default no(); }
table r { prefix h.d; actions go; size 1024; counted; default go(0); }
table t { ternary h.f; actions no, go; size 8; default no(); }
control { if (h.f == 1) { apply t; } apply r; apply x; }
";

/// Writes the names of a table on a line: its node, name, kind and size, the widths of its key, its actions with their
/// widths, and its ranks.
fn push_table(out: &mut String, table: &TableName) -> Result<(), AllocError> {
    write!(out, "{} ", table.node)?;
    push_name(out, &table.name)?;
    write!(out, " {:?} {} of", table.kind, table.size)?;
    push_widths(out, table.keys.as_slice())?;
    for action in table.actions.as_slice() {
        out.push_str(", ")?;
        push_name(out, &action.name)?;
        push_widths(out, action.params.as_slice())?;
    }
    for rank in table.ranks.as_slice() {
        write!(out, ", #{} rank {}", rank.number, rank.rank)?;
    }
    out.push_str("\n")
}

/// Writes widths, each behind a space.
fn push_widths(out: &mut String, widths: &[u8]) -> Result<(), AllocError> {
    for width in widths {
        write!(out, " {width}")?;
    }
    Ok(())
}

/// Writes names, a table a line.
fn push_names(out: &mut String, names: &Names) -> Result<(), AllocError> {
    for table in names.tables.as_slice() {
        push_table(out, table)?;
    }
    Ok(())
}

/// Texts of a program and its entries, and the names that they have.
type Row = (&'static [u8], &'static [u8], &'static str);

const ROWS: [Row; 4] = [
    (
        b"header h { f : 8; } next accept; action send() { out_port = 1; } table t { default send(); } control { apply t; }",
        b"",
        "",
    ),
    (STRICT_AND_WEAK, b"b 7 go 5", "1 b Exact 16 of 8, go 9\n"),
    (
        EACH_KIND,
        b"",
        "1 t Ternary 8 of 8, no, go 9\n2 r Prefix 1024 of 32, go 9\n3 x Exact 4 of 8 32, two 8 32, go 9\n",
    ),
    (
        EACH_KIND,
        b"t 30 0x10&0xf0 no\nr 0/0 go 1\nt 20 7 go 2\nx 1 2 two 3 4\nt 20 * go 3\nt 4294967295 * no\n",
        "1 t Ternary 8 of 8, no, go 9, #2 rank 20, #4 rank 20, #0 rank 30, #5 rank 4294967295\n2 r Prefix 1024 of 32, go 9\n3 x Exact 4 of 8 32, two 8 32, go 9\n",
    ),
];

/// A copy of the names that a program has with a copy of its entries.
fn copied(rt: &(impl Abort + AllocGlobal), program: &[u8], text: &[u8]) -> Names
    requires program { length program.now < 4294967295 }
    requires entries { length text.now < 4294967295 }
{
    let alloc = rt.alloc();
    let program = program_of(alloc, program).expect(rt, "a program");
    let lists = entries(alloc, &program, text).expect(rt, "entries");
    let lists = lists.copy(alloc).expect(rt, "memory");
    assert!(rt; program.nodes.len() <= 128);
    let names = names_of(alloc, &program, &lists).expect(rt, "memory");
    names.copy(alloc).expect(rt, "memory")
}

#[test]
fn tells_names(rt: HostRuntime) {
    for &(program, text, wanted) in &ROWS {
        assert!(rt; program.len() < 10000 && text.len() < 10000);
        let mut told = String::new(rt.alloc());
        let names = copied(&rt, program, text);
        push_names(&mut told, &names).expect(&rt, "memory");
        same_text(&rt, told.as_str(), wanted);
    }
}
