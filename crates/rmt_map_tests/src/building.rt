//! Programs with their entries through the whole back end, as lines: what the chip is configured with, or why the program
//! doesn't fit. The lines are worked out by hand from the rules.

ghost use Rattle.std.specs.Prelude.{◌<◌, All, IsTrue};
ghost use Rattle.rmt_ast.specs.declared.entry.Entry.{Entry as EntryOf};

use crate::layouts::programs::{CROSSBAR, LARGE_TABLES, SPLIT_TERNARY, TWO_FIELDS_ONE_WORD};
use crate::layouts::{HITS, long_chain, push_hits, push_parts, push_proof};
use rmt_ast::entry::{Entry, EntryLists};
use rmt_build::build;
use rmt_build::built::Built;
use rmt_build::fault::NoFit;
use rmt_config::config::{Config, Memory, SlotUnit, Unit};
use rmt_entries::entries;
use rmt_phv::places::Places;
use rmt_refine::map::CellOf;
use rmt_tests::fixtures::programs::{REALISTIC, STRICT_AND_WEAK};
use rmt_tests::fixtures::texts::{program_of, repeated};
use std::alloc::{AllocError, Global};
use std::process::Abort;
use std::test::*;

/// What is told of a program that fits.
#[derive(Clone, Copy)]
enum What {
    /// Its parts as `node@stage*quanta`, the starts of its stages (a packet leaves 12 cycles behind the last), and its
    /// bound with the proof.
    Plan,
    /// How many states and entries its parser has.
    Parser,
    /// Its lanes, as `field:word:low:len`.
    Places,
    /// The exact memories, as `node@stage:width*per*quanta`.
    Memories,
    /// The cells of its entries, as `entry@stage:cell`.
    Cells,
    /// The seed of its exact tables.
    Seed,
}

fn push_plan(out: &mut String, built: &Built) -> Result<(), AllocError> {
    push_parts(out, built.map.placement.parts.as_slice())?;
    out.push_str("starts")?;
    for stage in built.config.stages.as_slice() {
        write!(out, " {}", stage.start)?;
    }
    out.push_str("\n")?;
    push_proof(out, &built.bound)
}

fn push_places(out: &mut String, places: &Places) -> Result<(), AllocError> {
    out.push_str("places")?;
    for (field, lanes) in places.as_slice().iter().enumerate() {
        for lane in lanes.as_slice() {
            write!(out, " {field}:{}:{}:{}", lane.word, lane.low, lane.len)?;
        }
    }
    out.push_str("\n")
}

fn push_memory(out: &mut String, stage: usize, slot: &SlotUnit) -> Result<(), AllocError> {
    if let Memory::Exact {
        width,
        per,
        quanta,
        ..
    } = &slot.memory
    {
        write!(out, " {}@{stage}:{width}*{per}*{quanta}", slot.node)?;
    }
    Ok(())
}

fn push_memories(out: &mut String, config: &Config) -> Result<(), AllocError> {
    out.push_str("memories")?;
    for (number, stage) in config.stages.as_slice().iter().enumerate() {
        for unit in stage.units.as_slice() {
            if let Unit::Slot(slot) = unit {
                push_memory(out, number, slot)?;
            }
        }
    }
    out.push_str("\n")
}

fn push_cells(out: &mut String, cells: &[CellOf]) -> Result<(), AllocError> {
    out.push_str("cells")?;
    for cell in cells {
        write!(out, " {}@{}:{}", cell.entry, cell.stage, cell.cell)?;
    }
    out.push_str("\n")
}

fn push_built(out: &mut String, built: &Built, what: What) -> Result<(), AllocError> {
    let parser = &built.config.parser;
    match what {
        What::Plan => push_plan(out, built),
        What::Parser => write!(
            out,
            "states {} entries {}\n",
            parser.states.len(),
            parser.entries.len()
        ),
        What::Places => push_places(out, &built.map.places),
        What::Memories => push_memories(out, &built.config),
        What::Cells => push_cells(out, built.map.cells.as_slice()),
        What::Seed => write!(out, "seed {}\n", built.config.seed),
    }
}

/// Why a program doesn't fit; of keys that aren't loaded, whether they are more than their cells.
fn push_fault(out: &mut String, fault: &NoFit) -> Result<(), AllocError> {
    match fault {
        NoFit::NoMemory => Err(AllocError),
        NoFit::Lookup { header, bytes } => write!(out, "lookup {header} {bytes}\n"),
        NoFit::Step { header, extracts } => write!(out, "step {header} {extracts}\n"),
        NoFit::Parser { entries } => write!(out, "parser {entries}\n"),
        NoFit::Action { action, field } => write!(out, "action {action} {field}\n"),
        NoFit::Phv { field, class } => write!(out, "phv {field} {class}\n"),
        NoFit::Stage { node, hits } => push_hits(out, *node, hits.as_slice()),
        NoFit::Load {
            table,
            members,
            cells,
        } => {
            let are_more = u64::from(*members) > *cells;
            write!(out, "load {table} {are_more}\n")
        }
    }
}

/// Whether the numbers of a table's entries leave room for those of changes.
fn have_low_numbers(entries: &[Entry]) -> bool
    ensures { IsTrue result → All (λ (e : EntryOf). e.number < 4293918720) entries.now }
{
    entries.iter().all(|entry| entry.number < 4_293_918_720)
}

/// Whether those of all entries do.
fn all_have_low_numbers(lists: &EntryLists) -> bool
    ensures { IsTrue result → All (λ es. All (λ (e : EntryOf). e.number < 4293918720) es) lists.now }
{
    lists
        .as_slice()
        .iter()
        .all(|list| have_low_numbers(list.as_slice()))
}

/// What is told of the program of a text with the entries of another; an error also where there is none.
fn told(alloc: Global, text: &[u8], lines: &[u8], what: What) -> Result<String, AllocError> {
    if text.len() > 100000 || lines.len() > 100000 {
        return Err(AllocError);
    }
    let Ok(program) = program_of(alloc, text) else {
        return Err(AllocError);
    };
    let Ok(lists) = entries(alloc, &program, lines) else {
        return Err(AllocError);
    };
    if !all_have_low_numbers(&lists) {
        return Err(AllocError);
    }
    let mut out = String::new(alloc);
    match build(alloc, &program, &lists) {
        Ok(built) => push_built(&mut out, &built, what)?,
        Err(fault) => push_fault(&mut out, &fault)?,
    }
    Ok(out)
}

/// Compares what is told.
fn compare(rt: &(impl Abort + AllocGlobal), text: &[u8], lines: &[u8], what: What, wanted: &str) {
    let got = told(rt.alloc(), text, lines, what).expect(rt, "a program with entries");
    assert!(rt; got.as_str() == wanted, "told {got}");
}

/// A table of prefixes.
const PREFIX: &[u8] = b"
header h { d : 32; } next accept;
action go(p : 9) { out_port = p; }
table r { prefix h.d; actions go; size 1024; counted; default go(0); }
control { apply r; }
";

const PREFIXES: &[u8] =
    b"r 0/0 go 1\nr 0x0a000000/8 go 2\nr 0x0a000100/24 go 3\nr 0x0a000105/32 go 4\n";

/// Two exact tables.
const TWO_EXACT: &[u8] = b"
header h { f : 24; g : 16; } next accept;
action no() { }
table a { exact h.g; actions no; size 16; counted; default no(); }
table b { exact h.f; actions no; size 16; counted; default no(); }
control { apply a; apply b; }
";

/// The five keys of `b` have the same four cells under seed 0.
const FIVE_OF_FOUR: &[u8] =
    b"a 1 no\nb 0x600000 no\nb 0x640000 no\nb 0x680000 no\nb 0x6c0000 no\nb 0x700000 no\n";

/// The six keys of `a` have the same four cells under each seed.
const SIX_OF_FOUR: &[u8] = b"b 1 no\na 0 no\na 4 no\na 8 no\na 12 no\na 16 no\na 20 no\n";

/// Two fields of which an action leaves sums of two fields in one, and of three in the other.
const DEEP: &[u8] = b"
header h { a : 8; b : 8; c : 8; } next accept;
action no() { }
action deep() { h.a = h.a + h.b; h.b = h.a + h.c; }
table t { default deep(); }
control { apply t; }
";

/// A header that selects by two fields of 24 bits.
const WIDE_SELECT: &[u8] = b"
header h { a : 24; b : 24; } next (a, b) { 1, 2 : accept; else : reject; }
control { }
";

/// A text, the lines of its entries, and what is told.
type Row = (&'static [u8], &'static [u8], What, &'static str);

const ROWS: [Row; 14] = [
    (
        STRICT_AND_WEAK,
        b"b 7 go 5\n",
        What::Plan,
        "parts 0@0*1 1@1*1 2@1*1\nstarts 0 12\n2 chain 0 1\n",
    ),
    (
        TWO_FIELDS_ONE_WORD,
        b"",
        What::Plan,
        "parts 0@0*1 1@1*1\nstarts 0 3\n1 chain 0\n",
    ),
    (
        TWO_FIELDS_ONE_WORD,
        b"",
        What::Places,
        "places 0:64:0:9 1:65:0:9 2:0:0:1 3:0:1:1 4:0:2:2 5:0:4:2 6:1:0:4\n",
    ),
    (
        SPLIT_TERNARY,
        b"t 5 * * * * * go 1\nt 6 1 2&3 * * * go 2\n",
        What::Plan,
        "parts 0@0*1 0@1*1\nstarts 0 1\n2 chain 0\n",
    ),
    // the longest prefix first
    (
        PREFIX,
        PREFIXES,
        What::Cells,
        "cells 3@0:0 2@0:1 1@0:2 0@0:3\n",
    ),
    (
        LARGE_TABLES,
        b"",
        What::Plan,
        "parts 0@0*6 0@1*6 0@2*6 0@3*6 0@4*6 0@5*6 0@6*6 0@7*6 0@8*2 1@8*4 1@9*6 1@10*6 1@11*6 1@12*6 1@13*6 1@14*6 1@15*6 1@16*4\nstarts 0 1 2 3 4 5 6 7 8 9 10 11 12 13 14 15 16\n16 sram 1600\n",
    ),
    (
        LARGE_TABLES,
        b"",
        What::Memories,
        "memories 0@0:4*5*6 0@1:4*5*6 0@2:4*5*6 0@3:4*5*6 0@4:4*5*6 0@5:4*5*6 0@6:4*5*6 0@7:4*5*6 0@8:4*5*2 1@8:4*5*4 1@9:4*5*6 1@10:4*5*6 1@11:4*5*6 1@12:4*5*6 1@13:4*5*6 1@14:4*5*6 1@15:4*5*6 1@16:4*5*4\n",
    ),
    (
        REALISTIC,
        b"",
        What::Plan,
        "parts 0@0*1 1@0*1 2@0*1 3@0*1 4@0*1 5@1*1 6@2*1\nstarts 0 12 24\n3 chain 2 5 6\n",
    ),
    (REALISTIC, b"", What::Parser, "states 3 entries 13\n"),
    (TWO_EXACT, FIVE_OF_FOUR, What::Seed, "seed 1\n"),
    (TWO_EXACT, SIX_OF_FOUR, What::Seed, "load 0 true\n"),
    (WIDE_SELECT, b"", What::Parser, "lookup 0 6\n"),
    (DEEP, b"", What::Plan, "action 1 5\n"),
    (CROSSBAR, b"", What::Plan, HITS),
];

#[test]
fn programs(rt: HostRuntime) {
    for (text, lines, what, wanted) in &ROWS {
        compare(&rt, text, lines, *what, wanted);
    }
}

/// A text whose middle part is repeated, as by `repeated`; entries; and what is told.
type LongRow = (
    &'static [u8],
    &'static [u8],
    u16,
    &'static [u8],
    &'static [u8],
    &'static str,
);

/// What is full, and what could be refused at two places and is at the earlier one.
const LONG_ROWS: [LongRow; 12] = [
    (
        b"header h { f : 8; } next accept; meta { ",
        b"m# : 32; ",
        65,
        b"} control { }",
        b"",
        "phv 69 32\n",
    ),
    (
        b"header h { ",
        b"f# : 8; ",
        64,
        b"} next accept; control { }",
        b"",
        "step 0 65\n",
    ),
    (
        b"header h { f : 16; } next (f) { ",
        b"# : reject; ",
        256,
        b"else : accept; } control { }",
        b"",
        "parser 257\n",
    ),
    (
        b"header h { f : 16; } next (f) { ",
        b"# : reject; ",
        255,
        b"else : accept; } control { }",
        b"",
        "parts\nstarts\n0 chain\n",
    ),
    // a step of header 0 before a lookup of header 1
    (
        b"header h { ",
        b"f# : 8; ",
        64,
        b"} next g; header g { a : 24; b : 24; } next (a, b) { 1, 2 : accept; else : reject; } control { }",
        b"",
        "step 0 65\n",
    ),
    // a lookup of header 0 before a step of header 1
    (
        b"header g { a : 24; b : 24; } next (a, b) { 1, 2 : accept; else : h; } header h { ",
        b"f# : 8; ",
        64,
        b"} next accept; control { }",
        b"",
        "lookup 0 6\n",
    ),
    // a lookup before the parser
    (
        b"header h { a : 24; b : 24; } next (a, b) { ",
        b"#, 1 : reject; ",
        256,
        b"else : accept; } control { }",
        b"",
        "lookup 0 6\n",
    ),
    // the parser before an action
    (
        b"header h { a : 16; b : 16; c : 16; } next (a) { ",
        b"# : reject; ",
        256,
        b"else : accept; } action deep() { h.a = h.a + h.b; h.b = h.a + h.c; } table t { default deep(); } control { apply t; }",
        b"",
        "parser 257\n",
    ),
    // an action before a word
    (
        b"header h { a : 8; b : 8; c : 8; } next accept; meta { ",
        b"m# : 32; ",
        65,
        b"} action deep() { h.a = h.a + h.b; h.b = h.a + h.c; } table t { default deep(); } control { apply t; }",
        b"",
        "action 0 5\n",
    ),
    // a word before a stage: the field of the header takes a word of 32 bits, and the table more than all stages
    (
        b"header h { f : 41; g : 7; } next accept; meta { ",
        b"m# : 32; ",
        65,
        b"} action no() { } table t { ternary h.f; actions no; size 1048576; default no(); } control { apply t; }",
        b"",
        "phv 69 32\n",
    ),
    // a stage before a loading
    (
        b"header k1 { a : 128; b : 128; c : 128; d : 128; } next k2; header k2 { e : 32; f : 32; g : 32; i : 24; j : 8; } next k3; header k3 { m : 16; } next accept; action no() { } table t { exact k1.a, k1.b, k1.c, k1.d, k2.e, k2.f, k2.g, k2.i, k2.j; actions no; size 16; default no(); } ",
        b"table a# { exact k3.m; actions no; size 16; counted; default no(); } ",
        1,
        b"control { apply t; apply a0; }",
        b"a0 0 no\na0 4 no\na0 8 no\na0 12 no\na0 16 no\na0 20 no\n",
        HITS,
    ),
    // the same without the table that is stuck
    (
        b"header k3 { m : 16; } next accept; action no() { } ",
        b"table a# { exact k3.m; actions no; size 16; counted; default no(); } ",
        2,
        b"control { apply a0; apply a1; }",
        b"a0 0 no\na1 0 no\na1 4 no\na1 8 no\na1 12 no\na1 16 no\na1 20 no\n",
        "load 1 true\n",
    ),
];

#[test]
fn long_programs(rt: HostRuntime) {
    for (front, piece, times, back, lines, wanted) in &LONG_ROWS {
        let text = repeated(rt.alloc(), front, piece, *times, back).expect(&rt, "memory");
        compare(&rt, text.as_slice(), lines, What::Plan, wanted);
    }
}

/// The last of 33 tables, each of which looks at what the one before writes, would need a stage 32.
#[test]
fn chain_that_is_too_long(rt: HostRuntime) {
    let text = long_chain(rt.alloc(), 33).expect(&rt, "memory");
    compare(
        &rt,
        text.as_slice(),
        b"",
        What::Plan,
        "stuck 32 32:1:32:1\n",
    );
}
