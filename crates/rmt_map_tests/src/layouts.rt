//! Program texts through the back end, as lines: edges and levels, placements with starts, and bounds. The lines are
//! worked out by hand from the rules.

ghost use Rattle.std.specs.Prelude.{◌<◌, IfOk, All};
ghost use Rattle.rmt_ast.specs.WellFormed.{IsProgram};
ghost use Rattle.rmt_bounds.specs.Bounds.{EdgesRise};
ghost use Rattle.rmt_deps.specs.Edges.{GoForward};
ghost use Rattle.rmt_pack.specs.declared.placement.Part.{Part as PartOf};
ghost use Rattle.std.specs.Prelude.{length};

pub(crate) mod programs;

use crate::layouts::programs::{
    ARMS, CROSSBAR, LARGE_TABLES, NO_NODE, SHARED, SIXES_BEFORE_FIVES, SIXTEEN_AND_ONE,
    SMALL_BEFORE_WIDE, SMALLEST, SPLIT_TERNARY, TWO_FIELDS_ONE_WORD,
};
use rmt_ast::deps::{Deps, Edge, EdgeKind};
use rmt_ast::program::Program;
use rmt_bits::sequence::Sequence;
use rmt_bounds::bound::{Bound, Proof};
use rmt_bounds::check::check_bound;
use rmt_bounds::find::bound;
use rmt_config::limits::LimitHit;
use rmt_deps::{dependencies, levels};
use rmt_improve::place_better;
use rmt_pack::placement::{Part, Placement};
use rmt_phv::pack_fields;
use rmt_phv::places::Places;
use rmt_place::fault::StageFull;
use rmt_place::{offsets, place};
use rmt_tests::fixtures::programs::{REALISTIC, STRICT_AND_WEAK};
use rmt_tests::fixtures::texts::{program_of, repeated};
use std::alloc::{AllocError, Global};
use std::process::Abort;
use std::test::*;

/// What is told of a program.
#[derive(Clone, Copy)]
enum What {
    /// Its edges, a line each, and the levels of its nodes.
    Edges,
    /// Its parts as `node@stage*quanta` and the starts of its stages; or the node that is stuck, and its hits as
    /// `stage:limit:sum:need`.
    Placement,
    /// The same of the best of so many tries, 1 to 1,000.
    Better { budget: u32 },
    /// Its bound with the proof; and whether the check takes it, and takes one more.
    Bound,
}

fn push_edges(out: &mut String, edges: &[Edge]) -> Result<(), AllocError> {
    for edge in edges {
        write!(out, "{:?} {} {}\n", edge.kind, edge.from, edge.to)?;
    }
    Ok(())
}

/// Numbers behind a word, on a line.
fn push_numbers(out: &mut String, word: &str, numbers: &[u32]) -> Result<(), AllocError> {
    out.push_str(word)?;
    for number in numbers {
        write!(out, " {number}")?;
    }
    out.push_str("\n")
}

pub(crate) fn push_parts(out: &mut String, parts: &[Part]) -> Result<(), AllocError> {
    out.push_str("parts")?;
    for part in parts {
        write!(out, " {}@{}*{}", part.node, part.stage, part.quanta)?;
    }
    out.push_str("\n")
}

pub(crate) fn push_hits(out: &mut String, node: u32, hits: &[LimitHit]) -> Result<(), AllocError> {
    write!(out, "stuck {node}")?;
    for hit in hits {
        write!(out, " {}:{}:{}:{}", hit.stage, hit.limit, hit.sum, hit.need)?;
    }
    out.push_str("\n")
}

/// The parts of a placement, and the starts of its stages.
fn push_placement(
    alloc: Global,
    out: &mut String,
    placement: &Placement,
    deps: &Deps,
) -> Result<(), AllocError>
    requires { All (λ (x : PartOf). x.stage < 32) placement.now.parts }
{
    push_parts(out, placement.parts.as_slice())?;
    let Ok(starts) = offsets(alloc, placement, deps) else {
        return Err(AllocError);
    };
    out.push_str("starts")?;
    for start in starts.as_slice() {
        write!(out, " {start}")?;
    }
    out.push_str("\n")
}

fn push_placed(
    alloc: Global,
    out: &mut String,
    program: &Program,
    places: &Places,
    deps: &Deps,
) -> Result<(), AllocError>
    requires program { IsProgram program.now }
    requires forward { GoForward (length program.now.nodes) deps.now }
{
    match place(alloc, program, places, deps) {
        Ok(placement) => push_placement(alloc, out, &placement, deps),
        Err(StageFull::At { node, hits, .. }) => push_hits(out, node, hits.as_slice()),
        Err(StageFull::NoMemory) => Err(AllocError),
    }
}

fn push_better(
    alloc: Global,
    out: &mut String,
    program: &Program,
    places: &Places,
    deps: &Deps,
    budget: u32,
) -> Result<(), AllocError>
    requires program { IsProgram program.now }
    requires forward { GoForward (length program.now.nodes) deps.now }
{
    if budget == 0 || budget > 1000 {
        return Err(AllocError);
    }
    match place_better(alloc, program, places, deps, budget) {
        Ok(placement) => push_placement(alloc, out, &placement, deps),
        Err(StageFull::At { node, hits, .. }) => push_hits(out, node, hits.as_slice()),
        Err(StageFull::NoMemory) => Err(AllocError),
    }
}

/// These edges, each of which goes to a later node; an error also where one does not.
fn rising(alloc: Global, program: &Program, edges: &[Edge]) -> Result<Sequence<Edge>, AllocError>
    ensures { IfOk result (EdgesRise program.now) }
{
    let mut rising = Sequence::new(alloc);
    for edge in edges {
        if edge.from >= edge.to || edge.to as usize >= program.nodes.len() {
            return Err(AllocError);
        }
        rising.push(*edge)?;
    }
    Ok(rising)
}

pub(crate) fn push_proof(out: &mut String, bound: &Bound) -> Result<(), AllocError> {
    write!(out, "{}", bound.stages)?;
    match &bound.proof {
        Proof::Chain(chain) => push_numbers(out, " chain", chain.as_slice()),
        Proof::Sram(blocks) => push_numbers(out, " sram", &[*blocks]),
        Proof::Tcam(blocks) => push_numbers(out, " tcam", &[*blocks]),
        Proof::Slots(tables) => push_numbers(out, " slots", &[*tables]),
    }
}

fn push_bound(
    alloc: Global,
    out: &mut String,
    program: &Program,
    edges: &[Edge],
) -> Result<(), AllocError>
    requires { IsProgram program.now }
{
    let field = rising(alloc, program, edges)?;
    let word = Sequence::new(alloc);
    let deps = Deps { field, word };
    let Ok(mut found) = bound(alloc, program, &deps) else {
        return Err(AllocError);
    };
    push_proof(out, &found)?;
    let is_taken = check_bound(program, &deps, &found);
    found.stages = found.stages.wrapping_add(1);
    let is_more_taken = check_bound(program, &deps, &found);
    write!(out, "taken {is_taken} more {is_more_taken}\n")
}

fn push_told(
    alloc: Global,
    out: &mut String,
    program: &Program,
    what: What,
) -> Result<(), AllocError>
    requires { IsProgram program.now }
{
    let nodes = program.nodes.len();
    if program.fields.len() > 65535 || program.actions.len() > 256 || nodes > 128 {
        return Err(AllocError);
    }
    let Ok(places) = pack_fields(alloc, program) else {
        return Err(AllocError);
    };
    let Ok(deps) = dependencies(alloc, program, &places) else {
        return Err(AllocError);
    };
    match what {
        What::Edges => {
            push_edges(out, deps.field.as_slice())?;
            push_edges(out, deps.word.as_slice())?;
            let Ok(levels) = levels(alloc, &deps, nodes as u32) else {
                return Err(AllocError);
            };
            push_numbers(out, "levels", levels.as_slice())
        }
        What::Placement => push_placed(alloc, out, program, &places, &deps),
        What::Better { budget } => push_better(alloc, out, program, &places, &deps, budget),
        What::Bound => push_bound(alloc, out, program, deps.field.as_slice()),
    }
}

/// What is told of the program of a text; an error also where it is none.
fn told(alloc: Global, text: &[u8], what: What) -> Result<String, AllocError> {
    if text.len() > 100000 {
        return Err(AllocError);
    }
    let Ok(program) = program_of(alloc, text) else {
        return Err(AllocError);
    };
    let mut out = String::new(alloc);
    push_told(alloc, &mut out, &program, what)?;
    Ok(out)
}

/// A text, and what is told of its program.
type Row = (&'static [u8], &'static str);

fn compare(rt: &(impl Abort + AllocGlobal), what: What, text: &[u8], wanted: &str) {
    let got = told(rt.alloc(), text, what).expect(rt, "a program");
    assert!(rt; got.as_str() == wanted, "told {got}");
}

const EDGES: [Row; 7] = [
    (NO_NODE, "levels\n"),
    (SMALLEST, "levels 0\n"),
    (TWO_FIELDS_ONE_WORD, "Word 0 1\nlevels 0 1\n"),
    (SHARED, "levels 0 0 0\n"),
    (
        STRICT_AND_WEAK,
        "Match 0 1\nAction 0 2\nReverse 1 2\nWord 0 2\nlevels 0 1 1\n",
    ),
    // arms of one table have no edge, nor have tables below them; a table behind the arms has
    (
        ARMS,
        "Successor 0 1\nSuccessor 0 2\nSuccessor 0 4\nAction 1 3\nAction 1 5\nSuccessor 2 3\nAction 3 5\nAction 4 5\nWord 1 3\nWord 1 5\nWord 3 5\nWord 4 5\nlevels 0 0 0 1 0 2\n",
    ),
    (
        REALISTIC,
        "Successor 0 1\nSuccessor 0 2\nSuccessor 0 3\nAction 1 6\nMatch 2 5\nSuccessor 3 4\nMatch 4 5\nMatch 5 6\nAction 5 6\nSuccessor 5 6\nWord 1 6\nWord 5 6\nlevels 0 0 0 0 0 1 2\n",
    ),
];

#[test]
fn edges(rt: HostRuntime) {
    for (text, wanted) in &EDGES {
        compare(&rt, What::Edges, text, wanted);
    }
}

const PLACEMENTS: [Row; 10] = [
    (NO_NODE, "parts\nstarts\n"),
    (SMALLEST, "parts 0@0*1\nstarts 0\n"),
    (TWO_FIELDS_ONE_WORD, "parts 0@0*1 1@1*1\nstarts 0 3\n"),
    (SHARED, "parts 0@0*1 1@0*1 2@0*1\nstarts 0\n"),
    (STRICT_AND_WEAK, "parts 0@0*1 1@1*1 2@1*1\nstarts 0 12\n"),
    // two arms that write one field share a stage
    (
        ARMS,
        "parts 0@0*1 1@0*1 2@0*1 4@0*1 3@1*1 5@2*1\nstarts 0 3 6\n",
    ),
    (
        REALISTIC,
        "parts 0@0*1 1@0*1 2@0*1 3@0*1 4@0*1 5@1*1 6@2*1\nstarts 0 12 24\n",
    ),
    (SPLIT_TERNARY, "parts 0@0*1 0@1*1\nstarts 0 1\n"),
    // six quanta of 16 SRAM blocks in a stage of 106
    (
        LARGE_TABLES,
        "parts 0@0*6 0@1*6 0@2*6 0@3*6 0@4*6 0@5*6 0@6*6 0@7*6 0@8*2 1@8*4 1@9*6 1@10*6 1@11*6 1@12*6 1@13*6 1@14*6 1@15*6 1@16*4\nstarts 0 1 2 3 4 5 6 7 8 9 10 11 12 13 14 15 16\n",
    ),
    (
        SIXTEEN_AND_ONE,
        "parts 0@0*1 1@0*1 2@0*1 3@0*1 4@0*1 5@0*1 6@0*1 7@0*1 8@0*1 9@0*1 10@0*1 11@0*1 12@0*1 13@0*1 14@0*1 15@0*1 16@1*1\nstarts 0 1\n",
    ),
];

#[test]
fn placements(rt: HostRuntime) {
    for (text, wanted) in &PLACEMENTS {
        compare(&rt, What::Placement, text, wanted);
    }
}

/// A key of 640 bits that reads words of 648.
pub(crate) const HITS: &str =
    "stuck 0 0:8:0:648 1:8:0:648 2:8:0:648 3:8:0:648 4:8:0:648 5:8:0:648 6:8:0:648 7:8:0:648 8:8:0:648 9:8:0:648 10:8:0:648 11:8:0:648 12:8:0:648 13:8:0:648 14:8:0:648 15:8:0:648 16:8:0:648 17:8:0:648 18:8:0:648 19:8:0:648 20:8:0:648 21:8:0:648 22:8:0:648 23:8:0:648 24:8:0:648 25:8:0:648 26:8:0:648 27:8:0:648 28:8:0:648 29:8:0:648 30:8:0:648 31:8:0:648\n";

#[test]
fn crossbar(rt: HostRuntime) {
    compare(&rt, What::Placement, CROSSBAR, HITS);
}

const BOUNDS: [Row; 10] = [
    (NO_NODE, "0 chain\ntaken true more false\n"),
    (SMALLEST, "1 chain 0\ntaken true more false\n"),
    (TWO_FIELDS_ONE_WORD, "1 chain 0\ntaken true more false\n"),
    (SHARED, "1 chain 0\ntaken true more false\n"),
    // a weak edge doesn't count
    (STRICT_AND_WEAK, "2 chain 0 1\ntaken true more false\n"),
    (ARMS, "3 chain 1 3 5\ntaken true more false\n"),
    (REALISTIC, "3 chain 2 5 6\ntaken true more false\n"),
    // the TCAM blocks of 2,049 entries give two stages too: the chain is told first
    (SPLIT_TERNARY, "2 chain 0\ntaken true more false\n"),
    (LARGE_TABLES, "16 sram 1600\ntaken true more false\n"),
    (SIXTEEN_AND_ONE, "2 slots 17\ntaken true more false\n"),
];

#[test]
fn bounds(rt: HostRuntime) {
    for (text, wanted) in &BOUNDS {
        compare(&rt, What::Bound, text, wanted);
    }
}

/// Tables that each look at what the earlier ones write, and write it again.
pub(crate) fn long_chain(alloc: Global, tables: u16) -> Result<Vec<u8>, AllocError> {
    let declared = repeated(
        alloc,
        b"header h { f : 8; } next accept; meta { x : 8; } action inc() { meta.x = meta.x + 1; } ",
        b"table t# { exact meta.x; actions inc; size 1; default inc(); } ",
        tables,
        b"control { ",
    )?;
    repeated(alloc, declared.as_slice(), b"apply t#; ", tables, b"}")
}

/// 32 such tables fill the chip, and one more is too many; its bound is told all the same.
#[test]
fn long_chains(rt: HostRuntime) -> Result<(), Fail> {
    let full = long_chain(rt.alloc(), 32)?;
    compare(
        &rt,
        What::Placement,
        full.as_slice(),
        "parts 0@0*1 1@1*1 2@2*1 3@3*1 4@4*1 5@5*1 6@6*1 7@7*1 8@8*1 9@9*1 10@10*1 11@11*1 12@12*1 13@13*1 14@14*1 15@15*1 16@16*1 17@17*1 18@18*1 19@19*1 20@20*1 21@21*1 22@22*1 23@23*1 24@24*1 25@25*1 26@26*1 27@27*1 28@28*1 29@29*1 30@30*1 31@31*1\nstarts 0 12 24 36 48 60 72 84 96 108 120 132 144 156 168 180 192 204 216 228 240 252 264 276 288 300 312 324 336 348 360 372\n",
    );
    let long = long_chain(rt.alloc(), 33)?;
    compare(
        &rt,
        What::Placement,
        long.as_slice(),
        "stuck 32 32:1:32:1\n",
    );
    compare(
        &rt,
        What::Bound,
        long.as_slice(),
        "33 chain 0 1 2 3 4 5 6 7 8 9 10 11 12 13 14 15 16 17 18 19 20 21 22 23 24 25 26 27 28 29 30 31 32\ntaken true more false\n",
    );
    Ok(())
}

/// Sixteen tables that fill a stage, and two behind them of which the second reads what the first writes.
fn chain_behind_sixteen(alloc: Global) -> Result<Vec<u8>, AllocError> {
    let fields = repeated(
        alloc,
        b"header h { f : 8; } next accept; meta { x : 8; w : 8; ",
        b"m# : 8; ",
        16,
        b"} action sx() { meta.x = 1; } action sw() { meta.w = meta.x; } ",
    )?;
    let tables = repeated(
        alloc,
        fields.as_slice(),
        b"action s#() { meta.m# = 1; } table a# { default s#(); } ",
        16,
        b"table z { default sx(); } table y { default sw(); } control { ",
    )?;
    repeated(
        alloc,
        tables.as_slice(),
        b"apply a#; ",
        16,
        b"apply z; apply y; }",
    )
}

/// A number of tries, and what is told of the best: the second takes the table before the longest path first, and saves a
/// stage.
const TRIES: [(u32, &str); 3] = [
    (
        1,
        "parts 0@0*1 1@0*1 2@0*1 3@0*1 4@0*1 5@0*1 6@0*1 7@0*1 8@0*1 9@0*1 10@0*1 11@0*1 12@0*1 13@0*1 14@0*1 15@0*1 16@1*1 17@2*1\nstarts 0 1 4\n",
    ),
    (
        2,
        "parts 16@0*1 0@0*1 1@0*1 2@0*1 3@0*1 4@0*1 5@0*1 6@0*1 7@0*1 8@0*1 9@0*1 10@0*1 11@0*1 12@0*1 13@0*1 14@0*1 15@1*1 17@1*1\nstarts 0 3\n",
    ),
    (
        1000,
        "parts 16@0*1 0@0*1 1@0*1 2@0*1 3@0*1 4@0*1 5@0*1 6@0*1 7@0*1 8@0*1 9@0*1 10@0*1 11@0*1 12@0*1 13@0*1 14@0*1 15@1*1 17@1*1\nstarts 0 3\n",
    ),
];

#[test]
fn better_order(rt: HostRuntime) -> Result<(), Fail> {
    let text = chain_behind_sixteen(rt.alloc())?;
    for &(budget, wanted) in &TRIES {
        compare(&rt, What::Better { budget }, text.as_slice(), wanted);
    }
    Ok(())
}

/// Where all tries are stuck, what is told is told of the first.
#[test]
fn no_order(rt: HostRuntime) -> Result<(), Fail> {
    let long = long_chain(rt.alloc(), 33)?;
    compare(
        &rt,
        What::Better { budget: 5 },
        long.as_slice(),
        "stuck 32 32:1:32:1\n",
    );
    Ok(())
}

/// Programs with numbers of tries, and what is told of the best: the fewest stages over all good orders come only with the
/// try that takes wide tables first, or with one that exchanges the second and the third table.
const ORDERS: [(&[u8], u32, &str); 6] = [
    (
        SMALL_BEFORE_WIDE,
        1,
        "parts 0@0*1 1@0*1 2@0*1 3@1*1 4@2*1 5@3*1\nstarts 0 1 2 3\n",
    ),
    (
        SMALL_BEFORE_WIDE,
        2,
        "parts 0@0*1 1@0*1 2@0*1 3@1*1 4@2*1 5@3*1\nstarts 0 1 2 3\n",
    ),
    (
        SMALL_BEFORE_WIDE,
        3,
        "parts 3@0*1 4@1*1 5@2*1 0@0*1 1@1*1 2@2*1\nstarts 0 1 2\n",
    ),
    (
        SIXES_BEFORE_FIVES,
        4,
        "parts 0@0*1 1@0*1 2@1*1 3@1*1 4@1*1 5@2*1\nstarts 0 1 2\n",
    ),
    (
        SIXES_BEFORE_FIVES,
        5,
        "parts 0@0*1 2@0*1 1@1*1 3@0*1 4@1*1 5@1*1\nstarts 0 1\n",
    ),
    (
        SIXES_BEFORE_FIVES,
        1000,
        "parts 0@0*1 2@0*1 1@1*1 3@0*1 4@1*1 5@1*1\nstarts 0 1\n",
    ),
];

#[test]
fn better_orders(rt: HostRuntime) {
    for &(text, budget, wanted) in &ORDERS {
        compare(&rt, What::Better { budget }, text, wanted);
    }
}

/// Sixteen tables that fill a stage, and behind them 32 that depend on one another.
fn full_chain_behind_sixteen(alloc: Global) -> Result<Vec<u8>, AllocError> {
    let fields = repeated(
        alloc,
        b"header h { f : 8; } next accept; meta { x : 8; ",
        b"m# : 8; ",
        16,
        b"} action inc() { meta.x = meta.x + 1; } ",
    )?;
    let first = repeated(
        alloc,
        fields.as_slice(),
        b"action s#() { meta.m# = 1; } table a# { default s#(); } ",
        16,
        b"",
    )?;
    let tables = repeated(
        alloc,
        first.as_slice(),
        b"table t# { default inc(); } ",
        32,
        b"control { ",
    )?;
    let applied = repeated(alloc, tables.as_slice(), b"apply a#; ", 16, b"")?;
    repeated(alloc, applied.as_slice(), b"apply t#; ", 32, b"}")
}

/// The rule is stuck where it fills the first stage before the long chain begins; the second try is not.
#[test]
fn stuck_by_the_rule_alone(rt: HostRuntime) -> Result<(), Fail> {
    let text = full_chain_behind_sixteen(rt.alloc())?;
    for &(budget, wanted) in &[
        (1, "stuck 47 32:1:32:1\n"),
        (
            2,
            "parts 16@0*1 17@1*1 18@2*1 19@3*1 20@4*1 21@5*1 22@6*1 23@7*1 24@8*1 25@9*1 26@10*1 27@11*1 28@12*1 29@13*1 30@14*1 31@15*1 32@16*1 33@17*1 34@18*1 35@19*1 36@20*1 37@21*1 38@22*1 39@23*1 40@24*1 41@25*1 42@26*1 43@27*1 44@28*1 45@29*1 46@30*1 0@0*1 1@0*1 2@0*1 3@0*1 4@0*1 5@0*1 6@0*1 7@0*1 8@0*1 9@0*1 10@0*1 11@0*1 12@0*1 13@0*1 14@0*1 15@1*1 47@31*1\nstarts 0 3 6 9 12 15 18 21 24 27 30 33 36 39 42 45 48 51 54 57 60 63 66 69 72 75 78 81 84 87 90 93\n",
        ),
    ] {
        compare(&rt, What::Better { budget }, text.as_slice(), wanted);
    }
    Ok(())
}

/// One quantum of each of three nodes, each in a stage of its own.
const PARTS: [Part; 3] = [
    Part {
        node: 0,
        stage: 0,
        quanta: 1,
    },
    Part {
        node: 1,
        stage: 1,
        quanta: 1,
    },
    Part {
        node: 2,
        stage: 2,
        quanta: 1,
    },
];

/// The third node waits for the first.
#[test]
fn past_a_neighbour(rt: HostRuntime) -> Result<(), Fail> {
    let mut field = Sequence::new(rt.alloc());
    field.push(Edge {
        from: 0,
        to: 2,
        kind: EdgeKind::Match,
    })?;
    let word = Sequence::new(rt.alloc());
    let deps = Deps { field, word };
    let parts = Sequence::from_vec(Vec::from_slice(rt.alloc(), &PARTS)?);
    let starts = offsets(rt.alloc(), &Placement { parts }, &deps)?;
    assert!(rt; starts.as_slice() == [0, 1, 12].as_slice());
    Ok(())
}

/// Chains of the three tables of `STRICT_AND_WEAK`, of which there is no fourth, and how many stages each is said to prove.
const CHAINS: [(&[u32], u32, bool); 15] = [
    (&[0, 1], 2, true),
    (&[0, 1], 1, false),
    (&[0, 2], 2, true),
    (&[0, 1, 2], 2, true), // a weak edge gives no stage
    (&[0, 1, 2], 3, false),
    (&[1, 2], 1, true),
    (&[1, 2], 2, false),
    (&[1, 0], 2, false), // steps that are no edge
    (&[2, 1], 1, false),
    (&[0, 0], 2, false),
    (&[0, 1, 0], 3, false),
    (&[3], 1, false), // a node that isn't there
    (&[0, 3], 2, false),
    (&[], 0, true),
    (&[], 1, false),
];

/// The edges of those tables.
const FIELD_EDGES: [Edge; 3] = [
    Edge {
        from: 0,
        to: 1,
        kind: EdgeKind::Match,
    },
    Edge {
        from: 0,
        to: 2,
        kind: EdgeKind::Action,
    },
    Edge {
        from: 1,
        to: 2,
        kind: EdgeKind::Reverse,
    },
];

/// Whether the check takes a chain of a program with those edges for so many stages.
fn is_taken(
    alloc: Global,
    program: &Program,
    chain: &[u32],
    stages: u32,
) -> Result<bool, AllocError>
    requires { IsProgram program.now }
{
    let field = rising(alloc, program, &FIELD_EDGES)?;
    let word = Sequence::new(alloc);
    let deps = Deps { field, word };
    let nodes = Sequence::from_vec(Vec::from_slice(alloc, chain)?);
    let bound = Bound {
        stages,
        proof: Proof::Chain(nodes),
    };
    Ok(check_bound(program, &deps, &bound))
}

#[test]
fn chains(rt: HostRuntime) -> Result<(), Fail> {
    let program = program_of(rt.alloc(), STRICT_AND_WEAK)?;
    for (chain, stages, wanted) in &CHAINS {
        let got = is_taken(rt.alloc(), &program, chain, *stages)?;
        assert!(rt; got == *wanted, "{chain:?} for {stages}");
    }
    Ok(())
}
