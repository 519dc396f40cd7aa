//! What a map tells of a program: told as the back end does, by hand, and with one thing otherwise.

ghost use Rattle.std.specs.Prelude.{IfOk};
ghost use Rattle.rmt_ast.specs.WellFormed.{IsProgram};
ghost use Rattle.rmt_phv.specs.Places.{KeepsApart};

use crate::parsers::HEADERS;
use rmt_ast::program::Program;
use rmt_bits::lane::Lane;
use rmt_bits::sequence::Sequence;
use rmt_config::config::{Config, OutHeader, ParserConfig, Source, Stage};
use rmt_core::rmt;
use rmt_image::read_image;
use rmt_io::mem_shelf::MemShelf;
use rmt_io::mem_sink::MemSink;
use rmt_pack::placement::Part;
use rmt_phv::pack_fields;
use rmt_phv::places::Places;
use rmt_ptcam::{clustered_parser, joins_of, plain_parser};
use rmt_refine::map::Map;
use rmt_tests::fixtures::programs::{REALISTIC, STRICT_AND_WEAK};
use rmt_tests::fixtures::texts::program_of;
use rmt_verify::{edges_hold, parser_holds, parts_stand, places_hold, read_map};
use std::alloc::{AllocError, Global};
use std::test::*;

// ---- places

/// The first lane of a field.
fn lane_of(places: &Places, field: u32) -> Lane {
    match places.get(field as usize) {
        Some(lanes) => match lanes.get(0) {
            Some(lane) => *lane,
            None => Lane {
                word: 0,
                low: 0,
                len: 0,
            },
        },
        None => Lane {
            word: 0,
            low: 0,
            len: 0,
        },
    }
}

/// The lanes of some fields, highest bits first, or each field's lowest bits first.
fn pieces_of(
    alloc: Global,
    places: &Places,
    fields: &[u32],
    low_first: bool,
) -> Result<Sequence<Lane>, AllocError> {
    let mut pieces = Sequence::new(alloc);
    for field in fields {
        if let Some(lanes) = places.get(*field as usize) {
            let count = lanes.len();
            for at in 0..count {
                let at = if low_first { at } else { count - 1 - at };
                if let Some(lane) = lanes.get(at) {
                    pieces.push(*lane)?;
                }
            }
        }
    }
    Ok(pieces)
}

/// What is otherwise.
#[derive(Clone, Copy, PartialEq, Eq)]
enum Change {
    Nothing,
    /// A field stands in this lane alone, its word, lowest bit and bits; for the configuration too.
    Field(usize, (u8, u8, u8)),
    /// The configuration's port of exit is that of entry.
    Port,
    /// Its mark of dropping is the port of entry.
    Drop,
    /// Its headers have one byte more.
    Bytes,
    /// The pieces of its fields stand in the other order.
    Order,
    /// It has no header.
    Headers,
}

fn headers_of(
    alloc: Global,
    program: &Program,
    places: &Places,
    change: Change,
) -> Result<Sequence<OutHeader>, AllocError> {
    let mut headers = Sequence::new(alloc);
    if change == Change::Headers {
        return Ok(headers);
    }
    let more = if change == Change::Bytes { 1 } else { 0 };
    let low_first = change == Change::Order;
    for header in program.headers.as_slice() {
        let pieces = pieces_of(alloc, places, header.fields.as_slice(), low_first)?;
        headers.push(OutHeader {
            valid: lane_of(places, header.valid),
            bytes: header.bytes.wrapping_add(more),
            pieces,
        })?;
    }
    Ok(headers)
}

/// A configuration without parser and stages that reads and writes the fields of a program in these places.
fn config_of(
    alloc: Global,
    program: &Program,
    places: &Places,
    change: Change,
) -> Result<Config, AllocError> {
    let in_port = lane_of(places, 0);
    let out_port = lane_of(places, if change == Change::Port { 0 } else { 1 });
    let drop = lane_of(places, if change == Change::Drop { 0 } else { 2 });
    let headers = headers_of(alloc, program, places, change)?;
    let parser = ParserConfig {
        states: Sequence::new(alloc),
        entries: Sequence::new(alloc),
        tails: Sequence::new(alloc),
    };
    Ok(Config {
        seed: 0,
        in_port,
        out_port,
        drop,
        headers,
        parser,
        stages: Sequence::new(alloc),
        names: None,
    })
}

/// The places with a field in this lane alone.
fn moved(alloc: Global, places: &Places, field: usize, lane: Lane) -> Result<Places, AllocError> {
    let mut moved = Sequence::new(alloc);
    for (number, lanes) in places.as_slice().iter().enumerate() {
        let mut own = Sequence::new(alloc);
        if number == field {
            own.push(lane)?;
        } else {
            for lane in lanes.as_slice() {
                own.push(*lane)?;
            }
        }
        moved.push(own)?;
    }
    Ok(moved)
}

/// The places of a program by the rule.
fn packed(alloc: Global, program: &Program) -> Result<Places, AllocError>
    ensures { IfOk result (KeepsApart program.now) }
{
    if program.fields.len() > 65535 || program.actions.len() > 256 {
        return Err(AllocError);
    }
    match pack_fields(alloc, program) {
        Ok(places) => Ok(places),
        Err(_) => Err(AllocError),
    }
}

/// The program of a text of a row.
fn meant(alloc: Global, text: &[u8]) -> Result<Program, AllocError>
    ensures { IfOk result IsProgram }
{
    if text.len() > 100000 {
        return Err(AllocError);
    }
    match program_of(alloc, text) {
        Ok(program) => Ok(program),
        Err(_) => Err(AllocError),
    }
}

/// Whether the places of a text's program hold, packed by the rule and then changed.
fn hold(alloc: Global, text: &[u8], change: Change) -> Result<bool, AllocError> {
    let program = meant(alloc, text)?;
    let mut places = packed(alloc, &program)?;
    if let Change::Field(field, (word, low, len)) = change {
        places = moved(alloc, &places, field, Lane { word, low, len })?;
    }
    let config = config_of(alloc, &program, &places, change)?;
    match places_hold(alloc, &program, &places, &config) {
        Ok(holds) => Ok(holds),
        Err(_) => Err(AllocError),
    }
}

/// One table, whose default sends to port 1.
const SMALLEST: &[u8] =
    b"header h { f : 8; } next accept; action send() { out_port = 1; } table t { default send(); } control { apply t; }";

/// An action that writes two fields, 4 and 5; by the rule one stands in word 0 and one in word 1.
const TWO_WRITTEN: &[u8] = b"
header h { a : 4; b : 4; } next accept;
action z() { h.a = 1; h.b = 2; }
table t { default z(); }
control { apply t; }
";

/// A text, what is changed, and whether its places still hold. Of the second text the port of entry stands in the lowest 9
/// bits of word 64, and fields 3 and 4 have 1 and 8 bits.
const PLACES: [(&[u8], Change, bool); 23] = [
    (SMALLEST, Change::Nothing, true),
    (STRICT_AND_WEAK, Change::Nothing, true),
    (HEADERS, Change::Nothing, true),
    (REALISTIC, Change::Nothing, true),
    (STRICT_AND_WEAK, Change::Field(4, (50, 0, 8)), true),
    (STRICT_AND_WEAK, Change::Field(4, (50, 0, 7)), false), // a bit is nowhere
    (STRICT_AND_WEAK, Change::Field(4, (50, 1, 8)), false), // it leaves its word
    (STRICT_AND_WEAK, Change::Field(4, (224, 0, 8)), false), // a word that is none
    (STRICT_AND_WEAK, Change::Field(4, (64, 8, 8)), false), // one bit for two fields
    (STRICT_AND_WEAK, Change::Field(3, (64, 8, 1)), false),
    (STRICT_AND_WEAK, Change::Field(3, (64, 9, 1)), true), // beside the port
    (STRICT_AND_WEAK, Change::Port, false),
    (STRICT_AND_WEAK, Change::Drop, false),
    (STRICT_AND_WEAK, Change::Bytes, false),
    (STRICT_AND_WEAK, Change::Order, true), // each field has one piece
    (HEADERS, Change::Order, false),
    (HEADERS, Change::Bytes, false),
    (HEADERS, Change::Headers, false),
    (TWO_WRITTEN, Change::Nothing, true),
    (TWO_WRITTEN, Change::Field(4, (50, 0, 4)), true),
    (TWO_WRITTEN, Change::Field(4, (1, 4, 4)), false), // both in one word
    (TWO_WRITTEN, Change::Field(5, (50, 4, 4)), true),
    (TWO_WRITTEN, Change::Headers, false),
];

#[test]
fn places(rt: HostRuntime) -> Result<(), Fail> {
    for (number, (text, change, want)) in PLACES.iter().enumerate() {
        assert!(rt; hold(rt.alloc(), text, *change)? == *want, "row {number}");
    }
    Ok(())
}

// ---- parsers

/// Whether the clustered parser, or the plain one, is made by the joins of the rule without that one.
fn made_without(alloc: Global, is_clustered: bool, out: usize) -> Result<bool, AllocError> {
    let program = meant(alloc, HEADERS)?;
    let places = packed(alloc, &program)?;
    let Ok(joins) = joins_of(alloc, &program, &places) else {
        return Err(AllocError);
    };
    let mut others = Vec::new(alloc);
    for (number, join) in joins.as_slice().iter().enumerate() {
        if number != out && is_clustered {
            others.push(*join)?;
        }
    }
    let made = if is_clustered {
        clustered_parser(alloc, &program, &places)
    } else {
        plain_parser(alloc, &program, &places)
    };
    let Ok(parser) = made else {
        return Err(AllocError);
    };
    match parser_holds(alloc, &program, &places, others.as_slice(), &parser) {
        Ok(holds) => Ok(holds),
        Err(_) => Err(AllocError),
    }
}

#[test]
fn parsers(rt: HostRuntime) -> Result<(), Fail> {
    assert!(rt; made_without(rt.alloc(), true, 1000)?);
    assert!(rt; made_without(rt.alloc(), false, 0)?);
    for out in 0..4usize {
        assert!(rt; !made_without(rt.alloc(), true, out)?);
    }
    Ok(())
}

// ---- edges

/// A part, as its node, stage and quanta.
type Told = (u32, u32, u32);

fn told_parts(alloc: Global, told: &[Told]) -> Result<Vec<Part>, AllocError> {
    let mut parts = Vec::new(alloc);
    for (node, stage, quanta) in told {
        parts.push(Part {
            node: *node,
            stage: *stage,
            quanta: *quanta,
        })?;
    }
    Ok(parts)
}

/// Parts and starts, and whether they keep the edges of the text below: `Match 0 1`, `Action 0 2`, `Reverse 1 2` and
/// `Word 0 2`.
const KEPT: [(&[Told], &[u16], bool); 16] = [
    (&[(0, 0, 1), (1, 1, 1), (2, 1, 1)], &[0, 12], true),
    (&[(0, 0, 1), (1, 1, 1), (2, 1, 1)], &[0, 11], false),
    (&[(0, 0, 1), (1, 1, 1), (2, 1, 1)], &[1, 13], false),
    (&[(0, 0, 1), (1, 1, 1), (2, 1, 1)], &[0, 12, 12], false),
    (&[(0, 0, 1), (1, 1, 1), (2, 0, 1)], &[0, 12], false), // c writes what a writes
    (&[(0, 0, 1), (1, 0, 1), (2, 1, 1)], &[0, 12], false), // b reads what a writes
    (&[(0, 0, 1), (1, 2, 1), (2, 1, 1)], &[0, 12, 13], false), // c writes what b reads
    (&[(0, 0, 1), (1, 1, 1), (2, 2, 1)], &[0, 12, 13], true),
    // stages between that have no part: neighbours alone keep their distance
    (&[(0, 0, 1), (1, 2, 1), (2, 2, 1)], &[0, 5, 12], true),
    (&[(0, 0, 1), (1, 2, 1), (2, 2, 1)], &[0, 5, 11], false),
    // a in two stages, told in either order
    (
        &[(0, 0, 1), (0, 1, 2), (1, 2, 1), (2, 2, 1)],
        &[0, 1, 13],
        true,
    ),
    (
        &[(0, 0, 1), (0, 1, 2), (1, 2, 1), (2, 2, 1)],
        &[0, 1, 12],
        false,
    ),
    (
        &[(0, 1, 2), (0, 0, 1), (1, 2, 1), (2, 2, 1)],
        &[0, 1, 12],
        false,
    ),
    // b in two stages
    (
        &[(0, 0, 1), (1, 2, 1), (1, 1, 1), (2, 2, 1)],
        &[0, 11, 24],
        false,
    ),
    (
        &[(0, 0, 1), (1, 2, 1), (1, 1, 1), (2, 2, 1)],
        &[0, 12, 24],
        true,
    ),
    // c beside the first part of b alone
    (
        &[(0, 0, 1), (1, 1, 1), (1, 2, 1), (2, 1, 1)],
        &[0, 12, 24],
        false,
    ),
];

/// Whether the edges of a text's program are kept; None where a part stands nowhere.
fn kept(alloc: Global, told: &[Told], starts: &[u16]) -> Result<Option<bool>, AllocError> {
    let parts = told_parts(alloc, told)?;
    let parts = parts.as_slice();
    let program = meant(alloc, STRICT_AND_WEAK)?;
    let places = packed(alloc, &program)?;
    let nodes = program.nodes.len();
    if nodes > 128 || !parts_stand(nodes, starts.len(), parts) {
        return Ok(None);
    }
    match edges_hold(alloc, &program, &places, parts, starts) {
        Ok(holds) => Ok(Some(holds)),
        Err(_) => Err(AllocError),
    }
}

#[test]
fn edges(rt: HostRuntime) -> Result<(), Fail> {
    for (number, (parts, starts, want)) in KEPT.iter().enumerate() {
        assert!(rt;
            kept(rt.alloc(), parts, starts)? == Some(*want),
            "row {number}"
        );
    }
    Ok(())
}

/// How many nodes and stages there are, the parts, and whether they stand there.
const STAND: [(usize, usize, &[Told], bool); 5] = [
    (3, 2, &[(0, 0, 1), (2, 1, 106)], true),
    (2, 2, &[(0, 0, 1), (2, 1, 106)], false), // a node that is none
    (3, 1, &[(0, 0, 1), (2, 1, 106)], false), // a stage that is none
    (3, 2, &[(0, 0, 0), (2, 1, 106)], false), // a part of nothing
    (0, 0, &[], true),
];

#[test]
fn parts(rt: HostRuntime) -> Result<(), Fail> {
    for &(nodes, stages, told, want) in &STAND {
        let parts = told_parts(rt.alloc(), told)?;
        assert!(rt; parts_stand(nodes, stages, parts.as_slice()) == want);
    }
    Ok(())
}

// ---- what `verify` tells of changed images and maps

/// A byte of an image or of its map that is otherwise.
#[derive(Clone, Copy, PartialEq, Eq)]
enum Byte {
    /// Stage 1 starts in cycle 11, and not in 12.
    Start,
    /// It does so in the map.
    StartInMap,
    /// An instruction of stage 1 sets 1, and not 0.
    Number,
    /// An entry sends to port 4, and not to 5.
    Port,
    /// The table `b` is named `d`.
    Name,
    /// The port of entry stands in word 95 of the map, and not in 64.
    Place,
}

/// The byte that stood there, and the one that stands there instead.
fn values_of(byte: Byte) -> (u8, u8) {
    match byte {
        Byte::Start | Byte::StartInMap => (12, 11),
        Byte::Number => (0, 1),
        Byte::Port => (5, 4),
        Byte::Name => (b'b', b'd'),
        Byte::Place => (64, 95),
    }
}

/// Whether a stage has an instruction that sets 1.
fn sets_one(stage: &Stage) -> bool {
    let one = Source::Constant { value: 1 };
    for code in stage.code.as_slice() {
        if code.ops.as_slice().iter().any(|op| op.left == one) {
            return true;
        }
    }
    false
}

/// Whether stage 1 of an image tells that a byte of it is otherwise.
fn stage_tells(stage: &Stage, byte: Byte) -> bool {
    match byte {
        Byte::Start => stage.start == 11,
        Byte::Number => sets_one(stage),
        Byte::Port => stage.srows.as_slice().iter().any(|row| row.bits == 4),
        Byte::StartInMap | Byte::Name | Byte::Place => false,
    }
}

/// Whether a table of an image is named `d`.
fn has_name(config: &Config) -> bool {
    match &config.names {
        Some(names) => {
            let tables = names.tables.as_slice();
            tables
                .iter()
                .any(|table| table.name.as_slice() == b"d".as_slice())
        }
        None => false,
    }
}

/// Whether an image tells that a byte of it is otherwise.
fn image_tells(config: &Config, byte: Byte) -> bool {
    if byte == Byte::Name {
        return has_name(config);
    }
    match config.stages.get(1) {
        Some(stage) => stage_tells(stage, byte),
        None => false,
    }
}

/// Whether a map tells that a byte of it is otherwise.
fn map_tells(map: &Map, byte: Byte) -> bool {
    if byte == Byte::Place {
        return lane_of(&map.places, 0).word == 95;
    }
    match map.starts.get(1) {
        Some(start) => *start == 11,
        None => false,
    }
}

/// Whether bytes are an image, or a map, that tells so.
fn tells(alloc: Global, bytes: &[u8], byte: Byte) -> bool {
    if byte == Byte::StartInMap || byte == Byte::Place {
        return match read_map(alloc, bytes) {
            Ok(file) => map_tells(&file.map, byte),
            Err(_) => false,
        };
    }
    match read_image(alloc, bytes) {
        Ok(config) => image_tells(&config, byte),
        Err(_) => false,
    }
}

/// Bytes with another one at a place.
fn with_byte(alloc: Global, bytes: &[u8], at: usize, other: u8) -> Result<Vec<u8>, AllocError> {
    let mut changed = Vec::new(alloc);
    for (number, byte) in bytes.iter().enumerate() {
        changed.push(if number == at { other } else { *byte })?;
    }
    Ok(changed)
}

/// An image, or a map, of which that byte is otherwise; the same bytes where there is none.
fn otherwise(alloc: Global, bytes: &[u8], byte: Byte) -> Result<Vec<u8>, AllocError> {
    let (was, other) = values_of(byte);
    for (at, own) in bytes.iter().enumerate() {
        if *own == was {
            let changed = with_byte(alloc, bytes, at, other)?;
            if tells(alloc, changed.as_slice(), byte) {
                return Ok(changed);
            }
        }
    }
    Vec::from_slice(alloc, bytes)
}

/// Puts a file on a shelf.
fn put(alloc: Global, shelf: &mut MemShelf, name: &str, bytes: &[u8]) -> Result<(), Fail> {
    let name = String::from_str(alloc, name)?;
    let bytes = Vec::from_slice(alloc, bytes)?;
    shelf.put_file(&name, &bytes)?;
    Ok(())
}

/// Changes a byte of the image, or of the map, on a shelf.
fn make_otherwise(alloc: Global, shelf: &mut MemShelf, byte: Byte) -> Result<(), Fail> {
    let name = if byte == Byte::StartInMap || byte == Byte::Place {
        "m"
    } else {
        "i"
    };
    let key = String::from_str(alloc, name)?;
    let changed = match shelf.file(&key) {
        Some(bytes) => otherwise(alloc, bytes.as_slice(), byte)?,
        None => Vec::new(alloc),
    };
    put(alloc, shelf, name, changed.as_slice())
}

/// What a command over a shelf prints.
fn printed(alloc: Global, words: &[&str], shelf: &mut MemShelf) -> Result<Vec<u8>, AllocError> {
    let mut all = Vec::new(alloc);
    for word in words {
        all.push(String::from_str(alloc, *word)?)?;
    }
    let mut out = MemSink::new(vec![in alloc; 0u64]?, 65_536);
    let _status = rmt(alloc, &all, shelf, &mut out);
    Vec::from_slice(alloc, out.bytes().as_slice())
}

/// What `verify` prints of what `compile` wrote, with these bytes otherwise.
fn verified(alloc: Global, bytes: &[Byte]) -> Result<Vec<u8>, Fail> {
    let mut shelf = MemShelf::new(vec![in alloc; 0u64]?, 65_536);
    put(alloc, &mut shelf, "p", STRICT_AND_WEAK)?;
    put(alloc, &mut shelf, "e", b"b 7 go 5\n")?;
    printed(alloc, &["compile", "p", "e", "i", "m"], &mut shelf)?;
    for byte in bytes {
        make_otherwise(alloc, &mut shelf, *byte)?;
    }
    Ok(printed(alloc, &["verify", "p", "e", "i", "m"], &mut shelf)?)
}

/// What is otherwise, and what is told: the first part that fails.
const OTHERWISE: [(&[Byte], &str); 15] = [
    (&[], "yes\n"),
    (&[Byte::Place], "no 1\n"),
    (&[Byte::Start], "no 3\n"),
    (&[Byte::StartInMap], "no 3\n"),
    (&[Byte::Port], "no 4\n"),
    (&[Byte::Number], "no 5\n"),
    (&[Byte::Start, Byte::StartInMap], "no 6\n"),
    (&[Byte::Name], "no 7\n"),
    // two parts at once
    (&[Byte::Start, Byte::Place], "no 1\n"),
    (&[Byte::Name, Byte::Place], "no 1\n"),
    (&[Byte::Port, Byte::Start], "no 3\n"),
    (&[Byte::Number, Byte::Port], "no 4\n"),
    (&[Byte::Start, Byte::StartInMap, Byte::Port], "no 4\n"),
    (&[Byte::Start, Byte::StartInMap, Byte::Number], "no 5\n"),
    (&[Byte::Start, Byte::StartInMap, Byte::Name], "no 6\n"),
];

#[test]
fn otherwise_than_compiled(rt: HostRuntime) -> Result<(), Fail> {
    for (number, (bytes, wanted)) in OTHERWISE.iter().enumerate() {
        let told = verified(rt.alloc(), bytes)?;
        assert!(rt; told.as_slice() == wanted.as_bytes(), "row {number}");
    }
    Ok(())
}
