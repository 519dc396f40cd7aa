//! Plain and clustered parsers of program texts, and frames that they parse.

ghost use Rattle.std.specs.Prelude.{◌<◌, length, IfOk};
ghost use Rattle.rmt_ptcam.specs.Fitting.{IsParser};

use rmt_check::laws::one_meaning;
use rmt_check::read_program;
use rmt_config::config::ParserConfig;
use rmt_config::tails::Tails;
use rmt_config::vector::Vector;
use rmt_packets::packet_line::read_packet;
use rmt_phv::pack_fields;
use rmt_ptcam::fault::ParserFault;
use rmt_ptcam::parse::Parsed;
use rmt_ptcam::{clustered_parser, parse_chip, parser_need, plain_parser};
use rmt_tests::fixtures::texts::repeated;
use std::alloc::{AllocError, Global};
use std::test::*;

/// A rule by which a program gets its parser.
#[derive(Clone, Copy)]
pub(crate) enum Rule {
    /// One state for each header.
    Plain,
    /// Several headers in one step.
    Clustered,
}

/// Both rules.
const RULES: [Rule; 2] = [Rule::Plain, Rule::Clustered];

/// The parser by a rule of a text that means a program; `parser_need` refuses as the rules do.
pub(crate) fn parser_of(alloc: Global, text: &[u8], rule: Rule) -> Result<ParserConfig, ParserFault>
    requires { length text.now < 4294967295 }
    ensures { IfOk result IsParser }
{
    let Ok(program) = read_program(alloc, text) else {
        return Err(ParserFault::NoMemory);
    };
    one_meaning();
    parser_need(&program)?;
    let Ok(places) = pack_fields(alloc, &program) else {
        return Err(ParserFault::NoMemory);
    };
    match rule {
        Rule::Plain => plain_parser(alloc, &program, &places),
        Rule::Clustered => clustered_parser(alloc, &program, &places),
    }
}

/// What the parser makes of a frame.
fn parsed(parser: &ParserConfig, frame: &[u8]) -> Parsed
    requires fits { IsParser parser.now }
    requires short { length frame.now < 9217 }
{
    let mut vector = Vector::new();
    let mut tails = Tails::new();
    parse_chip(parser, frame, &mut vector, &mut tails)
}

/// The headers of an Ethernet switch: 16 cases and `else`s.
pub(crate) const HEADERS: &[u8] =
    b"header eth { dst : 48; src : 48; kind : 16; } next (kind) { 0x8100 : vlan; 0x0800 : ipv4; 0x86dd : ipv6; else : accept; } header vlan { pcp : 3; dei : 1; vid : 12; kind : 16; } next (kind) { 0x0800 : ipv4; 0x86dd : ipv6; else : accept; } header ipv4 { version : 4; ihl : 4; tos : 8; length : 16; id : 16; flags : 3; frag : 13; ttl : 8; proto : 8; sum : 16; src : 32; dst : 32; } next (ihl, proto) { 5, 6 : tcp; 5, 17 : udp; 5, 0 & 0 : accept; else : reject; } header ipv6 { version : 4; class : 8; flow : 20; length : 16; nxt : 8; hops : 8; src : 128; dst : 128; } next (nxt) { 6 : tcp; 17 : udp; else : accept; } header tcp { sport : 16; dport : 16; seq : 32; ack : 32; off : 4; flags : 12; window : 16; sum : 16; urgent : 16; } next accept; header udp { sport : 16; dport : 16; length : 16; sum : 16; } next accept; control { }";

/// Packet lines, and how their frames parse: UDP twice, TCP behind a tag, UDP over IPv6, an unknown kind, options of IPv4,
/// and a cut tag.
const FRAMES: [(&[u8], Parsed); 7] = [
    (
        b"0 02000000000102000000000208004500002000000000401100000b000001c0a8010500350035000c0000deadbeef",
        Parsed::Accept { used: 42 },
    ),
    (
        b"0 02000000000102000000000208004500002000000000401100000a000001c0a8010500350035000c0000deadbeef",
        Parsed::Accept { used: 42 },
    ),
    (
        b"0 0200000000010200000000028100000508004500002800000000400600000b000001c0a802050050005100000001000000005002200000000000",
        Parsed::Accept { used: 58 },
    ),
    (
        b"0 02000000000102000000000286dd600000000008114020010db800000000000000000000000220010db80000000000000000000000010035003500080000",
        Parsed::Accept { used: 62 },
    ),
    (
        b"0 02000000000902000000000208060001",
        Parsed::Accept { used: 14 },
    ),
    (
        b"0 02000000000102000000000208004600002000000000401100000b000001c0a80105",
        Parsed::Reject,
    ),
    (b"0 0200000000010200000000028100000508", Parsed::Short),
];

#[test]
fn realistic_frames(rt: HostRuntime) -> Result<(), Fail> {
    for &rule in &RULES {
        let parser = parser_of(rt.alloc(), HEADERS, rule)?;
        let mut frame = Vec::new(rt.alloc());
        for (line, want) in FRAMES.as_slice() {
            assert!(rt; read_packet(*line, &mut frame) == Ok(0));
            assert!(rt; frame.len() < 9217);
            assert!(rt; parsed(&parser, frame.as_slice()) == *want);
        }
    }
    Ok(())
}

/// How both parsers end on the front of a frame of which the headers have so many bytes.
fn end_alike(plain: &ParserConfig, clustered: &ParserConfig, front: &[u8], headers: u32) -> bool
    requires plain { IsParser plain.now }
    requires clustered { IsParser clustered.now }
    requires short { length front.now < 9217 }
{
    let want = if front.len() < headers as usize {
        Parsed::Short
    } else {
        Parsed::Accept { used: headers }
    };
    parsed(plain, front) == want && parsed(clustered, front) == want
}

/// Each of these frames that is accepted, cut at each byte.
#[test]
fn frames_cut_at_each_byte(rt: HostRuntime) -> Result<(), Fail> {
    let plain = parser_of(rt.alloc(), HEADERS, Rule::Plain)?;
    let clustered = parser_of(rt.alloc(), HEADERS, Rule::Clustered)?;
    let mut frame = Vec::new(rt.alloc());
    for (line, end) in FRAMES.as_slice() {
        if let Parsed::Accept { used } = *end {
            assert!(rt; read_packet(*line, &mut frame) == Ok(0));
            assert!(rt; frame.len() < 9217);
            for len in 0..frame.len() + 1 {
                assert!(rt; end_alike(&plain, &clustered, &frame.as_slice()[..len], used));
            }
        }
    }
    Ok(())
}

/// A header whose `n` tells a tail of `n * 4 - 4` bytes, and frames: a tail of 4 bytes, a cut one, and one of fewer than 0.
const TAILED: &[u8] = b"header o { n : 4; z : 4; tail n * 4 - 4; } next accept; control { }";

const TAILS: [(&[u8], Parsed, (u16, u16)); 3] = [
    (&[0x2f, 1, 2, 3, 4, 5], Parsed::Accept { used: 5 }, (1, 4)),
    (&[0x2f, 1, 2, 3], Parsed::Short, (0, 0)),
    (&[0x0f, 1, 2, 3, 4], Parsed::Reject, (0, 0)),
];

#[test]
fn tails_of_a_header(rt: HostRuntime) -> Result<(), Fail> {
    let parser = parser_of(rt.alloc(), TAILED, Rule::Clustered)?;
    for &(frame, answer, tail) in &TAILS {
        let mut vector = Vector::new();
        let mut tails = Tails::new();
        assert!(rt; frame.len() < 9217);
        let got = parse_chip(&parser, frame, &mut vector, &mut tails);
        assert!(rt; got == answer);
        if got == (Parsed::Accept { used: 5 }) {
            assert!(rt; tails.get(0) == tail);
        }
    }
    Ok(())
}

/// How many entries and states the parser by a rule of a text has, or why it has none.
fn told(alloc: Global, text: &[u8], rule: Rule) -> Result<String, AllocError>
    requires { length text.now < 4294967295 }
{
    match parser_of(alloc, text, rule) {
        Ok(parser) => format!(in alloc;
            "{} entries {} states",
            parser.entries.len(),
            parser.states.len()
        ),
        Err(ParserFault::LookupWide { header, bytes }) => format!(in alloc;
            "lookup {header} {bytes}"
        ),
        Err(ParserFault::StepWide { header, extracts }) => format!(in alloc;
            "step {header} {extracts}"
        ),
        Err(ParserFault::ParserFull { entries }) => format!(in alloc; "full {entries}"),
        Err(_) => Err(AllocError),
    }
}

/// A text whose middle part is repeated so often, and what is told of its plain and of its clustered parser.
type Row = (
    &'static [u8],
    &'static [u8],
    u16,
    &'static [u8],
    &'static str,
    &'static str,
);

/// A program with 16 cases and `else`s; a select of 6 bytes, one of 5 of a field that begins inside a byte, and one of 4; a
/// header of 64 fields; 255 cases and the `else`, and one case more.
const SIZES: [Row; 7] = [
    (
        HEADERS,
        b"",
        0,
        b"",
        "16 entries 6 states",
        "13 entries 3 states",
    ),
    (
        b"header h { a : 24; b : 24; } next (a, b) { else : accept; } control { }",
        b"",
        0,
        b"",
        "lookup 0 6",
        "lookup 0 6",
    ),
    (
        b"header h { a : 4; b : 32; c : 4; } next (b) { else : accept; } control { }",
        b"",
        0,
        b"",
        "lookup 0 5",
        "lookup 0 5",
    ),
    (
        b"header h { a : 8; b : 32; c : 8; } next (b) { else : accept; } control { }",
        b"",
        0,
        b"",
        "1 entries 1 states",
        "1 entries 1 states",
    ),
    (
        b"header h {",
        b" f# : 8;",
        64,
        b" } next accept; control { }",
        "step 0 65",
        "step 0 65",
    ),
    (
        b"header h { f : 16; } next (f) {",
        b" # : accept;",
        255,
        b" else : reject; } control { }",
        "256 entries 1 states",
        "256 entries 1 states",
    ),
    (
        b"header h { f : 16; } next (f) {",
        b" # : accept;",
        256,
        b" else : reject; } control { }",
        "full 257",
        "full 257",
    ),
];

#[test]
fn sizes_of_parsers(rt: HostRuntime) -> Result<(), Fail> {
    for &(front, piece, times, back, plain, clustered) in &SIZES {
        let text = repeated(rt.alloc(), front, piece, times, back)?;
        assert!(rt; text.len() < 10000);
        let got = told(rt.alloc(), text.as_slice(), Rule::Plain)?;
        assert!(rt; got.as_str() == plain);
        let got = told(rt.alloc(), text.as_slice(), Rule::Clustered)?;
        assert!(rt; got.as_str() == clustered);
    }
    Ok(())
}
