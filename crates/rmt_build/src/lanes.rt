//! The lanes of fields, the tests over them, and the headers that are sent by them.

ghost use Rattle.std.specs.Prelude.{◌≡◌, ◌+◌, ◌≤◌, ◌<◌, ◌++◌, All, reverse, length, IfOk, OnOk};
ghost use Rattle.std.specs.List.{AllZip};
ghost use Rattle.rmt_bits.specs.Bits.{slice as slice_of};
ghost use Rattle.rmt_bits.specs.declared.lane.Lane.{Lane};
ghost use Rattle.rmt_ast.specs.Places.{lanes_of};
ghost use Rattle.rmt_ast.specs.declared.program.Header.{Header};
ghost use Rattle.rmt_config.specs.LaneForm.{bits_of_lanes};
ghost use Rattle.rmt_phv.specs.Places.{high_first as high_first_of};
ghost use Rattle.rmt_refine.specs.Places.{StandsIn, HeaderCarried};
ghost use Rattle.rmt_refine.specs.Units.{tests_from, tests_of};

use rmt_ast::program::{Header, Test};
use rmt_bits::bits::slice;
use rmt_bits::lane::Lane;
use rmt_bits::sequence::Sequence;
use rmt_config::config::{GateTest, OutHeader};
use rmt_phv::places::Places;
use std::alloc::{AllocError, Global};

/// Adds lanes, the last one first.
fn push_reversed(into: &mut Sequence<Lane>, lanes: &[Lane]) -> Result<(), AllocError>
    ensures { OnOk result (into.new ≡ into.old ++ reverse lanes.now) }
{
    let mut left = lanes.len();
    while left > 0 {
        left -= 1;
        into.push(lanes[left])?;
    }
    Ok(())
}

/// Adds the lanes of a field, the highest bits first.
fn push_field(into: &mut Sequence<Lane>, places: &Places, field: u32) -> Result<(), AllocError>
    ensures { OnOk result (into.new ≡ into.old ++ reverse (lanes_of places.now field)) }
{
    match places.get(field as usize) {
        Some(lanes) => push_reversed(into, lanes.as_slice()),
        None => Ok(()),
    }
}

/// The lanes of some fields, the highest bits of the first field first.
pub fn high_first(
    alloc: Global,
    places: &Places,
    fields: &[u32],
) -> Result<Sequence<Lane>, AllocError>
    ensures { IfOk result (λ lanes. lanes ≡ high_first_of places.now fields.now) }
{
    let mut lanes = Sequence::new(alloc);
    for field in fields {
        push_field(&mut lanes, places, *field)?;
    }
    Ok(lanes)
}

/// The lane of a field of one piece.
pub fn lane_of(places: &Places, field: u32) -> Lane
    requires { length (lanes_of places.now field) ≡ 1 }
    ensures { StandsIn places.now field result }
{
    places.as_slice()[field as usize].as_slice()[0]
}

/// What a lane is tested for that holds the bits of a field from bit `low` on.
fn test_over(lane: Lane, test: &Test, low: u8) -> GateTest
    requires within { low + lane.len ≤ 128 }
    requires short { lane.len ≤ 32 }
    ensures { result ≡ record { lane = lane; value = slice_of test.now.value low lane.len; mask = slice_of test.now.mask low lane.len } }
{
    GateTest {
        lane,
        value: slice(test.value, low, lane.len) as u32,
        mask: slice(test.mask, low, lane.len) as u32,
    }
}

/// The tests of the lanes of a field, low piece first.
fn low_tests(alloc: Global, lanes: &[Lane], test: &Test) -> Result<Vec<GateTest>, AllocError>
    requires within { bits_of_lanes lanes.now ≤ 128 }
    requires short { All (λ (l : Lane). l.len ≤ 32) lanes.now }
    ensures { IfOk result (λ tests. tests.items ≡ tests_from 0 test.now lanes.now) }
{
    let mut tests = Vec::new(alloc);
    let mut low = 0;
    for lane in lanes {
        tests.push(test_over(*lane, test, low))?;
        low += lane.len;
    }
    Ok(tests)
}

/// The tests of a gate on a field, the highest bits first.
pub fn gate_tests(
    alloc: Global,
    places: &Places,
    field: u32,
    test: &Test,
) -> Result<Sequence<GateTest>, AllocError>
    requires field { field < length places.now }
    requires within { bits_of_lanes (lanes_of places.now field) ≤ 128 }
    requires short { All (λ (l : Lane). l.len ≤ 32) (lanes_of places.now field) }
    ensures { IfOk result (λ tests. tests ≡ tests_of places.now field test.now) }
{
    let lanes = places.as_slice()[field as usize].as_slice();
    let mut tests = low_tests(alloc, lanes, test)?;
    tests.reverse();
    Ok(Sequence::from_vec(tests))
}

/// A header as it is sent by the lanes of its fields.
fn out_header(alloc: Global, places: &Places, header: &Header) -> Result<OutHeader, AllocError>
    requires { length (lanes_of places.now header.now.valid) ≡ 1 }
    ensures { IfOk result (HeaderCarried places.now header.now) }
{
    let pieces = high_first(alloc, places, header.fields.as_slice())?;
    Ok(OutHeader {
        valid: lane_of(places, header.valid),
        bytes: header.bytes,
        pieces,
    })
}

/// Headers as they are sent by the lanes of their fields.
pub fn out_headers(
    alloc: Global,
    headers: &[Header],
    places: &Places,
) -> Result<Sequence<OutHeader>, AllocError>
    // The field that tells whether a header is there has one piece.
    requires { All (λ (h : Header). length (lanes_of places.now h.valid) ≡ 1) headers.now }
    ensures { IfOk result (AllZip (HeaderCarried places.now) headers.now) }
{
    let mut sent = Sequence::new(alloc);
    for header in headers {
        sent.push(out_header(alloc, places, header)?)?;
    }
    Ok(sent)
}
