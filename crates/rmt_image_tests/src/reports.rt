//! Reports of images, byte by byte.

use crate::fixtures::image_bytes::{GATED, STRICT_AND_WEAK, WITHOUT_ENTRIES};
use rmt_image::read_image;
use rmt_report::report;
use rmt_tests::fixtures::images::IMAGE;
use std::alloc::Global;
use std::test::*;

/// One stage with one table, and lanes in words 0, 1, 2, 64 and 65.
const OF_SMALLEST: &[u8] =
    b"{\"latency\":12,\"parser\":{\"entries\":1,\"states\":1},\"stages\":[{\"data\":0,\"exact_bits\":0,\"gates\":0,\"instructions\":1,\"slots\":1,\"sram\":0,\"start\":0,\"tcam\":0,\"ternary_bits\":0}],\"words\":[3,2,0]}";

/// Four key blocks and three record blocks; the entry is not looked at.
const OF_EXACT: &[u8] =
    b"{\"latency\":24,\"parser\":{\"entries\":1,\"states\":1},\"stages\":[{\"data\":0,\"exact_bits\":0,\"gates\":0,\"instructions\":1,\"slots\":1,\"sram\":0,\"start\":0,\"tcam\":0,\"ternary_bits\":0},{\"data\":9,\"exact_bits\":8,\"gates\":0,\"instructions\":3,\"slots\":2,\"sram\":7,\"start\":12,\"tcam\":0,\"ternary_bits\":0}],\"words\":[3,2,0]}";

/// All kinds of units; the gate and the key read word 0, which counts once, and the stages overlap.
const OF_GATED: &[u8] =
    b"{\"latency\":13,\"parser\":{\"entries\":3,\"states\":2},\"stages\":[{\"data\":9,\"exact_bits\":0,\"gates\":1,\"instructions\":3,\"slots\":2,\"sram\":3,\"start\":0,\"tcam\":1,\"ternary_bits\":24},{\"data\":9,\"exact_bits\":0,\"gates\":0,\"instructions\":2,\"slots\":1,\"sram\":3,\"start\":1,\"tcam\":1,\"ternary_bits\":24}],\"words\":[2,3,0]}";

/// Whether the report of an image is this text.
fn is_reported(alloc: Global, image: &[u8], text: &[u8]) -> bool {
    let Ok(config) = read_image(alloc, image) else {
        return false;
    };
    let Ok(made) = report(alloc, &config) else {
        return false;
    };
    made.as_slice() == text
}

#[test]
fn smallest(rt: HostRuntime) {
    assert!(rt; is_reported(rt.alloc(), &IMAGE, OF_SMALLEST));
}

#[test]
fn exact(rt: HostRuntime) {
    assert!(rt; is_reported(rt.alloc(), &STRICT_AND_WEAK, OF_EXACT));
    assert!(rt; is_reported(rt.alloc(), &WITHOUT_ENTRIES, OF_EXACT));
}

#[test]
fn all_kinds(rt: HostRuntime) {
    assert!(rt; is_reported(rt.alloc(), &GATED, OF_GATED));
}
