//! The tests of gates.

ghost use Rattle.std.specs.Prelude.{◌≡◌, ◌≤◌, ◌+◌, ◌↔◌, IsTrue};
ghost use Rattle.rmt_bits.specs.Bits.{slice as slice_of};
ghost use Rattle.rmt_ast.specs.Places.{lanes_of};
ghost use Rattle.rmt_config.specs.LaneForm.{bits_of_lanes};
ghost use Rattle.rmt_refine.specs.Units.{tests_of};

use crate::places::lookup::lanes_at;
use rmt_ast::program::Test;
use rmt_bits::bits::slice;
use rmt_bits::lane::Lane;
use rmt_config::config::GateTest;
use rmt_phv::places::Places;

/// Whether a test is that of a field, over a lane that holds the field's bits from bit `low` on.
fn is_test_over(own: &GateTest, lane: Lane, test: &Test, low: u8) -> bool
    requires { low + lane.len ≤ 128 }
    ensures { IsTrue result ↔ own.now ≡ record { lane = lane; value = slice_of test.now.value low lane.len; mask = slice_of test.now.mask low lane.len } }
{
    own.lane == lane
        && own.value as u128 == slice(test.value, low, lane.len)
        && own.mask as u128 == slice(test.mask, low, lane.len)
}

/// Whether tests are those of a field, over its lanes, the highest bits first.
pub fn has_tests(places: &Places, field: u32, test: &Test, tests: &[GateTest]) -> bool
    requires { bits_of_lanes (lanes_of places.now field) ≤ 128 }
    ensures { IsTrue result ↔ tests.now ≡ tests_of places.now field test.now }
{
    let lanes = lanes_at(places, field);
    if tests.len() != lanes.len() {
        return false;
    }
    let mut low = 0;
    for (at, lane) in lanes.iter().enumerate() {
        if !is_test_over(&tests[tests.len() - 1 - at], *lane, test, low) {
            return false;
        }
        low += lane.len;
    }
    true
}
