//! Guards, and gates with their tests.

#![tactic(auto, unfolding(crate::specs::Reading::guard_at, crate::specs::Reading::test_at, crate::specs::Reading::gate_at))]

ghost use Rattle.std.specs.Prelude.{◌≡◌, ◌≤◌};
ghost use Rattle.rmt_items.specs.Readers.{Gives, kept, listed, list_at, byte_at, number_at, at_least};
ghost use Rattle.rmt_items.specs.Reading.{mask_is_even, guard_at, test_fits, test_at, gate_at};

use crate::fault::{Read, ReadError, ReadFault};
use crate::reading::bounded::positive;
use crate::reading::items::{Item, list_of};
use crate::reading::lane::lane_of;
use crate::reading::number::{byte_of, fours_of, kept, two_of};
use rmt_bits::sequence::Sequence;
use rmt_config::config::{GateTest, GateUnit, UnitGuard};
use std::alloc::Global;

fn outcomes_of(bytes: &[u8]) -> Read<u16>
    ensures { Gives (λ x. (x.0, x.1.now)) result (kept mask_is_even (number_at 2) bytes.now) }
{
    let (mask, rest) = two_of(bytes)?;
    kept(mask % 2 == 0, mask, rest)
}

/// The guard of a unit, or none.
pub fn guard_of(bytes: &[u8]) -> Read<Option<UnitGuard>>
    ensures { Gives (λ x. (x.0, x.1.now)) result (guard_at bytes.now) }
{
    match bytes {
        [] => Err(ReadError::Fault(ReadFault::Short)),
        [0, rest @ ..] => Ok((None, rest)),
        [1, rest @ ..] => {
            let (parent, rest) = byte_of(rest)?;
            let (mask, rest) = outcomes_of(rest)?;
            Ok((Some(UnitGuard { parent, mask }), rest))
        }
        _ => Err(ReadError::Fault(ReadFault::Form)),
    }
}

/// Whether the mask of a test, whose lane has at most 32 bits, fits the lane, and its value the mask.
fn is_test(test: GateTest) -> bool
    requires { test.lane.len ≤ 32 }
    ensures { result ≡ test_fits test }
{
    (test.mask as u64) < (1u64 << test.lane.len) && test.value & test.mask == test.value
}

impl Item<()> for GateTest {
    const LEAST_SIZE: usize = 11;

    ghost item_at = { λ _. test_at };

    fn read(_alloc: Global, _given: (), bytes: &[u8]) -> Read<GateTest> {
        let (lane, rest) = lane_of(bytes)?;
        let ((value, mask), rest) = fours_of(rest)?;
        let test = GateTest { lane, value, mask };
        kept(is_test(test), test, rest)
    }
}

fn tests_of(alloc: Global, bytes: &[u8]) -> Read<Sequence<GateTest>>
    ensures { Gives (λ x. (x.0, x.1.now)) result (listed (kept (at_least 1) byte_at) (list_at test_at) bytes.now) }
{
    let (count, rest) = positive(bytes)?;
    list_of(alloc, (), count as u64, rest)
}

/// A gate.
pub fn gate_of(alloc: Global, bytes: &[u8]) -> Read<GateUnit>
    ensures { Gives (λ x. (x.0, x.1.now)) result (gate_at bytes.now) }
{
    let (node, rest) = byte_of(bytes)?;
    let (guard, rest) = guard_of(rest)?;
    let (tests, rest) = tests_of(alloc, rest)?;
    Ok((GateUnit { node, guard, tests }, rest))
}
