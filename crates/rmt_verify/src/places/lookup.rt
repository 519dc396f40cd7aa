//! The lanes of fields, by their numbers.

ghost use Rattle.std.specs.Prelude.{◌≡◌, ◌↔◌, IsTrue, reverse};
ghost use Rattle.rmt_ast.specs.Places.{lanes_of};
ghost use Rattle.rmt_phv.specs.Places.{high_first};
ghost use Rattle.rmt_refine.specs.Places.{StandsIn};

use rmt_bits::lane::Lane;
use rmt_phv::places::Places;

/// The lanes of a field, low piece first; none of a field that there isn't.
pub fn lanes_at(places: &Places, field: u32) -> &[Lane]
    ensures { result.now ≡ lanes_of places.now field }
{
    match places.get(field as usize) {
        Some(lanes) => lanes.as_slice(),
        None => &[],
    }
}

/// Whether a field has one piece, in that lane.
pub fn stands_in(places: &Places, field: u32, lane: Lane) -> bool
    ensures { IsTrue result ↔ StandsIn places.now field lane }
{
    match lanes_at(places, field) {
        [only] => *only == lane,
        _ => false,
    }
}

/// Whether lanes are those, the last one first.
#[tactic(auto, using(crate::proofs::PlaceLaws::reversed_more))]
fn are_reversed(lanes: &[Lane], others: &[Lane]) -> bool
    ensures { IsTrue result ↔ lanes.now ≡ reverse others.now }
{
    if lanes.len() != others.len() {
        return false;
    }
    for (at, lane) in lanes.iter().enumerate() {
        if *lane != others[others.len() - 1 - at] {
            return false;
        }
    }
    true
}

/// Whether lanes are those of some fields, highest bits first.
pub fn are_high_first(places: &Places, fields: &[u32], lanes: &[Lane]) -> bool
    ensures { IsTrue result ↔ lanes.now ≡ high_first places.now fields.now }
{
    let mut rest = lanes;
    for field in fields {
        let own = lanes_at(places, *field);
        if rest.len() < own.len() {
            return false;
        }
        let (front, behind) = rest.split_at(own.len());
        if !are_reversed(front, own) {
            return false;
        }
        rest = behind;
    }
    rest.is_empty()
}
