//! Fields that are cut into pieces.

ghost use Rattle.std.specs.Prelude.{◌≡◌, ◌↔◌, IsTrue, map};
ghost use Rattle.rmt_bits.specs.declared.lane.Lane.{Lane};
ghost use Rattle.rmt_ast.specs.declared.program.Field.{Field};
ghost use Rattle.rmt_phv.specs.Packing.{pieces};
ghost use Rattle.rmt_phv.specs.Places.{lengths_of};

use crate::all::{TestOfPair, all_match};
use rmt_ast::program::Field;
use rmt_bits::lane::Lane;
use rmt_phv::places::Lanes;

/// Whether lanes have the lengths of the pieces of a field of that width.
fn are_pieces(width: u8, lanes: &[Lane]) -> bool
    ensures { IsTrue result ↔ map (λ (l : Lane). l.len) lanes.now ≡ pieces width }
{
    let mut left = width;
    for lane in lanes {
        if left == 0 {
            return false;
        }
        if lane.len != left.min(32) {
            return false;
        }
        left -= lane.len;
    }
    left == 0
}

/// That a field's lanes have the lengths of its pieces.
#[derive(Drop)]
struct IsCut;

impl TestOfPair for IsCut {
    type Left = Field;

    type Right = Lanes;

    ghost fit = { λ _ field lanes. map (λ (l : Lane). l.len) lanes ≡ pieces field.width };

    fn matches(&self, field: &Field, lanes: &Lanes) -> bool {
        are_pieces(field.width, lanes.as_slice())
    }
}

/// Whether each field's lanes have the lengths of its pieces.
pub fn are_cut(fields: &[Field], places: &[Lanes]) -> bool
    ensures { IsTrue result ↔ lengths_of places.now ≡ map (λ (f : Field). pieces f.width) fields.now }
{
    all_match(&IsCut, fields, places)
}
