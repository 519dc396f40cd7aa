//! Headers that are sent by the lanes of their fields.

ghost use Rattle.rmt_refine.specs.Places.{HeaderCarried};

use crate::all::TestOfPair;
use crate::places::lookup::{are_high_first, stands_in};
use rmt_ast::program::Header;
use rmt_config::config::OutHeader;
use rmt_phv::places::Places;

/// That a header is sent by the lanes that its fields have here.
#[derive(Drop)]
pub struct SentFrom<'a> {
    pub places: &'a Places,
}

impl<'a> TestOfPair for SentFrom<'a> {
    type Left = Header;

    type Right = OutHeader;

    ghost fit = { λ test. HeaderCarried test.places.now };

    fn matches(&self, header: &Header, out: &OutHeader) -> bool {
        stands_in(self.places, header.valid, out.valid)
            && out.bytes == header.bytes
            && are_high_first(self.places, header.fields.as_slice(), out.pieces.as_slice())
    }
}
