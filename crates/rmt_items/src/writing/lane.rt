//! The words of the header vector that an image names, and its headers.

ghost use Rattle.rmt_config.specs.Spelling.{spelled_lane, spelled_header, CountsFitHeader};

use crate::writing::spelled::{Spelled, put_list8};
use rmt_bits::lane::Lane;
use rmt_config::config::OutHeader;
use std::alloc::AllocError;

impl Spelled for Lane {
    ghost spelling = { spelled_lane };

    fn put(&self, out: &mut Vec<u8>) -> Result<(), AllocError> {
        out.extend_from_slice(&[self.word, self.low, self.len])
    }
}

impl Spelled for OutHeader {
    ghost spelling = { spelled_header };

    ghost fits = { CountsFitHeader };

    fn put(&self, out: &mut Vec<u8>) -> Result<(), AllocError> {
        self.valid.put(out)?;
        out.push(self.bytes)?;
        put_list8(out, self.pieces.as_slice())
    }
}
