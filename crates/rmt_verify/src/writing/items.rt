//! The items of a map's lists.

ghost use Rattle.std.specs.Prelude.{◌≡◌, ◌<◌, ◌^◌, true};
ghost use Rattle.rmt_config.specs.LaneForm.{lane_is_formed};
ghost use Rattle.rmt_config.specs.Spelling.{two_bytes, spelled_lane};
ghost use Rattle.rmt_verify.specs.Spelling.{AreLanes, CellFits, JoinFits, PartFits, spelled_cell, spelled_join, spelled_lanes, spelled_part};

use crate::writing::spelled::{Spelled, put_four, put_list8, put_two};
use rmt_bits::lane::Lane;
use rmt_bits::sequence::Sequence;
use rmt_pack::placement::Part;
use rmt_ptcam::joins::Join;
use rmt_refine::map::CellOf;
use std::alloc::AllocError;

impl Spelled for Lane {
    ghost spelling = { spelled_lane };

    ghost fits = { λ lane. lane_is_formed lane ≡ true };

    fn put(&self, out: &mut Vec<u8>) -> Result<(), AllocError> {
        out.extend_from_slice(&[self.word, self.low, self.len])
    }
}

/// The lanes of a field.
impl Spelled for Sequence<Lane> {
    ghost spelling = { spelled_lanes };

    ghost fits = { AreLanes };

    fn put(&self, out: &mut Vec<u8>) -> Result<(), AllocError> {
        put_list8(out, self.as_slice())
    }
}

impl Spelled for Join {
    ghost spelling = { spelled_join };

    ghost fits = { JoinFits };

    fn put(&self, out: &mut Vec<u8>) -> Result<(), AllocError> {
        out.push(self.state)?;
        put_two(out, self.entry)
    }
}

impl Spelled for Part {
    ghost spelling = { spelled_part };

    ghost fits = { PartFits };

    fn put(&self, out: &mut Vec<u8>) -> Result<(), AllocError> {
        out.push(self.node as u8)?;
        out.push(self.stage as u8)?;
        put_two(out, self.quanta as u16)
    }
}

/// The start of a stage.
impl Spelled for u16 {
    ghost spelling = { two_bytes };

    ghost fits = { λ start. start < 2 ^ 16 };

    fn put(&self, out: &mut Vec<u8>) -> Result<(), AllocError> {
        put_two(out, *self)
    }
}

impl Spelled for CellOf {
    ghost spelling = { spelled_cell };

    ghost fits = { CellFits };

    fn put(&self, out: &mut Vec<u8>) -> Result<(), AllocError> {
        put_four(out, self.entry)?;
        out.push(self.stage as u8)?;
        put_four(out, self.cell)
    }
}
