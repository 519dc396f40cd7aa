//! Stages, and the rows of their SRAM and TCAM.

ghost use Rattle.std.specs.Prelude.{◌≡◌, ◌++◌, OnOk};
ghost use Rattle.rmt_bits.specs.Bits.{bytes_of};
ghost use Rattle.rmt_config.specs.Spelling.{spelled_srow, spelled_trow, spelled_stage, CountsFitStage};

use crate::writing::spelled::{Spelled, put_all, put_list8, put_list32, put_two};
use rmt_config::config::{SramRow, Stage, TcamRow};
use std::alloc::AllocError;

/// The low 14 bytes of a number.
fn put_bits(out: &mut Vec<u8>, bits: u128) -> Result<(), AllocError>
    ensures { OnOk result (out.new.items ≡ out.old.items ++ bytes_of 14 bits) }
{
    let bytes = bits.to_be_bytes();
    out.extend_from_slice(&bytes[2..])
}

/// The low 5 bytes of a number.
#[tactic(auto, using(rmt_config::proofs::HighFirst::high_first))]
fn put_five(out: &mut Vec<u8>, number: u64) -> Result<(), AllocError>
    ensures { OnOk result (out.new.items ≡ out.old.items ++ bytes_of 5 number) }
{
    let bytes = number.to_be_bytes();
    out.extend_from_slice(&bytes[3..])
}

impl Spelled for SramRow {
    ghost spelling = { spelled_srow };

    fn put(&self, out: &mut Vec<u8>) -> Result<(), AllocError> {
        out.push(self.block)?;
        put_two(out, self.row)?;
        put_bits(out, self.bits)
    }
}

impl Spelled for TcamRow {
    ghost spelling = { spelled_trow };

    fn put(&self, out: &mut Vec<u8>) -> Result<(), AllocError> {
        out.push(self.block)?;
        put_two(out, self.row)?;
        put_five(out, self.value)?;
        put_five(out, self.mask)
    }
}

impl Spelled for Stage {
    ghost spelling = { spelled_stage };

    ghost fits = { CountsFitStage };

    fn put(&self, out: &mut Vec<u8>) -> Result<(), AllocError> {
        put_two(out, self.start)?;
        put_list8(out, self.units.as_slice())?;
        put_all(out, self.code.as_slice())?;
        put_list32(out, self.srows.as_slice())?;
        put_list32(out, self.trows.as_slice())
    }
}
