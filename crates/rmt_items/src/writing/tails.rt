//! The tails of headers and of parser entries.

ghost use Rattle.std.specs.Prelude.{◌≡◌, ◌++◌, ◌<◌, ◌^◌, length, OnOk};
ghost use Rattle.rmt_config.specs.ImageSpelling.{spelled_tail, spelled_tails};

use crate::writing::spelled::{Spelled, put_list16, put_two};
use rmt_config::config::TailOf;
use std::alloc::AllocError;

impl Spelled for TailOf {
    ghost spelling = { spelled_tail };

    fn put(&self, out: &mut Vec<u8>) -> Result<(), AllocError> {
        put_two(out, self.entry)?;
        out.push(self.header)?;
        put_two(out, self.from)?;
        out.extend_from_slice(&[self.len, self.unit, self.base])
    }
}

/// Tails behind their count, where there is one.
pub fn put_tails(out: &mut Vec<u8>, tails: &[TailOf]) -> Result<(), AllocError>
    requires { length tails.now < 2 ^ 16 }
    ensures put { OnOk result (out.new.items ≡ out.old.items ++ spelled_tails tails.now) }
{
    match tails {
        [] => Ok(()),
        [_, ..] => put_list16(out, tails),
    }
}
