//! Instructions, their operations and sources.

ghost use Rattle.std.specs.Prelude.{◌≡◌, ◌++◌, OnOk};
ghost use Rattle.rmt_config.specs.Spelling.{spelled_kind, spelled_source, spelled_operation, spelled_vliw, CountsFitVliw};

use crate::writing::spelled::{Spelled, put_four, put_list8, put_two};
use rmt_config::config::{OpKind, Operation, Source, Vliw};
use std::alloc::AllocError;

fn kind_byte(kind: OpKind) -> u8
    ensures { result ≡ spelled_kind kind }
{
    match kind {
        OpKind::Copy => 0,
        OpKind::Add => 1,
        OpKind::Sub => 2,
        OpKind::And => 3,
        OpKind::Or => 4,
        OpKind::Xor => 5,
    }
}

fn put_source(out: &mut Vec<u8>, source: Source) -> Result<(), AllocError>
    ensures { OnOk result (out.new.items ≡ out.old.items ++ spelled_source source) }
{
    match source {
        Source::Word { word, low } => out.extend_from_slice(&[0, word, low]),
        Source::Held { low } => {
            out.push(1)?;
            put_two(out, low)
        }
        Source::Constant { value } => {
            out.push(2)?;
            put_four(out, value)
        }
    }
}

impl Spelled for Operation {
    ghost spelling = { spelled_operation };

    fn put(&self, out: &mut Vec<u8>) -> Result<(), AllocError> {
        out.extend_from_slice(&[self.word, self.low, self.len, kind_byte(self.kind)])?;
        put_source(out, self.left)?;
        put_source(out, self.right)
    }
}

impl Spelled for Vliw {
    ghost spelling = { spelled_vliw };

    ghost fits = { CountsFitVliw };

    fn put(&self, out: &mut Vec<u8>) -> Result<(), AllocError> {
        put_list8(out, self.ops.as_slice())
    }
}
