//! The widths of fields.

ghost use Rattle.std.specs.Prelude.{◌≡◌, ◌<◌, All, IfOk, length, map};
ghost use Rattle.rmt_ast.specs.State.{width_of};

use rmt_ast::program::Program;
use rmt_bits::answer::Bytes;
use std::alloc::{AllocError, Global};

/// The widths of some fields.
pub fn widths_of(alloc: Global, program: &Program, fields: &[u32]) -> Result<Bytes, AllocError>
    requires { All (λ f. f < length program.now.fields) fields.now }
    ensures { IfOk result (λ widths. widths ≡ map (width_of program.now) fields.now) }
{
    let mut widths = Bytes::new(alloc);
    for field in fields {
        widths.push(program.fields.as_slice()[*field as usize].width)?;
    }
    Ok(widths)
}
