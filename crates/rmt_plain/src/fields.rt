//! The fields of a header, from the bytes of a frame.

ghost use Rattle.std.specs.Prelude.{◌≡◌, ◌*◌, ◌≤◌, length};
ghost use Rattle.rmt_bits.specs.Bits.{number_of};
ghost use Rattle.rmt_ast.specs.State.{width_of as bits_of_field, set_fields as fields_set};
ghost use Rattle.rmt_ast.specs.WellFormed.{bits_of};
ghost use Rattle.rmt_plain.specs.Runnable.{IsRunnable};

use crate::numbers::put_at;
use rmt_ast::program::Program;
use rmt_bits::bits::bits_of_bytes;

/// The bits of a field.
pub fn width_of(program: &Program, field: u32) -> u8
    requires { IsRunnable program.now }
    ensures width { result ≡ bits_of_field program.now field }
    ensures narrow { result ≤ 128 }
{
    match program.fields.get(field as usize) {
        Some(field) => field.width,
        None => 0,
    }
}

/// Sets fields from bytes, the first field from the highest bits.
pub fn set_fields(program: &Program, fields: &[u32], bytes: &[u8], state: &mut [u128])
    requires runs { IsRunnable program.now }
    requires whole { bits_of program.now fields.now ≡ 8 * length bytes.now }
    requires short { length bytes.now ≤ 64 }
    ensures { state.new ≡ fields_set program.now fields.now (number_of bytes.now) state.old }
{
    let mut from: u32 = 0;
    for field in fields {
        let width = width_of(program, *field);
        put_at(state, *field as usize, bits_of_bytes(bytes, from, width));
        from += u32::from(width);
    }
}
