//! Fields of headers: their widths and places, and the bytes that they touch.

ghost use Rattle.std.specs.Prelude.{◌≡◌, ◌≤◌, ◌<◌, ◌*◌, ℕ, length};
ghost use Rattle.rmt_ast.specs.State.{width_of as bits_of_field};
ghost use Rattle.rmt_ast.specs.WellFormed.{IsProgram, bits_of};
ghost use Rattle.rmt_ptcam.specs.Needs.{place_in, touches as touches_of, is_looked_up as is_looked_up_of};

use rmt_ast::program::{Header, Program};

/// The bits of a field.
pub fn width_of(program: &Program, field: u32) -> u8
    requires { IsProgram program.now }
    ensures width { result ≡ bits_of_field program.now field }
    ensures narrow { result ≤ 128 }
{
    match program.fields.get(field as usize) {
        Some(field) => field.width,
        None => 0,
    }
}

/// The first bit of a field among the bits of these fields, which stand one behind another.
pub fn place_of(program: &Program, fields: &[u32], field: u32) -> u32
    requires program { IsProgram program.now }
    requires short { bits_of program.now fields.now ≤ 512 }
    ensures place { result ≡ place_in program.now fields.now field }
    ensures within { result ≤ 512 }
{
    let mut from: u32 = 0;
    for other in fields {
        if *other == field {
            return from;
        }
        from += u32::from(width_of(program, *other));
    }
    from
}

/// Whether a field has bits in a byte of its header.
fn touches(program: &Program, header: &Header, byte: u8, field: u32) -> bool
    requires program { IsProgram program.now }
    requires short { bits_of program.now header.now.fields ≤ 512 }
    ensures { result ≡ touches_of program.now header.now byte field }
{
    let from = place_of(program, header.fields.as_slice(), field);
    let end = from + u32::from(width_of(program, field));
    let bit = 8 * u32::from(byte);
    from < bit + 8 && bit < end
}

/// Whether a field that the header selects by has bits in the byte.
pub fn is_looked_up(program: &Program, header: &Header, byte: u8) -> bool
    requires program { IsProgram program.now }
    requires short { bits_of program.now header.now.fields ≤ 512 }
    ensures { result ≡ is_looked_up_of program.now header.now byte }
{
    for field in header.select.as_slice() {
        if touches(program, header, byte, *field) {
            return true;
        }
    }
    false
}
