//! What the lookup bytes are compared with in a case.

ghost use Rattle.std.specs.Prelude.{◌≡◌, ◌≤◌, ◌*◌, ◌+◌, ℕ, List, length, map, fold, IfOk, Contains, All};
ghost use Rattle.std.specs.List.{zip};
ghost use Rattle.rmt_bits.specs.Bits.{number_of, bytes_of};
ghost use Rattle.rmt_config.specs.Parser.{lookup_value};
ghost use Rattle.rmt_ast.specs.declared.program.Test.{Test};
ghost use Rattle.rmt_ast.specs.State.{width_of as bits_of_field};
ghost use Rattle.rmt_ast.specs.WellFormed.{IsProgram, IsTest, AreTests, bits_of};
ghost use Rattle.rmt_ptcam.specs.Plain.{with_field, state_of, looked_up};

use crate::parse::lookup_value::lookup;
use crate::plain::headers::{place_of, width_of};
use rmt_ast::program::{Header, Program, Test};
use rmt_bits::bits::bytes_of_bits;
use rmt_config::config::ParserState;
use std::alloc::{AllocError, Global};

/// What the lookup bytes are compared with, and on which bits.
#[derive(Clone, Copy)]
pub struct Compared {
    pub value: u32,
    pub mask: u32,
}

/// Puts a test's value and mask into the bytes of a header, at the place of the field.
fn put_test(
    program: &Program,
    header: &Header,
    field: u32,
    test: Test,
    values: &mut [u8],
    masks: &mut [u8],
)
    requires program { IsProgram program.now }
    requires short { header.now.bytes ≤ 64 }
    requires whole { bits_of program.now header.now.fields ≡ 8 * header.now.bytes }
    requires own { Contains header.now.fields field }
    requires fits { IsTest (bits_of_field program.now field) test }
    requires value_bytes { length values.old ≡ header.now.bytes }
    requires mask_bytes { length masks.old ≡ header.now.bytes }
    ensures values { number_of values.new ≡ with_field program.now header.now (number_of values.old) (field, test.value) }
    ensures masks { number_of masks.new ≡ with_field program.now header.now (number_of masks.old) (field, test.mask) }
    ensures as_many_values { length values.new ≡ length values.old }
    ensures as_many_masks { length masks.new ≡ length masks.old }
{
    let from = place_of(program, header.fields.as_slice(), field);
    let width = width_of(program, field);
    bytes_of_bits(test.value, width, values, from);
    bytes_of_bits(test.mask, width, masks, from);
}

/// Puts the tests of a case into the bytes of a header.
fn put_tests(
    program: &Program,
    header: &Header,
    tests: &[Test],
    values: &mut [u8],
    masks: &mut [u8],
)
    requires program { IsProgram program.now }
    requires short { header.now.bytes ≤ 64 }
    requires whole { bits_of program.now header.now.fields ≡ 8 * header.now.bytes }
    requires own { All (Contains header.now.fields) header.now.select }
    requires tests { AreTests program.now header.now.select tests.now }
    requires value_bytes { length values.old ≡ header.now.bytes }
    requires mask_bytes { length masks.old ≡ header.now.bytes }
    ensures values { number_of values.new
        ≡ fold (with_field program.now header.now) (number_of values.old) (zip header.now.select (map (λ (t : Test). t.value) tests.now)) }
    ensures masks { number_of masks.new
        ≡ fold (with_field program.now header.now) (number_of masks.old) (zip header.now.select (map (λ (t : Test). t.mask) tests.now)) }
    ensures as_many_values { length values.new ≡ length values.old }
    ensures as_many_masks { length masks.new ≡ length masks.old }
{
    let select = header.select.as_slice();
    for place in 0..tests.len() {
        put_test(program, header, select[place], tests[place], values, masks);
    }
}

/// The bytes of a header that its state looks up.
fn lookup_in(bytes: &[u8], state: &ParserState) -> u32
    ensures { result ≡ lookup_value (bytes_of (length bytes.now) (number_of bytes.now)) 0 state.now }
{
    lookup(bytes, 0, state)
}

/// What the lookup bytes of a header's state are compared with in a case with these tests.
pub fn compared_in(
    alloc: Global,
    program: &Program,
    header: &Header,
    state: &ParserState,
    tests: &[Test],
) -> Result<Compared, AllocError>
    requires program { IsProgram program.now }
    requires short { header.now.bytes ≤ 64 }
    requires whole { bits_of program.now header.now.fields ≡ 8 * header.now.bytes }
    requires own { All (Contains header.now.fields) header.now.select }
    requires tests { AreTests program.now header.now.select tests.now }
    requires state { state.now ≡ state_of program.now header.now }
    ensures value { IfOk result (λ c. c.value ≡ looked_up program.now header.now (map (λ (t : Test). t.value) tests.now)) }
    ensures mask { IfOk result (λ c. c.mask ≡ looked_up program.now header.now (map (λ (t : Test). t.mask) tests.now)) }
{
    let bytes = usize::from(header.bytes);
    let mut values = vec![in alloc; 0u8; bytes]?;
    let mut masks = vec![in alloc; 0u8; bytes]?;
    put_tests(
        program,
        header,
        tests,
        values.as_mut_slice(),
        masks.as_mut_slice(),
    );
    Ok(Compared {
        value: lookup_in(values.as_slice(), state),
        mask: lookup_in(masks.as_slice(), state),
    })
}
