//! Tests of fields: values with the bits that count.

ghost use Rattle.std.specs.Prelude.{◌≡◌, ◌≤◌};
ghost use Rattle.rmt_check.specs.Names.{width_of};
ghost use Rattle.rmt_check.specs.Meaning.{ones, test_of};
ghost use Rattle.rmt_check.specs.Sizes.{IsSized};
ghost use Rattle.rmt_check.specs.StoredFields.{named_at};

use crate::names::fields::FieldKey;
use crate::names::lookup::{Lookup, width};
use crate::source::ValueText;
use rmt_ast::program::Test;

/// The number whose lowest bits, `width` of them, are all ones; at most 128.
fn ones(width: u128) -> u128
    requires { width ≤ 128 }
    ensures { result ≡ ones width }
{
    if width == 128 {
        u128::MAX
    } else {
        (1 << (width as u32)) - 1
    }
}

/// A test of a field of `width` bits, at most 128: without a mask all of them count.
fn test_of(width: u128, value: &ValueText) -> Test
    requires { width ≤ 128 }
    ensures { result ≡ test_of width value.now }
{
    let mask = match value.mask {
        Some(mask) => mask.value,
        None => ones(width),
    };
    Test {
        value: value.value.value & mask,
        mask,
    }
}

/// A test of the field with a key.
pub fn test_at<N: Lookup>(names: &N, key: FieldKey<'_>, value: &ValueText) -> Test
    requires { IsSized (N.text names.now) }
    ensures { result ≡ test_of (width_of (N.text names.now) (named_at key.entry)) value.now }
{
    test_of(width(names, key), value)
}
