//! Fields.

ghost use Rattle.std.specs.Prelude.{◌≡◌, ◌≤◌, IfOk, map};
ghost use Rattle.rmt_check.specs.Names.{fields_of};
ghost use Rattle.rmt_check.specs.Meaning.{field_of};
ghost use Rattle.rmt_check.specs.Sizes.{IsSized};

use crate::building::mapped::{Build, mapped};
use crate::names::fields::KnownField;
use crate::names::lookup::Lookup;
use rmt_ast::name::Name;
use rmt_ast::program::Field;
use rmt_bits::sequence::Sequence;
use std::alloc::{AllocError, Global};

/// A field of at most 128 bits.
impl<'a> Build<(), KnownField<'a>> for Field {
    ghost fits = { λ _ field. field.width ≤ 128 };

    ghost meant = { λ _ field. field_of field };

    fn build(alloc: Global, _shared: &(), field: &KnownField<'a>) -> Result<Field, AllocError> {
        Ok(Field {
            name: Name::from_vec(field.printed_name(alloc)?),
            width: field.width() as u8,
        })
    }
}

/// The fields of a text.
pub fn fields_of<N: Lookup>(alloc: Global, names: &N) -> Result<Sequence<Field>, AllocError>
    requires { IsSized (N.text names.now) }
    ensures { IfOk result (λ fields. fields ≡ map field_of (fields_of (N.text names.now))) }
{
    mapped(alloc, &(), names.fields())
}
