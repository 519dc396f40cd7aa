//! Numbers of names that are known, as they stand in a program.

ghost use Rattle.std.specs.Prelude.{◌≡◌, ◌≤◌, ◌-◌, length};
ghost use Rattle.rmt_check.specs.Names.{named};
ghost use Rattle.rmt_check.specs.Meaning.{index_of, field_number, action_number, target_of};
ghost use Rattle.rmt_check.specs.Sizes.{IsSized};
ghost use Rattle.rmt_check.specs.StoredFields.{named_at};

use crate::names::fields::FieldKey;
use crate::names::lookup::{Lookup, key};
use crate::source::{FieldText, Ident, TargetText};
use rmt_ast::name_list::NameList;
use rmt_ast::program::Target;

/// The number of the field with a key, and 0 for none.
pub fn number_at<N: Lookup>(names: &N, key: FieldKey<'_>) -> u32
    requires { IsSized (N.text names.now) }
    ensures { result ≡ field_number (N.text names.now) (named_at key.entry) }
{
    names.field(key).unwrap_or(0) as u32
}

/// The number of a field that is named.
pub fn field_number<N: Lookup>(names: &N, field: &FieldText) -> u32
    requires { IsSized (N.text names.now) }
    ensures { result ≡ field_number (N.text names.now) (named (N.text names.now) field.now) }
{
    number_at(names, key(names, field))
}

/// The number of a name in a list of at most 256, and 0 for none.
pub fn number_among(list: &NameList<'_>, name: &[u8]) -> u32
    requires { length list.now ≤ 256 }
    ensures number { result ≡ index_of list.now name.now }
    ensures below { result ≤ length list.now - 1 }
{
    list.number(name).unwrap_or(0) as u32
}

/// The number of an action.
pub fn action_number<N: Lookup>(names: &N, action: &Ident) -> u32
    requires { IsSized (N.text names.now) }
    ensures { result ≡ action_number (N.text names.now) action.now }
{
    number_among(names.actions(), action.name.as_slice())
}

/// Where a header goes on.
pub fn target_of<N: Lookup>(names: &N, target: &TargetText) -> Target
    requires { IsSized (N.text names.now) }
    ensures { result ≡ target_of (N.text names.now) target.now }
{
    match target {
        TargetText::Header(header) => {
            Target::Node(number_among(names.headers(), header.name.as_slice()))
        }
        TargetText::Accept => Target::Accept,
        TargetText::Reject => Target::Reject,
    }
}
