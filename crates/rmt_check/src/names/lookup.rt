//! What the names of a program's text stand for, apart from how they are kept.

ghost use Rattle.std.specs.Prelude.{◌≡◌};
ghost use Rattle.rmt_check.specs.Parts.{Source as SourceValue};
ghost use Rattle.rmt_check.specs.Names as words;
ghost use Rattle.rmt_check.specs.Names.{action_names, fields_of, field_place, header_names, ident_names, listed_by, named, owner_of, params_of, selected, table_names, width_of};
ghost use Rattle.rmt_check.specs.StoredFields.{named_at, owner_at};

use crate::names::fields::{FIRST_HEADER, FieldKey, INTRINSIC, KnownField, METADATA};
use crate::names::lists;
use crate::source::{Declared, FieldText, HeaderText, Ident, OwnerText, Source};
use rmt_ast::name_list::NameList;

/// The names that a program's text declares. The rules and the builder know them by this trait alone.
pub trait Lookup {
    ghost text: { Self → SourceValue };

    /// The text.
    fn source(&self) -> &Source
        ensures { result.now ≡ text self.now };

    /// The fields by number.
    fn fields(&self) -> &[KnownField<'_>]
        ensures { result.now ≡ fields_of (text self.now) };

    /// The number of the field with a key.
    fn field(&self, key: FieldKey<'_>) -> Option<usize>
        ensures { result ≡ field_place (text self.now) (named_at key.entry) };

    /// The headers by name.
    fn headers(&self) -> &NameList<'_>
        ensures { result.now ≡ header_names (text self.now) };

    /// The actions by name.
    fn actions(&self) -> &NameList<'_>
        ensures { result.now ≡ action_names (text self.now) };

    /// The tables by name.
    fn tables(&self) -> &NameList<'_>
        ensures { result.now ≡ table_names (text self.now) };

    /// The actions of a table's list by name, none for a name that is no table.
    fn list(&self, table: &[u8]) -> &NameList<'_>
        ensures { result.now ≡ ident_names (listed_by (text self.now) table.now) };
}

/// The names of a text, and one of its headers.
pub type InHeader<'a, N> = (&'a N, &'a HeaderText);

/// The owner that a header is, by its name; for a name that is none, one that has no field.
#[tactic(auto, using(crate::proofs::FieldCodes::owner_header))]
fn header_owner<N: Lookup>(names: &N, name: &[u8]) -> usize
    ensures { owner_at result ≡ words.header_owner (N.text names.now) name.now }
{
    let headers = names.source().headers.as_slice();
    FIRST_HEADER + names.headers().number(name).unwrap_or(headers.len())
}

/// The number of a field's owner.
fn owner<N: Lookup>(names: &N, owner: &OwnerText) -> usize
    ensures { owner_at result ≡ owner_of (N.text names.now) owner.now }
{
    match owner {
        OwnerText::Intrinsic => INTRINSIC,
        OwnerText::Metadata => METADATA,
        OwnerText::Header(header) => header_owner(names, header.name.as_slice()),
    }
}

/// The key of a field that is named.
pub fn key<'b, N: Lookup>(names: &N, field: &'b FieldText) -> FieldKey<'b>
    ensures { named_at result ≡ named (N.text names.now) field.now }
{
    (owner(names, &field.owner), field.ident.name.as_slice())
}

/// The key of a field that a header names as its own.
pub fn own_key<'b, N: Lookup>(names: &N, header: &HeaderText, ident: &'b Ident) -> FieldKey<'b>
    ensures { named_at result ≡ selected (N.text names.now) header.now ident.now }
{
    let owner = header_owner(names, header.ident.name.as_slice());
    (owner, ident.name.as_slice())
}

/// The width of a field by its number, and 0 for a number that is none.
fn width_at<N: Lookup>(names: &N, number: usize) -> u128
    ensures { result ≡ words.width_at (N.text names.now) number }
{
    match names.fields().get(number) {
        Some(field) => field.width(),
        None => 0,
    }
}

/// The width of a field with a key, and 0 for a key that is none.
pub fn width<N: Lookup>(names: &N, key: FieldKey<'_>) -> u128
    ensures { result ≡ width_of (N.text names.now) (named_at key.entry) }
{
    match names.field(key) {
        Some(number) => width_at(names, number),
        None => 0,
    }
}

/// The width of a field that is named, and 0 where there is none.
pub fn width_of<N: Lookup>(names: &N, field: &FieldText) -> u128
    ensures { result ≡ width_of (N.text names.now) (named (N.text names.now) field.now) }
{
    width(names, key(names, field))
}

/// The parameters of an action, none for a name that is none.
pub fn params<'a, N: Lookup>(names: &'a N, name: &[u8]) -> &'a [Declared]
    ensures { result.now ≡ params_of (N.text names.now) name.now }
{
    match lists::first_named(names.actions(), &names.source().actions, name) {
        Some(action) => action.params.as_slice(),
        None => &[],
    }
}
