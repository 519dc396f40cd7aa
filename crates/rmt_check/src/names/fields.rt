//! The fields of a program by number, and what they are found by.

ghost use Rattle.std.specs.Prelude.{◌≡◌, ◌<◌, ◌+◌, ◌^◌, ◌++◌, [], OnOk, IfOk};
ghost use Rattle.rmt_check.specs.Names as words;
ghost use Rattle.rmt_check.specs.Names.{declared_fields, fields_of, header_fields, printed_name};
ghost use Rattle.rmt_check.specs.StoredFields.{all_codes, named_at, owner_at, place_among, stored};
ghost use Rattle.rmt_ast.specs.NameList.{HasNumbers};

use crate::pairs::kept;
use crate::source::{Declared, HeaderText, Source};
use indexmap::IndexMap;
use rmt_bits::sequence::Sequence;
use std::alloc::{AllocError, Global};
use std::marker::Model;
use std::vec;

/// What a field is found by: the number of its owner, and its own name.
pub type FieldKey<'a> = (usize, &'a [u8]);

/// The owner of the fields that every program has.
pub const INTRINSIC: usize = 0;
/// The owner of the metadata fields.
pub const METADATA: usize = 1;
/// The owner that the first header is; the others follow.
pub const FIRST_HEADER: usize = 2;

/// A field of a program. Its names stand in the text.
#[derive(Drop)]
pub struct KnownField<'a> {
    key: FieldKey<'a>,
    width: u128,
    /// The name of its owner, where that is printed in front of its own.
    owner_name: Option<&'a [u8]>,
}

impl<'a> Model for KnownField<'a> {
    ghost use Rattle.std.specs.Prelude.{List, ℕ, option_map};
    ghost use Rattle.std.specs.Borrow.{Bor};
    ghost use Rattle.rmt_check.specs.Names.{Known};
    ghost use Rattle.rmt_check.specs.StoredFields.{named_at};

    ghost Value = { Known };

    ghost view = { λ f. record {
      named = named_at f.key;
      width = f.width;
      owner_name = option_map (λ (name : Bor (List ℕ)). name.now) f.owner_name;
    } };
}

impl<'a> KnownField<'a> {
    pub fn width(&self) -> u128
        ensures { result ≡ self.now.width }
    {
        self.width
    }

    /// The name by which it is printed.
    pub fn printed_name(&self, alloc: Global) -> Result<Vec<u8>, AllocError>
        ensures { IfOk result (λ name. name.items ≡ printed_name self.now) }
    {
        let name = self.key.1;
        match self.owner_name {
            Some(owner) => [owner, b".", name].concat(alloc),
            None => [name].concat(alloc),
        }
    }
}

/// Adds the fields of a header, or of the metadata.
fn add_declared<'a>(
    fields: &mut Sequence<KnownField<'a>>,
    owner: usize,
    owner_name: &'a [u8],
    declared: &'a [Declared],
) -> Result<(), AllocError>
    ensures { OnOk result (fields.new ≡ fields.old ++ declared_fields (owner_at owner) owner_name.now declared.now) }
{
    for field in declared {
        fields.push(KnownField {
            key: (owner, field.ident.name.as_slice()),
            width: field.width.value,
            owner_name: Some(owner_name),
        })?;
    }
    Ok(())
}

/// Adds the valid and the fields of the header with a number.
#[tactic(auto, using(crate::proofs::FieldCodes::owner_header))]
fn add_header<'a>(
    fields: &mut Sequence<KnownField<'a>>,
    number: usize,
    header: &'a HeaderText,
) -> Result<(), AllocError>
    requires { number + 2 < 2 ^ 64 }
    ensures { OnOk result (fields.new ≡ fields.old ++ header_fields (number, header.now)) }
{
    let owner = FIRST_HEADER + number;
    let owner_name = header.ident.name.as_slice();
    fields.push(KnownField {
        key: (owner, b"valid"),
        width: 1,
        owner_name: Some(owner_name),
    })?;
    add_declared(fields, owner, owner_name, header.fields.as_slice())
}

/// A field that every program has.
fn common<'a>(name: &'a [u8], width: u128) -> KnownField<'a>
    ensures { result ≡ words.common name.now width }
{
    KnownField {
        key: (INTRINSIC, name),
        width,
        owner_name: None,
    }
}

/// The fields that every program has.
fn common_fields<'a>(alloc: Global) -> Result<Sequence<KnownField<'a>>, AllocError>
    ensures { IfOk result (λ fields. fields ≡ words.common_fields) }
{
    let in_port = common(b"in_port", 9);
    let out_port = common(b"out_port", 9);
    let fields = vec![in alloc; in_port, out_port, common(b"drop", 1)]?;
    Ok(Sequence::from_vec(fields))
}

/// The fields of a program's text, by number.
fn known_fields<'a>(
    alloc: Global,
    source: &'a Source,
) -> Result<Sequence<KnownField<'a>>, AllocError>
    ensures { IfOk result (λ fields. fields ≡ fields_of source.now) }
{
    let mut fields = common_fields(alloc)?;
    for (number, header) in source.headers.as_slice().iter().enumerate() {
        add_header(&mut fields, number, header)?;
    }
    for meta in source.metas.as_slice() {
        add_declared(&mut fields, METADATA, b"meta", meta.fields.as_slice())?;
    }
    Ok(fields)
}

/// Adds the first place of each of the fields' keys to a map that has none.
fn add_places<'a>(
    numbers: &mut IndexMap<FieldKey<'a>, usize>,
    fields: &[KnownField<'a>],
) -> Result<(), AllocError>
    requires { HasNumbers stored numbers.old.entries [] }
    ensures { OnOk result (HasNumbers stored numbers.new.entries (all_codes fields.now)) }
{
    for (place, field) in fields.iter().enumerate() {
        if numbers.get(&field.key).is_none() {
            numbers.insert(field.key, place)?;
        }
    }
    Ok(())
}

/// The first place of each of the fields' keys.
fn first_places<'a>(
    alloc: Global,
    fields: &[KnownField<'a>],
) -> Result<IndexMap<FieldKey<'a>, usize>, AllocError>
    ensures { IfOk result (λ m. HasNumbers stored m.entries (all_codes fields.now)) }
{
    let mut numbers = IndexMap::new(alloc);
    let added = add_places(&mut numbers, fields);
    kept(numbers, added)
}

/// The fields of a program's text, of which each is found by its key. Contracts see it as the fields by number.
#[derive(Drop)]
pub struct FieldList<'a> {
    fields: Sequence<KnownField<'a>>,
    numbers: IndexMap<FieldKey<'a>, usize>,
}

impl<'a> Model for FieldList<'a> {
    ghost use Rattle.std.specs.Prelude.{List};
    ghost use Rattle.rmt_ast.specs.NameList.{HasNumbers};
    ghost use Rattle.rmt_check.specs.Names.{Known};
    ghost use Rattle.rmt_check.specs.StoredFields.{all_codes, stored};

    ghost Value = { List Known };

    ghost view = { λ f. f.fields };

    ghost invariant = { λ f. HasNumbers stored f.numbers.entries (all_codes f.fields) };
}

impl<'a> FieldList<'a> {
    /// The fields of a text.
    pub fn of(alloc: Global, source: &'a Source) -> Result<FieldList<'a>, AllocError>
        ensures { IfOk result (λ fields. fields ≡ fields_of source.now) }
    {
        let fields = known_fields(alloc, source)?;
        let numbers = first_places(alloc, fields.as_slice())?;
        Ok(FieldList { fields, numbers })
    }

    /// The fields by number.
    pub fn as_slice(&self) -> &[KnownField<'a>]
        ensures { result.now ≡ self.now }
    {
        self.fields.as_slice()
    }

    /// The number of the first field with a key.
    pub fn number(&self, key: FieldKey<'_>) -> Option<usize>
        ensures { result ≡ place_among self.now (named_at key.entry) }
    {
        self.numbers.get(&key).copied()
    }
}
