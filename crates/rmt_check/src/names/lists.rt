//! What a text declares, by name.

ghost use Rattle.std.specs.Prelude.{◌≡◌, [], find, map, option_copied, IfOk};
ghost use Rattle.std.specs.Str.{bytes_eq};
ghost use Rattle.rmt_check.specs.Parts.{TableText as TableValue};
ghost use Rattle.rmt_check.specs.StoredFields.{list_names};

use crate::names::labels::Labelled;
use crate::pairs::both;
use crate::rules::parts::listed;
use crate::source::TableText;
use rmt_ast::name_list::NameList;
use rmt_bits::sequence::Sequence;
use std::alloc::{AllocError, Global};

/// The names of some parts.
pub fn names_of<'a, T: Labelled>(alloc: Global, parts: &'a [T]) -> Result<NameList<'a>, AllocError>
    ensures { IfOk result (λ n. n ≡ map (λ (x : T). (T.ident_of x).name) parts.now) }
{
    let mut names = Vec::new(alloc);
    for part in parts {
        names.push(part.ident().name.as_slice())?;
    }
    NameList::of(alloc, names)
}

/// The first part of a name; the names are those of all the parts.
pub fn first_named<'a, T: Labelled>(
    names: &NameList<'_>,
    parts: &'a Sequence<T>,
    name: &[u8],
) -> Option<&'a T>
    requires { names.now ≡ map (λ (x : T). (T.ident_of x).name) parts.now }
    ensures { option_copied result ≡ find (λ (x : T). bytes_eq name.now (T.ident_of x).name) parts.now }
{
    match names.number(name) {
        Some(number) => parts.get(number),
        None => None,
    }
}

/// Of each table, the names of the actions of its list.
fn lists_of<'a>(
    alloc: Global,
    tables: &'a [TableText],
) -> Result<Sequence<NameList<'a>>, AllocError>
    ensures { IfOk result (λ v. v ≡ list_names tables.now) }
{
    let mut lists = Sequence::new(alloc);
    for table in tables {
        lists.push(names_of(alloc, listed(table))?)?;
    }
    Ok(lists)
}

/// Tables by name, each with the actions of its list.
#[derive(Drop)]
pub struct TableNames<'a> {
    pub names: NameList<'a>,
    /// Of each table, the actions of its list.
    pub lists: Sequence<NameList<'a>>,
    /// The list of a table that is none.
    pub nothing: NameList<'a>,
}

/// The names of some tables.
pub fn tables_of<'a>(alloc: Global, tables: &'a [TableText]) -> Result<TableNames<'a>, AllocError>
    ensures names { IfOk result (λ t. t.names ≡ map (λ (t : TableValue). t.ident.name) tables.now) }
    ensures lists { IfOk result (λ t. t.lists ≡ list_names tables.now) }
    ensures nothing { IfOk result (λ t. t.nothing ≡ []) }
{
    let names = names_of(alloc, tables);
    let nothing = NameList::of(alloc, Vec::new(alloc));
    let ((names, lists), nothing) = both(both(names, lists_of(alloc, tables)), nothing)?;
    Ok(TableNames {
        names,
        lists,
        nothing,
    })
}
