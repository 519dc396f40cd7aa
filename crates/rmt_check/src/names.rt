//! What the names of a program's text stand for.

ghost use Rattle.std.specs.Prelude.{◌≡◌, [], find, IfOk, option_copied, option_map};
ghost use Rattle.std.specs.Str.{bytes_eq};
ghost use Rattle.rmt_check.specs.Parts.{Source as SourceValue, TableText as TableValue};
ghost use Rattle.rmt_check.specs.Names.{action_names, header_names, ident_names, listed, table_names};
ghost use Rattle.rmt_check.specs.StoredFields.{list_names};

use crate::names::fields::{FieldKey, FieldList, KnownField};
use crate::names::lists::{TableNames, names_of, tables_of};
use crate::names::lookup::Lookup;
use crate::pairs::both;
use crate::source::Source;
use rmt_ast::name_list::NameList;
use std::alloc::{AllocError, Global};
use std::marker::Model;

pub mod fields;
pub mod labels;
pub mod lists;
pub mod lookup;
pub mod params;

/// The names of what a text declares but for fields.
#[derive(Drop)]
struct Declarations<'a> {
    headers: NameList<'a>,
    actions: NameList<'a>,
    tables: TableNames<'a>,
}

/// The headers, actions and tables of a text by name.
fn declared_in<'a>(alloc: Global, source: &'a Source) -> Result<Declarations<'a>, AllocError>
    ensures headers { IfOk result (λ d. d.headers ≡ header_names source.now) }
    ensures actions { IfOk result (λ d. d.actions ≡ action_names source.now) }
    ensures tables { IfOk result (λ d. d.tables.names ≡ table_names source.now) }
    ensures lists { IfOk result (λ d. d.tables.lists ≡ list_names source.now.tables) }
    ensures nothing { IfOk result (λ d. d.tables.nothing ≡ []) }
{
    let headers = names_of(alloc, source.headers.as_slice());
    let actions = names_of(alloc, source.actions.as_slice());
    let tables = tables_of(alloc, source.tables.as_slice());
    let ((headers, actions), tables) = both(both(headers, actions), tables)?;
    Ok(Declarations {
        headers,
        actions,
        tables,
    })
}

/// The names that a program's text declares, for look-ups. Contracts see it as the text.
#[derive(Drop)]
pub struct Names<'a> {
    source: &'a Source,
    fields: FieldList<'a>,
    declared: Declarations<'a>,
}

impl<'a> Model for Names<'a> {
    ghost use Rattle.rmt_check.specs.Parts.{Source};
    ghost use Rattle.std.specs.Prelude.{◌≡◌, []};
    ghost use Rattle.rmt_check.specs.Names.{fields_of, header_names, action_names, table_names};
    ghost use Rattle.rmt_check.specs.StoredFields.{list_names};

    ghost Value = { Source };

    ghost view = { λ n. n.source.now };

    ghost invariant = { λ n. record {
      fields : n.fields ≡ fields_of n.source.now;
      headers : n.declared.headers ≡ header_names n.source.now;
      actions : n.declared.actions ≡ action_names n.source.now;
      tables : n.declared.tables.names ≡ table_names n.source.now;
      lists : n.declared.tables.lists ≡ list_names n.source.now.tables;
      nothing : n.declared.tables.nothing ≡ [];
    } };
}

impl<'a> Names<'a> {
    /// The names of a text.
    pub fn of(alloc: Global, source: &'a Source) -> Result<Names<'a>, AllocError>
        ensures names { IfOk result (λ n. n ≡ source.now) }
    {
        let fields = FieldList::of(alloc, source);
        let declared = declared_in(alloc, source);
        let (fields, declared) = both(fields, declared)?;
        Ok(Names {
            source,
            fields,
            declared,
        })
    }

    /// The actions of the list of the first table of a name.
    fn found_list(&self, table: &[u8]) -> Option<&NameList<'a>>
        ensures { option_copied result ≡ option_map (λ (t : TableValue). ident_names (listed t)) (find (λ (t : TableValue). bytes_eq table.now t.ident.name) self.now.tables) }
    {
        match self.declared.tables.names.number(table) {
            Some(number) => self.declared.tables.lists.get(number),
            None => None,
        }
    }
}

impl<'a> Lookup for Names<'a> {
    ghost text = { λ (s : SourceValue). s };

    fn source(&self) -> &Source {
        self.source
    }

    fn fields(&self) -> &[KnownField<'_>] {
        self.fields.as_slice()
    }

    fn field(&self, key: FieldKey<'_>) -> Option<usize> {
        self.fields.number(key)
    }

    fn headers(&self) -> &NameList<'_> {
        &self.declared.headers
    }

    fn actions(&self) -> &NameList<'_> {
        &self.declared.actions
    }

    fn tables(&self) -> &NameList<'_> {
        &self.declared.tables.names
    }

    fn list(&self, table: &[u8]) -> &NameList<'_> {
        self.found_list(table)
            .unwrap_or(&self.declared.tables.nothing)
    }
}
