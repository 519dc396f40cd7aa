//! Codes 13 and 20: tables that are applied again, and tables that are not applied.

ghost use Rattle.std.specs.Prelude.{◌≡◌, ◌++◌, IfOk, OnOk, map, not};
ghost use Rattle.std.specs.Option.{option_to_list};
ghost use Rattle.std.specs.List.{flat_map};
ghost use Rattle.rmt_ast.specs.NameList.{is_known};
ghost use Rattle.rmt_check.specs.Names as names;
ghost use Rattle.rmt_check.specs.Rules.{broken_13, broken_20, earliest, when};

use crate::names::lists::names_of;
use crate::rules::parts::nodes_of;
use crate::rules::places::place_when;
use crate::rules::repeats::repeated_names;
use crate::rules::search::{Flaw, Found, earliest_with};
use crate::source::{Ident, NodeText, Source, TableText, WhatText};
use rmt_ast::name_list::NameList;
use rmt_lexer::position::Position;
use std::alloc::{AllocError, Global};

/// Adds the table that a node applies, if it applies one.
fn add_applied<'a>(tables: &mut Vec<&'a Ident>, node: &'a NodeText) -> Result<(), AllocError>
    ensures { OnOk result (map (λ t. t.now) tables.new.items ≡ map (λ t. t.now) tables.old.items ++ option_to_list (names.applied node.now.what)) }
{
    if let WhatText::Apply { table, .. } = &node.what {
        tables.push(table)?;
    }
    Ok(())
}

/// The tables that the control applies, one behind another.
fn applied_tables(alloc: Global, source: &Source) -> Result<Vec<&Ident>, AllocError>
    ensures { IfOk result (λ tables. map (λ t. t.now) tables.items ≡ names.applied_tables source.now) }
{
    let mut tables = Vec::new(alloc);
    for node in nodes_of(source) {
        add_applied(&mut tables, node)?;
    }
    Ok(tables)
}

/// Where a table is applied again.
pub fn applied_twice(alloc: Global, source: &Source) -> Found
    ensures { IfOk result (λ p. p ≡ earliest (broken_13 source.now)) }
{
    let tables = applied_tables(alloc, source)?;
    repeated_names(alloc, tables.as_slice())
}

/// A table that is not among those that are applied.
struct Unapplied;

impl<'a> Flaw<NameList<'a>, TableText> for Unapplied {
    ghost places = { λ applied t. when (not (is_known applied t.ident.name)) t.ident.place };

    fn at(applied: &NameList<'a>, table: &TableText) -> Option<Position> {
        let is_applied = applied.knows(table.ident.name.as_slice());
        place_when(!is_applied, table.ident.place)
    }
}

/// The earliest place of a table that is not among those that are applied.
fn first_unapplied(alloc: Global, applied: &[&Ident], tables: &[TableText]) -> Found
    ensures { IfOk result (λ p. p ≡ earliest (flat_map (λ t. when (not (is_known (map (λ i. i.now.name) applied.now) t.ident.name)) t.ident.place) tables.now)) }
{
    let applied = names_of(alloc, applied)?;
    Ok(earliest_with::<Unapplied, _, _>(applied, tables))
}

/// Where a table is declared that no node applies.
pub fn not_applied(alloc: Global, source: &Source) -> Found
    ensures { IfOk result (λ p. p ≡ earliest (broken_20 source.now)) }
{
    let applied = applied_tables(alloc, source)?;
    first_unapplied(alloc, applied.as_slice(), source.tables.as_slice())
}
