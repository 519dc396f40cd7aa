//! The rules on names that speak of names alone, and of the numbers of entries.

ghost use Rattle.std.specs.Prelude.{◌≡◌, ◌&&◌, map, IfOk};
ghost use Rattle.std.specs.List.{list_all};
ghost use Rattle.rmt_ast.specs.declared.names.TableName.{TableName};
ghost use Rattle.rmt_ast.specs.NameRules.{names_are_formed, rise};
ghost use Rattle.rmt_config.specs.NamesForm.{names_are_short, names_have_counts, numbers_leave_room};

use crate::config::Config;
use crate::form::names::differ::table_names_differ;
use crate::form::names::room::numbers_leave_room;
use crate::form::names::table::{each_table_is_formed, names_are_short};
use rmt_ast::names::{Names, TableName};
use std::alloc::{AllocError, Global};

/// Whether each node is above the one before it.
fn nodes_rise(tables: &[TableName]) -> bool
    ensures { result ≡ rise (map (λ (t : TableName). t.node) tables.now) }
{
    let mut least: u64 = 0;
    for table in tables {
        if u64::from(table.node) < least {
            return false;
        }
        least = u64::from(table.node) + 1;
    }
    true
}

fn names_are_formed(alloc: Global, names: &Names) -> Result<bool, AllocError>
    ensures { IfOk result (λ formed. formed ≡ names_are_formed names.now) }
{
    let tables = names.tables.as_slice();
    if !nodes_rise(tables) || !table_names_differ(alloc, tables)? {
        return Ok(false);
    }
    each_table_is_formed(alloc, tables)
}

fn all_are_short(tables: &[TableName]) -> bool
    ensures { result ≡ list_all names_are_short tables.now }
{
    tables.iter().all(names_are_short)
}

/// Whether there are as many tables as their count can say, each with names as long as theirs can.
pub fn names_have_counts(names: &Names) -> bool
    ensures { result ≡ names_have_counts names.now }
{
    names.tables.len() < 256 && all_are_short(names.tables.as_slice())
}

/// Whether names keep the rules that speak of them alone, and the numbers of entries leave room for those that come.
pub fn are_named_well(alloc: Global, config: &Config, names: &Names) -> Result<bool, AllocError>
    ensures { IfOk result (λ fit. fit ≡ (names_are_formed names.now && names_have_counts names.now && numbers_leave_room config.now)) }
{
    if !names_have_counts(names) || !numbers_leave_room(config) {
        return Ok(false);
    }
    names_are_formed(alloc, names)
}
