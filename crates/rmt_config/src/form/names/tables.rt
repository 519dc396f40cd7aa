//! The rules on names that speak of the tables of a configuration, but not of what stands in their cells.

ghost use Rattle.std.specs.Prelude.{◌≡◌, ◌==◌, ◌&&◌, IfOk};
ghost use Rattle.std.specs.List.{list_all, list_any};
ghost use Rattle.rmt_ast.specs.declared.names.TableName.{TableName};
ghost use Rattle.rmt_config.specs.declared.config.Stage.{Stage};
ghost use Rattle.rmt_config.specs.Life.{has_memory};
ghost use Rattle.rmt_config.specs.NamesForm.{has_parts, is_made_so, is_named, tables_are_those};

use crate::config::{Config, Memory, Stage, Unit};
use crate::form::names::made::{has_parts, is_made_so};
use crate::form::names::part_list::parts_of;
use rmt_ast::names::{Names, TableName};
use std::alloc::{AllocError, Global};

fn has_memory(memory: &Memory) -> bool
    ensures { result ≡ has_memory memory.now }
{
    !matches!(memory, Memory::Without)
}

/// Whether one of the tables is that of a node.
fn names_node(tables: &[TableName], node: u8) -> bool
    ensures { result ≡ list_any (λ (t : TableName). t.node == node) tables.now }
{
    tables.iter().any(|table| table.node == u32::from(node))
}

/// Whether a slot with memory is of a node whose table has names.
fn is_named(names: &Names, unit: &Unit) -> bool
    ensures { result ≡ is_named names.now unit.now }
{
    match unit {
        Unit::Gate(_) => true,
        Unit::Slot(slot) => {
            !has_memory(&slot.memory) || names_node(names.tables.as_slice(), slot.node)
        }
    }
}

fn units_are_named(names: &Names, units: &[Unit]) -> bool
    ensures { result ≡ list_all (is_named names.now) units.now }
{
    for unit in units {
        if !is_named(names, unit) {
            return false;
        }
    }
    true
}

fn stages_are_named(names: &Names, stages: &[Stage]) -> bool
    ensures { result ≡ list_all (λ (stage : Stage). list_all (is_named names.now) stage.units) stages.now }
{
    for stage in stages {
        if !units_are_named(names, stage.units.as_slice()) {
            return false;
        }
    }
    true
}

/// Whether a table has parts, and is named as they are made.
fn table_fits(alloc: Global, config: &Config, table: &TableName) -> Result<bool, AllocError>
    ensures { IfOk result (λ fit. fit ≡ (has_parts config.now table.now && is_made_so config.now table.now)) }
{
    let parts = parts_of(alloc, config, table.node)?;
    Ok(has_parts(table, parts.as_slice()) && is_made_so(table, parts.as_slice()))
}

fn each_table_fits(alloc: Global, config: &Config, tables: &[TableName]) -> Result<bool, AllocError>
    ensures { IfOk result (λ fit. fit ≡ list_all (λ t. has_parts config.now t && is_made_so config.now t) tables.now) }
{
    for table in tables {
        if !table_fits(alloc, config, table)? {
            return Ok(false);
        }
    }
    Ok(true)
}

/// Whether names are those of the tables with memory, each named as its parts are made.
pub fn tables_fit(alloc: Global, config: &Config, names: &Names) -> Result<bool, AllocError>
    ensures { IfOk result (λ fit. fit ≡ (tables_are_those config.now names.now && list_all (is_made_so config.now) names.now.tables)) }
{
    if !stages_are_named(names, config.stages.as_slice()) {
        return Ok(false);
    }
    each_table_fits(alloc, config, names.tables.as_slice())
}
