//! That no name stands twice.

ghost use Rattle.std.specs.Prelude.{◌≡◌, map, IfOk};
ghost use Rattle.rmt_ast.specs.declared.names.ActionName.{ActionName};
ghost use Rattle.rmt_ast.specs.declared.names.TableName.{TableName};
ghost use Rattle.rmt_ast.specs.NameList.{seen};
ghost use Rattle.rmt_ast.specs.NameRules.{differ};

use rmt_ast::names::{ActionName, TableName};
use std::alloc::{AllocError, Global};
use std::collections::BTreeSet;

/// Whether no name stands twice.
fn differ(alloc: Global, names: &[&[u8]]) -> Result<bool, AllocError>
    ensures { IfOk result (λ fit. fit ≡ differ (seen names.now)) }
{
    let mut known = BTreeSet::new(alloc);
    for name in names {
        if !known.insert(*name)? {
            return Ok(false);
        }
    }
    Ok(true)
}

fn names_of_tables<'a>(alloc: Global, tables: &'a [TableName]) -> Result<Vec<&'a [u8]>, AllocError>
    ensures { IfOk result (λ names. seen names.items ≡ map (λ (t : TableName). t.name) tables.now) }
{
    let mut names = Vec::new(alloc);
    for table in tables {
        names.push(table.name.as_slice())?;
    }
    Ok(names)
}

fn names_of_actions<'a>(
    alloc: Global,
    actions: &'a [ActionName],
) -> Result<Vec<&'a [u8]>, AllocError>
    ensures { IfOk result (λ names. seen names.items ≡ map (λ (a : ActionName). a.name) actions.now) }
{
    let mut names = Vec::new(alloc);
    for action in actions {
        names.push(action.name.as_slice())?;
    }
    Ok(names)
}

/// Whether the names of tables differ.
pub fn table_names_differ(alloc: Global, tables: &[TableName]) -> Result<bool, AllocError>
    ensures { IfOk result (λ fit. fit ≡ differ (map (λ (t : TableName). t.name) tables.now)) }
{
    let names = names_of_tables(alloc, tables)?;
    differ(alloc, names.as_slice())
}

/// Whether the names of actions differ.
pub fn action_names_differ(alloc: Global, actions: &[ActionName]) -> Result<bool, AllocError>
    ensures { IfOk result (λ fit. fit ≡ differ (map (λ (a : ActionName). a.name) actions.now)) }
{
    let names = names_of_actions(alloc, actions)?;
    differ(alloc, names.as_slice())
}
