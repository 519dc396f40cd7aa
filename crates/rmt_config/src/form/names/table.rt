//! The rules on the names of one table.

ghost use Rattle.std.specs.Prelude.{◌≡◌, ◌&&◌, ◌^◌, IfOk, length, nat_lt};
ghost use Rattle.std.specs.List.{list_all};
ghost use Rattle.rmt_ast.specs.declared.names.ActionName.{ActionName};
ghost use Rattle.rmt_ast.specs.declared.names.RankOf.{RankOf};
ghost use Rattle.rmt_ast.specs.NameForm.{is_name};
ghost use Rattle.rmt_ast.specs.NameRules.{are_widths, has_fields, has_names, has_params, has_size, may_have_ranks, table_is_formed};
ghost use Rattle.rmt_ast.specs.Naming.{has_key};
ghost use Rattle.rmt_config.specs.NamesForm.{names_are_short};

use crate::form::names::differ::action_names_differ;
use crate::form::names::words::is_name;
use rmt_ast::names::{ActionName, RankOf, TableName};
use rmt_ast::program::Kind;
use std::alloc::{AllocError, Global};

fn has_key(kind: Kind) -> bool
    ensures { result ≡ has_key kind }
{
    match kind {
        Kind::Keyless => false,
        Kind::Exact | Kind::Prefix | Kind::Ternary => true,
    }
}

fn actions_have_names(actions: &[ActionName]) -> bool
    ensures { result ≡ list_all (λ (a : ActionName). is_name a.name) actions.now }
{
    actions.iter().all(|action| is_name(action.name.as_slice()))
}

/// Whether each is 1 to 128 bits.
fn are_widths(widths: &[u8]) -> bool
    ensures { result ≡ are_widths widths.now }
{
    widths.iter().all(|width| 1 <= *width && *width <= 128)
}

/// Whether a prefix is of one field.
fn has_fields(kind: Kind, keys: &[u8]) -> bool
    ensures { result ≡ has_fields kind keys.now }
{
    match kind {
        Kind::Keyless | Kind::Exact | Kind::Ternary => true,
        Kind::Prefix => keys.len() == 1,
    }
}

fn has_params(action: &ActionName) -> bool
    ensures { result ≡ has_params action.now }
{
    are_widths(action.params.as_slice()) && action.params.len() <= 16
}

fn actions_have_params(actions: &[ActionName]) -> bool
    ensures { result ≡ list_all has_params actions.now }
{
    actions.iter().all(has_params)
}

/// Whether ranks stand where the kind is ternary alone.
fn may_have_ranks(kind: Kind, ranks: &[RankOf]) -> bool
    ensures { result ≡ may_have_ranks kind ranks.now }
{
    match kind {
        Kind::Keyless | Kind::Exact | Kind::Prefix => ranks.is_empty(),
        Kind::Ternary => true,
    }
}

fn has_names(table: &TableName) -> bool
    ensures { result ≡ has_names table.now }
{
    is_name(table.name.as_slice()) && actions_have_names(table.actions.as_slice())
}

fn has_size(table: &TableName) -> bool
    ensures { result ≡ has_size table.now }
{
    1 <= table.size && table.size <= 1_048_576
}

/// Whether a table keeps the rules on its names, but that those of its actions differ.
fn fits_but_for_actions(table: &TableName) -> bool
    ensures { result ≡ (has_key table.now.kind && has_names table.now && are_widths table.now.keys && has_fields table.now.kind table.now.keys
        && list_all has_params table.now.actions && has_size table.now && may_have_ranks table.now.kind table.now.ranks) }
{
    has_key(table.kind)
        && has_names(table)
        && are_widths(table.keys.as_slice())
        && has_fields(table.kind, table.keys.as_slice())
        && actions_have_params(table.actions.as_slice())
        && has_size(table)
        && may_have_ranks(table.kind, table.ranks.as_slice())
}

fn table_is_formed(alloc: Global, table: &TableName) -> Result<bool, AllocError>
    ensures { IfOk result (λ formed. formed ≡ table_is_formed table.now) }
{
    if !fits_but_for_actions(table) {
        return Ok(false);
    }
    action_names_differ(alloc, table.actions.as_slice())
}

/// Whether each table keeps the rules that speak of its names alone.
pub fn each_table_is_formed(alloc: Global, tables: &[TableName]) -> Result<bool, AllocError>
    ensures { IfOk result (λ formed. formed ≡ list_all table_is_formed tables.now) }
{
    for table in tables {
        if !table_is_formed(alloc, table)? {
            return Ok(false);
        }
    }
    Ok(true)
}

fn actions_are_short(actions: &[ActionName]) -> bool
    ensures { result ≡ list_all (λ (a : ActionName). nat_lt (length a.name) (2 ^ 32)) actions.now }
{
    actions
        .iter()
        .all(|action| (action.name.len() as u64) < 4294967296)
}

fn ranks_are_small(ranks: &[RankOf]) -> bool
    ensures { result ≡ list_all (λ (r : RankOf). nat_lt r.rank (2 ^ 32)) ranks.now }
{
    ranks.iter().all(|rank| u64::from(rank.rank) < 4294967296)
}

/// Whether the names of a table and of its actions are as long as their counts can say, and its ranks fit their places.
pub fn names_are_short(table: &TableName) -> bool
    ensures { result ≡ names_are_short table.now }
{
    (table.name.len() as u64) < 4294967296
        && actions_are_short(table.actions.as_slice())
        && ranks_are_small(table.ranks.as_slice())
}
