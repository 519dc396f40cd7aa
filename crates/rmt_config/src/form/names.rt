//! The rules of form on names.

ghost use Rattle.std.specs.Prelude.{◌≡◌, IfOk, IsTrue};
ghost use Rattle.rmt_config.specs.CellForm.{entries_are_numbered};
ghost use Rattle.rmt_config.specs.Form.{items_are_formed, names_are_fit};
ghost use Rattle.rmt_config.specs.MemoryRules.{MemoryIsFormed};
ghost use Rattle.rmt_config.specs.NamesForm.{names_fit as names_fit_of};

pub mod alone;
mod differ;
mod entries;
mod exact;
mod exact_part;
pub mod key_bytes;
mod key_prints;
mod made;
mod marks;
mod order;
pub mod part_list;
mod prefix;
pub mod prefix_length;
mod prefix_row;
mod prefix_rows;
mod repeats;
mod room;
mod table;
mod tables;
mod ternary;
mod words;

use crate::config::Config;
use crate::form::names::alone::are_named_well;
use crate::form::names::entries::entries_fit;
use crate::form::names::tables::tables_fit;
use rmt_ast::names::Names;
use std::alloc::{AllocError, Global};

/// Whether names keep the rules on them, in a configuration that keeps all others.
fn names_fit(alloc: Global, config: &Config, names: &Names) -> Result<bool, AllocError>
    requires items { IsTrue (items_are_formed config.now) }
    requires memory { MemoryIsFormed config.now }
    requires numbers { IsTrue (entries_are_numbered config.now) }
    ensures { IfOk result (λ fit. fit ≡ names_fit_of config.now names.now) }
{
    if !are_named_well(alloc, config, names)? {
        return Ok(false);
    }
    if !tables_fit(alloc, config, names)? {
        return Ok(false);
    }
    entries_fit(alloc, config, names)
}

/// Whether the names of a configuration that keeps all other rules, if it has any, keep those on them.
pub fn own_names_fit(alloc: Global, config: &Config) -> Result<bool, AllocError>
    requires items { IsTrue (items_are_formed config.now) }
    requires memory { MemoryIsFormed config.now }
    requires numbers { IsTrue (entries_are_numbered config.now) }
    ensures { IfOk result (λ fit. fit ≡ names_are_fit config.now config.now.names) }
{
    match &config.names {
        None => Ok(true),
        Some(names) => names_fit(alloc, config, names),
    }
}
