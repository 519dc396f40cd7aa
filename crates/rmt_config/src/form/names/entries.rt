//! The rules on names that speak of the entries in cells.

ghost use Rattle.std.specs.Prelude.{◌≡◌, IfOk, IsTrue};
ghost use Rattle.std.specs.List.{list_all};
ghost use Rattle.rmt_ast.specs.NameRules.{names_are_formed, table_is_formed};
ghost use Rattle.rmt_config.specs.CellForm.{entries_are_numbered};
ghost use Rattle.rmt_config.specs.Form.{items_are_formed};
ghost use Rattle.rmt_config.specs.MemoryRules.{MemoryIsFormed};
ghost use Rattle.rmt_config.specs.NamesForm.{has_parts, is_filled_so, is_made_so, names_have_counts, tables_are_those};

use crate::config::Config;
use crate::form::names::exact::exact_fits;
use crate::form::names::part_list::{TableParts, listed_numbers, parts_of};
use crate::form::names::prefix::prefix_fits;
use crate::form::names::ternary::ternary_fits;
use rmt_ast::names::{Names, TableName};
use rmt_ast::program::Kind;
use std::alloc::{AllocError, Global};

/// Whether a table is named as its parts are filled.
fn table_fits(alloc: Global, config: &Config, table: &TableName) -> Result<bool, AllocError>
    requires items { IsTrue (items_are_formed config.now) }
    requires memory { MemoryIsFormed config.now }
    requires numbers { IsTrue (entries_are_numbered config.now) }
    requires alone { IsTrue (table_is_formed table.now) }
    requires parts { IsTrue (has_parts config.now table.now) }
    requires made { IsTrue (is_made_so config.now table.now) }
    ensures { IfOk result (λ fit. fit ≡ is_filled_so config.now table.now) }
{
    let parts = parts_of(alloc, config, table.node)?;
    let numbers = listed_numbers(alloc, parts.as_slice())?;
    let of = TableParts {
        config,
        table,
        parts: parts.as_slice(),
        numbers: numbers.as_slice(),
    };
    match table.kind {
        Kind::Keyless => Ok(false),
        Kind::Exact => exact_fits(alloc, &of),
        Kind::Prefix => prefix_fits(alloc, &of),
        Kind::Ternary => Ok(ternary_fits(config, table, numbers.as_slice())),
    }
}

/// Whether each table is named as its parts are filled. The time is that of the entries, but for a factor of their
/// logarithm, and the memory that of their keys.
pub fn entries_fit(alloc: Global, config: &Config, names: &Names) -> Result<bool, AllocError>
    requires items { IsTrue (items_are_formed config.now) }
    requires memory { MemoryIsFormed config.now }
    requires numbers { IsTrue (entries_are_numbered config.now) }
    requires alone { IsTrue (names_are_formed names.now) }
    requires counts { IsTrue (names_have_counts names.now) }
    requires those { IsTrue (tables_are_those config.now names.now) }
    requires made { IsTrue (list_all (is_made_so config.now) names.now.tables) }
    ensures { IfOk result (λ fit. fit ≡ list_all (is_filled_so config.now) names.now.tables) }
{
    for table in names.tables.as_slice() {
        if !table_fits(alloc, config, table)? {
            return Ok(false);
        }
    }
    Ok(true)
}
