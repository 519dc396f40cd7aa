//! The rules on the entries of a prefix table.

ghost use Rattle.std.specs.Prelude.{◌≡◌, ◌++◌, ◌≤◌, length, map, sum, IsTrue, IfOk, OnOk};
ghost use Rattle.rmt_ast.specs.NameRules.{table_is_formed};
ghost use Rattle.rmt_ast.specs.declared.program.Kind.TheVariants as kind;
ghost use Rattle.rmt_config.specs.FilledTables.{MemoryIsFormed, PartStands, TableStands, bits_of_lanes, is_filled_so, is_of_kind, part_at};
ghost use Rattle.rmt_config.specs.PrefixRows.{row_in};

use crate::config::Config;
use crate::form::names::part_list::{Part, TableParts};
use crate::form::names::prefix_row::held_in;
use crate::form::names::prefix_rows::{Row, rows_fit};
use std::alloc::{AllocError, Global};

/// How many bits a key of one field has.
fn bits_of(keys: &[u8]) -> u8
    requires { length keys.now ≡ 1 }
    ensures { result ≡ sum keys.now }
{
    keys[0]
}

/// Adds the rows of a part, in the order of its cells.
fn put_rows(rows: &mut Vec<Row>, config: &Config, part: &Part) -> Result<(), AllocError>
    requires stands { PartStands config.now (part_at part.now) }
    requires memory { MemoryIsFormed config.now }
    requires kind { IsTrue (is_of_kind kind.Prefix part.now.slot.now.memory) }
    requires short { bits_of_lanes part.now.slot.now.keys ≤ 128 }
    ensures { OnOk result (rows.new.items ≡ rows.old.items ++ map (row_in config.now (part_at part.now)) part.now.slot.now.numbers) }
{
    let mut near = 0;
    for number in part.slot.numbers.as_slice() {
        let held = held_in(config, part, number.cell, &mut near);
        rows.push(Row {
            key: held.key,
            mask: held.mask,
            number: number.number,
        })?;
    }
    Ok(())
}

/// Whether a prefix table is named as its parts are filled. The time is that of its entries, but for a factor of their
/// logarithm, and the memory that of their keys.
pub fn prefix_fits(alloc: Global, of: &TableParts) -> Result<bool, AllocError>
    requires kind { of.now.table.now.kind ≡ kind.Prefix }
    requires alone { IsTrue (table_is_formed of.now.table.now) }
    requires stands { TableStands of.now }
    ensures { IfOk result (λ fit. fit ≡ is_filled_so of.now.config.now of.now.table.now) }
{
    if of.numbers.len() > of.table.size as usize {
        return Ok(false);
    }
    let bits = bits_of(of.table.keys.as_slice());
    let mut rows = Vec::with_capacity(alloc, of.numbers.len())?;
    let parts = of.parts;
    for part in parts {
        put_rows(&mut rows, of.config, part)?;
    }
    rows_fit(alloc, bits, rows.as_slice())
}
