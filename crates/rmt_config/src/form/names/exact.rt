//! The rules on the entries of an exact table.

ghost use Rattle.std.specs.Prelude.{◌≡◌, IsTrue, IfOk, sum};
ghost use Rattle.rmt_ast.specs.declared.program.Kind.TheVariants as kind;
ghost use Rattle.rmt_config.specs.KeyPrints.{KeysAdded, PartKeys};
ghost use Rattle.rmt_config.specs.KeysSeen.{WaysLow, key_held, stands_in};
ghost use Rattle.rmt_config.specs.FilledTables.{PartStands, TableStands, bits_of_lanes, is_filled_so, is_of_kind, part_at, parts_at};
ghost use Rattle.rmt_config.specs.BlockCounts.{divided_up as divided_up_of};

use crate::config::{Config, Memory};
use crate::form::layout::divided_up;
use crate::form::names::exact_part::{ExactCells, key_bits, put_keys};
use crate::form::names::key_prints::{all_differ, each_is_new};
use crate::form::names::part_list::{Part, TableParts};
use std::alloc::{AllocError, Global};

/// Whether each cell of a part is one in which its key may stand; where it is, what is kept of their keys is added.
fn part_keys(
    config: &Config,
    part: &Part,
    whole: bool,
    into: &mut Vec<u64>,
) -> Result<bool, AllocError>
    requires stands { PartStands config.now (part_at part.now) }
    requires kind { IsTrue (is_of_kind kind.Exact part.now.slot.now.memory) }
    requires ways { WaysLow part.now.slot.now.memory }
    ensures { IfOk result (λ stand.
        KeysAdded whole (divided_up_of (bits_of_lanes part.now.slot.now.keys) 8) (stands_in config.now (part_at part.now)) (key_held config.now (part_at part.now))
        part.now.slot.now.numbers into.old.items into.new.items stand) }
{
    let stages = config.stages.as_slice();
    let rows = stages[part.at].srows.as_slice();
    match &part.slot.memory {
        Memory::Exact {
            width,
            per,
            quanta,
            first_way,
            keys,
            ..
        } => {
            let cells = ExactCells {
                seed: config.seed,
                numbers: part.slot.numbers.as_slice(),
                rows,
                blocks: keys.as_slice(),
                width: *width,
                per: *per,
                quanta: *quanta,
                first_way: *first_way,
                bits: key_bits(part.slot.keys.as_slice()),
            };
            put_keys(&cells, whole, into)
        }
        _ => Ok(false),
    }
}

/// The same of all parts of an exact table.
fn parts_keys(of: &TableParts, whole: bool, into: &mut Vec<u64>) -> Result<bool, AllocError>
    requires kind { of.now.table.now.kind ≡ kind.Exact }
    requires stands { TableStands of.now }
    ensures { IfOk result (λ stand. PartKeys whole of.now.config.now (divided_up_of (sum of.now.table.now.keys) 8) (parts_at of.now.parts.now) into.old.items into.new.items stand) }
{
    let parts = of.parts;
    for part in parts {
        if !part_keys(of.config, part, whole, into)? {
            return Ok(false);
        }
    }
    Ok(true)
}

/// Whether an exact table is named as its parts are filled. The keys are told apart by prints, and by their bytes only
/// where two prints are the same. The time is that of two looks at the print of each key, and of sorting the few prints
/// that share their place with another's, and the memory that of the prints.
pub fn exact_fits(alloc: Global, of: &TableParts) -> Result<bool, AllocError>
    requires kind { of.now.table.now.kind ≡ kind.Exact }
    requires stands { TableStands of.now }
    ensures { IfOk result (λ fit. fit ≡ is_filled_so of.now.config.now of.now.table.now) }
{
    let count = of.numbers.len();
    if count > of.table.size as usize {
        return Ok(false);
    }
    let mut prints = Vec::with_capacity(alloc, count)?;
    if !parts_keys(of, false, &mut prints)? {
        return Ok(false);
    }
    if all_differ(alloc, prints.as_slice())? {
        return Ok(true);
    }
    let mut keys = Vec::new(alloc);
    if !parts_keys(of, true, &mut keys)? {
        return Ok(false);
    }
    let first = of.parts[0].slot;
    let size = divided_up(key_bits(first.keys.as_slice()), 8);
    each_is_new(alloc, keys.as_slice(), size, count as u64)
}
