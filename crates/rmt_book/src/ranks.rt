//! The ranks of entries, which no cell holds.

ghost use Rattle.std.specs.Prelude.{◌≡◌, ◌^◌, ◌<◌, ◌≤◌, ℕ, IfOk, IsTrue, length, sum, unwrap_or};
ghost use Rattle.std.specs.BTreeMap.{get};
ghost use Rattle.std.specs.Ordering.{nat_cmp};
ghost use Rattle.rmt_bits.specs.Bits.{number_of};
ghost use Rattle.rmt_ast.specs.NameRules.{table_is_formed};
ghost use Rattle.rmt_ast.specs.declared.program.Kind.TheVariants as kind;
ghost use Rattle.rmt_config.specs.NamesForm.{prefix_length, rank_in, rank_told};

use crate::kept::Kept;
use crate::told::bits_from;
use rmt_ast::names::{RankOf, TableName};
use rmt_ast::program::Kind;
use rmt_config::form::names::prefix_length::length_of;
use std::alloc::{AllocError, Global};
use std::collections::BTreeMap;

/// The ranks that names tell of entries, found by their numbers. The only fault is want of memory.
pub fn ranks_told(alloc: Global, ranks: &[RankOf]) -> Result<BTreeMap<u32, u32>, AllocError>
    ensures { IfOk result (λ told. (n : ℕ) → unwrap_or (get nat_cmp told n) 0 ≡ rank_told ranks.now n) }
{
    let mut told = BTreeMap::new(alloc);
    let mut left = ranks.len();
    while left > 0 {
        left -= 1;
        let rank = ranks[left];
        told.insert(rank.number, rank.rank)?;
    }
    Ok(told)
}

/// The length of the prefix that a mask tells, of a key of one field.
fn prefix_rank(widths: &[u8], mask: &[u8]) -> u32
    requires few { length mask.now ≤ 8192 }
    requires one { length widths.now ≡ 1 }
    requires short { sum widths.now ≤ 128 }
    requires mask { number_of mask.now < 2 ^ sum widths.now }
    ensures { result ≡ unwrap_or (prefix_length (sum widths.now) (number_of mask.now)) 0 }
{
    let bits = widths[0];
    u32::from(length_of(bits, bits_from(mask, 0, bits)).unwrap_or(0))
}

/// The rank of the entry in a cell of a table, whose names tell these ranks.
pub fn rank_of(table: &TableName, told: &BTreeMap<u32, u32>, kept: &Kept) -> u32
    requires formed { IsTrue (table_is_formed table.now) }
    requires told { (n : ℕ) → unwrap_or (get nat_cmp told.now n) 0 ≡ rank_told table.now.ranks n }
    requires mask { table.now.kind ≡ kind.Prefix → number_of kept.now.mask.items < 2 ^ sum table.now.keys }
    ensures { result ≡ rank_in table.now.kind table.now (number_of kept.now.mask.items) kept.now.number }
{
    match table.kind {
        Kind::Keyless => 0,
        Kind::Exact => 0,
        Kind::Prefix => prefix_rank(table.keys.as_slice(), kept.mask.as_slice()),
        Kind::Ternary => told.get(&kept.number).copied().unwrap_or(0),
    }
}
