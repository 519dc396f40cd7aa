//! The entries that kept cells tell.

ghost use Rattle.std.specs.Prelude.{◌≡◌, ℕ, ◌+◌, ◌-◌, ◌^◌, ◌≤◌, All, IfOk, IsTrue, if◌then◌else◌, length, sum};
ghost use Rattle.rmt_bits.specs.Bits.{number_of, slice as slice_of};
ghost use Rattle.rmt_ast.specs.NameRules.{table_is_formed};
ghost use Rattle.rmt_config.specs.NamesForm.{args_of_data, params_in, tests_of_key};
ghost use Rattle.rmt_book.specs.Told.{told_entry};

use crate::kept::Kept;
use rmt_ast::entry::Entry;
use rmt_ast::names::TableName;
use rmt_ast::program::{Kind, Test};
use rmt_bits::bits::{bits_of_bytes, ones};
use rmt_bits::sequence::Sequence;
use std::alloc::{AllocError, Global};

/// `len` bits from the bit `low` on of the number that bytes are, the highest first; bits above them are 0.
pub fn bits_from(bytes: &[u8], low: u128, len: u8) -> u128
    requires few { length bytes.now ≤ 8192 }
    requires short { len ≤ 128 }
    ensures { result ≡ slice_of (number_of bytes.now) low len }
{
    let all = 8 * bytes.len() as u32;
    if all as u128 <= low {
        return 0;
    }
    let left = all - low as u32;
    let count = left.min(len as u32);
    bits_of_bytes(bytes, left - count, count as u8)
}

/// `len` bits from the bit `low` on of a key's mask: of that of a whole key, where `whole`, or else of these bytes.
fn mask_from(mask: &[u8], low: u128, len: u8, whole: bool) -> u128
    requires few { length mask.now ≤ 8192 }
    requires short { len ≤ 128 }
    ensures { (bits : ℕ) → low + len ≤ bits → result ≡ slice_of (if whole then 2 ^ bits - 1 else number_of mask.now) low len }
{
    if whole {
        ones(len)
    } else {
        bits_from(mask, low, len)
    }
}

/// The sum of widths.
fn sum_of(widths: &[u8]) -> u128
    ensures { result ≡ sum widths.now }
{
    let mut total: u128 = 0;
    for width in widths {
        total += *width as u128;
    }
    total
}

/// The tests of a key's fields of these widths, the first of which is highest. Where `whole` all bits of the key count,
/// else those of the mask. The only fault is want of memory.
fn tests_of(
    alloc: Global,
    widths: &[u8],
    key: &[u8],
    mask: &[u8],
    whole: bool,
) -> Result<Sequence<Test>, AllocError>
    requires key { length key.now ≤ 8192 }
    requires mask { length mask.now ≤ 8192 }
    requires widths { All (λ w. w ≤ 128) widths.now }
    ensures { IfOk result (λ tests. tests ≡ tests_of_key widths.now (number_of key.now)
        (if whole then 2 ^ sum widths.now - 1 else number_of mask.now)) }
{
    let mut tests = Sequence::from_vec(Vec::with_capacity(alloc, widths.len())?);
    let mut low = sum_of(widths);
    for width in widths {
        low -= *width as u128;
        tests.push(Test {
            value: bits_from(key, low, *width),
            mask: mask_from(mask, low, *width, whole),
        })?;
    }
    Ok(tests)
}

/// The arguments of these widths in an entry's data, from the lowest bit on. The only fault is want of memory.
fn args_of(alloc: Global, widths: &[u8], held: &[u8]) -> Result<Sequence<u128>, AllocError>
    requires held { length held.now ≤ 8192 }
    requires widths { All (λ w. w ≤ 128) widths.now }
    ensures { IfOk result (λ args. args ≡ args_of_data widths.now (number_of held.now)) }
{
    let mut args = Sequence::from_vec(Vec::with_capacity(alloc, widths.len())?);
    let mut low: u128 = 0;
    for width in widths {
        args.push(bits_from(held, low, *width))?;
        low += *width as u128;
    }
    Ok(args)
}

/// The arguments in the data of an entry with an action of a table; of one that isn't in the table's list there are none.
/// The only fault is want of memory.
fn args_told(
    alloc: Global,
    table: &TableName,
    action: u32,
    held: &[u8],
) -> Result<Sequence<u128>, AllocError>
    requires formed { IsTrue (table_is_formed table.now) }
    requires held { length held.now ≤ 8192 }
    ensures { IfOk result (λ args. args ≡ args_of_data (params_in table.now action) (number_of held.now)) }
{
    match table.actions.get(action as usize) {
        Some(name) => args_of(alloc, name.params.as_slice(), held),
        None => Ok(Sequence::new(alloc)),
    }
}

/// The entry that a cell of a part of a table tells, where the part's first instruction has that number. The only fault
/// is want of memory.
pub fn entry_told(
    alloc: Global,
    table: &TableName,
    first: u128,
    kept: &Kept,
) -> Result<Entry, AllocError>
    requires { IsTrue (table_is_formed table.now) }
    ensures { IfOk result (λ entry. entry ≡ told_entry table.now first kept.now) }
{
    let whole = matches!(table.kind, Kind::Exact);
    let widths = table.keys.as_slice();
    let key = kept.key.as_slice();
    let mask = kept.mask.as_slice();
    let tests = tests_of(alloc, widths, key, mask, whole)?;
    let action = (kept.code as u128).saturating_sub(first) as u32;
    let args = args_told(alloc, table, action, kept.held.as_slice())?;
    Ok(Entry {
        table: table.node,
        number: kept.number,
        tests,
        rank: kept.rank,
        action,
        args,
    })
}
