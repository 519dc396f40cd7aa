//! Entries that come, as cells keep them.

ghost use Rattle.std.specs.Prelude.{◌≡◌, ◌+◌, ◌-◌, ◌^◌, ◌<◌, ◌≤◌, [], IfOk, IsTrue, Some, if◌then◌else◌, length, slice_get, slice_index_or, sum, true};
ghost use Rattle.rmt_bits.specs.Bits.{number_of};
ghost use Rattle.rmt_ast.specs.EntryLists.{IsEntry};
ghost use Rattle.rmt_ast.specs.NameRules.{table_is_formed, terms_of_name};
ghost use Rattle.rmt_ast.specs.declared.names.ActionName.{ActionName as ActionOf};
ghost use Rattle.rmt_config.specs.Rooms.{args_as_one, tests_as_one};
ghost use Rattle.rmt_config.specs.BlockCounts.{divided_up};
ghost use Rattle.rmt_book.specs.Coming.{HasSizes, KeepsEntry, key_bytes};
ghost use Rattle.rmt_config.specs.Rooms.{mask_or_value};
ghost use Rattle.rmt_book.specs.Told.{is_whole};

use rmt_ast::entry::Entry;
use rmt_ast::names::TableName;
use rmt_ast::program::Kind;
use rmt_book::kept::Kept;
use rmt_pack::encoding::{args_bytes, tests_bytes};
use std::alloc::{AllocError, Global};

/// The mask of an entry; nothing where all bits of its key count. The only fault is want of memory.
fn mask_of(alloc: Global, table: &TableName, entry: &Entry) -> Result<Vec<u8>, AllocError>
    requires formed { IsTrue (table_is_formed table.now) }
    requires entry { IsEntry table.now.node (terms_of_name table.now) entry.now }
    requires keys { sum table.now.keys ≤ 640 }
    ensures size { IfOk result (λ mask. length mask.items ≡ (if is_whole table.now.kind then 0 else divided_up (sum table.now.keys) 8)) }
    ensures number { IfOk result (λ mask. (if is_whole table.now.kind then 2 ^ sum table.now.keys - 1 else number_of mask.items)
        ≡ tests_as_one (mask_or_value true) table.now.keys entry.now.tests) }
{
    match table.kind {
        Kind::Exact => Ok(Vec::new(alloc)),
        Kind::Keyless | Kind::Prefix | Kind::Ternary => {
            let tests = entry.tests.as_slice();
            tests_bytes(alloc, table.keys.as_slice(), tests, true)
        }
    }
}

/// The arguments of an entry in so many bits of data. The only fault is want of memory.
fn held_of(
    alloc: Global,
    table: &TableName,
    held: u32,
    entry: &Entry,
) -> Result<Vec<u8>, AllocError>
    requires formed { IsTrue (table_is_formed table.now) }
    requires entry { IsEntry table.now.node (terms_of_name table.now) entry.now }
    requires few { held < 65536 }
    requires room { (a : ActionOf) → slice_get table.now.actions entry.now.action ≡ Some a → sum a.params ≤ held }
    ensures size { IfOk result (λ bytes. length bytes.items ≡ divided_up held 8) }
    ensures number { IfOk result (λ bytes. number_of bytes.items ≡ args_as_one (slice_index_or (terms_of_name table.now).params entry.now.action []) entry.now.args) }
{
    match table.actions.get(entry.action as usize) {
        Some(action) => {
            let args = entry.args.as_slice();
            args_bytes(alloc, held, 0, action.params.as_slice(), args)
        }
        None => unreachable!(),
    }
}

/// An entry of this key as a cell of a part keeps it, with these visible bits, where the part's first instruction has
/// that number, and each cell of it so many bits of data. The only fault is want of memory.
pub fn kept_of(
    alloc: Global,
    table: &TableName,
    first: u128,
    held: u32,
    cell: u32,
    visible: u8,
    entry: &Entry,
    key: Vec<u8>,
) -> Result<Kept, AllocError>
    requires formed { IsTrue (table_is_formed table.now) }
    requires entry { IsEntry table.now.node (terms_of_name table.now) entry.now }
    requires keys { sum table.now.keys ≤ 640 }
    requires few { held < 65536 }
    requires room { (a : ActionOf) → slice_get table.now.actions entry.now.action ≡ Some a → sum a.params ≤ held }
    requires code { first + entry.now.action < 256 }
    requires visible { visible < 4 }
    requires key { key.items ≡ key_bytes table.now entry.now }
    ensures keeps { IfOk result (KeepsEntry table.now first cell visible entry.now) }
    ensures sizes { IfOk result (HasSizes table.now held) }
{
    let mask = mask_of(alloc, table, entry)?;
    let held = held_of(alloc, table, held, entry)?;
    Ok(Kept {
        cell,
        visible,
        code: (first + entry.action as u128) as u8,
        key,
        mask,
        held,
        number: entry.number,
        rank: entry.rank,
    })
}
