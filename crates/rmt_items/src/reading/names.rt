//! Names, by their grammar alone: whether they keep the rules on names is looked at when all is read.

#![tactic(auto, unfolding(crate::specs::ReadingNames::bytes_at, crate::specs::ReadingNames::name_at, crate::specs::ReadingNames::action_at, crate::specs::ReadingNames::rank_at, crate::specs::ReadingNames::table_kind_at, crate::specs::ReadingNames::table_body_at, crate::specs::ReadingNames::table_at, crate::specs::ReadingNames::names_at))]

ghost use Rattle.std.specs.Prelude.{◌≡◌};
ghost use Rattle.rmt_items.specs.Readers.{Gives, listed, byte_at, number_at};
ghost use Rattle.rmt_items.specs.ReadingNames.{bytes_at, name_at, action_at, rank_at, table_kind_at, ranks_at, table_body_at, table_at, names_at};

use crate::fault::{Read, ReadError, ReadFault};
use crate::reading::items::{Count8, Item, list8_of, list32_of, three_of};
use crate::reading::number::{byte_of, four_of, fours_of, two_of};
use rmt_ast::name::Name;
use rmt_ast::names::{ActionName, ActionNames, Names, RankOf, Ranks, TableName};
use rmt_ast::program::Kind;
use rmt_bits::answer::Bytes;
use std::alloc::Global;

// ---- bytes

/// That many bytes as they stand. Memory is taken only where they are all there.
fn bytes_of(alloc: Global, count: usize, bytes: &[u8]) -> Read<Vec<u8>>
    ensures { Gives (λ x. (x.0.items, x.1.now)) result (bytes_at count bytes.now) }
{
    if bytes.len() < count {
        return Err(ReadError::Fault(ReadFault::Short));
    }
    let (front, rest) = bytes.split_at(count);
    let front = Vec::from_slice(alloc, front)?;
    Ok((front, rest))
}

/// A name behind its length.
fn name_of(alloc: Global, bytes: &[u8]) -> Read<Name>
    ensures { Gives (λ x. (x.0, x.1.now)) result (name_at bytes.now) }
{
    let (count, rest) = four_of(bytes)?;
    let (name, rest) = bytes_of(alloc, count as usize, rest)?;
    Ok((Name::from_vec(name), rest))
}

/// The widths of an action's parameters, a byte each, behind their count.
fn params_of(alloc: Global, bytes: &[u8]) -> Read<Bytes>
    ensures { Gives (λ x. (x.0, x.1.now)) result (listed byte_at bytes_at bytes.now) }
{
    let (count, rest) = byte_of(bytes)?;
    let (widths, rest) = bytes_of(alloc, count as usize, rest)?;
    Ok((Bytes::from_vec(widths), rest))
}

// ---- the parts of a table

impl Item<()> for ActionName {
    const LEAST_SIZE: usize = 5;

    ghost item_at = { λ _. action_at };

    fn read(alloc: Global, _given: (), bytes: &[u8]) -> Read<ActionName> {
        let (name, rest) = name_of(alloc, bytes)?;
        let (params, rest) = params_of(alloc, rest)?;
        Ok((ActionName { name, params }, rest))
    }
}

impl Item<()> for RankOf {
    const LEAST_SIZE: usize = 8;

    ghost item_at = { λ _. rank_at };

    fn read(_alloc: Global, _given: (), bytes: &[u8]) -> Read<RankOf> {
        let ((number, rank), rest) = fours_of(bytes)?;
        Ok((RankOf { number, rank }, rest))
    }
}

fn kind_of(bytes: &[u8]) -> Read<Kind>
    ensures { Gives (λ x. (x.0, x.1.now)) result (table_kind_at bytes.now) }
{
    let (byte, rest) = byte_of(bytes)?;
    let kind = match byte {
        0 => Kind::Exact,
        1 => Kind::Prefix,
        2 => Kind::Ternary,
        _ => return Err(ReadError::Fault(ReadFault::Form)),
    };
    Ok((kind, rest))
}

/// The ranks of a table of that kind: only a ternary one has any.
impl Item<Kind> for Ranks {
    const LEAST_SIZE: usize = 0;

    ghost item_at = { ranks_at };

    fn read(alloc: Global, kind: Kind, bytes: &[u8]) -> Read<Ranks> {
        match kind {
            Kind::Ternary => list32_of(alloc, (), bytes),
            Kind::Keyless | Kind::Exact | Kind::Prefix => Ok((Ranks::new(alloc), bytes)),
        }
    }
}

/// That bytes are the widths of a key's fields.
#[derive(Clone, Copy)]
struct KeyWidths;

/// A byte for each width, behind their count.
impl Item<KeyWidths> for Bytes {
    const LEAST_SIZE: usize = 2;

    ghost item_at = { λ _. listed (number_at 2) bytes_at };

    fn read(alloc: Global, _given: KeyWidths, bytes: &[u8]) -> Read<Bytes> {
        let (count, rest) = two_of(bytes)?;
        let (widths, rest) = bytes_of(alloc, count as usize, rest)?;
        Ok((Bytes::from_vec(widths), rest))
    }
}

// ---- tables

/// What stands behind the name of a table.
#[derive(Drop)]
struct TableBody {
    kind: Kind,
    size: u32,
    keys: Bytes,
    actions: ActionNames,
    ranks: Ranks,
}

fn body_of(alloc: Global, bytes: &[u8]) -> Read<TableBody>
    ensures { Gives (λ x. ((x.0.kind, (x.0.size, (x.0.keys, (x.0.actions, x.0.ranks)))), x.1.now)) result (table_body_at bytes.now) }
{
    let (kind, rest) = kind_of(bytes)?;
    let (size, rest) = four_of(rest)?;
    let ((keys, (actions, ranks)), rest) = three_of(alloc, KeyWidths, Count8, kind, rest)?;
    let body = TableBody {
        kind,
        size,
        keys,
        actions,
        ranks,
    };
    Ok((body, rest))
}

impl Item<()> for TableName {
    const LEAST_SIZE: usize = 13;

    ghost item_at = { λ _. table_at };

    fn read(alloc: Global, _given: (), bytes: &[u8]) -> Read<TableName> {
        let (node, rest) = byte_of(bytes)?;
        let (name, rest) = name_of(alloc, rest)?;
        let (body, rest) = body_of(alloc, rest)?;
        let table = TableName {
            node: node as u32,
            name,
            kind: body.kind,
            size: body.size,
            keys: body.keys,
            actions: body.actions,
            ranks: body.ranks,
        };
        Ok((table, rest))
    }
}

/// The names of tables behind their count.
pub fn names_of(alloc: Global, bytes: &[u8]) -> Read<Names>
    ensures read { Gives (λ x. (x.0, x.1.now)) result (names_at bytes.now) }
{
    let (tables, rest) = list8_of(alloc, (), bytes)?;
    Ok((Names { tables }, rest))
}
