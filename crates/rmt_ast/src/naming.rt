//! The names that a program and its entries have.

ghost use Rattle.std.specs.Prelude.{◌≡◌, ◌≤◌, [], fold, length, map, slice_get, unwrap_or, option_copied, option_map, IfOk};
ghost use Rattle.rmt_ast.specs.State.{width_of};
ghost use Rattle.rmt_ast.specs.Naming.{action_named, has_key, if_keyed, named_at, names_of, ranks_in, ranks_of, table_named};
ghost use Rattle.rmt_ast.specs.RankPairs.{rank_of_pair, rank_pair};

use crate::entry::{Entry, EntryLists};
use crate::name::{Name, NamesFault};
use crate::names::{ActionName, ActionNames, Names, RankOf, Ranks, TableName};
use crate::program::{Kind, Program, Table, What};
use rmt_bits::answer::Bytes;
use rmt_bits::fault::OutOfMemory;
use rmt_bits::sequence::Sequence;
use std::alloc::{AllocError, Global};
use std::collections::BTreeSet;

/// The width of a field.
fn width_of(program: &Program, field: u32) -> u8
    ensures { result ≡ width_of program.now field }
{
    match program.fields.get(field as usize) {
        Some(field) => field.width,
        None => 0,
    }
}

/// The widths of fields.
fn widths_of(alloc: Global, program: &Program, fields: &[u32]) -> Result<Bytes, AllocError>
    ensures { IfOk result (λ widths. widths ≡ map (width_of program.now) fields.now) }
{
    let mut widths = Sequence::new(alloc);
    for field in fields {
        widths.push(width_of(program, *field))?;
    }
    Ok(widths)
}

/// A name and the widths of parameters, put together.
fn named(alloc: Global, name: &[u8], params: &[u8]) -> Result<ActionName, AllocError>
    ensures { IfOk result (λ named. named ≡ record { name = name.now; params = params.now }) }
{
    let name = Vec::from_slice(alloc, name)?;
    let params = Vec::from_slice(alloc, params)?;
    Ok(ActionName {
        name: Name::from_vec(name),
        params: Sequence::from_vec(params),
    })
}

/// An action by its number.
fn action_named(alloc: Global, program: &Program, action: u32) -> Result<ActionName, AllocError>
    ensures { IfOk result (λ named. named ≡ action_named program.now action) }
{
    match program.actions.get(action as usize) {
        Some(action) => named(alloc, action.name.as_slice(), action.params.as_slice()),
        None => named(alloc, b"".as_slice(), b"".as_slice()),
    }
}

/// The actions of a table's list.
fn actions_named(
    alloc: Global,
    program: &Program,
    actions: &[u32],
) -> Result<ActionNames, AllocError>
    ensures { IfOk result (λ named. named ≡ map (action_named program.now) actions.now) }
{
    let mut named = Sequence::new(alloc);
    for action in actions {
        named.push(action_named(alloc, program, *action)?)?;
    }
    Ok(named)
}

/// The ranks of entries before their numbers, in order.
fn in_order(alloc: Global, entries: &[Entry]) -> Result<BTreeSet<(u32, u32)>, AllocError>
    ensures { IfOk result (λ set. set.keys ≡ map rank_pair (ranks_in entries.now)) }
{
    let mut set = BTreeSet::new(alloc);
    for entry in entries {
        set.insert((entry.rank, entry.number))?;
    }
    Ok(set)
}

/// The ranks of a set, in its order.
fn ranks_of_set(alloc: Global, set: &BTreeSet<(u32, u32)>) -> Result<Ranks, AllocError>
    ensures { IfOk result (λ ranks. ranks ≡ map rank_of_pair set.now.keys) }
{
    let mut ranks = Sequence::new(alloc);
    for pair in set {
        ranks.push(RankOf {
            number: pair.1,
            rank: pair.0,
        })?;
    }
    Ok(ranks)
}

/// The ranks of the entries of a ternary table.
fn ternary_ranks(alloc: Global, entries: &[Entry]) -> Result<Ranks, AllocError>
    ensures { IfOk result (λ ranks. ranks ≡ ranks_in entries.now) }
{
    let set = in_order(alloc, entries)?;
    let ranks = ranks_of_set(alloc, &set)?;
    Ok(ranks)
}

/// The ranks of a table's entries.
fn ranks_of(alloc: Global, kind: Kind, entries: &[Entry]) -> Result<Ranks, AllocError>
    ensures { IfOk result (λ ranks. ranks ≡ ranks_of kind entries.now) }
{
    match kind {
        Kind::Keyless | Kind::Exact | Kind::Prefix => Ok(Sequence::new(alloc)),
        Kind::Ternary => ternary_ranks(alloc, entries),
    }
}

/// A table that a node applies.
fn table_named(
    alloc: Global,
    program: &Program,
    node: u32,
    entries: &[Entry],
    table: &Table,
) -> Result<TableName, AllocError>
    ensures { IfOk result (λ named. named ≡ table_named program.now node entries.now table.now) }
{
    let name = Vec::from_slice(alloc, table.name.as_slice())?;
    let keys = widths_of(alloc, program, table.key.as_slice())?;
    let actions = actions_named(alloc, program, table.actions.as_slice())?;
    let ranks = ranks_of(alloc, table.kind, entries)?;
    Ok(TableName {
        node,
        name: Name::from_vec(name),
        kind: table.kind,
        size: table.size,
        keys,
        actions,
        ranks,
    })
}

/// Whether a table has a key.
fn has_key(kind: Kind) -> bool
    ensures { result ≡ has_key kind }
{
    match kind {
        Kind::Keyless => false,
        Kind::Exact | Kind::Prefix | Kind::Ternary => true,
    }
}

/// A table that a node applies, where it has a key.
fn if_keyed(
    alloc: Global,
    program: &Program,
    node: u32,
    entries: &[Entry],
    table: &Table,
) -> Result<Option<TableName>, AllocError>
    ensures { IfOk result (λ named. named ≡ if_keyed program.now node entries.now table.now) }
{
    if has_key(table.kind) {
        return Ok(Some(table_named(alloc, program, node, entries, table)?));
    }
    Ok(None)
}

/// The table with a key that a node applies, if it applies one.
fn named_at(
    alloc: Global,
    program: &Program,
    node: u32,
    entries: &[Entry],
    what: What,
) -> Result<Option<TableName>, AllocError>
    ensures { IfOk result (λ named. named ≡ named_at program.now node entries.now what) }
{
    match what {
        What::Apply(table) => match program.tables.get(table as usize) {
            Some(table) => if_keyed(alloc, program, node, entries, table),
            None => Ok(None),
        },
        What::Gate { .. } => Ok(None),
    }
}

/// The entries of a node's list; none where there is no list.
fn list_of(entries: &EntryLists, node: usize) -> &[Entry]
    ensures { result.now ≡ unwrap_or (slice_get entries.now node) [] }
{
    match entries.get(node) {
        Some(list) => list.as_slice(),
        None => {
            let none: &[Entry] = &[];
            none
        }
    }
}

/// The tables with a key that the nodes of a program apply.
fn all_named(
    alloc: Global,
    program: &Program,
    entries: &EntryLists,
) -> Result<Sequence<TableName>, AllocError>
    requires { length program.now.nodes ≤ 128 }
    ensures { IfOk result (λ tables. tables ≡ (names_of program.now entries.now).tables) }
{
    let mut tables = Sequence::new(alloc);
    for (number, node) in program.nodes.as_slice().iter().enumerate() {
        let list = list_of(entries, number);
        if let Some(table) = named_at(alloc, program, number as u32, list, node.what)? {
            tables.push(table)?;
        }
    }
    Ok(tables)
}

/// The names of a program with its entries: of its tables with a key, by the nodes that apply them. They are refused for
/// want of memory alone.
pub fn names_of(alloc: Global, program: &Program, entries: &EntryLists) -> Result<Names, NamesFault>
    // A well-formed program has no more.
    requires { length program.now.nodes ≤ 128 }
    ensures { IfOk result (λ names. names ≡ names_of program.now entries.now) }
{
    match all_named(alloc, program, entries) {
        Ok(tables) => Ok(Names { tables }),
        Err(_) => Err(OutOfMemory::NoMemory),
    }
}
