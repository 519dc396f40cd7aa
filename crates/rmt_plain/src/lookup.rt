//! The entries of a table, ready to be looked up.

ghost use Rattle.std.specs.Prelude.{◌≡◌, IfOk};
ghost use Rattle.rmt_plain.specs.Ranking.{weight_of, IsRanked};
ghost use Rattle.rmt_plain.specs.Running.{kind_of, kind_of_node, IsReady, AreReady};

use crate::grouping::groups_of;
use crate::marks::marks_of;
use rmt_ast::entry::{Entry, EntryLists};
use rmt_ast::program::{Kind, Program, What};
use rmt_bits::groups::Group;
use rmt_bits::sequence::Sequence;
use std::alloc::{AllocError, Global};

/// The entries of a table, in groups that test the same bits.
#[derive(Drop)]
pub struct Lookup {
    /// Of those that match, the first is hit.
    pub entries: Vec<Entry>,
    /// By rising place of their first entry.
    pub groups: Vec<Group>,
    /// Of the bits that the entries want.
    pub marks: Vec<bool>,
}

/// Where an entry of a rank stands: of those that match, one of the least weight is hit.
fn weight(kind: Kind, rank: u32) -> u32
    ensures { result ≡ weight_of kind rank }
{
    match kind {
        Kind::Keyless | Kind::Exact => 0,
        Kind::Prefix => u32::MAX - rank,
        Kind::Ternary => rank,
    }
}

/// Entries by their weight; those of one weight stay in their order.
fn ranked(kind: Kind, entries: Sequence<Entry>) -> Result<Vec<Entry>, AllocError>
    ensures { IfOk result (λ ranked. IsRanked kind entries ranked.items) }
{
    let mut entries = entries.into_vec();
    entries.sort_by_key(|entry| weight(kind, entry.rank))?;
    Ok(entries)
}

/// The look-up of entries that stand by rising number.
pub fn lookup_of(alloc: Global, kind: Kind, entries: Sequence<Entry>) -> Result<Lookup, AllocError>
    ensures { IfOk result (λ lookup. IsReady kind entries lookup) }
{
    let entries = ranked(kind, entries)?;
    Ok(Lookup {
        groups: groups_of(alloc, &entries)?,
        marks: marks_of(alloc, &entries)?,
        entries,
    })
}

/// The kind of the table that a node applies.
fn kind_at(program: &Program, node: usize) -> Kind
    ensures { result ≡ kind_of_node program.now node }
{
    match program.nodes.get(node) {
        Some(node) => kind(program, node.what),
        None => Kind::Keyless,
    }
}

/// The kind of the table that is applied, if one is.
fn kind(program: &Program, what: What) -> Kind
    ensures { result ≡ kind_of program.now what }
{
    match what {
        What::Apply(table) => match program.tables.get(table as usize) {
            Some(table) => table.kind,
            None => Kind::Keyless,
        },
        What::Gate { .. } => Kind::Keyless,
    }
}

/// The look-ups of all nodes.
pub fn lookups_of(
    alloc: Global,
    program: &Program,
    entries: EntryLists,
) -> Result<Vec<Lookup>, AllocError>
    ensures { IfOk result (λ lookups. AreReady program.now 0 entries lookups.items) }
{
    let lists = entries.into_vec();
    let mut lookups = Vec::with_capacity(alloc, lists.len())?;
    for list in lists {
        let kind = kind_at(program, lookups.len());
        lookups.push(lookup_of(alloc, kind, list)?)?;
    }
    Ok(lookups)
}
