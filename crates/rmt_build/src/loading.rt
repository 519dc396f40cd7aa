//! Exact tables are loaded, all under one seed.

ghost use Rattle.std.specs.Prelude.{◌≡◌, ◌<◌, ◌≤◌, ℕ, AllPairs, IfErr, IfOk, OnOk, option_copied, ◌++◌, Some, length};
ghost use Rattle.rmt_build.specs.Words.{Entry, AreTwo, AreAllLoaded, IsFirstSeed, IsNotLoaded, layout_in, ways_for, AreTried, IsNodeTable, IsPlacedProgram, StandOrFull, entries_at, table_at};
ghost use Rattle.rmt_ast.specs.declared.program.Kind.TheVariants.{Exact};
ghost use Rattle.rmt_cuckoo.specs.declared.layout.Ways.{Ways};
ghost use Rattle.rmt_pack.specs.Placements.{quanta_in as quanta_of};

use crate::fault::NoFit;
use crate::parts::quanta_in;
use crate::tables::applied;
use rmt_ast::entry::{Entry, EntryLists};
use rmt_ast::program::{Kind, Program, Table};
use rmt_bits::sequence::Sequence;
use rmt_cuckoo::layout::{Layout, Ways};
use rmt_filling::keys::{TableTried, keys_of, load_exact};
use rmt_filling::stands::{Stands, in_order};
use rmt_pack::format::Format;
use rmt_pack::placement::Part;
use std::alloc::{AllocError, Global};

/// The entries of each node in their cells, and the seed under which the exact ones are loaded.
#[derive(Drop)]
pub struct Loaded {
    /// The seed, 0 to 7.
    pub seed: u8,
    /// The entries of each node by rising cell.
    pub stands: Sequence<Stands>,
}

/// A table with keys that have too few cells.
#[derive(Clone, Copy)]
struct Full {
    node: u32,
    members: u32,
    cells: u64,
}

/// What comes of loading under one seed.
#[derive(Drop)]
enum Tried {
    /// Where the entries stand.
    Stand(Sequence<Stands>),
    /// The first table that isn't loaded.
    Overfull(Full),
}

/// A program with its entries, and where its nodes are placed.
#[derive(Clone, Copy)]
pub struct PlacedProgram<'a> {
    /// The program.
    pub program: &'a Program,
    /// The entries of each of its nodes.
    pub entries: &'a EntryLists,
    /// The memory format of each node.
    pub formats: &'a [Format],
    /// The parts of the nodes.
    pub parts: &'a [Part],
}

/// The table that a node of a placed program applies, with its entries and the format of its memory.
#[derive(Clone, Copy)]
struct NodeTable<'t, 'p> {
    placed: &'t PlacedProgram<'p>,
    node: u32,
    table: &'t Table,
    entries: &'t [Entry],
    format: &'t Format,
}

/// Adds the part of so many quanta, if there are any.
fn push_ways(layout: &mut Layout, quanta: u32, per: u32) -> Result<(), AllocError>
    requires { quanta ≤ 106 }
    ensures { OnOk result (layout.new ≡ layout.old ++ ways_for quanta per) }
{
    if quanta > 0 {
        layout.push(Ways {
            rows: 1024 * quanta,
            per,
        })?;
    }
    Ok(())
}

/// The parts of the table of a node, in the order of the stages.
fn layout_of(
    alloc: Global,
    parts: &[Part],
    node: u32,
    format: &Format,
) -> Result<Layout, AllocError>
    requires apart { AllPairs AreTwo parts.now }
    requires few { (k : ℕ) → quanta_of parts.now node k ≤ 106 }
    ensures { IfOk result (λ layout. layout ≡ layout_in format.now.per parts.now node) }
{
    let mut layout = Sequence::new(alloc);
    for stage in 0..32 {
        push_ways(&mut layout, quanta_in(parts, node, stage), format.per)?;
    }
    Ok(layout)
}

/// Puts the entries of the exact table of a node into cells, under a seed.
fn try_exact(alloc: Global, own: &NodeTable, seed: u8) -> Result<TableTried, AllocError>
    requires placed { IsPlacedProgram own.now.placed.now.program.now own.now.placed.now.entries.now own.now.placed.now.formats.now own.now.placed.now.parts.now }
    requires own { IsNodeTable own.now.placed.now.program.now own.now.node own.now.table.now own.now.entries.now own.now.format.now }
    requires exact { own.now.table.now.kind ≡ Exact }
    ensures { IfOk result (StandOrFull own.now.placed.now.program.now own.now.placed.now.parts.now seed own.now.node own.now.entries.now (Some own.now.table.now)) }
{
    let layout = layout_of(alloc, own.placed.parts, own.node, own.format)?;
    let keys = keys_of(alloc, own.placed.program, own.table, own.entries)?;
    let tried = load_exact(alloc, &layout, &keys, seed)?;
    Ok(tried)
}

/// Puts the entries of the table of a node into cells, under a seed.
fn try_table(alloc: Global, own: &NodeTable, seed: u8) -> Result<TableTried, AllocError>
    requires placed { IsPlacedProgram own.now.placed.now.program.now own.now.placed.now.entries.now own.now.placed.now.formats.now own.now.placed.now.parts.now }
    requires own { IsNodeTable own.now.placed.now.program.now own.now.node own.now.table.now own.now.entries.now own.now.format.now }
    ensures { IfOk result (StandOrFull own.now.placed.now.program.now own.now.placed.now.parts.now seed own.now.node own.now.entries.now (Some own.now.table.now)) }
{
    match own.table.kind {
        Kind::Keyless => Ok(TableTried::Stand(Sequence::new(alloc))),
        Kind::Exact => try_exact(alloc, own, seed),
        Kind::Prefix | Kind::Ternary => {
            let stands = in_order(alloc, own.table.kind, own.entries)?;
            Ok(TableTried::Stand(stands))
        }
    }
}

/// The table that the node of a number applies; None for a gate.
fn table_of<'a>(program: &'a Program, node: usize) -> Option<&'a Table>
    requires { node < length program.now.nodes }
    ensures { option_copied result ≡ table_at program.now node }
{
    applied(program, &program.nodes.as_slice()[node])
}

/// Puts the entries of a node into cells, under a seed.
fn try_node(
    alloc: Global,
    placed: &PlacedProgram,
    node: usize,
    seed: u8,
) -> Result<TableTried, AllocError>
    requires placed { IsPlacedProgram placed.now.program.now placed.now.entries.now placed.now.formats.now placed.now.parts.now }
    requires node { node < length placed.now.program.now.nodes }
    ensures { IfOk result (StandOrFull placed.now.program.now placed.now.parts.now seed node (entries_at placed.now.entries.now node) (table_at placed.now.program.now node)) }
{
    let Some(table) = table_of(placed.program, node) else {
        return Ok(TableTried::Stand(Sequence::new(alloc)));
    };
    let own = placed.entries.as_slice()[node].as_slice();
    let own = NodeTable {
        placed,
        node: node as u32,
        table,
        entries: own,
        format: &placed.formats[node],
    };
    try_table(alloc, &own, seed)
}

/// Puts the entries of all nodes into cells, under a seed.
fn try_seed(alloc: Global, placed: &PlacedProgram, seed: u8) -> Result<Tried, AllocError>
    requires placed { IsPlacedProgram placed.now.program.now placed.now.entries.now placed.now.formats.now placed.now.parts.now }
    ensures { IfOk result (AreTried placed.now.program.now placed.now.entries.now placed.now.parts.now seed) }
{
    let mut stands = Sequence::new(alloc);
    for node in 0..placed.program.nodes.len() {
        match try_node(alloc, placed, node, seed)? {
            TableTried::Stand(own) => stands.push(own)?,
            TableTried::Overfull { members, cells } => {
                let node = node as u32;
                return Ok(Tried::Overfull(Full {
                    node,
                    members,
                    cells,
                }));
            }
        }
    }
    Ok(Tried::Stand(stands))
}

/// Puts the entries of all nodes into cells, under the first of the seeds 0 to 7 under which all exact tables are loaded.
///
/// # Errors
///
/// `Load` where there is no such seed, with the first table that isn't loaded under seed 7; else for want of memory.
pub fn load_all(alloc: Global, placed: &PlacedProgram) -> Result<Loaded, NoFit>
    requires placed { IsPlacedProgram placed.now.program.now placed.now.entries.now placed.now.formats.now placed.now.parts.now }
    ensures loaded { IfOk result (λ loaded. AreAllLoaded placed.now.program.now placed.now.entries.now placed.now.parts.now loaded.seed loaded.stands) }
    ensures seed { IfOk result (λ loaded. IsFirstSeed placed.now.program.now placed.now.entries.now placed.now.parts.now loaded.seed) }
    ensures refused { IfErr result (λ e. IsNotLoaded placed.now.program.now placed.now.entries.now placed.now.parts.now e) }
{
    for seed in 0..7 {
        if let Tried::Stand(stands) = try_seed(alloc, placed, seed)? {
            return Ok(Loaded { seed, stands });
        }
    }
    match try_seed(alloc, placed, 7)? {
        Tried::Stand(stands) => Ok(Loaded { seed: 7, stands }),
        Tried::Overfull(full) => Err(NoFit::Load {
            table: full.node,
            members: full.members,
            cells: full.cells,
        }),
    }
}
