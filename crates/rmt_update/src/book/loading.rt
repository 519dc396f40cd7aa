//! The entries of all tables are put into cells anew, under one seed.

ghost use Rattle.std.specs.Prelude.{◌≡◌, ◌⊎◌, ℕ, ◌<◌, ◌≤◌, ◌^◌, ◌++◌, All, IfErr, IfOk, IsTrue, OnOk, true, length, slice_index, sum};
ghost use Rattle.std.specs.List.{AllZip};
ghost use Rattle.rmt_ast.specs.Changes.{list_of};
ghost use Rattle.rmt_ast.specs.NameRules.{AreEntriesOf, table_is_formed, terms_of_name};
ghost use Rattle.rmt_ast.specs.WellFormed.{IsTest};
ghost use Rattle.rmt_update.specs.Types.{Config as ConfigOf, Entry as EntryOf, Names as NamesOf};
ghost use Rattle.rmt_ast.specs.declared.program.Kind.TheVariants as kind;
ghost use Rattle.rmt_cuckoo.specs.declared.layout.Ways.{Ways as WaysOf};
ghost use Rattle.rmt_cuckoo.specs.Loading.{cells_in, cells_of};
ghost use Rattle.rmt_book.specs.Coming.{key_bytes};
ghost use Rattle.rmt_update.specs.FirstFull.{keys_of as keys_as_bytes};
ghost use Rattle.rmt_update.specs.Loads.{AreLoadedKeys, AreTables, AreTried, CanFill, CanLoad, IsLoaded, IsNotLoaded, IsTried, IsTriedAt, layout_in, table_of, ways_for};

use crate::book::in_rows::rows_of;
use crate::book::seen::table_at;
use rmt_ast::entry::{Entry, EntryLists};
use rmt_ast::names::TableName;
use rmt_ast::program::Kind;
use rmt_bits::sequence::Sequence;
use rmt_book::grid::Grid;
use rmt_book::spots::{Spots, spots_of};
use rmt_book::table::{PartCells, TableCells};
use rmt_cuckoo::fault::LoadFault;
use rmt_cuckoo::layout::{Keys, Layout, Ways};
use rmt_cuckoo::{load, never_both};
use rmt_lists::fault::UpdateFault;
use rmt_pack::encoding::tests_bytes;
use std::alloc::{AllocError, Global};

/// Where the entries of all nodes stand, and the seed under which those of exact tables are loaded.
#[derive(Drop)]
pub struct Loaded {
    /// The seed, 0 to 7.
    pub seed: u8,
    /// The spots of the entries of each node.
    pub spots: Sequence<Spots>,
}

/// The table of a node with keys that have too few cells.
#[derive(Clone, Copy)]
pub struct Full {
    pub node: u32,
    pub members: u32,
    pub cells: u64,
}

/// What comes of loading under one seed.
#[derive(Drop)]
enum Tried {
    /// Where the entries stand.
    Stand(Sequence<Spots>),
    /// The first table that isn't loaded.
    Overfull(Full),
}

/// What comes of loading one table.
#[derive(Drop)]
enum TableTried {
    Stand(Spots),
    Overfull { members: u32, cells: u64 },
}

/// Adds the ways of an exact part.
fn put_ways(layout: &mut Layout, grid: Grid) -> Result<(), AllocError>
    ensures { OnOk result (layout.new ≡ layout.old ++ ways_for grid) }
{
    match grid {
        Grid::Ways(ways) => layout.push(Ways {
            rows: ways.rows,
            per: ways.per as u32,
        }),
        Grid::Rows(_) => Ok(()),
    }
}

/// The exact parts of a table, as its keys are loaded into them.
fn layout_of(alloc: Global, parts: &[PartCells]) -> Result<Layout, AllocError>
    ensures { IfOk result (λ layout. layout ≡ layout_in parts.now) }
{
    let mut layout = Sequence::new(alloc);
    for part in parts {
        put_ways(&mut layout, part.shape.grid)?;
    }
    Ok(layout)
}

/// Whether the parts of a table are as few, and their cells, as a loading has numbers for.
fn is_small(layout: &[Ways]) -> bool
    requires { All (λ (w : WaysOf). cells_in w < 2 ^ 32) layout.now }
    ensures parts { result ≡ true → length layout.now ≤ 64 }
    ensures cells { result ≡ true → cells_of layout.now < 2 ^ 32 }
{
    if layout.len() > 64 {
        return false;
    }
    let mut cells: u64 = 0;
    for part in layout {
        let own = part.rows as u64 * part.per as u64;
        cells += 4 * own;
    }
    cells < 1 << 32
}

/// Bytes are below 256.
pub fn are_bytes(bytes: &[u8])
    ensures { (k : ℕ) → slice_index bytes.now k < 2 ^ 8 }
{
    let _count = bytes.len();
}

/// The key of an entry of a table, as bytes. The only fault is want of memory.
pub fn key_of(alloc: Global, name: &TableName, entry: &Entry) -> Result<Vec<u8>, AllocError>
    requires formed { IsTrue (table_is_formed name.now) }
    requires few { sum name.now.keys ≤ 640 }
    requires tests { AllZip IsTest name.now.keys entry.now.tests }
    ensures { IfOk result (λ key. key.items ≡ key_bytes name.now entry.now) }
{
    tests_bytes(alloc, name.keys.as_slice(), entry.tests.as_slice(), false)
}

/// The keys of the entries of a table, as bytes.
fn keys_of(alloc: Global, name: &TableName, entries: &[Entry]) -> Result<Keys, AllocError>
    requires formed { IsTrue (table_is_formed name.now) }
    requires few { sum name.now.keys ≤ 640 }
    requires tests { All (λ (e : EntryOf). AllZip IsTest name.now.keys e.tests) entries.now }
    ensures { IfOk result (λ keys. keys ≡ keys_as_bytes (terms_of_name name.now) entries.now) }
{
    let mut keys = Sequence::new(alloc);
    for entry in entries {
        let key = key_of(alloc, name, entry)?;
        keys.push(Sequence::from_vec(key))?;
    }
    Ok(keys)
}

/// Loads the keys of an exact table under a seed.
fn load_keys(
    alloc: Global,
    parts: &[PartCells],
    layout: &Layout,
    keys: &Keys,
    seed: u8,
) -> Result<TableTried, AllocError>
    requires { CanLoad layout.now keys.now }
    ensures { IfOk result (AreLoadedKeys parts.now layout.now seed keys.now) }
{
    match load(alloc, layout, keys, seed) {
        Ok(cells) => {
            let spots = spots_of(alloc, parts, cells.as_slice())?;
            Ok(TableTried::Stand(spots))
        }
        Err(LoadFault::NoMemory) => Err(AllocError),
        Err(LoadFault::Overfull { members, cells }) => Ok(TableTried::Overfull {
            members: members.len() as u32,
            cells,
        }),
    }
}

/// A table, the entries that are put into its cells, and the seed of exact ones.
#[derive(Drop)]
struct TableFill<'a> {
    table: &'a TableCells,
    entries: &'a [Entry],
    seed: u8,
}

/// Puts the entries of an exact table into cells under a seed. For a table with 2^32 cells or more, as none has within
/// the chip's limits, there isn't enough memory.
fn try_exact(alloc: Global, fill: &TableFill) -> Result<TableTried, AllocError>
    requires can { CanFill fill.now.table.now fill.now.entries.now }
    requires kind { fill.now.table.now.name.kind ≡ kind.Exact }
    ensures { IfOk result (IsTried fill.now.table.now.parts.items fill.now.seed (terms_of_name fill.now.table.now.name) fill.now.entries.now) }
{
    let parts = fill.table.parts.as_slice();
    let layout = layout_of(alloc, parts)?;
    let small = is_small(layout.as_slice());
    if !small {
        return Err(AllocError);
    }
    let keys = keys_of(alloc, &fill.table.name, fill.entries)?;
    let tried = load_keys(alloc, parts, &layout, &keys, fill.seed)?;
    Ok(tried)
}

/// Puts the entries of a prefix or ternary table into rows, in their order.
fn try_rows(alloc: Global, table: &TableCells, entries: &[Entry]) -> Result<TableTried, AllocError>
    requires kind { (table.now.name.kind ≡ kind.Prefix) ⊎ (table.now.name.kind ≡ kind.Ternary) }
    requires few { length entries.now < 2 ^ 32 }
    ensures { IfOk result (λ tried. (seed : ℕ) → IsTried table.now.parts.items seed (terms_of_name table.now.name) entries.now tried) }
{
    let rows = rows_of(alloc, table.name.kind, entries)?;
    let spots = spots_of(alloc, table.parts.as_slice(), rows.as_slice())?;
    Ok(TableTried::Stand(spots))
}

/// Puts the entries of a table into cells under a seed.
fn try_table(alloc: Global, fill: &TableFill) -> Result<TableTried, AllocError>
    requires { CanFill fill.now.table.now fill.now.entries.now }
    ensures { IfOk result (IsTried fill.now.table.now.parts.items fill.now.seed (terms_of_name fill.now.table.now.name) fill.now.entries.now) }
{
    match fill.table.name.kind {
        Kind::Keyless => unreachable!(),
        Kind::Exact => try_exact(alloc, fill),
        Kind::Prefix | Kind::Ternary => try_rows(alloc, fill.table, fill.entries),
    }
}

/// Puts the entries of a node into cells under a seed.
fn try_node(
    alloc: Global,
    tables: &[TableCells],
    entries: &EntryLists,
    node: u32,
    seed: u8,
) -> Result<TableTried, AllocError>
    requires fit { (c : ConfigOf) × (names : NamesOf) × AreTables c names tables.now × AreEntriesOf names entries.now }
    requires node { node < length entries.now }
    ensures { IfOk result (IsTriedAt seed (list_of entries.now node) (table_of tables.now node)) }
{
    match table_at(tables, node) {
        None => Ok(TableTried::Stand(Sequence::new(alloc))),
        Some(table) => {
            let lists = entries.as_slice();
            let entries = lists[node as usize].as_slice();
            let fill = TableFill {
                table,
                entries,
                seed,
            };
            try_table(alloc, &fill)
        }
    }
}

/// Puts the entries of all nodes into cells under a seed.
fn try_seed(
    alloc: Global,
    tables: &[TableCells],
    entries: &EntryLists,
    seed: u8,
) -> Result<Tried, AllocError>
    requires fit { (c : ConfigOf) × (names : NamesOf) × AreTables c names tables.now × AreEntriesOf names entries.now }
    requires few { length entries.now < 2 ^ 32 }
    ensures { IfOk result (AreTried tables.now entries.now seed) }
{
    let mut spots = Sequence::new(alloc);
    for node in 0..entries.len() {
        match try_node(alloc, tables, entries, node as u32, seed)? {
            TableTried::Stand(own) => spots.push(own)?,
            TableTried::Overfull { members, cells } => {
                return Ok(Tried::Overfull(Full {
                    node: node as u32,
                    members,
                    cells,
                }));
            }
        }
    }
    Ok(Tried::Stand(spots))
}

/// Puts the entries of all nodes into cells anew, under the first of the seeds 0 to 7 under which all exact tables are
/// loaded; those of prefix and ternary tables stand in their order, from the first row on without a gap.
///
/// # Errors
///
/// `LoadFull` where there is no such seed, with the first table that isn't loaded under seed 7; else for want of memory.
pub fn load_all(
    alloc: Global,
    tables: &[TableCells],
    entries: &EntryLists,
) -> Result<Loaded, UpdateFault>
    requires fit { (c : ConfigOf) × (names : NamesOf) × AreTables c names tables.now × AreEntriesOf names entries.now }
    requires few { length entries.now < 2 ^ 32 }
    ensures loaded { IfOk result (λ loaded. (c : ConfigOf) (names : NamesOf) → AreTables c names tables.now → AreEntriesOf names entries.now → IsLoaded c names entries.now loaded) }
    ensures refused { IfErr result (λ fault. (c : ConfigOf) (names : NamesOf) → AreTables c names tables.now → AreEntriesOf names entries.now → IsNotLoaded c names entries.now fault) }
{
    never_both();
    for seed in 0..7 {
        if let Tried::Stand(spots) = try_seed(alloc, tables, entries, seed)? {
            return Ok(Loaded { seed, spots });
        }
    }
    match try_seed(alloc, tables, entries, 7)? {
        Tried::Stand(spots) => Ok(Loaded { seed: 7, spots }),
        Tried::Overfull(full) => Err(UpdateFault::LoadFull {
            table: full.node,
            members: full.members,
            cells: full.cells,
        }),
    }
}
