//! In which cells of their tables entries stand.

ghost use Rattle.std.specs.Prelude.{◌≡◌, ◌≢◌, ◌⊎◌, ◌<◌, ◌^◌, All, AllPairs, IfOk, length, map};
ghost use Rattle.rmt_filling.specs.Sorting.{AreSorted, order_by, rank_in, rows_from};
ghost use Rattle.rmt_filling.specs.EntryCells.{stands_within, StandInOrder, StandOnce, IsLoadedAt};
ghost use Rattle.rmt_ast.specs.declared.entry.Entry.{Entry};
ghost use Rattle.rmt_ast.specs.declared.program.Kind.TheVariants.{Prefix, Ternary};

use rmt_ast::entry::Entry;
use rmt_ast::program::Kind;
use rmt_bits::sequence::Sequence;
use std::alloc::{AllocError, Global};

/// An entry in a cell of its table.
#[derive(Clone, Copy, Debug, PartialEq, Eq)]
pub struct Stand {
    /// The number of the cell, from 0 on: over all parts of the table in the order of their stages, or in one part.
    pub cell: u32,
    /// The place of the entry in the table's list, from 0 on.
    pub entry: u32,
}

/// The entries of a table by rising cell.
pub type Stands = Sequence<Stand>;

/// A number by which entries in cells are sorted: by cell, and then by place.
fn order_of(stand: &Stand) -> u64
    ensures { result ≡ order_by stand.now }
{
    u64::from(stand.cell) * (1 << 32) + u64::from(stand.entry)
}

/// The numbers of a list as cells, each with its place: by rising number, and those of one number by place.
fn sorted(alloc: Global, numbers: &[u32]) -> Result<Vec<Stand>, AllocError>
    requires few { length numbers.now < 2 ^ 32 }
    ensures { IfOk result (λ stands. AreSorted numbers.now stands.items) }
{
    let mut stands = Vec::new(alloc);
    for (at, number) in numbers.iter().enumerate() {
        stands.push(Stand {
            cell: *number,
            entry: at as u32,
        })?;
    }
    stands.sort_unstable_by_key(|s| order_of(s));
    Ok(stands)
}

/// What goes first: of prefixes the longest, of ternary entries that of the least priority number.
fn rank_of(kind: Kind, entry: &Entry) -> u32
    ensures rank { result ≡ rank_in kind entry.now }
    ensures fits { entry.now.rank < 2 ^ 32 }
{
    let _rank = entry.rank;
    match kind {
        Kind::Prefix => u32::MAX - entry.rank,
        Kind::Ternary | Kind::Exact | Kind::Keyless => entry.rank,
    }
}

/// What goes first, of each entry.
fn ranks_of(alloc: Global, kind: Kind, entries: &[Entry]) -> Result<Vec<u32>, AllocError>
    ensures ranks { IfOk result (λ ranks. ranks.items ≡ map (rank_in kind) entries.now) }
    ensures fits { IfOk result (λ ranks. All (λ (e : Entry). e.rank < 2 ^ 32) entries.now) }
{
    let mut ranks = Vec::new(alloc);
    for entry in entries {
        ranks.push(rank_of(kind, entry))?;
    }
    Ok(ranks)
}

/// The same entries in one cell behind another.
fn in_rows(alloc: Global, sorted: &[Stand]) -> Result<Stands, AllocError>
    requires few { length sorted.now < 2 ^ 32 }
    ensures { IfOk result (λ stands. stands ≡ rows_from 0 sorted.now) }
{
    let mut stands = Sequence::new(alloc);
    for (at, stand) in sorted.iter().enumerate() {
        stands.push(Stand {
            cell: at as u32,
            entry: stand.entry,
        })?;
    }
    Ok(stands)
}

/// The rows in which the entries of a prefix or ternary table stand: one behind another, by falling length or by rising
/// priority, and then by line.
pub fn in_order(alloc: Global, kind: Kind, entries: &[Entry]) -> Result<Stands, AllocError>
    requires few { length entries.now < 2 ^ 32 }
    // By rising number.
    requires rising { AllPairs (λ (a b : Entry). a.number < b.number) entries.now }
    requires kind { (kind ≡ Prefix) ⊎ (kind ≡ Ternary) }
    ensures { IfOk result (StandInOrder kind entries.now) }
{
    let ranks = ranks_of(alloc, kind, entries)?;
    let sorted = sorted(alloc, ranks.as_slice())?;
    let stands = in_rows(alloc, sorted.as_slice())?;
    Ok(stands)
}

/// The cells in which the entries of an exact table stand, where each is loaded into a cell.
pub fn as_loaded(alloc: Global, cells: &[u32]) -> Result<Stands, AllocError>
    requires few { length cells.now < 2 ^ 32 }
    requires apart { AllPairs ◌≢◌ cells.now }
    ensures once { IfOk result (StandOnce (length cells.now)) }
    ensures cells { IfOk result (All (IsLoadedAt cells.now)) }
{
    Ok(Sequence::from_vec(sorted(alloc, cells)?))
}

/// The entries that stand in so many cells from one on, with the numbers of their cells from there.
pub fn stands_from(
    alloc: Global,
    stands: &[Stand],
    first: u32,
    cells: u32,
) -> Result<Stands, AllocError>
    ensures { IfOk result (λ own. own ≡ stands_within first cells stands.now) }
{
    let mut own = Sequence::new(alloc);
    for stand in stands {
        if first <= stand.cell && stand.cell - first < cells {
            own.push(Stand {
                cell: stand.cell - first,
                entry: stand.entry,
            })?;
        }
    }
    Ok(own)
}
