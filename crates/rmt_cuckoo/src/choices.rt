//! The cells in which each key may stand.

ghost use Rattle.std.specs.Prelude.{◌≡◌, ℕ, ◌+◌, ◌*◌, ◌<◌, ◌≤◌, ◌^◌, ◌++◌, ◌-◌, None, length, slice_index, All, Contains, IfOk, IfSome, OnOk};
ghost use Rattle.std.specs.List.{range_with_len};
ghost use Rattle.rmt_cuckoo.specs.declared.layout.Ways.{Ways};
ghost use Rattle.rmt_cuckoo.specs.Loading.{cells_of, row_start};
ghost use Rattle.rmt_cuckoo.specs.Choices.{AreChoices, IsWay, choices_at, rows_in};
ghost use Rattle.rmt_cuckoo.specs.Search.{AreTaken};

use crate::layout::{Key, Keys, Layout};
use crate::way::{Way, WayList, way_list};
use rmt_bits::hash::hash_row;
use std::alloc::{AllocError, Global};

/// The ways of a table, and the keys that may stand in their rows under a seed.
#[derive(Drop)]
pub struct Choices<'a> {
    /// How many cells the ways have together.
    pub cells: u32,
    ways: Vec<Way>,
    keys: &'a [Key],
    seed: u8,
}

/// The first cell of the row that a key has in a way.
fn start_of(seed: u8, key: &Key, way: Way) -> u32
    requires way { IsWay (2 ^ 32 - 1) way }
    ensures start { result ≡ row_start seed key.now way }
    ensures end { result + way.per ≤ way.first + way.rows * way.per }
{
    way.first + hash_row(seed, way.number, key.as_slice(), way.rows) * way.per
}

/// Appends the cells of a row.
fn push_row(cells: &mut Vec<u32>, start: u32, per: u32) -> Result<(), AllocError>
    requires { start + per < 2 ^ 32 }
    ensures { OnOk result (cells.new.items ≡ cells.old.items ++ range_with_len start per) }
{
    for cell in start..start + per {
        cells.push(cell)?;
    }
    Ok(())
}

/// Appends the cells of a key's rows, one in each way.
fn push_rows(cells: &mut Vec<u32>, seed: u8, key: &Key, ways: &[Way]) -> Result<(), AllocError>
    requires { All (IsWay (2 ^ 32 - 1)) ways.now }
    ensures { OnOk result (cells.new.items ≡ cells.old.items ++ rows_in seed ways.now key.now) }
{
    for way in ways {
        push_row(cells, start_of(seed, key, *way), way.per)?;
    }
    Ok(())
}

/// The first free cell of a row.
fn free_in_row(start: u32, per: u32, holders: &[u32]) -> Option<u32>
    requires within { start + per ≤ length holders.now }
    requires few { length holders.now < 2 ^ 32 }
    ensures free { IfSome result (λ c. slice_index holders.now c ≡ 0) }
    ensures exists { IfSome result (λ c. c < length holders.now) }
    ensures chosen { IfSome result (λ c. Contains (range_with_len start per) c) }
    ensures none { result ≡ None → All (λ c. 0 < slice_index holders.now c) (range_with_len start per) }
{
    for cell in start..start + per {
        if holders[cell as usize] == 0 {
            return Some(cell);
        }
    }
    None
}

/// The first free cell of a key's row in a way, where so many cells are taken from the first one on. A way of such cells
/// alone isn't hashed.
fn free_in_way(seed: u8, key: &Key, way: Way, holders: &[u32], taken: u32) -> Option<u32>
    requires way { IsWay (length holders.now) way }
    requires few { length holders.now < 2 ^ 32 }
    requires taken { AreTaken holders.now taken }
    ensures free { IfSome result (λ c. slice_index holders.now c ≡ 0) }
    ensures exists { IfSome result (λ c. c < length holders.now) }
    ensures chosen { IfSome result (λ c. Contains (range_with_len (row_start seed key.now way) way.per) c) }
    ensures none { result ≡ None → All (λ c. 0 < slice_index holders.now c) (range_with_len (row_start seed key.now way) way.per) }
{
    let end = way.first + way.rows * way.per;
    if end <= taken {
        return None;
    }
    free_in_row(start_of(seed, key, way), way.per, holders)
}

/// The first free cell of a key's rows, where so many cells are taken from the first one on.
fn free_in_rows(seed: u8, key: &Key, ways: &[Way], holders: &[u32], taken: u32) -> Option<u32>
    requires ways { All (IsWay (length holders.now)) ways.now }
    requires few { length holders.now < 2 ^ 32 }
    requires taken { AreTaken holders.now taken }
    ensures free { IfSome result (λ c. slice_index holders.now c ≡ 0) }
    ensures exists { IfSome result (λ c. c < length holders.now) }
    ensures chosen { IfSome result (λ c. Contains (rows_in seed ways.now key.now) c) }
    ensures none { result ≡ None → All (λ c. 0 < slice_index holders.now c) (rows_in seed ways.now key.now) }
{
    for way in ways {
        if let Some(cell) = free_in_way(seed, key, *way, holders, taken) {
            return Some(cell);
        }
    }
    None
}

impl<'a> Choices<'a> {
    /// The choices of these keys in a table.
    pub fn new(
        alloc: Global,
        layout: &Layout,
        keys: &'a Keys,
        seed: u8,
    ) -> Result<Choices<'a>, AllocError>
        requires parts { length layout.now ≤ 64 }
        requires cells { cells_of layout.now < 2 ^ 32 }
        ensures { IfOk result (λ choices. AreChoices layout.now seed keys.now choices) }
    {
        let WayList { ways, cells } = way_list(alloc, layout.as_slice())?;
        Ok(Choices {
            cells,
            ways,
            keys: keys.as_slice(),
            seed,
        })
    }

    /// Puts the cells in which a key may stand into `cells`, in place of what it held.
    pub fn put(&self, key: usize, cells: &mut Vec<u32>) -> Result<(), AllocError>
        requires known { key < length self.now.keys.now }
        requires within { All (IsWay (2 ^ 32 - 1)) self.now.ways.items }
        ensures { OnOk result (cells.new.items ≡ choices_at self.now key) }
    {
        cells.clear();
        push_rows(cells, self.seed, &self.keys[key], self.ways.as_slice())
    }

    /// The first free cell of those in which a key may stand, where so many cells are taken from the first one on. A key
    /// is hashed for each way up to that cell's, but not for those of taken cells alone.
    pub fn free_cell(&self, key: usize, holders: &[u32], taken: u32) -> Option<u32>
        requires known { key < length self.now.keys.now }
        requires within { All (IsWay (length holders.now)) self.now.ways.items }
        requires few { length holders.now < 2 ^ 32 }
        requires taken { AreTaken holders.now taken }
        ensures free { IfSome result (λ c. slice_index holders.now c ≡ 0) }
        ensures exists { IfSome result (λ c. c < length holders.now) }
        ensures chosen { IfSome result (λ c. Contains (choices_at self.now key) c) }
        ensures none { result ≡ None → All (λ c. 0 < slice_index holders.now c) (choices_at self.now key) }
    {
        free_in_rows(
            self.seed,
            &self.keys[key],
            self.ways.as_slice(),
            holders,
            taken,
        )
    }
}
