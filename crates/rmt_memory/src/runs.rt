//! Runs of bytes, all of one size, one after another.

ghost use Rattle.std.specs.Prelude.{◌≡◌, ℕ, ◌+◌, ◌*◌, ◌^◌, ◌<◌, [], length, IfOk, take, drop, vec_len, slice_index};

use std::alloc::{AllocError, Global};

/// Runs of bytes one after another, as of each cell of a memory, or of each listed cell.
#[derive(Drop)]
pub struct Runs {
    /// How many bytes a run has.
    pub size: usize,
    /// How many runs there are.
    pub count: usize,
    pub bytes: Vec<u8>,
    pub ghost whole: { vec_len bytes ≡ count * size },
}

/// The run at a place, from 0 on.
pub fn run_at(runs: &Runs, at: usize) -> &[u8]
    requires { at < runs.now.count }
    ensures value { result.now ≡ take runs.now.size (drop (at * runs.now.size) runs.now.bytes.items) }
    ensures size { length result.now ≡ runs.now.size }
{
    let from = at * runs.size;
    &runs.bytes[from..from + runs.size]
}

/// Runs of no bytes, that many of them.
pub fn no_runs(alloc: Global, count: usize) -> Runs
    ensures size { result.size ≡ 0 }
    ensures count { result.count ≡ count }
    ensures bytes { result.bytes.items ≡ [] }
{
    Runs {
        size: 0,
        count,
        bytes: Vec::new(alloc),
    }
}

/// Runs that are all 0.
pub fn zeros(alloc: Global, size: usize, count: usize) -> Result<Runs, AllocError>
    requires fits { count * size < 2 ^ 64 }
    ensures size { IfOk result (λ r. r.size ≡ size) }
    ensures count { IfOk result (λ r. r.count ≡ count) }
    ensures zero { IfOk result (λ r. (k : ℕ) → slice_index r.bytes.items k ≡ 0) }
{
    let bytes = vec![in alloc; 0; count * size]?;
    Ok(Runs { size, count, bytes })
}
