//! Cells that are linked by index: each link is the number of the next cell.

ghost use Rattle.std.specs.Prelude.{◌≡◌, ℕ, ◌+◌, ◌<◌, ◌≤◌, ◌^◌, length, IfOk};
ghost use Rattle.std.specs.List.{range_with_len};
ghost use Rattle.rmt_cells.specs.Links.{after as cell_after};

use std::alloc::{AllocError, Global};

/// Links of so many cells, each to the cell of the next number.
pub fn in_a_row(alloc: Global, count: u32) -> Result<Vec<u32>, AllocError>
    requires { count + 1 < 2 ^ 32 }
    ensures { IfOk result (λ links. links.items ≡ range_with_len 1 count) }
{
    let mut links = Vec::with_capacity(alloc, count as usize)?;
    for cell in 0..count {
        links.push(cell + 1)?;
    }
    Ok(links)
}

/// The cell that comes so many steps after a cell.
pub fn after(links: &[u32], cell: u32, steps: u32) -> u32
    requires { (i : ℕ) → i < steps → cell_after links.now cell i < length links.now }
    ensures { result ≡ cell_after links.now cell steps }
{
    let mut cell = cell;
    for _ in 0..steps {
        cell = links[cell as usize];
    }
    cell
}
