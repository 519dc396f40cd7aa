//! Which nodes stand in a stage, and with how many quanta.

ghost use Rattle.std.specs.Prelude.{◌≡◌, ◌==◌, ◌<◌, ◌^◌, cond, ℕ, All, IfOk, filter, length, nat_lt, slice_index};
ghost use Rattle.std.specs.List.{range_with_len};
ghost use Rattle.rmt_config.specs.Limits.{told};
ghost use Rattle.rmt_pack.specs.declared.placement.Part.{Part};
ghost use Rattle.rmt_pack.specs.Placements.{quanta_in};

use rmt_pack::placement::Part;
use std::alloc::{AllocError, Global};

/// The quanta of a part in a stage.
fn quanta_in_stage(part: &Part, stage: u32) -> u32
    ensures { result ≡ cond (part.now.stage == stage) part.now.quanta 0 }
{
    if part.stage == stage { part.quanta } else { 0 }
}

/// The quanta of each of so many nodes in a stage, by the node's number; 4,294,967,295 where they are more.
pub fn quanta_at(
    alloc: Global,
    nodes: usize,
    parts: &[Part],
    stage: u32,
) -> Result<Vec<u32>, AllocError>
    requires { All (λ (x : Part). x.node < nodes) parts.now }
    ensures all { IfOk result (λ quanta. length quanta.items ≡ nodes) }
    ensures each { IfOk result (λ quanta. (n : ℕ) → slice_index quanta.items n ≡ told (quanta_in parts.now n stage)) }
{
    let mut quanta = vec![in alloc; 0u32; nodes]?;
    for part in parts {
        let node = part.node as usize;
        quanta[node] = quanta[node].saturating_add(quanta_in_stage(part, stage));
    }
    Ok(quanta)
}

/// The nodes that have quanta, rising.
pub fn standing(alloc: Global, quanta: &[u32]) -> Result<Vec<u32>, AllocError>
    requires { length quanta.now < 2 ^ 32 }
    ensures { IfOk result (λ nodes. nodes.items ≡ filter (λ n. nat_lt 0 (slice_index quanta.now n)) (range_with_len 0 (length quanta.now))) }
{
    let mut nodes = Vec::new(alloc);
    for node in 0..quanta.len() as u32 {
        if quanta[node as usize] > 0 {
            nodes.push(node)?;
        }
    }
    Ok(nodes)
}
