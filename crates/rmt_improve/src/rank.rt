//! How good a placement is.

ghost use Rattle.std.specs.Prelude.{◌≡◌, ◌<◌, All, IfOk, List};
ghost use Rattle.rmt_config.specs.Resources.{greatest_by};
ghost use Rattle.rmt_improve.specs.Words.{Edge, Part, all_edges, IsRank, is_placed_better};

use rmt_ast::deps::Deps;
use rmt_bits::fault::OutOfMemory;
use rmt_pack::placement::Placement;
use rmt_place::offsets;
use std::alloc::Global;

/// How good a placement is: fewer stages come first, and then an earlier start of the last one.
#[derive(Clone, Copy, Debug)]
pub struct Rank {
    /// How many stages it has.
    pub stages: usize,
    /// The start of the last stage, in cycles behind the start of the chip; 0 with no stage.
    pub start: u16,
}

/// How good a placement is.
pub fn rank_of(alloc: Global, placement: &Placement, deps: &Deps) -> Result<Rank, OutOfMemory>
    requires { All (λ (x : Part). x.stage < 32) placement.now.parts }
    ensures { IfOk result (IsRank (all_edges deps.now) placement.now.parts) }
{
    let starts = offsets(alloc, placement, deps)?;
    Ok(Rank {
        stages: starts.len(),
        start: greatest(starts.as_slice()),
    })
}

/// The greatest of some starts; 0 of none.
fn greatest(starts: &[u16]) -> u16
    ensures { result ≡ greatest_by (λ start. start) starts.now }
{
    let mut most = 0;
    for start in starts {
        most = most.max(*start);
    }
    most
}

/// Whether one placement is better than another.
pub fn is_better(rank: &Rank, other: &Rank) -> bool
    ensures { (edges : List Edge) (a b : List Part) → IsRank edges a rank.now → IsRank edges b other.now → result ≡ is_placed_better edges a b }
{
    rank.stages < other.stages || (rank.stages == other.stages && rank.start < other.start)
}
