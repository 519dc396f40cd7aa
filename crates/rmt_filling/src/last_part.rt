//! The last part of a node.

ghost use Rattle.std.specs.Prelude.{◌≡◌, ◌==◌};
ghost use Rattle.rmt_config.specs.Resources.{greatest_by};
ghost use Rattle.rmt_pack.specs.Starts.{stages_of};

use rmt_pack::placement::Part;

/// The last stage in which a node stands; 0 where it stands in none.
fn last_stage(parts: &[Part], node: u32) -> u32
    ensures { result ≡ greatest_by (λ k. k) (stages_of parts.now node) }
{
    let mut last = 0;
    for part in parts {
        if part.node == node {
            last = last.max(part.stage);
        }
    }
    last
}

/// Whether a stage is the last one in which a node stands.
pub fn stands_last(parts: &[Part], node: u32, stage: u32) -> bool
    ensures { result ≡ (stage == greatest_by (λ k. k) (stages_of parts.now node)) }
{
    stage == last_stage(parts, node)
}
