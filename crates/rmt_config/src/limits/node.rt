//! The limit on nodes. A split table has several units, and is one node.

ghost use Rattle.std.specs.Prelude.{◌≡◌, ◌<◌, length};
ghost use Rattle.rmt_config.specs.Resources.{node_count};
ghost use Rattle.rmt_config.specs.Limits.{nodes_hit, crowded_stage};

use crate::config::Stage;
use crate::limits::marks::{count_marks, mark_nodes, no_marks};
use crate::limits::{LimitHit, over};

fn count_nodes(stages: &[Stage]) -> u32
    ensures { result ≡ node_count stages.now }
{
    let mut marks = no_marks();
    for stage in stages {
        mark_nodes(&mut marks, stage.units.as_slice());
    }
    count_marks(&marks)
}

/// The stage in which the 129th node first stands.
fn stage_of_129th(stages: &[Stage]) -> u8
    requires { length stages.now < 256 }
    ensures { result ≡ crowded_stage stages.now }
{
    let mut marks = no_marks();
    let mut number: u8 = 0;
    for stage in stages {
        mark_nodes(&mut marks, stage.units.as_slice());
        if 128 < count_marks(&marks) {
            return number;
        }
        number += 1;
    }
    number
}

/// The limit on nodes, where it is passed.
pub fn over_in_nodes(stages: &[Stage]) -> Option<LimitHit>
    requires { length stages.now < 256 }
    ensures { result ≡ nodes_hit stages.now }
{
    let nodes = count_nodes(stages);
    if nodes <= 128 {
        return None;
    }
    over(128, 14, stage_of_129th(stages), nodes)
}
