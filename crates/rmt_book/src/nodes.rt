//! How many nodes a configuration has entry lists for.

ghost use Rattle.std.specs.Prelude.{◌≡◌, ◌+◌, ◌≤◌, fold, max};
ghost use Rattle.rmt_config.specs.NamesForm.{node_count_of};
ghost use Rattle.rmt_config.specs.TableForm.{node_of as node_of_unit};
ghost use Rattle.rmt_config.specs.declared.config.Unit.{Unit as UnitOf};

use rmt_config::config::{Config, Unit};

/// The node that a unit is of.
fn node_of(unit: &Unit) -> u8
    ensures { result ≡ node_of_unit unit.now }
{
    match unit {
        Unit::Gate(gate) => gate.node,
        Unit::Slot(slot) => slot.node,
    }
}

/// One more than the greatest node of units, and at least `nodes`.
fn nodes_of(nodes: u32, units: &[Unit]) -> u32
    requires { nodes ≤ 256 }
    ensures value { result ≡ fold (λ n (unit : UnitOf). max n (node_of_unit unit + 1)) nodes units.now }
    ensures few { result ≤ 256 }
{
    let mut nodes = nodes;
    for unit in units {
        nodes = nodes.max(u32::from(node_of(unit)) + 1);
    }
    nodes
}

/// One more than the greatest node of a configuration's units.
pub fn node_count(config: &Config) -> u32
    ensures { result ≡ node_count_of config.now }
{
    let mut nodes = 0;
    for stage in config.stages.as_slice() {
        nodes = nodes_of(nodes, stage.units.as_slice());
    }
    nodes
}
