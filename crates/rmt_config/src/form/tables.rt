//! The rules of guards, and of the units that one node has, in one pass over the units.

ghost use Rattle.std.specs.Prelude.{◌≡◌, ℕ, ◌+◌, ◌<◌, ◌^◌, ◌==◌, List, [], ◌∷◌, ◌&&◌, nat_lt, length, slice_index, count_by, option_map};
ghost use Rattle.rmt_config.specs.TableForm.{Placed, node_of, has_node, same_guard, same_flag, same_lane, same_lanes, is_exact_as, same_kind, same_table, is_part_of, follows_part, ways_follow, guard_stands, unit_stands, placed_from, tables_are_formed};
ghost use Rattle.rmt_config.specs.NodesKnown.{placed_of, so_far_of, left_of, last_of, Knows};

use crate::config::{Config, Memory, SlotUnit, Stage, Unit, UnitGuard};
use rmt_bits::lane::Lane;

/// A unit, and the number of its stage.
#[derive(Clone, Copy)]
struct Part<'a> {
    stage: usize,
    unit: &'a Unit,
}

/// What is known of each node between two units: how many units it has so far, how many still come, and the last
/// of those so far.
#[derive(Drop)]
struct Nodes<'a> {
    so_far: [u128; 256],
    left: [u128; 256],
    last: [Option<Part<'a>>; 256],
}

fn node_number(unit: &Unit) -> u8
    ensures { result ≡ node_of unit.now }
{
    match unit {
        Unit::Gate(gate) => gate.node,
        Unit::Slot(slot) => slot.node,
    }
}

/// Adds the units of a stage to how many each node has.
fn count_units(left: &mut [u128; 256], units: &[Unit])
    requires { (n : ℕ) → n < 256 → slice_index left.old n + length units.now < 2 ^ 128 }
    ensures { (n : ℕ) → n < 256 → slice_index left.new n ≡ slice_index left.old n + count_by (λ unit. node_of unit == n) units.now }
{
    for unit in units {
        left[usize::from(node_number(unit))] += 1;
    }
}

/// How many units each node has.
fn units_by_node(stages: &[Stage]) -> [u128; 256]
    ensures small { (n : ℕ) → n < 256 → slice_index result n < 2 ^ 128 }
    ensures counted { (n : ℕ) → n < 256 → slice_index result n ≡ count_by (has_node n) (placed_from 0 stages.now) }
{
    let mut left = [0; 256];
    for stage in stages {
        count_units(&mut left, stage.units.as_slice());
    }
    left
}

fn guards_agree(a: Option<UnitGuard>, b: Option<UnitGuard>) -> bool
    ensures { result ≡ same_guard a b }
{
    match (a, b) {
        (None, None) => true,
        (Some(g), Some(h)) => g.parent == h.parent && g.mask == h.mask,
        _ => false,
    }
}

fn flags_agree(a: bool, b: bool) -> bool
    ensures { result ≡ same_flag a b }
{
    if a { b } else { !b }
}

fn lane_agrees(a: Lane, b: Lane) -> bool
    ensures { result ≡ same_lane a b }
{
    a.word == b.word && a.low == b.low && a.len == b.len
}

fn lanes_agree(a: &[Lane], b: &[Lane]) -> bool
    ensures { result ≡ same_lanes a.now b.now }
{
    if a.len() != b.len() {
        return false;
    }
    for (at, lane) in a.iter().enumerate() {
        if !lane_agrees(*lane, b[at]) {
            return false;
        }
    }
    true
}

fn is_exact_of(width: u8, per: u16, memory: &Memory) -> bool
    ensures { result ≡ is_exact_as width per memory.now }
{
    match memory {
        Memory::Exact {
            width: other_width,
            per: other_per,
            ..
        } => width == *other_width && per == *other_per,
        _ => false,
    }
}

fn kinds_agree(a: &Memory, b: &Memory) -> bool
    ensures { result ≡ same_kind a.now b.now }
{
    match a {
        Memory::Without => matches!(b, Memory::Without),
        Memory::Exact { width, per, .. } => is_exact_of(*width, *per, b),
        Memory::Ternary { .. } => matches!(b, Memory::Ternary { .. }),
    }
}

/// Whether two slots may be parts of one table.
fn are_of_one_table(a: &SlotUnit, b: &SlotUnit) -> bool
    ensures { result ≡ same_table a.now b.now }
{
    guards_agree(a.guard, b.guard)
        && flags_agree(a.counted, b.counted)
        && a.actions == b.actions
        && a.held == b.held
        && lanes_agree(a.keys.as_slice(), b.keys.as_slice())
        && kinds_agree(&a.memory, &b.memory)
}

/// Whether the ways of a part stand behind those of so many parts before it.
fn ways_stand(parts: u128, memory: &Memory) -> bool
    ensures { result ≡ ways_follow parts memory.now }
{
    match memory {
        Memory::Exact { first_way, .. } => {
            first_way % 4 == 0 && u128::from(first_way / 4) == parts
        }
        _ => true,
    }
}

/// Whether a slot may be a part of the table that a unit of its node is a part of.
fn goes_on(before: &Unit, slot: &SlotUnit) -> bool
    ensures { result ≡ is_part_of slot.now before.now }
{
    match before {
        Unit::Gate(_) => false,
        Unit::Slot(part) => are_of_one_table(part, slot),
    }
}

impl<'a> Nodes<'a> {
    /// Before the first unit.
    fn new(stages: &'a [Stage]) -> Nodes<'a>
        ensures { Knows result [] (placed_from 0 stages.now) }
    {
        Nodes {
            so_far: [0; 256],
            left: units_by_node(stages),
            last: [None; 256],
        }
    }

    /// Whether a node has units, and none of them still comes.
    fn has_passed(&self, node: u8) -> bool
        ensures value { result ≡ (nat_lt 0 (so_far_of self.now node) && (left_of self.now node == 0)) }
        ensures byte { node < 256 }
    {
        let node = usize::from(node);
        self.so_far[node] > 0 && self.left[node] == 0
    }

    fn guard_stands(&self, node: u8, guard: Option<UnitGuard>) -> bool
        ensures byte { node < 256 }
        ensures value { (before behind : List Placed) (placed : Placed) → Knows self.now before (placed ∷ behind) → node_of placed.unit ≡ node → result ≡ guard_stands node guard before behind }
    {
        match guard {
            None => true,
            Some(guard) => guard.parent != node && self.has_passed(guard.parent),
        }
    }

    fn is_alone(&self, node: u8) -> bool
        ensures value { result ≡ ((so_far_of self.now node == 0) && (left_of self.now node == 1)) }
        ensures byte { node < 256 }
    {
        let node = usize::from(node);
        self.so_far[node] == 0 && self.left[node] == 1
    }

    /// The last of a node's units so far.
    fn last_part(&self, node: u8) -> Option<Part<'a>>
        requires { length self.now.last ≡ 256 }
        ensures value { option_map placed_of result ≡ last_of self.now node }
        ensures byte { node < 256 }
    {
        let last = &self.last[..];
        last[usize::from(node)]
    }

    fn follows(&self, stage: usize, slot: &SlotUnit) -> bool
        requires { length self.now.last ≡ 256 }
        ensures value { result ≡ follows_part stage slot.now (last_of self.now slot.now.node) }
        ensures byte { slot.now.node < 256 }
    {
        match self.last_part(slot.node) {
            None => true,
            Some(part) => part.stage != stage && goes_on(part.unit, slot),
        }
    }

    fn part_stands(&self, stage: usize, slot: &SlotUnit) -> bool
        requires { length self.now.last ≡ 256 }
        ensures value { result ≡ (follows_part stage slot.now (last_of self.now slot.now.node) && ways_follow (so_far_of self.now slot.now.node) slot.now.memory && same_flag slot.now.last (left_of self.now slot.now.node == 1)) }
        ensures byte { slot.now.node < 256 }
    {
        let node = usize::from(slot.node);
        self.follows(stage, slot)
            && ways_stand(self.so_far[node], &slot.memory)
            && flags_agree(slot.last, self.left[node] == 1)
    }

    /// Whether the next unit keeps its rules.
    fn unit_stands(&self, stage: usize, unit: &Unit) -> bool
        requires { length self.now.last ≡ 256 }
        ensures byte { node_of unit.now < 256 }
        ensures value { (before behind : List Placed) → Knows self.now before (record { stage = stage; unit = unit.now } ∷ behind) → result ≡ unit_stands before (record { stage = stage; unit = unit.now }) behind }
    {
        match unit {
            Unit::Gate(gate) => {
                self.guard_stands(gate.node, gate.guard) && self.is_alone(gate.node)
            }
            Unit::Slot(slot) => {
                self.guard_stands(slot.node, slot.guard) && self.part_stands(stage, slot)
            }
        }
    }

    /// Goes past the next unit.
    fn pass(&mut self, stage: usize, unit: &'a Unit)
        requires whole { length self.old.last ≡ 256 }
        requires comes { 0 < left_of self.old (node_of unit.now) }
        requires room { so_far_of self.old (node_of unit.now) + 1 < 2 ^ 128 }
        ensures { (before rest : List Placed) → Knows self.old before (record { stage = stage; unit = unit.now } ∷ rest) → Knows self.new (record { stage = stage; unit = unit.now } ∷ before) rest }
    {
        let node = usize::from(node_number(unit));
        self.so_far[node] += 1;
        self.left[node] -= 1;
        let last = &mut self.last[..];
        last[node] = Some(Part { stage, unit });
    }
}

/// Whether guards and tables keep the rules of form. It takes no memory, and the time of a step for each unit.
pub fn tables_fit(config: &Config) -> bool
    ensures { result ≡ tables_are_formed config.now }
{
    let stages = config.stages.as_slice();
    let mut nodes = Nodes::new(stages);
    for (number, stage) in stages.iter().enumerate() {
        for unit in stage.units.as_slice() {
            if !nodes.unit_stands(number, unit) {
                return false;
            }
            nodes.pass(number, unit);
        }
    }
    true
}
