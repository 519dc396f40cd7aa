//! Whether a table is named as its parts are made.

ghost use Rattle.std.specs.Prelude.{◌≡◌, ℕ, ◌==◌, ◌&&◌, ◌≤◌, ◌*◌, ◌^◌, ◌<◌, length, map, nat_le, sum};
ghost use Rattle.std.specs.List.{list_all};
ghost use Rattle.rmt_ast.specs.declared.names.ActionName.{ActionName};
ghost use Rattle.rmt_config.specs.declared.config.Config.{Config};
ghost use Rattle.rmt_config.specs.declared.config.SlotUnit.{SlotUnit};
ghost use Rattle.rmt_config.specs.LaneForm.{bits_of_lanes};
ghost use Rattle.rmt_config.specs.NamesForm.{has_parts, has_rows, is_made_so, is_of_kind, quanta_of};
ghost use Rattle.rmt_config.specs.PartsTold.{parts_at};
ghost use Rattle.rmt_config.specs.Rooms.{parts_of};
ghost use Rattle.rmt_config.specs.declared.form.names.part_list.Part.{Part};

use crate::config::{Memory, SlotUnit};
use crate::form::names::part_list::Part;
use rmt_ast::names::{ActionName, TableName};
use rmt_ast::program::Kind;
use rmt_bits::lane::Lane;

fn sum_of(widths: &[u8]) -> u128
    ensures { result ≡ sum widths.now }
{
    let mut total: u128 = 0;
    for width in widths {
        total += u128::from(*width);
    }
    total
}

fn bits_of_lanes(lanes: &[Lane]) -> u128
    ensures { result ≡ bits_of_lanes lanes.now }
{
    let mut total: u128 = 0;
    for lane in lanes {
        total += u128::from(lane.len);
    }
    total
}

fn quanta_of(memory: &Memory) -> u8
    ensures { result ≡ quanta_of memory.now }
{
    match memory {
        Memory::Without => 0,
        Memory::Exact { quanta, .. } => *quanta,
        Memory::Ternary { quanta, .. } => *quanta,
    }
}

fn quanta_together(parts: &[Part]) -> u128
    ensures value { result ≡ sum (map (λ (p : Part). quanta_of p.slot.now.memory) parts.now) }
    ensures small { result < 2 ^ 72 }
{
    let mut total: u128 = 0;
    for part in parts {
        total += u128::from(quanta_of(&part.slot.memory));
    }
    total
}

fn is_of_kind(kind: Kind, memory: &Memory) -> bool
    ensures { result ≡ is_of_kind kind memory.now }
{
    match kind {
        Kind::Keyless => false,
        Kind::Exact => matches!(memory, Memory::Exact { .. }),
        Kind::Prefix | Kind::Ternary => matches!(memory, Memory::Ternary { .. }),
    }
}

fn are_of_kind(kind: Kind, parts: &[Part]) -> bool
    ensures { result ≡ list_all (λ (p : Part). is_of_kind kind p.slot.now.memory) parts.now }
{
    for part in parts {
        if !is_of_kind(kind, &part.slot.memory) {
            return false;
        }
    }
    true
}

fn have_key_bits(bits: u128, parts: &[Part]) -> bool
    ensures { result ≡ list_all (λ (p : Part). bits == bits_of_lanes p.slot.now.keys) parts.now }
{
    for part in parts {
        if bits != bits_of_lanes(part.slot.keys.as_slice()) {
            return false;
        }
    }
    true
}

fn params_fit(held: u16, actions: &[ActionName]) -> bool
    ensures { result ≡ list_all (λ (a : ActionName). nat_le (sum a.params) held) actions.now }
{
    for action in actions {
        if sum_of(action.params.as_slice()) > u128::from(held) {
            return false;
        }
    }
    true
}

fn part_has_actions(actions: &[ActionName], part: &SlotUnit) -> bool
    ensures { result ≡ ((length actions.now == part.now.actions) && list_all (λ (a : ActionName). nat_le (sum a.params) part.now.held) actions.now) }
{
    actions.len() == usize::from(part.actions) && params_fit(part.held, actions)
}

fn have_actions(actions: &[ActionName], parts: &[Part]) -> bool
    ensures { result ≡ list_all (λ (p : Part). (length actions.now == p.slot.now.actions) && list_all (λ (a : ActionName). nat_le (sum a.params) p.slot.now.held) actions.now) parts.now }
{
    for part in parts {
        if !part_has_actions(actions, part.slot) {
            return false;
        }
    }
    true
}

/// Whether that many entries are no more than the rows of parts.
fn rows_hold(size: u32, parts: &[Part]) -> bool
    ensures { result ≡ nat_le size (2048 * sum (map (λ (p : Part). quanta_of p.slot.now.memory) parts.now)) }
{
    u128::from(size) <= 2048 * quanta_together(parts)
}

/// Whether a prefix or ternary table has no more entries than rows.
fn has_rows(table: &TableName, parts: &[Part]) -> bool
    ensures { (c : Config) → parts_at parts.now ≡ parts_of c table.now.node → result ≡ has_rows c table.now.kind table.now }
{
    match table.kind {
        Kind::Keyless | Kind::Exact => true,
        Kind::Prefix => rows_hold(table.size, parts),
        Kind::Ternary => rows_hold(table.size, parts),
    }
}

/// Whether the key and the actions of a table fit its parts.
fn fits_parts(table: &TableName, parts: &[Part]) -> bool
    ensures { result ≡ (list_all (λ (p : Part). sum table.now.keys == bits_of_lanes p.slot.now.keys) parts.now
        && list_all (λ (p : Part). (length table.now.actions == p.slot.now.actions) && list_all (λ (a : ActionName). nat_le (sum a.params) p.slot.now.held) table.now.actions) parts.now) }
{
    have_key_bits(sum_of(table.keys.as_slice()), parts)
        && have_actions(table.actions.as_slice(), parts)
}

/// Whether a table, whose parts these are, has one, and they have memory of its kind.
pub fn has_parts(table: &TableName, parts: &[Part]) -> bool
    ensures { (c : Config) → parts_at parts.now ≡ parts_of c table.now.node → result ≡ has_parts c table.now }
{
    1 <= parts.len() && are_of_kind(table.kind, parts)
}

/// Whether a table is named as its parts, which these are, are made.
pub fn is_made_so(table: &TableName, parts: &[Part]) -> bool
    ensures { (c : Config) → parts_at parts.now ≡ parts_of c table.now.node → result ≡ is_made_so c table.now }
{
    fits_parts(table, parts) && has_rows(table, parts)
}
