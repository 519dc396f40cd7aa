//! Outcomes: what the units of a stage decide for a packet, from what they read at the stage's start.

ghost use Rattle.std.specs.Prelude.{◌≡◌, ◌+◌, ◌<◌, ◌≤◌, ◌∷◌, [], ℕ, List, Option, length, All, Some, slice_get, slice_set, slice_index_or, if◌then◌else◌, vec_len, vec_capacity};
ghost use Rattle.rmt_bits.specs.declared.answer.Count.{Count};
ghost use Rattle.rmt_config.specs.declared.config.Stage.{Stage};
ghost use Rattle.rmt_config.specs.declared.config.Unit.{Unit};
ghost use Rattle.rmt_config.specs.Cells.{Found};
ghost use Rattle.rmt_config.specs.Instructions.{first_code, unit_instructions};
ghost use Rattle.rmt_config.specs.Life.{Look, Words, Acts, guarded, runs, slot_acts, unit_acts, acts_of};
ghost use Rattle.rmt_memory.specs.declared.looked.Looked.{Looked};
ghost use Rattle.rmt_chip.specs.Held.{DecidedBy};
ghost use Rattle.rmt_chip.specs.Hits.{CountedBy};
ghost use Rattle.rmt_memory.specs.Looked.{Finds, LookedFor, AllLooked};
ghost use Rattle.rmt_chip.specs.Pending.{HaveRoomFor};
ghost use Rattle.rmt_chip.specs.Ran.{HaveDone, CountsAlso};
ghost use Rattle.rmt_chip.specs.Runnable.{StageFits};

use crate::accepted::is_accepted;
use crate::packet_slot::PacketSlot;
use crate::ran::Ran;
use rmt_bits::counts::Counts;
use rmt_config::config::{GateUnit, SlotUnit, Stage, Unit, UnitGuard};
use rmt_memory::looked::Looked;

/// Where a unit stands in its stage: its number there, and that of its first instruction.
#[derive(Clone, Copy)]
struct UnitAt {
    unit: u8,
    base: u16,
}

/// Whether a guard lets a unit run.
fn is_guarded(guard: Option<UnitGuard>, outcomes: &[u8]) -> bool
    requires { length outcomes.now ≡ 256 }
    ensures { result ≡ guarded guard outcomes.now }
{
    match guard {
        None => true,
        Some(guard) => {
            let outcome = outcomes[usize::from(guard.parent)];
            outcome < 16 && (guard.mask >> outcome) % 2 == 1
        }
    }
}

/// Whether a unit runs, by the outcomes so far.
fn runs_now(node: u8, guard: Option<UnitGuard>, outcomes: &[u8]) -> bool
    requires { length outcomes.now ≡ 256 }
    ensures { result ≡ runs node guard outcomes.now }
{
    is_guarded(guard, outcomes) && outcomes[usize::from(node)] == 0
}

/// Counts a hit by a packet of so many bytes, where hits are counted.
fn count(counted: bool, counters: &mut Counts, number: u32, bytes: u64)
    ensures spare { counters.new.room ≡ counters.old.room }
    ensures counts { CountsAlso counters.old.counts counters.new.counts (if counted then record { number = number; bytes = bytes } ∷ [] else []) }
{
    if counted {
        counters.hit(number, bytes);
    }
}

/// A gate that may run sets its node's outcome.
fn pass(gate: &GateUnit, looked: &Looked, outcomes: &mut [u8])
    requires { length outcomes.old ≡ 256 }
    ensures { outcomes.new ≡ (if runs gate.now.node gate.now.guard outcomes.old
        then slice_set outcomes.old gate.now.node (if looked.now.hit then 2 else 1) else outcomes.old) }
{
    if runs_now(gate.node, gate.guard, outcomes) {
        outcomes[usize::from(gate.node)] = if looked.hit { 2 } else { 1 };
    }
}

/// The number of a slot's default instruction, which stands behind those of its actions.
fn default_code(slot: &SlotUnit, base: u16) -> u16
    requires { base ≤ 8192 }
    ensures value { result ≡ base + slot.now.actions }
    ensures within { result < base + 256 }
{
    base + u16::from(slot.actions)
}

/// What a slot does, where it runs, with what it found.
fn decide_slot(
    slot: &SlotUnit,
    at: UnitAt,
    looked: &[Looked],
    outcomes: &mut [u8],
    running: &mut Vec<Ran>,
    counters: &mut Counts,
    bytes: u64,
)
    requires inside { at.unit < length looked.now }
    requires low { at.base ≤ 8192 }
    requires all_nodes { length outcomes.old ≡ 256 }
    requires room { vec_len running.old < vec_capacity running.old }
    ensures more { vec_len running.new ≤ vec_len running.old + 1 }
    ensures spare { counters.new.room ≡ counters.old.room }
    ensures room { vec_capacity running.old ≤ vec_capacity running.new }
    ensures done { (stage : Stage) (found : Option Found) (d : Looked) (first : List Count) (acts : Acts) →
        Finds slot.now.counted found (slice_index_or looked.now at.unit d) →
        HaveDone stage looked.now bytes first acts outcomes.old running.old.items counters.old.counts →
        HaveDone stage looked.now bytes first (if runs slot.now.node slot.now.guard acts.outcomes then slot_acts stage at.base slot.now found acts else acts)
        outcomes.new running.new.items counters.new.counts }
{
    if !runs_now(slot.node, slot.guard, outcomes) {
        return;
    }
    let node = usize::from(slot.node);
    let one = &looked[usize::from(at.unit)];
    if one.hit {
        let code = u16::from(one.code);
        outcomes[node] = 2 + code.saturating_sub(at.base) as u8;
        running.push_reserved(Ran {
            code,
            unit: at.unit,
            found: true,
        });
        count(slot.counted, counters, one.number, bytes);
    } else if slot.last {
        outcomes[node] = 1;
        let code = default_code(slot, at.base);
        running.push_reserved(Ran {
            code,
            unit: at.unit,
            found: false,
        });
    }
}

/// What a unit of a stage does. The answer is the number of the next unit's first instruction.
fn decide_unit(
    what: &Unit,
    at: UnitAt,
    looked: &[Looked],
    outcomes: &mut [u8],
    running: &mut Vec<Ran>,
    counters: &mut Counts,
    bytes: u64,
) -> u16
    requires inside { at.unit < length looked.now }
    requires low { at.base ≤ 8192 }
    requires all_nodes { length outcomes.old ≡ 256 }
    requires room { vec_len running.old < vec_capacity running.old }
    ensures more { vec_len running.new ≤ vec_len running.old + 1 }
    ensures spare { counters.new.room ≡ counters.old.room }
    ensures room { vec_capacity running.old ≤ vec_capacity running.new }
    ensures next { result ≡ at.base + unit_instructions what.now }
    ensures near { result ≤ at.base + 256 }
    ensures done { (look : Look) (k : ℕ) (stage : Stage) (words : Words) (d : Looked) (first : List Count) (acts : Acts) →
        LookedFor look k acts.place words what.now (slice_index_or looked.now at.unit d) → at.base ≡ first_code stage acts.place →
        HaveDone stage looked.now bytes first acts outcomes.old running.old.items counters.old.counts →
        HaveDone stage looked.now bytes first (unit_acts look k stage words acts what.now) outcomes.new running.new.items counters.new.counts }
{
    match what {
        Unit::Gate(gate) => {
            pass(gate, &looked[usize::from(at.unit)], outcomes);
            at.base
        }
        Unit::Slot(slot) => {
            decide_slot(slot, at, looked, outcomes, running, counters, bytes);
            default_code(slot, at.base) + 1
        }
    }
}

/// Sets the outcomes of a stage's units, in their order, lists the instructions that run, and counts the hits of the packet, which has
/// so many bytes. It takes no memory: there must be room for an instruction of each unit.
fn decide_all(
    stage: &Stage,
    looked: &[Looked],
    outcomes: &mut [u8],
    running: &mut Vec<Ran>,
    counters: &mut Counts,
    bytes: u64,
)
    requires few_units { length stage.now.units ≤ 32 }
    requires all_units { length looked.now ≡ length stage.now.units }
    requires all_nodes { length outcomes.old ≡ 256 }
    requires room { length stage.now.units ≤ vec_capacity running.old }
    ensures few { vec_len running.new ≤ length stage.now.units }
    ensures spare { counters.new.room ≡ counters.old.room }
    ensures room { vec_capacity running.old ≤ vec_capacity running.new }
    ensures done { (look : Look) (k : ℕ) (words : Words) → AllLooked look k words stage.now looked.now →
        HaveDone stage.now looked.now bytes counters.old.counts (acts_of look k stage.now words outcomes.old) outcomes.new running.new.items counters.new.counts }
{
    running.clear();
    let mut base: u16 = 0;
    let units = stage.units.as_slice();
    for i in 0..units.len() {
        let at = UnitAt {
            unit: i as u8,
            base,
        };
        base = decide_unit(&units[i], at, looked, outcomes, running, counters, bytes);
    }
}

/// Stage k sets the outcomes of its units for a packet that was accepted, and counts the packet's hits.
pub fn set_outcomes(place: &mut PacketSlot, k: usize, stages: &[Stage], counters: &mut Counts)
    requires exists { k < length stages.now }
    requires fit { All StageFits stages.now }
    requires room { HaveRoomFor stages.now place.old.pending.items }
    ensures room { HaveRoomFor stages.now place.new.pending.items }
    ensures spare { counters.new.room ≡ counters.old.room }
    ensures decided { (stage : Stage) → slice_get stages.now k ≡ Some stage → DecidedBy k stage place.old place.new }
    ensures counted { (stage : Stage) → slice_get stages.now k ≡ Some stage →
        CountedBy k stage place.old counters.old.counts counters.new.counts }
{
    if is_accepted(place.parsed) {
        let pending = &mut place.pending[k];
        decide_all(
            &stages[k],
            &pending.looked,
            &mut place.outcomes,
            &mut pending.running,
            counters,
            place.size,
        );
    }
}
