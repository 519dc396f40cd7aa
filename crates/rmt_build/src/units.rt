//! The units of a stage.

ghost use Rattle.std.specs.Prelude.{◌≡◌, ◌≢◌, ◌+◌, ◌<◌, ◌∷◌, [], ℕ, List, All, IfOk, IfSome, OnOk, Some, length, slice_get};
ghost use Rattle.std.specs.List.{AllZip};
ghost use Rattle.rmt_build.specs.Words.{Entry, Guard, IsProgram, Part, KeepsApart, HaveParts, SmallGuard, SmallUnit, IsPlanned, need_in, stands_of_part, taken_upto};
ghost use Rattle.rmt_ast.specs.declared.program.What.TheVariants as what;
ghost use Rattle.rmt_refine.specs.Units.{UnitCarried, guard_of as guard_of_node, nodes_in, table_at};
ghost use Rattle.rmt_filling.specs.Memories.{memory_for};

use crate::lanes::{gate_tests, high_first};
use crate::parts::{parts_before, quanta_before, quanta_in};
use crate::planned::PlannedTable;
use rmt_ast::program::{Guard, Kind, Program, Test, What};
use rmt_bits::sequence::Sequence;
use rmt_config::config::{GateUnit, Memory, SlotUnit, Unit, UnitGuard};
use rmt_filling::cells::cells_of;
use rmt_filling::held::held_bits;
use rmt_filling::last_part::stands_last;
use rmt_filling::memory::{PartNeed, Taken, memory_of};
use rmt_filling::numbers::numbers_of;
use rmt_filling::plan::{Plan, PlannedStage};
use rmt_filling::stands::{Stands, stands_from};
use rmt_pack::need::key_bits;
use std::alloc::{AllocError, Global};

/// The guard of a node's units.
fn guard_of(guard: Option<Guard>) -> Option<UnitGuard>
    requires { IfSome guard (λ (g : Guard). g.parent < 256) }
    ensures guard { result ≡ guard_of_node guard }
    ensures small { SmallGuard result }
{
    match guard {
        None => None,
        Some(guard) => Some(UnitGuard {
            parent: guard.parent as u8,
            mask: guard.mask,
        }),
    }
}

/// The unit of a node that tests a field.
fn gate_of(
    alloc: Global,
    program: &Program,
    plan: &Plan,
    node: u32,
    guard: Option<Guard>,
    field: u32,
    test: &Test,
) -> Result<Unit, AllocError>
    requires program { IsProgram program.now }
    requires places { KeepsApart program.now plan.now.places }
    requires node { slice_get program.now.nodes node ≡ Some (record { guard = guard; what = what.Gate field test.now }) }
    ensures unit { IfOk result (λ unit. (parts : List Part) (k : ℕ) → UnitCarried program.now plan.now.places parts k node unit) }
    ensures parts { IfOk result (λ unit. (lists : List (List Entry)) (k : ℕ) → HaveParts program.now lists plan.now k (unit ∷ [])) }
    ensures small { IfOk result SmallUnit }
{
    let tests = gate_tests(alloc, &plan.places, field, test)?;
    Ok(Unit::Gate(GateUnit {
        node: node as u8,
        guard: guard_of(guard),
        tests,
    }))
}

/// What the memory of a table's part in a stage has to hold.
fn need_of(own: &PlannedTable) -> PartNeed
    requires planned { IsPlanned own.now.planned.now.program.now own.now.planned.now.entries.now own.now.planned.now.plan.now own.now.planned.now.stage }
    requires table { table_at own.now.planned.now.program.now own.now.node ≡ Some own.now.table.now }
    requires key { own.now.table.now.kind ≢ Kind.Keyless }
    ensures { result ≡ need_in own.now.planned.now.program.now own.now.planned.now.plan.now.placement.parts own.now.table.now own.now.node own.now.planned.now.stage }
{
    let planned = own.planned;
    let parts = planned.plan.placement.parts.as_slice();
    PartNeed {
        format: planned.plan.formats.as_slice()[own.node as usize],
        quanta: quanta_in(parts, own.node, planned.stage) as u8,
        before: parts_before(parts, own.node, planned.stage),
        key: key_bits(planned.program, own.table),
        held: held_bits(planned.program, own.table),
        counted: own.table.counted,
    }
}

/// The memory of a table's part in a stage, in the next blocks of the stage.
fn slot_memory(alloc: Global, own: &PlannedTable, taken: &mut Taken) -> Result<Memory, AllocError>
    requires planned { IsPlanned own.now.planned.now.program.now own.now.planned.now.entries.now own.now.planned.now.plan.now own.now.planned.now.stage }
    requires table { table_at own.now.planned.now.program.now own.now.node ≡ Some own.now.table.now }
    requires taken { taken.old ≡ taken_upto own.now.planned.now.program.now own.now.planned.now.plan.now.placement.parts own.now.planned.now.stage own.now.node }
    ensures memory { IfOk result (λ memory. memory ≡
        memory_for own.now.table.now.kind (need_in own.now.planned.now.program.now own.now.planned.now.plan.now.placement.parts own.now.table.now own.now.node own.now.planned.now.stage) taken.old) }
    ensures taken { OnOk result (taken.new ≡ taken_upto own.now.planned.now.program.now own.now.planned.now.plan.now.placement.parts own.now.planned.now.stage (own.now.node + 1)) }
{
    if own.table.kind == Kind::Keyless {
        return Ok(Memory::Without);
    }
    let need = need_of(own);
    memory_of(alloc, taken, own.table.kind, &need)
}

/// The entries of the table of a node that stand in its part in a stage, by the cells of the part.
pub fn stands_in(alloc: Global, own: &PlannedTable) -> Result<Stands, AllocError>
    requires planned { IsPlanned own.now.planned.now.program.now own.now.planned.now.entries.now own.now.planned.now.plan.now own.now.planned.now.stage }
    requires table { table_at own.now.planned.now.program.now own.now.node ≡ Some own.now.table.now }
    requires stands { own.now.node < length own.now.planned.now.plan.now.stands }
    ensures { IfOk result (λ stands. stands ≡ stands_of_part own.now.planned.now.program.now own.now.planned.now.plan.now own.now.table.now own.now.node own.now.planned.now.stage) }
{
    let kind = own.table.kind;
    if kind == Kind::Keyless {
        return Ok(Sequence::new(alloc));
    }
    let planned = own.planned;
    let node = own.node;
    let parts = planned.plan.placement.parts.as_slice();
    let per = planned.plan.formats.as_slice()[node as usize].per;
    let first = cells_of(kind, per, quanta_before(parts, node, planned.stage));
    let cells = cells_of(kind, per, quanta_in(parts, node, planned.stage));
    let stands = planned.plan.stands.as_slice()[node as usize].as_slice();
    stands_from(alloc, stands, first, cells)
}

/// The unit of a table's part in a stage, with its memory in the next blocks of the stage.
fn slot_of(alloc: Global, own: &PlannedTable, taken: &mut Taken) -> Result<Unit, AllocError>
    requires planned { IsPlanned own.now.planned.now.program.now own.now.planned.now.entries.now own.now.planned.now.plan.now own.now.planned.now.stage }
    requires table { table_at own.now.planned.now.program.now own.now.node ≡ Some own.now.table.now }
    requires node { own.now.node < length own.now.planned.now.program.now.nodes }
    requires taken { taken.old ≡ taken_upto own.now.planned.now.program.now own.now.planned.now.plan.now.placement.parts own.now.planned.now.stage own.now.node }
    ensures unit { IfOk result (UnitCarried own.now.planned.now.program.now own.now.planned.now.plan.now.places own.now.planned.now.plan.now.placement.parts own.now.planned.now.stage own.now.node) }
    ensures parts { IfOk result (λ unit. HaveParts own.now.planned.now.program.now own.now.planned.now.entries.now own.now.planned.now.plan.now own.now.planned.now.stage (unit ∷ [])) }
    ensures small { IfOk result SmallUnit }
    ensures taken { OnOk result (taken.new ≡ taken_upto own.now.planned.now.program.now own.now.planned.now.plan.now.placement.parts own.now.planned.now.stage (own.now.node + 1)) }
{
    let planned = own.planned;
    let table = own.table;
    let node = own.node;
    let keys = high_first(alloc, &planned.plan.places, table.key.as_slice())?;
    let memory = slot_memory(alloc, own, taken)?;
    let stands = stands_in(alloc, own)?;
    let list = planned.entries.as_slice()[node as usize].as_slice();
    let numbers = numbers_of(alloc, stands.as_slice(), list)?;
    Ok(Unit::Slot(SlotUnit {
        node: node as u8,
        guard: guard_of(planned.program.nodes.as_slice()[node as usize].guard),
        counted: table.counted,
        actions: table.actions.len() as u8,
        last: stands_last(planned.plan.placement.parts.as_slice(), node, planned.stage),
        held: held_bits(planned.program, table),
        keys,
        memory,
        numbers,
    }))
}

/// The unit of a node in a stage.
fn unit_of(
    alloc: Global,
    planned: &PlannedStage,
    taken: &mut Taken,
    node: u32,
) -> Result<Unit, AllocError>
    requires planned { IsPlanned planned.now.program.now planned.now.entries.now planned.now.plan.now planned.now.stage }
    requires node { node < length planned.now.program.now.nodes }
    requires taken { taken.old ≡ taken_upto planned.now.program.now planned.now.plan.now.placement.parts planned.now.stage node }
    ensures unit { IfOk result (UnitCarried planned.now.program.now planned.now.plan.now.places planned.now.plan.now.placement.parts planned.now.stage node) }
    ensures parts { IfOk result (λ unit. HaveParts planned.now.program.now planned.now.entries.now planned.now.plan.now planned.now.stage (unit ∷ [])) }
    ensures small { IfOk result SmallUnit }
    ensures taken { OnOk result (taken.new ≡ taken_upto planned.now.program.now planned.now.plan.now.placement.parts planned.now.stage (node + 1)) }
{
    let own = &planned.program.nodes.as_slice()[node as usize];
    match own.what {
        What::Apply(table) => {
            let table = &planned.program.tables.as_slice()[table as usize];
            let applied = PlannedTable {
                planned,
                table,
                node,
            };
            slot_of(alloc, &applied, taken)
        }
        What::Gate { field, test } => gate_of(
            alloc,
            planned.program,
            planned.plan,
            node,
            own.guard,
            field,
            &test,
        ),
    }
}

/// The units of a stage: one for each node that stands there, by number.
pub fn units_of(alloc: Global, planned: &PlannedStage) -> Result<Sequence<Unit>, AllocError>
    requires planned { IsPlanned planned.now.program.now planned.now.entries.now planned.now.plan.now planned.now.stage }
    ensures units { IfOk result (AllZip (UnitCarried planned.now.program.now planned.now.plan.now.places planned.now.plan.now.placement.parts planned.now.stage)
        (nodes_in planned.now.program.now planned.now.plan.now.placement.parts planned.now.stage)) }
    ensures parts { IfOk result (HaveParts planned.now.program.now planned.now.entries.now planned.now.plan.now planned.now.stage) }
    ensures small { IfOk result (All SmallUnit) }
{
    let mut units = Sequence::new(alloc);
    let mut taken = Taken { sram: 0, tcam: 0 };
    for node in 0..planned.program.nodes.len() as u32 {
        if quanta_in(planned.plan.placement.parts.as_slice(), node, planned.stage) > 0 {
            units.push(unit_of(alloc, planned, &mut taken, node)?)?;
        }
    }
    Ok(units)
}
