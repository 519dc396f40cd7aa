//! The back end joined.

ghost use Rattle.std.specs.Prelude.{◌≡◌, ◌≢◌, ◌<◌, ℕ, List, All, AllPairs, Some, None, Ok, Err, IfErr, IfOk, IsOkUnless, length, slice_index, true};
ghost use Rattle.rmt_build.specs.Words.{Lane, AreEntries, CanBeNamed, names_of, IsProgram, LimitHit, AgreesWith, names_have_counts, Stage, dependencies_of, Part, Keeps, quanta_of, packing, KeepsApart, demand_at, demands_of, keeps_limits, AreTwo, IsPart, placement as placement_by_rule, standing_in, clustered, refusal, Carries, all_edges, PlacesCarried, AreFoldings, IsBuiltStage, IsFront, AreNotLoaded, IsFirstSeed, IsNotLoaded, cells_planned, IsPlanned, IsBounded, IsConfigOf, IsLaidOut, KeepsRules, first_refusal, ArePlaced, AreStagesOf, IsGiven, IsPlanFor, LiesSo};

use crate::built::Built;
use crate::code::code_of;
use crate::fault::NoFit;
use crate::filling::rows_of;
use crate::front::{Front, front_of};
use crate::lanes::{lane_of, out_headers};
use crate::loading::{PlacedProgram, load_all};
use crate::planned::PlannedProgram;
use crate::told::cells_of;
use crate::units::units_of;
use rmt_ast::deps::Deps;
use rmt_ast::entry::EntryLists;
use rmt_ast::names::Names;
use rmt_ast::naming::names_of;
use rmt_ast::program::Program;
use rmt_bits::sequence::Sequence;
use rmt_bounds::find::bound;
use rmt_config::config::{Config, ParserConfig, Stage};
use rmt_config::form::names::alone::names_have_counts;
use rmt_filling::formats::formats_of;
use rmt_filling::plan::{Plan, PlannedStage};
use rmt_pack::placement::Placement;
use rmt_phv::places::Places;
use rmt_place::{offsets, place};
use rmt_refine::map::Map;
use rmt_vliw::folded::Folded;
use std::alloc::{AllocError, Global};

/// A program with its entries as the chip holds them: the configuration with their names, the map of where everything
/// stands in it, and a bound on the stages. Frames are parsed by the clustered parser, and exact tables are loaded under
/// the first of the seeds 0 to 7 under which all of them are. Each cell that holds an entry has both visible bits.
///
/// # Errors
///
/// The first of these that the program breaks: `Lookup` or `Step` of the first header that the parser can't take, `Parser`
/// where it has too many entries, `Action` of the first action that is too deep, `Phv` of the first piece that no word
/// serves, `Stage` of the first node that doesn't stand, `Load` where under no seed all exact tables are loaded. Else for
/// want of memory, which a name of 4 GiB or more is taken for.
pub fn build(alloc: Global, program: &Program, entries: &EntryLists) -> Result<Built, NoFit>
    requires program { IsProgram program.now }
    requires entries { AreEntries program.now entries.now }
    // An image can name it.
    requires named { CanBeNamed program.now entries.now }
    // The configuration carries the program with its entries, as the map says.
    ensures carries { IfOk result (λ b. Carries program.now entries.now b.map b.config) }
    // It is formed, within the limits of the chip, and has the names of the program with its entries.
    ensures config { IfOk result (λ b. IsConfigOf program.now entries.now b.config) }
    // Fields are packed, frames parsed, instructions made, stages started and exact tables loaded by their rules.
    ensures rules { IfOk result (λ b. KeepsRules program.now entries.now b.map b.config) }
    // Memories, blocks, rows and the map's cells are as the rules say.
    ensures layout { IfOk result (λ b. IsLaidOut program.now entries.now b.map b.config) }
    // The placement is legal, and no legal one uses fewer stages than the bound, which is that of the program.
    ensures bounded { IfOk result (λ b. IsBounded program.now b.map b.bound) }
    // Nodes are placed by the rule.
    ensures placement { IfOk result (λ b.
        placement_by_rule program.now b.map.places (dependencies_of program.now b.map.places) ≡ Ok b.map.placement.parts) }
    // The first refusal before the entries are loaded, unless memory runs out.
    ensures refused { (fault : NoFit) → first_refusal program.now ≡ Some fault → result ≢ Err NoFit.NoMemory → result ≡ Err fault }
    // Each refusal has its cause.
    ensures lookup { (header bytes : ℕ) → result ≡ Err (NoFit.Lookup header bytes) → first_refusal program.now ≡ Some (NoFit.Lookup header bytes) }
    ensures step { (header extracts : ℕ) → result ≡ Err (NoFit.Step header extracts) → first_refusal program.now ≡ Some (NoFit.Step header extracts) }
    ensures full { (many : ℕ) → result ≡ Err (NoFit.Parser many) → first_refusal program.now ≡ Some (NoFit.Parser many) }
    ensures action { (number field : ℕ) → result ≡ Err (NoFit.Action number field) → first_refusal program.now ≡ Some (NoFit.Action number field) }
    ensures phv { (field class : ℕ) → result ≡ Err (NoFit.Phv field class) → first_refusal program.now ≡ Some (NoFit.Phv field class) }
    ensures stage { (node : ℕ) (hits : List LimitHit) → result ≡ Err (NoFit.Stage node hits) → first_refusal program.now ≡ Some (NoFit.Stage node hits) }
    ensures load { (node members cells : ℕ) (places : List (List Lane)) (parts : List Part) → result ≡ Err (NoFit.Load node members cells)
        → packing program.now ≡ Ok places → placement_by_rule program.now places (dependencies_of program.now places) ≡ Ok parts
        → AreNotLoaded program.now entries.now parts node members cells }
{
    let front = front_of(alloc, program)?;
    let placement = place(alloc, program, &front.places, &front.deps)?;
    built_on(alloc, program, entries, front, placement)
}

/// Builds a program with its entries as `build` does, but with this placement in place of the rule's.
///
/// # Errors
///
/// As of `build`, but never `Stage`.
pub fn build_from(
    alloc: Global,
    program: &Program,
    entries: &EntryLists,
    placement: &Placement,
) -> Result<Built, NoFit>
    requires program { IsProgram program.now }
    requires entries { AreEntries program.now entries.now }
    // An image can name it.
    requires named { CanBeNamed program.now entries.now }
    // Each edge is kept by every part of its earlier node and every part of its later one.
    requires keeps { (places : List (List Lane)) → packing program.now ≡ Ok places →
        All (λ e. All (λ a. All (Keeps e a) placement.now.parts) placement.now.parts) (all_edges program.now places) }
    // Each stage keeps its limits.
    requires limits { (places : List (List Lane)) → packing program.now ≡ Ok places →
        (stage : ℕ) → stage < 32 → keeps_limits (standing_in (demands_of program.now places) placement.now.parts stage) ≡ true }
    // Each part is of a node of the program, stands in a stage of the chip, and has a quantum.
    requires parts { All (IsPart (length program.now.nodes)) placement.now.parts }
    // No two parts are of one node in one stage.
    requires apart { AllPairs AreTwo placement.now.parts }
    // Each node has exactly the quanta that it needs.
    requires quanta { (places : List (List Lane)) → packing program.now ≡ Ok places →
        (n : ℕ) → n < length program.now.nodes → quanta_of placement.now.parts n ≡ (demand_at (demands_of program.now places) n).quanta }
    // The configuration carries the program with its entries, as the map says.
    ensures carries { IfOk result (λ b. Carries program.now entries.now b.map b.config) }
    // It is formed, within the limits of the chip, and has the names of the program with its entries.
    ensures config { IfOk result (λ b. IsConfigOf program.now entries.now b.config) }
    // Fields are packed, frames parsed, instructions made, stages started and exact tables loaded by their rules.
    ensures rules { IfOk result (λ b. KeepsRules program.now entries.now b.map b.config) }
    // Memories, blocks, rows and the map's cells are as the rules say.
    ensures layout { IfOk result (λ b. IsLaidOut program.now entries.now b.map b.config) }
    // The placement is legal, and no legal one uses fewer stages than the bound, which is that of the program.
    ensures bounded { IfOk result (λ b. IsBounded program.now b.map b.bound) }
    // Nodes are placed so.
    ensures placement { IfOk result (λ b. b.map.placement.parts ≡ placement.now.parts) }
    // The first refusal before the nodes are placed, unless memory runs out.
    ensures refused { (fault : NoFit) → first_refusal program.now ≡ Some fault → ((node : ℕ) (hits : List LimitHit) → fault ≢ NoFit.Stage node hits)
        → result ≢ Err NoFit.NoMemory → result ≡ Err fault }
    // No node is refused for its stages.
    ensures no_stage { (node : ℕ) (hits : List LimitHit) → result ≢ Err (NoFit.Stage node hits) }
    // Each other refusal has its cause.
    ensures lookup { (header bytes : ℕ) → result ≡ Err (NoFit.Lookup header bytes) → first_refusal program.now ≡ Some (NoFit.Lookup header bytes) }
    ensures step { (header extracts : ℕ) → result ≡ Err (NoFit.Step header extracts) → first_refusal program.now ≡ Some (NoFit.Step header extracts) }
    ensures full { (many : ℕ) → result ≡ Err (NoFit.Parser many) → first_refusal program.now ≡ Some (NoFit.Parser many) }
    ensures action { (number field : ℕ) → result ≡ Err (NoFit.Action number field) → first_refusal program.now ≡ Some (NoFit.Action number field) }
    ensures phv { (field class : ℕ) → result ≡ Err (NoFit.Phv field class) → first_refusal program.now ≡ Some (NoFit.Phv field class) }
    ensures load { (node members cells : ℕ) → result ≡ Err (NoFit.Load node members cells)
        → AreNotLoaded program.now entries.now placement.now.parts node members cells }
{
    let front = front_of(alloc, program)?;
    let same = copied(alloc, placement)?;
    built_on(alloc, program, entries, front, same)
}

/// A placement with the same parts.
fn copied(alloc: Global, placement: &Placement) -> Result<Placement, AllocError>
    ensures { IfOk result (λ same. same.parts ≡ placement.now.parts) }
{
    let parts = Vec::from_slice(alloc, placement.parts.as_slice())?;
    Ok(Placement {
        parts: Sequence::from_vec(parts),
    })
}

/// A program as the chip holds it, with its nodes placed so.
fn built_on(
    alloc: Global,
    program: &Program,
    entries: &EntryLists,
    front: Front,
    placement: Placement,
) -> Result<Built, NoFit>
    requires given { IsGiven program.now entries.now }
    requires front { IsFront program.now front }
    requires placed { ArePlaced program.now front.places placement.parts }
    ensures carries { IfOk result (λ b. Carries program.now entries.now b.map b.config) }
    ensures config { IfOk result (λ b. IsConfigOf program.now entries.now b.config) }
    ensures rules { IfOk result (λ b. KeepsRules program.now entries.now b.map b.config) }
    ensures layout { IfOk result (λ b. IsLaidOut program.now entries.now b.map b.config) }
    ensures bounded { IfOk result (λ b. IsBounded program.now b.map b.bound) }
    ensures laid { IfOk result (λ b. LiesSo front.places placement b.map) }
    ensures refused { IfErr result (IsNotLoaded program.now entries.now placement.parts) }
    ensures load { (node members cells : ℕ) → result ≡ Err (NoFit.Load node members cells) → AreNotLoaded program.now entries.now placement.parts node members cells }
{
    let Front {
        folded,
        places,
        parser,
        deps,
    } = front;
    let plan = plan_of(alloc, program, entries, &deps, folded, places, placement)?;
    built_of(alloc, program, entries, &deps, plan, parser)
}

/// A program that is planned, with its parser, as the chip holds it.
fn built_of(
    alloc: Global,
    program: &Program,
    entries: &EntryLists,
    deps: &Deps,
    plan: Plan,
    parser: ParserConfig,
) -> Result<Built, NoFit>
    requires given { IsGiven program.now entries.now }
    requires plan { IsPlanFor program.now entries.now plan }
    requires seed { IsFirstSeed program.now entries.now plan.placement.parts plan.seed }
    requires packed { packing program.now ≡ Ok plan.places }
    requires fits { refusal program.now ≡ None }
    requires parser { parser ≡ clustered program.now plan.places }
    requires agrees { AgreesWith parser plan.places program.now }
    requires deps { deps.now ≡ dependencies_of program.now plan.places }
    ensures carries { IfOk result (λ b. Carries program.now entries.now b.map b.config) }
    ensures config { IfOk result (λ b. IsConfigOf program.now entries.now b.config) }
    ensures rules { IfOk result (λ b. KeepsRules program.now entries.now b.map b.config) }
    ensures layout { IfOk result (λ b. IsLaidOut program.now entries.now b.map b.config) }
    ensures bounded { IfOk result (λ b. IsBounded program.now b.map b.bound) }
    ensures laid { IfOk result (λ b. LiesSo plan.places plan.placement b.map) }
    ensures memory { IsOkUnless result NoFit.NoMemory }
{
    let whole = PlannedProgram {
        program,
        entries,
        plan: &plan,
    };
    let bound = bound(alloc, program, deps)?;
    let names = told_names(alloc, program, entries)?;
    let stages = stages_of(alloc, &whole)?;
    let config = config_of(alloc, program, &plan, parser, stages, names)?;
    let map = map_of(alloc, program, entries, plan)?;
    Ok(Built { config, map, bound })
}

/// Where everything is to stand, with the nodes placed so.
fn plan_of(
    alloc: Global,
    program: &Program,
    entries: &EntryLists,
    deps: &Deps,
    folded: Sequence<Folded>,
    places: Places,
    placement: Placement,
) -> Result<Plan, NoFit>
    requires program { IsProgram program.now }
    requires entries { AreEntries program.now entries.now }
    requires deps { deps.now ≡ dependencies_of program.now places }
    requires folded { AreFoldings program.now folded }
    requires places { KeepsApart program.now places }
    requires placed { ArePlaced program.now places placement.parts }
    ensures plan { IfOk result (IsPlanFor program.now entries.now) }
    ensures seed { IfOk result (λ plan. IsFirstSeed program.now entries.now plan.placement.parts plan.seed) }
    ensures places { IfOk result (λ plan. plan.places ≡ places) }
    ensures placement { IfOk result (λ plan. plan.placement ≡ placement) }
    ensures refused { IfErr result (IsNotLoaded program.now entries.now placement.parts) }
    ensures load { (node members cells : ℕ) → result ≡ Err (NoFit.Load node members cells) → AreNotLoaded program.now entries.now placement.parts node members cells }
{
    let starts = offsets(alloc, &placement, deps)?;
    let formats = formats_of(alloc, program)?;
    let parts = placement.parts.as_slice();
    let placed = PlacedProgram {
        program,
        entries,
        formats: formats.as_slice(),
        parts,
    };
    let loaded = load_all(alloc, &placed)?;
    Ok(Plan {
        folded,
        places,
        placement,
        starts,
        formats,
        stands: loaded.stands,
        seed: loaded.seed,
    })
}

/// A stage: its units, their instructions, and what its memories hold.
fn stage_of(alloc: Global, planned: &PlannedStage, start: u16) -> Result<Stage, NoFit>
    requires planned { IsPlanned planned.now.program.now planned.now.entries.now planned.now.plan.now planned.now.stage }
    requires limits { keeps_limits (standing_in (demands_of planned.now.program.now planned.now.plan.now.places) planned.now.plan.now.placement.parts planned.now.stage) ≡ true }
    requires start { start ≡ slice_index planned.now.plan.now.starts planned.now.stage }
    ensures stage { IfOk result (IsBuiltStage planned.now.program.now planned.now.entries.now planned.now.plan.now planned.now.stage) }
    ensures memory { IsOkUnless result NoFit.NoMemory }
{
    let units = units_of(alloc, planned)?;
    let code = code_of(alloc, planned, units.as_slice())?;
    let rows = rows_of(alloc, planned, units.as_slice())?;
    Ok(Stage {
        start,
        units,
        code,
        srows: rows.srows,
        trows: rows.trows,
    })
}

/// The stages, in their order.
fn stages_of(alloc: Global, whole: &PlannedProgram) -> Result<Sequence<Stage>, NoFit>
    requires program { IsProgram whole.now.program.now }
    requires entries { AreEntries whole.now.program.now whole.now.entries.now }
    requires plan { IsPlanFor whole.now.program.now whole.now.entries.now whole.now.plan.now }
    ensures stages { IfOk result (AreStagesOf whole.now.program.now whole.now.entries.now whole.now.plan.now) }
    ensures memory { IsOkUnless result NoFit.NoMemory }
{
    let mut stages = Sequence::new(alloc);
    let starts = whole.plan.starts.as_slice();
    for number in 0..starts.len() as u32 {
        let planned = PlannedStage {
            program: whole.program,
            entries: whole.entries,
            plan: whole.plan,
            stage: number,
        };
        stages.push(stage_of(alloc, &planned, starts[number as usize])?)?;
    }
    Ok(stages)
}

/// The names of a program with its entries, as an image can tell them.
///
/// # Errors
///
/// For want of memory. A name of 4 GiB or more, whose length no image can tell, is refused as one that wants too much
/// of it.
fn told_names(alloc: Global, program: &Program, entries: &EntryLists) -> Result<Names, NoFit>
    requires program { IsProgram program.now }
    ensures names { IfOk result (λ names. names ≡ names_of program.now entries.now) }
    ensures counts { IfOk result (λ names. names_have_counts names ≡ true) }
    ensures memory { IsOkUnless result NoFit.NoMemory }
{
    let names = names_of(alloc, program, entries)?;
    if !names_have_counts(&names) {
        return Err(NoFit::NoMemory);
    }
    Ok(names)
}

/// The configuration with these stages, this parser and these names.
fn config_of(
    alloc: Global,
    program: &Program,
    plan: &Plan,
    parser: ParserConfig,
    stages: Sequence<Stage>,
    names: Names,
) -> Result<Config, AllocError>
    requires program { IsProgram program.now }
    requires places { KeepsApart program.now plan.now.places }
    ensures places { IfOk result (PlacesCarried program.now plan.now.places) }
    ensures seed { IfOk result (λ config. config.seed ≡ plan.now.seed) }
    ensures parser { IfOk result (λ config. config.parser ≡ parser) }
    ensures stages { IfOk result (λ config. config.stages ≡ stages) }
    ensures names { IfOk result (λ config. config.names ≡ Some names) }
{
    let headers = out_headers(alloc, program.headers.as_slice(), &plan.places)?;
    Ok(Config {
        seed: plan.seed,
        in_port: lane_of(&plan.places, 0),
        out_port: lane_of(&plan.places, 1),
        drop: lane_of(&plan.places, 2),
        headers,
        parser,
        stages,
        names: Some(names),
    })
}

/// The map of a plan.
fn map_of(
    alloc: Global,
    program: &Program,
    entries: &EntryLists,
    plan: Plan,
) -> Result<Map, AllocError>
    requires program { IsProgram program.now }
    requires entries { AreEntries program.now entries.now }
    requires plan { IsPlanFor program.now entries.now plan }
    ensures places { IfOk result (λ map. map.places ≡ plan.places) }
    ensures placement { IfOk result (λ map. map.placement ≡ plan.placement) }
    ensures starts { IfOk result (λ map. map.starts ≡ plan.starts) }
    ensures cells { IfOk result (λ map. map.cells ≡ cells_planned program.now entries.now plan) }
{
    let whole = PlannedProgram {
        program,
        entries,
        plan: &plan,
    };
    let cells = cells_of(alloc, &whole)?;
    Ok(Map {
        places: plan.places,
        placement: plan.placement,
        starts: plan.starts,
        cells,
    })
}
