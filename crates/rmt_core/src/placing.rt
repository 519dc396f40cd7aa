//! Building a program with its entries on the chip, with its nodes placed by the rule or better.

ghost use Rattle.std.specs.Prelude.{◌≡◌, ◌≢◌, None, Ok, IfErr, IfOk, IfSome};
ghost use Rattle.rmt_core.specs.Parts.{AreEntries, IsProgram};
ghost use Rattle.rmt_core.specs.Making.{AreBothRefused, AreOfTexts, IsBuilt, TellsWhy};
ghost use Rattle.rmt_core.specs.NoFitText.{no_fit_line};
ghost use Rattle.rmt_core.specs.Placers.{IsBudget, IsPlacedBy, IsPlacer};

use crate::placer::Placer;
use rmt_ast::entry::EntryLists;
use rmt_ast::program::Program;
use rmt_bits::fault::OutOfMemory;
use rmt_build::built::Built;
use rmt_build::fault::NoFit;
use rmt_build::{build, build_from};
use rmt_check::laws::one_meaning;
use rmt_deps::dependencies;
use rmt_improve::place_better;
use rmt_pack::placement::Placement;
use rmt_phv::fault::PhvFull;
use rmt_phv::pack_fields;
use rmt_place::fault::StageFull;
use rmt_refine::laws::packet_lists;
use std::alloc::Global;

/// Builds a program with its entries, with its nodes placed so.
pub fn build_by(
    alloc: Global,
    placer: Placer,
    program: &Program,
    entries: &EntryLists,
) -> Result<Built, NoFit>
    requires placer { IsPlacer placer }
    requires program { IsProgram program.now }
    requires entries { AreEntries program.now entries.now }
    requires said { AreOfTexts program.now entries.now }
    ensures built { IfOk result (IsBuilt placer program.now entries.now) }
    ensures refused { IfErr result (λ fault. fault ≢ NoFit.NoMemory →
        TellsWhy placer program.now entries.now (no_fit_line program.now fault)) }
{
    match placer {
        Placer::ByRule => build_by_rule(alloc, program, entries),
        Placer::ByTries { budget } => build_by_tries(alloc, program, entries, budget),
    }
}

/// Builds a program with its entries, with its nodes placed by the rule.
fn build_by_rule(alloc: Global, program: &Program, entries: &EntryLists) -> Result<Built, NoFit>
    requires program { IsProgram program.now }
    requires entries { AreEntries program.now entries.now }
    requires said { AreOfTexts program.now entries.now }
    ensures built { IfOk result (IsBuilt Placer.ByRule program.now entries.now) }
    ensures refused { IfErr result (λ fault. fault ≢ NoFit.NoMemory →
        TellsWhy Placer.ByRule program.now entries.now (no_fit_line program.now fault)) }
{
    one_meaning();
    packet_lists();
    build(alloc, program, entries)
}

/// Builds a program with its entries, with its nodes placed as the best of so many tries does.
fn build_by_tries(
    alloc: Global,
    program: &Program,
    entries: &EntryLists,
    budget: u32,
) -> Result<Built, NoFit>
    requires budget { IsBudget budget }
    requires program { IsProgram program.now }
    requires entries { AreEntries program.now entries.now }
    requires said { AreOfTexts program.now entries.now }
    ensures built { IfOk result (IsBuilt (Placer.ByTries budget) program.now entries.now) }
    ensures refused { IfErr result (λ fault. fault ≢ NoFit.NoMemory →
        TellsWhy (Placer.ByTries budget) program.now entries.now (no_fit_line program.now fault)) }
{
    match best_placement(alloc, program, budget) {
        Ok(Some(placement)) => build_on(alloc, program, entries, budget, &placement),
        // Then the rule places them no better, and tells why.
        Ok(None) => build_by_rule(alloc, program, entries),
        Err(OutOfMemory::NoMemory) => Err(NoFit::NoMemory),
    }
}

/// Builds a program with its entries on the placement that is the best of so many tries.
fn build_on(
    alloc: Global,
    program: &Program,
    entries: &EntryLists,
    budget: u32,
    placement: &Placement,
) -> Result<Built, NoFit>
    requires placed { IsPlacedBy (Placer.ByTries budget) program.now placement.now.parts }
    requires program { IsProgram program.now }
    requires entries { AreEntries program.now entries.now }
    requires said { AreOfTexts program.now entries.now }
    ensures built { IfOk result (IsBuilt (Placer.ByTries budget) program.now entries.now) }
    ensures refused { IfErr result (λ fault. fault ≢ NoFit.NoMemory →
        TellsWhy (Placer.ByTries budget) program.now entries.now (no_fit_line program.now fault)) }
{
    one_meaning();
    packet_lists();
    build_from(alloc, program, entries, placement)
}

/// The placement of the best of so many tries; none where some field has no words, or all tries are stuck.
fn best_placement(
    alloc: Global,
    program: &Program,
    budget: u32,
) -> Result<Option<Placement>, OutOfMemory>
    requires budget { IsBudget budget }
    requires program { IsProgram program.now }
    ensures found { IfOk result (λ best. IfSome best
        (λ placed. IsPlacedBy (Placer.ByTries budget) program.now placed.parts)) }
    ensures none { result ≡ Ok None → AreBothRefused budget program.now }
{
    let places = match pack_fields(alloc, program) {
        Ok(places) => places,
        Err(PhvFull::NoMemory) => return Err(OutOfMemory::NoMemory),
        Err(PhvFull::At { .. }) => return Ok(None),
    };
    let deps = dependencies(alloc, program, &places)?;
    match place_better(alloc, program, &places, &deps, budget) {
        Ok(placement) => Ok(Some(placement)),
        Err(StageFull::NoMemory) => Err(OutOfMemory::NoMemory),
        Err(StageFull::At { .. }) => Ok(None),
    }
}
