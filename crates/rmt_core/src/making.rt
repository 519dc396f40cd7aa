//! From a program and its entries to an image, its map, and the lines that are printed.

ghost use Rattle.std.specs.Prelude.{◌≡◌, ◌≢◌, ℕ, [], if◌then◌else◌, Some, None, Err, IfOk, IsOkUnless, Vec};
ghost use Rattle.rmt_core.specs.Parts.{AreEntries, Formed, IsProgram, IsWithinLimits};
ghost use Rattle.std.specs.Global.{Global};
ghost use Rattle.rmt_config.specs.ImageSpelling.{spelled_image};
ghost use Rattle.rmt_core.specs.CompileText.{compile_text};
ghost use Rattle.rmt_phv.specs.Places.{KeepsApart};
ghost use Rattle.rmt_verify.specs.Spelling.{spelled_map};
ghost use Rattle.rmt_core.specs.Making.{AreOfTexts, IsBuilt, MakesFiles, TellsWhy, bytes_of};
ghost use Rattle.rmt_core.specs.MapFiles.{HasMapFile, map_file};
ghost use Rattle.rmt_core.specs.NoFitText.{AreNodesOf, no_fit_line};
ghost use Rattle.rmt_core.specs.Placers.{IsPlacer};

use crate::made_lines::compile_lines;
use crate::no_fit::no_fit_text;
use crate::placer::Placer;
use crate::placing::build_by;
use rmt_ast::entry::EntryLists;
use rmt_ast::program::Program;
use rmt_bits::answer::Bytes;
use rmt_bits::fault::OutOfMemory;
use rmt_build::built::Built;
use rmt_build::fault::NoFit;
use rmt_image::write_image;
use rmt_ptcam::joins_of;
use rmt_refine::map::Map;
use rmt_verify::{MapFile, VerifyFault, write_map};
use std::alloc::Global;

/// An image, its map where one is wanted, and the lines that tell of it.
#[derive(Drop)]
pub struct Made {
    pub image: Vec<u8>,
    pub map: Option<Vec<u8>>,
    pub lines: Bytes,
}

/// Why nothing is made.
#[derive(Drop)]
pub enum Refusal {
    NoMemory,
    /// The program doesn't fit the chip, as the last line tells.
    NoFit { line: Vec<u8> },
}

/// What is made of a program with its entries, where its nodes are placed so, and a map where it is wanted.
pub fn make(
    alloc: Global,
    placer: Placer,
    program: &Program,
    entries: &EntryLists,
    has_map: bool,
) -> Result<Made, Refusal>
    requires placer { IsPlacer placer }
    requires program { IsProgram program.now }
    requires entries { AreEntries program.now entries.now }
    requires said { AreOfTexts program.now entries.now }
    ensures made { IfOk result
        (λ m. MakesFiles placer program.now entries.now has_map m.image.items (bytes_of m.map) m.lines) }
    ensures some { IfOk result (λ m. m.lines ≢ []) }
    ensures refused { (line : Vec ℕ Global) → result ≡ Err (Refusal.NoFit line) →
        TellsWhy placer program.now entries.now line.items }
{
    match fit(alloc, placer, program, entries) {
        Ok(built) => made_of(alloc, program, built, has_map),
        Err(refusal) => Err(refusal),
    }
}

/// What a program with its entries becomes on the chip, where its nodes are placed so.
pub fn fit(
    alloc: Global,
    placer: Placer,
    program: &Program,
    entries: &EntryLists,
) -> Result<Built, Refusal>
    requires placer { IsPlacer placer }
    requires program { IsProgram program.now }
    requires entries { AreEntries program.now entries.now }
    requires said { AreOfTexts program.now entries.now }
    ensures built { IfOk result (λ b. IsBuilt placer program.now entries.now b) }
    ensures refused { (line : Vec ℕ Global) → result ≡ Err (Refusal.NoFit line) →
        TellsWhy placer program.now entries.now line.items }
{
    match build_by(alloc, placer, program, entries) {
        Ok(built) => Ok(built),
        Err(fault) => Err(refusal_of(alloc, program, &fault)),
    }
}

/// The image and the lines of what was built, and its map where it is wanted.
fn made_of(alloc: Global, program: &Program, built: Built, has_map: bool) -> Result<Made, Refusal>
    requires formed { Formed built.config }
    requires limits { IsWithinLimits built.config }
    requires nodes { AreNodesOf program.now built.bound.proof }
    requires program { IsProgram program.now }
    requires places { KeepsApart program.now built.map.places }
    requires map { HasMapFile program.now built.map }
    ensures image { IfOk result (λ m. m.image.items ≡ spelled_image built.config) }
    ensures map { IfOk result (λ m. bytes_of m.map ≡ (if has_map then
        Some (spelled_map (map_file program.now built.map)) else None)) }
    ensures lines { IfOk result
        (λ m. m.lines ≡ compile_text program.now built.config built.bound) }
    ensures only_memory { IsOkUnless result Refusal.NoMemory }
{
    let Ok(image) = write_image(alloc, &built.config) else {
        return Err(Refusal::NoMemory);
    };
    let Ok(lines) = compile_lines(alloc, program, &built) else {
        return Err(Refusal::NoMemory);
    };
    match map_if(alloc, program, built.map, has_map) {
        Ok(map) => Ok(Made { image, map, lines }),
        Err(_) => Err(Refusal::NoMemory),
    }
}

/// The bytes of the map of what was built, where they are wanted.
fn map_if(
    alloc: Global,
    program: &Program,
    map: Map,
    has_map: bool,
) -> Result<Option<Vec<u8>>, VerifyFault>
    requires program { IsProgram program.now }
    requires places { KeepsApart program.now map.places }
    requires map { HasMapFile program.now map }
    ensures { IfOk result (λ bytes. bytes_of bytes ≡ (if has_map then
        Some (spelled_map (map_file program.now map)) else None)) }
{
    if !has_map {
        return Ok(None);
    }
    let bytes = map_bytes(alloc, program, map)?;
    Ok(Some(bytes))
}

/// The bytes of the map of what was built, with the joins of its parser.
fn map_bytes(alloc: Global, program: &Program, map: Map) -> Result<Vec<u8>, VerifyFault>
    requires program { IsProgram program.now }
    requires places { KeepsApart program.now map.places }
    requires map { HasMapFile program.now map }
    ensures { IfOk result (λ bytes. bytes.items ≡ spelled_map (map_file program.now map)) }
{
    let Ok(joins) = joins_of(alloc, program, &map.places) else {
        return Err(OutOfMemory::NoMemory);
    };
    let file = MapFile { map, joins };
    write_map(alloc, &file)
}

/// The refusal of a program that doesn't fit.
fn refusal_of(alloc: Global, program: &Program, fault: &NoFit) -> Refusal
    ensures line { (line : Vec ℕ Global) → result ≡ Refusal.NoFit line →
        line.items ≡ no_fit_line program.now fault.now }
    ensures no_memory { (line : Vec ℕ Global) → result ≡ Refusal.NoFit line →
        fault.now ≢ NoFit.NoMemory }
{
    if let NoFit::NoMemory = fault {
        return Refusal::NoMemory;
    }
    match no_fit_text(alloc, program, fault) {
        Ok(line) => Refusal::NoFit { line },
        Err(_) => Refusal::NoMemory,
    }
}
