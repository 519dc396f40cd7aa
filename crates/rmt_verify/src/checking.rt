//! The whole check: the seven parts, one after another.

ghost use Rattle.std.specs.Prelude.{◌≡◌, List, None, IfOk, IsOkUnless, MatchOption};
ghost use Rattle.rmt_ast.specs.declared.entry.Entry.{Entry as EntryOf};
ghost use Rattle.rmt_refine.specs.Carries.{Carries};
ghost use Rattle.rmt_verify.specs.Checks.{AllHold, FailsFirst};
ghost use Rattle.rmt_verify.specs.FirstParts.{FirstHold};
ghost use Rattle.rmt_verify.specs.Given.{AreEntries, Formed, IsProgram, OutOfMemory};

use crate::cells::cells_hold;
use crate::checked::Checked;
use crate::edges::edges_hold;
use crate::fault::VerifyFault;
use crate::instructions::code_holds;
use crate::map_file::MapFile;
use crate::names::names_hold;
use crate::parser::parser_holds;
use crate::places::places_hold;
use crate::units::units_hold;
use rmt_ast::entry::EntryLists;
use rmt_ast::program::Program;
use rmt_config::config::Config;
use std::alloc::Global;

/// The number of the first of the parts 1 to 3 that fails, if one does.
fn first_failing(
    alloc: Global,
    program: &Program,
    config: &Config,
    map: &MapFile,
) -> Result<Option<u8>, VerifyFault>
    requires program { IsProgram program.now }
    requires formed { Formed config.now }
    ensures exact { IfOk result (λ failing. MatchOption failing (FirstHold program.now config.now map.now)
        (λ n. (lists : List (List EntryOf)) → FailsFirst program.now lists config.now map.now n)) }
    ensures only_memory { IsOkUnless result OutOfMemory.NoMemory }
{
    let places = &map.map.places;
    if !places_hold(alloc, program, places, config)? {
        return Ok(Some(1));
    }
    if !parser_holds(alloc, program, places, map.joins.as_slice(), &config.parser)? {
        return Ok(Some(2));
    }
    let parts = map.map.placement.parts.as_slice();
    let starts = map.map.starts.as_slice();
    if !units_hold(alloc, program, places, parts, starts, config)? {
        return Ok(Some(3));
    }
    Ok(None)
}

/// The same of the parts 4 to 7, where those before hold.
fn later_failing(
    alloc: Global,
    program: &Program,
    entries: &EntryLists,
    config: &Config,
    map: &MapFile,
) -> Result<Option<u8>, VerifyFault>
    requires program { IsProgram program.now }
    requires entries { AreEntries program.now entries.now }
    requires formed { Formed config.now }
    requires first { FirstHold program.now config.now map.now }
    ensures exact { IfOk result (λ failing.
        MatchOption failing (AllHold program.now entries.now config.now map.now) (FailsFirst program.now entries.now config.now map.now)) }
    ensures carries { IfOk result (λ failing. failing ≡ None → Carries program.now entries.now map.now.map config.now) }
    ensures only_memory { IsOkUnless result OutOfMemory.NoMemory }
{
    let own = &map.map;
    let given = Checked {
        program,
        entries,
        config,
        map: own,
    };
    let places = &own.places;
    let parts = own.placement.parts.as_slice();
    let starts = own.starts.as_slice();
    if !cells_hold(alloc, &given)? {
        return Ok(Some(4));
    }
    if !code_holds(alloc, program, places, config)? {
        return Ok(Some(5));
    }
    if !edges_hold(alloc, program, places, parts, starts)? {
        return Ok(Some(6));
    }
    if !names_hold(alloc, &given)? {
        return Ok(Some(7));
    }
    Ok(None)
}

/// Whether a configuration and a map belong to a program with its entries: None where all seven parts hold, else the
/// number of the first one that fails. The parts are the places of the fields (1), the parser (2), the units (3), the
/// cells (4), the instructions (5), the order of the nodes (6), and the names (7).
///
/// # Errors
///
/// For want of memory.
pub fn check_map(
    alloc: Global,
    program: &Program,
    entries: &EntryLists,
    config: &Config,
    map: &MapFile,
) -> Result<Option<u8>, VerifyFault>
    requires program { IsProgram program.now }
    requires entries { AreEntries program.now entries.now }
    requires formed { Formed config.now }
    ensures exact { IfOk result (λ failing.
        MatchOption failing (AllHold program.now entries.now config.now map.now) (FailsFirst program.now entries.now config.now map.now)) }
    // Then each packet is answered as the program answers it.
    ensures carries { IfOk result (λ failing. failing ≡ None → Carries program.now entries.now map.now.map config.now) }
    ensures only_memory { IsOkUnless result OutOfMemory.NoMemory }
{
    match first_failing(alloc, program, config, map)? {
        Some(part) => Ok(Some(part)),
        None => later_failing(alloc, program, entries, config, map),
    }
}
