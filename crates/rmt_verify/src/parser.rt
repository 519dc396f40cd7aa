//! Second part: the configuration's parser is the plain one with the map's joins made on it.

ghost use Rattle.std.specs.Prelude.{◌↔◌, Ok, Err, IfOk, IsOkUnless, IsTrue};
ghost use Rattle.rmt_config.specs.Agreement.{AgreesWith};
ghost use Rattle.rmt_verify.specs.Given.{IsProgram, KeepsApart, OutOfMemory};
ghost use Rattle.rmt_verify.specs.ParserMade.{IsMadeOf};

use crate::fault::VerifyFault;
use crate::same::Same;
use rmt_ast::program::Program;
use rmt_bits::fault::OutOfMemory;
use rmt_config::config::ParserConfig;
use rmt_phv::places::Places;
use rmt_ptcam::fault::ParserFault;
use rmt_ptcam::joins::Join;
use rmt_ptcam::{plain_parser, replayed};
use std::alloc::Global;

/// Whether a parser is the plain one of a program, into these places of its fields, behind these joins.
///
/// It is so where the plain parser exists, each join is there and can be made as those before it left the parser, and
/// the last one leaves this parser, but for states that can't be met, which are left out while the others are numbered
/// in order.
///
/// # Errors
///
/// For want of memory.
pub fn parser_holds(
    alloc: Global,
    program: &Program,
    places: &Places,
    joins: &[Join],
    parser: &ParserConfig,
) -> Result<bool, VerifyFault>
    requires program { IsProgram program.now }
    requires places { KeepsApart program.now places.now }
    ensures exact { IfOk result (λ holds. IsTrue holds ↔ IsMadeOf program.now places.now joins.now parser.now) }
    // Then each frame's parse ends as the walk of the program's parse graph does.
    ensures agrees { IfOk result (λ holds. IsTrue holds → AgreesWith parser.now places.now program.now) }
    ensures only_memory { IsOkUnless result OutOfMemory.NoMemory }
{
    let plain = match plain_parser(alloc, program, places) {
        Ok(plain) => plain,
        Err(ParserFault::NoMemory) => return Err(OutOfMemory::NoMemory),
        Err(_) => return Ok(false),
    };
    match replayed(alloc, plain, joins)? {
        Some(made) => Ok(made.is_same(parser)),
        None => Ok(false),
    }
}
