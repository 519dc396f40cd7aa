//! The plain parser of a program: one state for each header.

ghost use Rattle.std.specs.Prelude.{◌≡◌, ◌≢◌, ◌≤◌, ◌+◌, ◌++◌, ◌∷◌, [], nat_lt, Err, IfOk, IsTrue, OnOk, length};
ghost use Rattle.std.specs.List.{list_all};
ghost use Rattle.rmt_ast.specs.WellFormed.{IsHeader};
ghost use Rattle.rmt_config.specs.LaneForm.{bits_of_lanes};
ghost use Rattle.rmt_phv.specs.Places.{high_first};
ghost use Rattle.rmt_ptcam.specs.Clauses.{AgreesWith, IsParser, IsProgram, KeepsApart, TailOf, bits_of, parser_is_formed};
ghost use Rattle.rmt_ptcam.specs.declared.fault.ParserFault.TheVariants.{NoMemory};
ghost use Rattle.rmt_ptcam.specs.Needs.{entry_count};
ghost use Rattle.rmt_ptcam.specs.Plain.{entries_of, planned, state_of as state_of_header, tails_for};

mod cases;
mod entries;
mod headers;
pub mod need;
mod pieces;

use crate::fault::ParserFault;
use crate::joining::entry_rows::empty_parser;
use crate::plain::entries::{push_entries, push_tails};
use crate::plain::headers::is_looked_up;
use crate::plain::need::parser_need;
use rmt_ast::program::{Header, Program};
use rmt_bits::answer::Bytes;
use rmt_config::config::{ParserConfig, ParserState};
use rmt_phv::places::Places;
use std::alloc::{AllocError, Global};

/// The state of a header: it looks at all bytes of the fields that the header selects by.
fn state_of(alloc: Global, program: &Program, header: &Header) -> Result<ParserState, AllocError>
    requires program { IsProgram program.now }
    requires short { bits_of program.now header.now.fields ≤ 512 }
    ensures { IfOk result (λ state. state ≡ state_of_header program.now header.now) }
{
    let mut lookups = Bytes::new(alloc);
    for byte in 0..header.bytes {
        if is_looked_up(program, header, byte) {
            lookups.push(byte)?;
        }
    }
    Ok(ParserState { lookups })
}

/// Adds the state of a header, its entries and their tails behind those that stand.
fn push_header(
    alloc: Global,
    parser: &mut ParserConfig,
    program: &Program,
    places: &Places,
    number: u8,
    header: &Header,
) -> Result<(), AllocError>
    requires program { IsProgram program.now }
    requires header { IsHeader program.now number header.now }
    requires short { bits_of_lanes (high_first places.now header.now.fields) ≤ 512 }
    requires few { length parser.old.entries + entry_count header.now ≤ 65536 }
    ensures states { OnOk result (parser.new.states ≡ parser.old.states ++ state_of_header program.now header.now ∷ []) }
    ensures entries { OnOk result (parser.new.entries ≡ parser.old.entries ++ entries_of program.now places.now number header.now) }
    ensures tails { OnOk result (parser.new.tails ≡ parser.old.tails ++ tails_for program.now number header.now (length parser.old.entries) header.now.tail) }
{
    let first = parser.entries.len();
    let state = state_of(alloc, program, header)?;
    push_tails(&mut parser.tails, program, number, header, first)?;
    push_entries(
        alloc,
        &mut parser.entries,
        program,
        places,
        number,
        header,
        &state,
    )?;
    parser.states.push(state)?;
    Ok(())
}

/// The plain parser of a program, into these places of its fields.
///
/// It has one state for each header, with the header's number. Its entries are the cases in order and then one for all
/// other packets; each needs the header's bytes and moves behind them, sets `valid`, and puts each field into its lanes, the
/// high piece first. A state looks at all bytes of the fields that its header selects by. Each entry of a header with a tail
/// has that tail.
///
/// # Errors
///
/// As `parser_need`, else for want of memory.
pub fn plain_parser(
    alloc: Global,
    program: &Program,
    places: &Places,
) -> Result<ParserConfig, ParserFault>
    requires program { IsProgram program.now }
    requires places { KeepsApart program.now places.now }
    // Which parser, or which refusal, unless memory runs out.
    ensures made { result ≢ Err NoMemory → result ≡ planned program.now places.now }
    // The chip can run it.
    ensures runs { IfOk result IsParser }
    // It keeps the rules of form.
    ensures formed { IfOk result (λ parser. IsTrue (parser_is_formed parser)) }
    // Its tails are of headers of the program.
    ensures headers { IfOk result (λ parser. IsTrue (list_all (λ (t : TailOf). nat_lt t.header (length program.now.headers)) parser.tails)) }
    // The chip's parse of each frame, whole or cut, ends as the walk of the program's parse graph does: too short, rejected, or
    // accepted with the same values of the fields in their places, the same tails, and the payload at the same byte.
    ensures agrees { IfOk result (λ parser. AgreesWith parser places.now program.now) }
{
    parser_need(program)?;
    let mut parser = empty_parser(alloc);
    for (number, header) in program.headers.as_slice().iter().enumerate() {
        push_header(alloc, &mut parser, program, places, number as u8, header)?;
    }
    Ok(parser)
}
