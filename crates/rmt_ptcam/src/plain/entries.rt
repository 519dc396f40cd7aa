//! The entries and tails of a header.

ghost use Rattle.std.specs.Prelude.{◌≡◌, ◌≤◌, ◌+◌, ◌++◌, Some, map, OnOk, IfOk};
ghost use Rattle.rmt_ast.specs.WellFormed.{IsCase, IsHeader, IsProgram};
ghost use Rattle.rmt_config.specs.LaneForm.{bits_of_lanes};
ghost use Rattle.rmt_ptcam.specs.Needs.{entry_count};
ghost use Rattle.rmt_ptcam.specs.Plain.{IsNear, state_of, next_of as next_of_target, entry_to, entry_of_case, entries_of, tails_for};
ghost use Rattle.rmt_phv.specs.Places.{high_first};

use crate::plain::cases::{Compared, compared_in};
use crate::plain::headers::{place_of, width_of};
use crate::plain::pieces::extracts_for;
use rmt_ast::program::{Case, Header, Program, Tail, Target};
use rmt_bits::sequence::Sequence;
use rmt_config::config::{Next, ParserEntry, ParserState, TailOf};
use rmt_phv::places::Places;
use std::alloc::{AllocError, Global};

/// The state of a header has its number.
fn next_of(target: Target) -> Next
    requires { IsNear target }
    ensures { result ≡ next_of_target target }
{
    match target {
        Target::Accept => Next::Accept,
        Target::Reject => Next::Reject,
        Target::Node(header) => Next::State(header as u8),
    }
}

/// An entry of the header with this number.
fn entry_for(
    alloc: Global,
    places: &Places,
    number: u8,
    header: &Header,
    compared: Compared,
    target: Target,
) -> Result<ParserEntry, AllocError>
    requires short { bits_of_lanes (high_first places.now header.now.fields) ≤ 512 }
    requires near { IsNear target }
    ensures { IfOk result (λ entry. entry ≡ entry_to places.now number header.now compared.value compared.mask target) }
{
    let extracts = extracts_for(alloc, places, header)?;
    Ok(ParserEntry {
        state: number,
        value: compared.value,
        mask: compared.mask,
        need: header.bytes,
        advance: header.bytes,
        next: next_of(target),
        extracts,
    })
}

/// The entry of a case of the header with this number.
fn case_entry(
    alloc: Global,
    program: &Program,
    places: &Places,
    number: u8,
    header: &Header,
    state: &ParserState,
    case: &Case,
) -> Result<ParserEntry, AllocError>
    requires program { IsProgram program.now }
    requires header { IsHeader program.now number header.now }
    requires short { bits_of_lanes (high_first places.now header.now.fields) ≤ 512 }
    requires state { state.now ≡ state_of program.now header.now }
    requires case { IsCase program.now number header.now.select case.now }
    ensures { IfOk result (λ entry. entry ≡ entry_of_case program.now places.now number header.now case.now) }
{
    let compared = compared_in(alloc, program, header, state, case.tests.as_slice())?;
    entry_for(alloc, places, number, header, compared, case.target)
}

/// Adds the entries of a header: those of its cases, and then that of all other packets.
pub fn push_entries(
    alloc: Global,
    entries: &mut Sequence<ParserEntry>,
    program: &Program,
    places: &Places,
    number: u8,
    header: &Header,
    state: &ParserState,
) -> Result<(), AllocError>
    requires program { IsProgram program.now }
    requires header { IsHeader program.now number header.now }
    requires short { bits_of_lanes (high_first places.now header.now.fields) ≤ 512 }
    requires state { state.now ≡ state_of program.now header.now }
    ensures { OnOk result (entries.new ≡ entries.old ++ entries_of program.now places.now number header.now) }
{
    for case in header.cases.as_slice() {
        entries.push(case_entry(alloc, program, places, number, header, state, case)?)?;
    }
    let all = Compared { value: 0, mask: 0 };
    entries.push(entry_for(alloc, places, number, header, all, header.other)?)?;
    Ok(())
}

/// Adds a tail for each entry of a header, the first of which has this number.
fn push_tail(
    tails: &mut Sequence<TailOf>,
    program: &Program,
    number: u8,
    header: &Header,
    tail: Tail,
    first: usize,
) -> Result<(), AllocError>
    requires program { IsProgram program.now }
    requires header { IsHeader program.now number header.now }
    requires few { first + entry_count header.now ≤ 65536 }
    ensures { OnOk result (tails.new ≡ tails.old ++ tails_for program.now number header.now first (Some tail)) }
{
    let from = place_of(program, header.fields.as_slice(), tail.field) as u16;
    let len = width_of(program, tail.field);
    for entry in first..first + header.cases.len() + 1 {
        tails.push(TailOf {
            entry: entry as u16,
            header: number,
            from,
            len,
            unit: tail.unit,
            base: tail.base,
        })?;
    }
    Ok(())
}

/// The same where the header has a tail.
pub fn push_tails(
    tails: &mut Sequence<TailOf>,
    program: &Program,
    number: u8,
    header: &Header,
    first: usize,
) -> Result<(), AllocError>
    requires program { IsProgram program.now }
    requires header { IsHeader program.now number header.now }
    requires few { first + entry_count header.now ≤ 65536 }
    ensures { OnOk result (tails.new ≡ tails.old ++ tails_for program.now number header.now first header.now.tail) }
{
    match header.tail {
        Some(tail) => push_tail(tails, program, number, header, tail, first),
        None => Ok(()),
    }
}
