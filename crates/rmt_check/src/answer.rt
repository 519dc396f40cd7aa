//! The whole check of a program's text.

ghost use Rattle.std.specs.Prelude.{◌≡◌, ◌≤◌, ◌<◌, IfOk};
ghost use Rattle.rmt_check.specs.Reading.{source_of};
ghost use Rattle.rmt_check.specs.Rules.{broken, earliest};
ghost use Rattle.rmt_check.specs.Meaning.{Answers};
ghost use Rattle.rmt_check.specs.Sizes.{AreNested};
ghost use Rattle.rmt_check.specs.Checking.{broken_by, Checks};

use crate::building::build;
use crate::names::Names;
use crate::names::lookup::Lookup;
use crate::reading::read;
use crate::rules::{
    applied, arguments, assigned, counts, keys, later, name_twice, same_width, unknown, widths,
};
use crate::source::Source;
use rmt_ast::program::Program;
use rmt_lexer::fault::ProgramFault;
use rmt_lexer::position::Position;
use rmt_syntax::tree::Tree;
use std::alloc::{AllocError, Global};

/// The earliest place at which the rule of a code is broken.
fn broken_at<N: Lookup>(alloc: Global, names: &N, code: u8) -> Result<Option<Position>, AllocError>
    requires first { 5 ≤ code }
    requires last { code < 22 }
    ensures { IfOk result (λ p. p ≡ earliest (broken_by code (N.text names.now))) }
{
    let source = names.source();
    match code {
        5 => name_twice::name_twice(alloc, source),
        6 => unknown::unknown_name(alloc, names),
        7 => Ok(widths::width_range(source)),
        8 => Ok(widths::header_size(source)),
        9 => Ok(later::target_not_later(names)),
        10 => same_width::widths_differ(alloc, names),
        11 => Ok(assigned::wide_arithmetic(names)),
        12 => Ok(assigned::read_only(names)),
        13 => applied::applied_twice(alloc, source),
        14 => keys::key_kinds(alloc, names),
        15 => Ok(keys::key_too_wide(names)),
        16 => Ok(counts::too_many_actions(source)),
        17 => Ok(arguments::bad_arguments(names)),
        18 => counts::count_limit(alloc, source),
        19 => Ok(counts::no_control(source)),
        20 => applied::not_applied(alloc, source),
        21 => Ok(widths::tail_range(names)),
        _ => Ok(None),
    }
}

/// Checks every rule, in the order of their codes.
fn check_rules<N: Lookup>(alloc: Global, names: &N) -> Result<(), ProgramFault>
    ensures { Checks (broken (N.text names.now)) result }
{
    for code in 5..22 {
        if let Some(place) = broken_at(alloc, names, code)? {
            return Err(ProgramFault::At {
                code,
                line: place.line,
                column: place.column,
            });
        }
    }
    Ok(())
}

/// The program of a text, given its names, whose nodes stand in arms of its nodes.
fn check_named<N: Lookup + Drop>(alloc: Global, names: N) -> Result<Program, ProgramFault>
    requires { AreNested (N.text names) }
    ensures { Answers (N.text names) result }
{
    check_rules(alloc, &names)?;
    Ok(build(alloc, &names)?)
}

/// The program of a text whose nodes stand in arms of its nodes.
fn check_source(alloc: Global, source: &Source) -> Result<Program, ProgramFault>
    requires { AreNested source.now }
    ensures { Answers source.now result }
{
    check_named(alloc, Names::of(alloc, source)?)
}

/// The program that a text means, given its parse tree, where it keeps every rule of form.
///
/// # Errors
///
/// The broken rule of the least code, from 5 to 21, at its earliest place; or want of memory.
pub fn check(alloc: Global, tree: &Tree) -> Result<Program, ProgramFault>
    ensures answers { Answers (source_of tree.now) result }
{
    let source = read(alloc, tree)?;
    check_source(alloc, &source)
}
