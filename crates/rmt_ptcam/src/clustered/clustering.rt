//! The joins of the clustered parser: which entries are joined, and in which order.

ghost use Rattle.std.specs.Prelude.{◌≡◌, ◌≤◌, ◌++◌, length, map, option_map, IfOk, OnOk};
ghost use Rattle.std.specs.List.{filter, flat_map};
ghost use Rattle.rmt_config.specs.declared.config.ParserEntry.{ParserEntry};
ghost use Rattle.rmt_ptcam.specs.Grouping.{Stand, parser_in};
ghost use Rattle.rmt_ptcam.specs.Joining.{entries_in, entries_to, entry_named};
ghost use Rattle.rmt_ptcam.specs.Clustering.{targets_of, goes_to as goes_to_of, is_wanted as is_wanted_of, next_entry, one_header as one_header_of, all_headers, all_joined as all_joined_of};

use crate::joining::in_place::join_in;
use crate::joining::rows::StateRows;
use crate::joins::Join;
use rmt_ast::program::{Header, Program, Target};
use rmt_bits::sequence::Sequence;
use rmt_config::config::Next;
use std::alloc::{AllocError, Global};

/// Adds the targets of a header: those of its cases, and that of all other packets.
fn push_targets(targets: &mut Sequence<Target>, header: &Header) -> Result<(), AllocError>
    ensures { OnOk result (targets.new ≡ targets.old ++ targets_of header.now) }
{
    for case in header.cases.as_slice() {
        targets.push(case.target)?;
    }
    targets.push(header.other)?;
    Ok(())
}

/// The targets of all headers.
fn targets_in(alloc: Global, program: &Program) -> Result<Sequence<Target>, AllocError>
    ensures { IfOk result (λ targets. targets ≡ flat_map targets_of program.now.headers) }
{
    let mut targets = Sequence::new(alloc);
    for header in program.headers.as_slice() {
        push_targets(&mut targets, header)?;
    }
    Ok(targets)
}

/// Whether a target is the header with this number.
fn goes_to(header: u8, target: Target) -> bool
    ensures { result ≡ goes_to_of header target }
{
    match target {
        Target::Accept => false,
        Target::Reject => false,
        Target::Node(number) => number == u32::from(header),
    }
}

/// How many targets are that header.
fn count_to(targets: &[Target], header: u8) -> usize
    ensures { result ≡ length (filter (goes_to_of header) targets.now) }
{
    let mut count = 0;
    for target in targets {
        if goes_to(header, *target) {
            count += 1;
        }
    }
    count
}

/// How many rows a state has.
fn count_rows(groups: &[StateRows], state: u8) -> usize
    requires stand { Stand groups.now }
    ensures { result ≡ length (entries_in state (parser_in groups.now).entries) }
{
    match groups.get(usize::from(state)) {
        Some(group) => group.rows.len(),
        None => 0,
    }
}

/// Where the row of a join goes, where there is one.
fn next_at(groups: &[StateRows], join: Join) -> Option<Next>
    requires stand { Stand groups.now }
    ensures { result ≡ option_map (λ (e : ParserEntry). e.next) (entry_named (parser_in groups.now) join) }
{
    let Some(group) = groups.get(usize::from(join.state)) else {
        return None;
    };
    match group.rows.get(usize::from(join.entry)) {
        Some(row) => Some(row.entry.next),
        None => None,
    }
}

/// How many rows stand for a joined one that goes there: those of the state.
fn count_next(groups: &[StateRows], next: Next) -> usize
    requires stand { Stand groups.now }
    ensures { result ≡ length (entries_to (parser_in groups.now) next) }
{
    match next {
        Next::Accept => 0,
        Next::Reject => 0,
        Next::State(state) => count_rows(groups, state),
    }
}

/// Whether a row that goes there is to be joined: one row stands for that header, or one target alone is that header.
fn is_wanted(program: &Program, targets: &[Target], groups: &[StateRows], next: Next) -> bool
    requires stand { Stand groups.now }
    requires targets { targets.now ≡ flat_map targets_of program.now.headers }
    ensures { result ≡ is_wanted_of program.now (parser_in groups.now) next }
{
    match next {
        Next::Accept => false,
        Next::Reject => false,
        Next::State(state) => count_rows(groups, state) == 1 || count_to(targets, state) == 1,
    }
}

/// Looks at the row of a join, where there is one, and joins it where that is wanted and can be: the join is added to the
/// others. Gives how many rows of the state are behind then.
fn one_entry(
    alloc: Global,
    program: &Program,
    targets: &[Target],
    groups: &mut [StateRows],
    joins: &mut Sequence<Join>,
    join: Join,
) -> Result<usize, AllocError>
    requires targets { targets.now ≡ flat_map targets_of program.now.headers }
    requires stand { Stand groups.old }
    requires within { join.entry ≤ length (entries_in join.state (parser_in groups.old).entries) }
    ensures step { IfOk result (λ behind. record { parser = parser_in groups.new; joins = joins.new; behind = behind } ≡ next_entry program.now join.state (record { parser = parser_in groups.old; joins = joins.old; behind = join.entry })) }
    ensures stand { OnOk result (Stand groups.new) }
    ensures within { IfOk result (λ behind. behind ≤ length (entries_in join.state (parser_in groups.new).entries)) }
{
    let at = usize::from(join.entry);
    let Some(next) = next_at(groups, join) else {
        return Ok(at);
    };
    if !is_wanted(program, targets, groups, next) {
        return Ok(at + 1);
    }
    let others = count_next(groups, next);
    if !join_in(alloc, groups, join)? {
        return Ok(at + 1);
    }
    joins.push(join)?;
    Ok(at + others)
}

/// Looks at the rows of a header, from the first to the last.
fn one_header(
    alloc: Global,
    program: &Program,
    targets: &[Target],
    groups: &mut [StateRows],
    joins: &mut Sequence<Join>,
    number: u8,
) -> Result<usize, AllocError>
    requires targets { targets.now ≡ flat_map targets_of program.now.headers }
    requires stand { Stand groups.old }
    ensures step { IfOk result (λ behind. record { parser = parser_in groups.new; joins = joins.new; behind = behind } ≡ one_header_of program.now number (record { parser = parser_in groups.old; joins = joins.old; behind = 0 })) }
    ensures stand { OnOk result (Stand groups.new) }
{
    let mut behind = 0;
    for _k in 0..count_rows(groups, number) {
        let join = Join {
            state: number,
            entry: behind as u16,
        };
        behind = one_entry(alloc, program, targets, groups, joins, join)?;
    }
    Ok(behind)
}

/// Joins rows where that is wanted and can be: headers from the last to the first, and each of their rows once. Gives the
/// joins in order.
pub fn all_joined(
    alloc: Global,
    program: &Program,
    groups: &mut [StateRows],
) -> Result<Sequence<Join>, AllocError>
    requires few { length program.now.headers ≤ 64 }
    requires stand { Stand groups.old }
    ensures joined { OnOk result (parser_in groups.new ≡ all_joined_of program.now (parser_in groups.old)) }
    ensures joins { IfOk result (λ joins. joins ≡ (all_headers program.now (parser_in groups.old)).joins) }
    ensures stand { OnOk result (Stand groups.new) }
{
    let targets = targets_in(alloc, program)?;
    let mut joins = Sequence::new(alloc);
    let mut left = program.headers.len();
    while left > 0 {
        left -= 1;
        one_header(
            alloc,
            program,
            targets.as_slice(),
            groups,
            &mut joins,
            left as u8,
        )?;
    }
    Ok(joins)
}
