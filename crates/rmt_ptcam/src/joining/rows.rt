//! The rows of a parser, its entries with their tails, by state.

ghost use Rattle.std.specs.Prelude.{◌≡◌, ◌≤◌, ◌+◌, ◌++◌, ◌∷◌, [], length, IfOk, OnOk};
ghost use Rattle.rmt_ptcam.specs.Adding.{Adds};
ghost use Rattle.rmt_ptcam.specs.Grouping.{all_rows, by_state, groups_from, parser_in, state_in};
ghost use Rattle.rmt_ptcam.specs.Joining.{KeepsForm};

use crate::joining::copied;
use crate::joining::entry_rows::{copied_entry, empty_parser, push_row};
use crate::parse::search::entry_tail;
use rmt_bits::answer::Bytes;
use rmt_bits::sequence::Sequence;
use rmt_config::config::{ParserConfig, ParserEntry, ParserState, TailOf};
use std::alloc::{AllocError, Global};

/// An entry with its tail, where it has one.
#[derive(Drop)]
pub struct Row {
    /// The entry.
    pub entry: ParserEntry,
    /// Its tail. The number of the entry that this has says nothing.
    pub tail: Option<TailOf>,
}

/// What a state looks at, and its rows.
#[derive(Drop)]
pub struct StateRows {
    /// The offsets that it looks up.
    pub lookups: Bytes,
    /// Its rows, from the first to the last.
    pub rows: Sequence<Row>,
}

/// The states, each without rows so far.
fn without_rows(alloc: Global, states: &[ParserState]) -> Result<Vec<StateRows>, AllocError>
    ensures { IfOk result (λ groups. groups.items ≡ groups_from [] 0 states.now) }
{
    let mut groups = Vec::new(alloc);
    for state in states {
        let lookups = copied(alloc, state.lookups.as_slice())?;
        let rows = Sequence::new(alloc);
        groups.push(StateRows { lookups, rows })?;
    }
    Ok(groups)
}

/// A copy of a parser's rows, by state.
pub fn grouped(alloc: Global, parser: &ParserConfig) -> Result<Vec<StateRows>, AllocError>
    requires { KeepsForm parser.now }
    ensures { IfOk result (λ groups. groups.items ≡ by_state parser.now) }
{
    let mut groups = without_rows(alloc, parser.states.as_slice())?;
    let entries = parser.entries.as_slice();
    for number in 0..entries.len() {
        let entry = copied_entry(alloc, &entries[number])?;
        let tail = entry_tail(parser, number);
        let state = usize::from(entry.state);
        groups[state].rows.push(Row { entry, tail })?;
    }
    Ok(groups)
}

/// Adds copies of rows behind entries and tails.
fn push_rows(
    alloc: Global,
    entries: &mut Sequence<ParserEntry>,
    tails: &mut Sequence<TailOf>,
    rows: &[Row],
) -> Result<(), AllocError>
    requires { length entries.old + length rows.now ≤ 65536 }
    ensures { OnOk result (Adds rows.now entries.old entries.new tails.old tails.new) }
{
    for row in rows {
        let entry = copied_entry(alloc, &row.entry)?;
        push_row(entries, tails, entry, row.tail)?;
    }
    Ok(())
}

/// Adds a state with copies of its rows behind those that stand.
fn push_group(alloc: Global, parser: &mut ParserConfig, group: &StateRows) -> Result<(), AllocError>
    requires { length parser.old.entries + length group.now.rows ≤ 65536 }
    ensures states { OnOk result (parser.new.states ≡ parser.old.states ++ state_in group.now ∷ []) }
    ensures rows { OnOk result (Adds group.now.rows parser.old.entries parser.new.entries parser.old.tails parser.new.tails) }
{
    let lookups = copied(alloc, group.lookups.as_slice())?;
    parser.states.push(ParserState { lookups })?;
    push_rows(
        alloc,
        &mut parser.entries,
        &mut parser.tails,
        group.rows.as_slice(),
    )
}

/// The parser of rows by state.
pub fn flattened(alloc: Global, groups: &[StateRows]) -> Result<ParserConfig, AllocError>
    requires { length (all_rows groups.now) ≤ 65536 }
    ensures { IfOk result (λ parser. parser ≡ parser_in groups.now) }
{
    let mut parser = empty_parser(alloc);
    for group in groups {
        push_group(alloc, &mut parser, group)?;
    }
    Ok(parser)
}
