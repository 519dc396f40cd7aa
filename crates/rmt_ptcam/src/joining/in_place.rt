//! Joins made in place, on the rows of a parser by state.

ghost use Rattle.std.specs.Prelude.{◌≡◌, ◌≤◌, ◌<◌, ◌+◌, ◌*◌, ◌++◌, ◌-◌, ◌&&◌, ◌||◌, ◌==◌, if◌then◌else◌, nat_le, nat_lt, true, false, Some, None, map, take, drop, length, All, IfOk, OnOk, IfSome};
ghost use Rattle.std.specs.List.{list_all};
ghost use Rattle.rmt_ptcam.specs.ByteTests.{test_for, tests_of};
ghost use Rattle.rmt_ptcam.specs.Grouping.{CanFollow, Stand, all_rows, entries_of, joined_in, may_stand as may_stand_of, put_in as put_in_of, stand_in_for as stand_in_for_of, stand_in_to, widened_row};
ghost use Rattle.rmt_ptcam.specs.Joining.{Row as RowOf, compares_before as compares_before_of, ends_open as ends_open_of, is_light as is_light_of, joined_row as joined_row_of, together as together_of};

use crate::joining::entry_rows::{joined_entry, moved_tail};
use crate::joining::lookups::{byte_at, spread, together};
use crate::joining::rows::{Row, StateRows};
use crate::joins::Join;
use rmt_bits::sequence::Sequence;
use rmt_config::config::{Next, ParserEntry};
use std::alloc::{AllocError, Global};
use std::mem::replace;

/// The mask on which an entry compares a byte; 0 where it doesn't compare it.
fn mask_at(here: &[u8], entry: &ParserEntry, offset: u8) -> u8
    ensures { result ≡ (test_for (tests_of here.now entry.now) offset).mask }
{
    byte_at(here, entry.mask, offset)
}

/// Whether an entry compares only bytes before those by which it moves the cursor.
fn compares_before(here: &[u8], entry: &ParserEntry) -> bool
    ensures { result ≡ compares_before_of here.now entry.now }
{
    here.iter().all(|offset| *offset < entry.advance || mask_at(here, entry, *offset) == 0)
}

/// Whether lookups that begin so many bytes behind are within 128 bytes.
fn all_low(bytes: u8, there: &[u8]) -> bool
    ensures { result ≡ list_all (λ o. nat_lt (o + bytes) 128) there.now }
{
    there
        .iter()
        .all(|offset| u16::from(*offset) + u16::from(bytes) < 128)
}

/// Whether the joined entry needs at most 128 bytes and has at most 64 extracts.
fn is_light(first: &ParserEntry, second: &ParserEntry) -> bool
    ensures { result ≡ is_light_of first.now second.now }
{
    u16::from(first.need) + u16::from(second.need) <= 128
        && first.extracts.len() <= 64
        && second.extracts.len() <= 64 - first.extracts.len()
}

/// Whether so many entries and as many more, one of them twice, are at most 16,384.
fn have_room(entries: usize, more: usize) -> bool
    ensures { result ≡ nat_le (entries + more) 16385 }
{
    entries <= 16385 && more <= 16385 - entries
}

/// How many rows stand in all.
fn count_all(groups: &[StateRows]) -> usize
    requires { length (all_rows groups.now) < 65536 }
    ensures { result ≡ length (all_rows groups.now) }
{
    let mut count = 0;
    for group in groups {
        count += group.rows.len();
    }
    count
}

/// Whether there is a row, and the last one compares nothing.
fn ends_open(rows: &[Row]) -> bool
    ensures { result ≡ ends_open_of (entries_of rows.now) }
{
    let mut open = false;
    for row in rows {
        open = row.entry.mask == 0;
    }
    open
}

/// Whether each joined entry needs at most 128 bytes and has at most 64 extracts.
fn all_light(first: &ParserEntry, rows: &[Row]) -> bool
    ensures { result ≡ list_all (is_light_of first.now) (entries_of rows.now) }
{
    for row in rows {
        if !is_light(first, &row.entry) {
            return false;
        }
    }
    true
}

/// Whether a row can be joined to those of a state, where so many rows stand in all; `to` is the lookups of both together.
fn may_stand(count: usize, here: &[u8], first: &Row, state: &StateRows, to: &[u8]) -> bool
    requires { to.now ≡ together_of here.now first.now.entry.advance state.now.lookups }
    ensures { result ≡ may_stand_of count here.now first.now state.now }
{
    first.tail.is_none()
        && first.entry.need == first.entry.advance
        && compares_before(here, &first.entry)
        && ends_open(state.rows.as_slice())
        && all_low(first.entry.advance, state.lookups.as_slice())
        && to.len() <= 4
        && all_light(&first.entry, state.rows.as_slice())
        && have_room(count, state.rows.len())
}

/// An entry joined to each row of a state; `to` is the lookups of both together.
fn joined_rows(
    alloc: Global,
    here: &[u8],
    first: &ParserEntry,
    state: &StateRows,
    to: &[u8],
) -> Result<Sequence<Row>, AllocError>
    requires to { to.now ≡ together_of here.now first.now.advance state.now.lookups }
    requires first { first.now.advance ≤ first.now.need }
    requires light { All (λ (x : RowOf). CanFollow first.now x) state.now.rows }
    ensures { IfOk result (λ rows. rows ≡ map (joined_row_of here.now state.now.lookups first.now) state.now.rows) }
{
    let there = state.lookups.as_slice();
    let mut rows = Sequence::new(alloc);
    for row in state.rows.as_slice() {
        let entry = joined_entry(alloc, here, there, to, first, &row.entry)?;
        let tail = moved_tail(row.tail, first.advance);
        rows.push(Row { entry, tail })?;
    }
    Ok(rows)
}

/// The rows that stand in place of a row, joined to those of the state that it goes to, where it can be.
fn stand_in(
    alloc: Global,
    groups: &[StateRows],
    own: &StateRows,
    first: &Row,
) -> Result<Option<StateRows>, AllocError>
    requires stand { Stand groups.now }
    ensures { IfOk result (λ o. o ≡ stand_in_to groups.now own.now first.now first.now.entry.next) }
{
    let Next::State(number) = first.entry.next else {
        return Ok(None);
    };
    let Some(state) = groups.get(usize::from(number)) else {
        return Ok(None);
    };
    let here = own.lookups.as_slice();
    let bytes = first.entry.advance;
    let to = together(alloc, here, bytes, state.lookups.as_slice())?;
    if !may_stand(count_all(groups), here, first, state, to.as_slice()) {
        return Ok(None);
    }
    let rows = joined_rows(alloc, here, &first.entry, state, to.as_slice())?;
    Ok(Some(StateRows { lookups: to, rows }))
}

/// A row over more lookups.
fn widen_row(row: &mut Row, from: &[u8], to: &[u8])
    ensures { row.new ≡ widened_row from.now to.now row.old }
{
    row.entry.value = spread(from, to, row.entry.value);
    row.entry.mask = spread(from, to, row.entry.mask);
}

/// Rows over more lookups.
fn widen(rows: &mut [Row], from: &[u8], to: &[u8])
    ensures { rows.new ≡ map (widened_row from.now to.now) rows.old }
{
    for row in rows.iter_mut() {
        widen_row(row, from, to);
    }
}

/// Puts rows in place of the one with this number.
fn replace_row(rows: &mut Vec<Row>, at: usize, others: Vec<Row>) -> Result<(), AllocError>
    requires there { at < length rows.old.items }
    ensures { OnOk result (rows.new.items ≡ take at rows.old.items ++ (others.items ++ drop (at + 1) rows.old.items)) }
{
    rows.splice(at..at + 1, others)?;
    Ok(())
}

/// Puts rows in place of a state's row with this number. The state's other rows are touched only where it looks at more then.
fn put_in(
    alloc: Global,
    state: &mut StateRows,
    at: usize,
    others: StateRows,
) -> Result<(), AllocError>
    requires there { at < length state.old.rows }
    requires some { 0 < length others.rows }
    requires same { others.lookups ≡ state.old.lookups → map (widened_row state.old.lookups state.old.lookups) state.old.rows ≡ state.old.rows }
    ensures { OnOk result (state.new ≡ put_in_of state.old at others) }
{
    let mut rows = replace(&mut state.rows, Sequence::new(alloc)).into_vec();
    let StateRows {
        lookups: to,
        rows: others,
    } = others;
    if state.lookups.as_slice() != to.as_slice() {
        widen(&mut rows, state.lookups.as_slice(), to.as_slice());
    }
    replace_row(&mut rows, at, others.into_vec())?;
    state.rows = Sequence::from_vec(rows);
    state.lookups = to;
    Ok(())
}

/// The rows that stand behind a join in place of its row, where that is there and can be joined.
fn stand_in_for(
    alloc: Global,
    groups: &[StateRows],
    join: Join,
) -> Result<Option<StateRows>, AllocError>
    requires stand { Stand groups.now }
    ensures { IfOk result (λ o. o ≡ stand_in_for_of groups.now join) }
{
    let Some(own) = groups.get(usize::from(join.state)) else {
        return Ok(None);
    };
    match own.rows.get(usize::from(join.entry)) {
        Some(first) => stand_in(alloc, groups, own, first),
        None => Ok(None),
    }
}

/// Makes a join in place, where it can be made, and tells whether it was.
pub fn join_in(alloc: Global, groups: &mut [StateRows], join: Join) -> Result<bool, AllocError>
    requires stand { Stand groups.old }
    ensures made { IfOk result (λ made. (if made then Some groups.new else None) ≡ joined_in groups.old join) }
    ensures kept { IfOk result (λ made. made ≡ false → groups.new ≡ groups.old) }
{
    match stand_in_for(alloc, groups, join)? {
        None => Ok(false),
        Some(others) => {
            let at = usize::from(join.entry);
            put_in(alloc, &mut groups[usize::from(join.state)], at, others)?;
            Ok(true)
        }
    }
}
