//! Group texts.

ghost use Rattle.std.specs.Prelude.{◌≡◌, ◌<◌, ℕ, Ok, Err, Some, None, length, option_map, ◌==◌, IfOk, OnOk, IfErr};
ghost use Rattle.std.specs.List.{list_any};
ghost use Rattle.rmt_switch.specs.GroupText.{are_distinct, are_ports, group_of, groups_of, numbers_of, with_group};
ghost use Rattle.rmt_switch.specs.Fault.{Gives, IsFault};
ghost use Rattle.rmt_switch.specs.LinesSoFar.{told};

use crate::fault::GroupFault;
use crate::group_table::Groups;
use crate::numbers::numbers_of;
use rmt_bits::cuts::cut;
use rmt_bits::lines::is_passed_over;
use rmt_bits::sequence::Sequence;
use std::alloc::{AllocError, Global};

/// The groups that a text of at most 4,294,967,294 bytes says.
///
/// A line is `GROUP PORT..`: a group from 256 to 511 and 1 to 8 distinct ports from 0 to 511, decimal, separated by
/// spaces. Lines that have only spaces, or begin with `#`, are passed over.
///
/// # Errors
///
/// `At` with code 8 of the first line that is no group or has the group of an earlier line; else for want of memory.
pub fn groups(alloc: Global, text: &[u8]) -> Result<Groups, GroupFault>
    requires short { length text.now < 4294967295 }
    ensures exact { Gives result (groups_of text.now) }
{
    let Ok(mut groups) = Groups::none(alloc) else {
        return Err(GroupFault::NoMemory);
    };
    let mut rest = text;
    let mut number = 1u32;
    while !rest.is_empty() {
        let (line, behind) = cut(rest, b'\n');
        if !is_passed_over(line) {
            add_line(alloc, &mut groups, line, number)?;
        }
        rest = behind;
        number += 1;
    }
    Ok(groups)
}

/// Adds the group that a line says. After a fault the groups are as before.
fn add_line(alloc: Global, groups: &mut Groups, line: &[u8], number: u32) -> Result<(), GroupFault>
    ensures added { OnOk result (with_group groups.old (group_of (numbers_of line.now)) ≡ Some groups.new) }
    ensures fault { IfErr result (λ fault. IsFault fault number
        (with_group groups.old (group_of (numbers_of line.now)) ≡ None)) }
{
    let bad = GroupFault::At {
        code: 8,
        line: number,
    };
    let Ok(said) = group_of(alloc, line) else {
        return Err(GroupFault::NoMemory);
    };
    let Some(group) = said else {
        return Err(bad);
    };
    if groups.has(group.number) {
        return Err(bad);
    }
    groups.put(group.number, group.ports);
    Ok(())
}

/// A group that a line says.
#[derive(Drop)]
struct Group {
    /// Its number, 256 to 511.
    number: u16,
    /// Its 1 to 8 distinct ports.
    ports: Sequence<u16>,
}

/// The group that a line says.
fn group_of(alloc: Global, line: &[u8]) -> Result<Option<Group>, AllocError>
    ensures { IfOk result (λ group. option_map told group ≡ group_of (numbers_of line.now)) }
{
    let Some(numbers) = numbers_of(alloc, line)? else {
        return Ok(None);
    };
    let Some((number, ports)) = numbers.as_slice().split_first() else {
        return Ok(None);
    };
    if *number < 256 || !are_ports(ports) {
        return Ok(None);
    }
    Ok(Some(Group {
        number: *number,
        ports: Sequence::from_vec(ports.to_vec(alloc)?),
    }))
}

/// Whether these are 1 to 8 distinct ports.
fn are_ports(ports: &[u16]) -> bool
    ensures { result ≡ are_ports ports.now }
{
    !ports.is_empty() && ports.len() <= 8 && are_distinct(ports)
}

/// Whether no number stands twice.
fn are_distinct(numbers: &[u16]) -> bool
    ensures { result ≡ are_distinct numbers.now }
{
    match numbers.split_first() {
        Some((first, others)) => !others.contains(first) && are_distinct(others),
        None => true,
    }
}
