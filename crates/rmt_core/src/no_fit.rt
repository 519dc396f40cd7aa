//! The last lines that tell why a program doesn't fit the chip.

ghost use Rattle.std.specs.Prelude.{◌≡◌, ◌++◌, IfOk, OnOk, codes};
ghost use Rattle.std.specs.Fmt.{decimal};
ghost use Rattle.std.specs.List.{flat_map};
ghost use Rattle.rmt_core.specs.NoFitText.{action_name, field_name, header_name, hit_text, no_fit_line, node_name};

use crate::names::{add_action_name, add_field_name, add_header_name, add_node_name};
use rmt_ast::program::Program;
use rmt_build::fault::NoFit;
use rmt_config::limits::LimitHit;
use rmt_drive::numbers::add_number;
use std::alloc::{AllocError, Global};

/// `no fit`, the kind and its parts; nothing where there is no memory.
pub fn no_fit_text(alloc: Global, program: &Program, fault: &NoFit) -> Result<Vec<u8>, AllocError>
    ensures { IfOk result (λ text. text.items ≡ no_fit_line program.now fault.now) }
{
    let mut text = Vec::new(alloc);
    add_no_fit(program, fault, &mut text)?;
    Ok(text)
}

/// Appends the line of a refusal.
fn add_no_fit(program: &Program, fault: &NoFit, text: &mut Vec<u8>) -> Result<(), AllocError>
    ensures { OnOk result (text.new.items ≡ text.old.items ++ no_fit_line program.now fault.now) }
{
    match fault {
        NoFit::NoMemory => Ok(()),
        NoFit::Lookup { header, bytes } => {
            add_header_line(program, b"no fit lookup ", *header, *bytes, text)
        }
        NoFit::Step { header, extracts } => {
            add_header_line(program, b"no fit step ", *header, *extracts, text)
        }
        NoFit::Parser { entries } => add_parser_line(*entries, text),
        NoFit::Action { action, field } => add_action_line(program, *action, *field, text),
        NoFit::Phv { field, class } => add_field_line(program, *field, *class, text),
        NoFit::Stage { node, hits } => { add_stage_line(program, *node, hits.as_slice(), text) }
        NoFit::Load {
            table,
            members,
            cells,
        } => add_load_line(program, *table, *members, *cells, text),
    }
}

/// Appends a space, a number and a line feed.
fn add_last_number(number: u64, text: &mut Vec<u8>) -> Result<(), AllocError>
    ensures { OnOk result (text.new.items ≡ text.old.items ++ (codes " " ++ (decimal number ++ codes "\n"))) }
{
    text.extend_from_slice(b" ")?;
    add_number(number, text)?;
    text.extend_from_slice(b"\n")
}

/// Appends words, the name of a header and a number.
fn add_header_line(
    program: &Program,
    words: &[u8],
    header: u32,
    number: u32,
    text: &mut Vec<u8>,
) -> Result<(), AllocError>
    ensures { OnOk result (text.new.items ≡ text.old.items ++ (words.now ++ (header_name program.now header ++ (codes " " ++ (decimal number ++ codes "\n"))))) }
{
    text.extend_from_slice(words)?;
    add_header_name(program, header, text)?;
    add_last_number(u64::from(number), text)
}

/// Appends the line of a parser with too many entries.
fn add_parser_line(entries: u32, text: &mut Vec<u8>) -> Result<(), AllocError>
    ensures { OnOk result (text.new.items ≡ text.old.items ++ (codes "no fit parser " ++ (decimal entries ++ codes "\n"))) }
{
    text.extend_from_slice(b"no fit parser ")?;
    add_number(u64::from(entries), text)?;
    text.push(b'\n')?;
    Ok(())
}

/// Appends the line of an action that is too deep in a field.
fn add_action_line(
    program: &Program,
    action: u32,
    field: u32,
    text: &mut Vec<u8>,
) -> Result<(), AllocError>
    ensures { OnOk result (text.new.items ≡ text.old.items ++ (codes "no fit action " ++ (action_name program.now action ++ (codes " " ++ (field_name program.now field ++ codes "\n"))))) }
{
    text.extend_from_slice(b"no fit action ")?;
    add_action_name(program, action, text)?;
    text.extend_from_slice(b" ")?;
    add_field_name(program, field, text)?;
    text.extend_from_slice(b"\n")
}

/// Appends the line of a field for which no word of a class is left.
fn add_field_line(
    program: &Program,
    field: u32,
    class: u8,
    text: &mut Vec<u8>,
) -> Result<(), AllocError>
    ensures { OnOk result (text.new.items ≡ text.old.items ++ (codes "no fit phv " ++ (field_name program.now field ++ (codes " " ++ (decimal class ++ codes "\n"))))) }
{
    text.extend_from_slice(b"no fit phv ")?;
    add_field_name(program, field, text)?;
    add_last_number(u64::from(class), text)
}

/// Appends the line of a node that doesn't stand in the stages that are left.
fn add_stage_line(
    program: &Program,
    node: u32,
    hits: &[LimitHit],
    text: &mut Vec<u8>,
) -> Result<(), AllocError>
    ensures { OnOk result (text.new.items ≡ text.old.items ++ (codes "no fit stage " ++ (node_name program.now node ++ (flat_map hit_text hits.now ++ codes "\n")))) }
{
    text.extend_from_slice(b"no fit stage ")?;
    add_node_name(program, node, text)?;
    add_hits(hits, text)?;
    text.extend_from_slice(b"\n")
}

/// Appends the limits that one more quantum would pass, stage by stage.
fn add_hits(hits: &[LimitHit], text: &mut Vec<u8>) -> Result<(), AllocError>
    ensures { OnOk result (text.new.items ≡ text.old.items ++ flat_map hit_text hits.now) }
{
    for hit in hits {
        add_hit(hit, text)?;
    }
    Ok(())
}

/// Appends a stage, a limit, its sum there and what one more quantum would take.
fn add_hit(hit: &LimitHit, text: &mut Vec<u8>) -> Result<(), AllocError>
    ensures { OnOk result (text.new.items ≡ text.old.items ++ hit_text hit.now) }
{
    let LimitHit {
        limit,
        stage,
        sum,
        need,
    } = *hit;
    text.extend_from_slice(b" ")?;
    add_number(u64::from(stage), text)?;
    add_part(u32::from(limit), text)?;
    add_part(sum, text)?;
    add_part(need, text)
}

/// Appends a colon and a number.
fn add_part(number: u32, text: &mut Vec<u8>) -> Result<(), AllocError>
    ensures { OnOk result (text.new.items ≡ text.old.items ++ (codes ":" ++ decimal number)) }
{
    text.extend_from_slice(b":")?;
    add_number(u64::from(number), text)
}

/// Appends the line of a node whose table has some entries that have fewer cells.
fn add_load_line(
    program: &Program,
    node: u32,
    members: u32,
    cells: u64,
    text: &mut Vec<u8>,
) -> Result<(), AllocError>
    ensures { OnOk result (text.new.items ≡ text.old.items ++ (codes "no fit load " ++ (node_name program.now node ++ (codes " " ++ (decimal members ++ (codes " " ++ (decimal cells ++ codes "\n"))))))) }
{
    text.extend_from_slice(b"no fit load ")?;
    add_node_name(program, node, text)?;
    add_two_numbers(members, cells, text)
}

/// Appends two numbers, each behind a space, and a line feed.
fn add_two_numbers(first: u32, second: u64, text: &mut Vec<u8>) -> Result<(), AllocError>
    ensures { OnOk result (text.new.items ≡ text.old.items ++ (codes " " ++ (decimal first ++ (codes " " ++ (decimal second ++ codes "\n"))))) }
{
    text.extend_from_slice(b" ")?;
    add_number(u64::from(first), text)?;
    add_last_number(second, text)
}
