//! The names of a program's things, as printed lines tell them.

ghost use Rattle.std.specs.Prelude.{◌≡◌, ◌++◌, OnOk, option_copied};
ghost use Rattle.rmt_refine.specs.Units.{table_at};
ghost use Rattle.rmt_core.specs.NoFitText.{action_name, field_name, header_name, node_name};

use rmt_ast::program::{Program, Table, What};
use rmt_drive::numbers::add_number;
use std::alloc::AllocError;

/// Appends the name of the header of a number.
pub fn add_header_name(program: &Program, number: u32, text: &mut Vec<u8>) -> Result<(), AllocError>
    ensures { OnOk result (text.new.items ≡ text.old.items ++ header_name program.now number) }
{
    match program.headers.get(number as usize) {
        Some(header) => text.extend_from_slice(header.name.as_slice()),
        None => Ok(()),
    }
}

/// Appends the name of the field of a number.
pub fn add_field_name(program: &Program, number: u32, text: &mut Vec<u8>) -> Result<(), AllocError>
    ensures { OnOk result (text.new.items ≡ text.old.items ++ field_name program.now number) }
{
    match program.fields.get(number as usize) {
        Some(field) => text.extend_from_slice(field.name.as_slice()),
        None => Ok(()),
    }
}

/// Appends the name of the action of a number.
pub fn add_action_name(program: &Program, number: u32, text: &mut Vec<u8>) -> Result<(), AllocError>
    ensures { OnOk result (text.new.items ≡ text.old.items ++ action_name program.now number) }
{
    match program.actions.get(number as usize) {
        Some(action) => text.extend_from_slice(action.name.as_slice()),
        None => Ok(()),
    }
}

/// The table that a node applies, if it applies one.
fn table_of(program: &Program, node: u32) -> Option<&Table>
    ensures { table_at program.now node ≡ option_copied result }
{
    match program.nodes.get(node as usize)?.what {
        What::Apply(table) => program.tables.get(table as usize),
        What::Gate { .. } => None,
    }
}

/// Appends the name of a node: that of its table, or `gate` and its number.
pub fn add_node_name(program: &Program, node: u32, text: &mut Vec<u8>) -> Result<(), AllocError>
    ensures { OnOk result (text.new.items ≡ text.old.items ++ node_name program.now node) }
{
    match table_of(program, node) {
        Some(table) => text.extend_from_slice(table.name.as_slice()),
        None => {
            text.extend_from_slice(b"gate")?;
            add_number(u64::from(node), text)
        }
    }
}
