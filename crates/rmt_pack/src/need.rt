//! What the tables of a program need.

ghost use Rattle.std.specs.Prelude.{◌≡◌, ◌<◌, ◌^◌, All, sum};
ghost use Rattle.rmt_ast.specs.State.{width_of as bits_of_field};
ghost use Rattle.rmt_pack.specs.Placements.{key_bits as bits_of_key, data_bits as bits_of_data, param_bits as bits_of_params, table_need as need_of_table};

use crate::format::Need;
use rmt_ast::program::{Program, Table};

/// The bits of a field; 0 where there is none of that number.
fn width_of(program: &Program, field: u32) -> u32
    ensures { result ≡ bits_of_field program.now field }
{
    match program.fields.get(field as usize) {
        Some(field) => field.width as u32,
        None => 0,
    }
}

/// The bits of a table's key.
pub fn key_bits(program: &Program, table: &Table) -> u32
    requires { bits_of_key program.now table.now < 2 ^ 32 }
    ensures { result ≡ bits_of_key program.now table.now }
{
    let key = table.key.as_slice();
    let mut bits = 0;
    for field in key {
        bits += width_of(program, *field);
    }
    bits
}

/// The bits of an action's parameters; 0 where there is no action of that number.
pub fn param_bits(program: &Program, action: u32) -> u32
    requires { bits_of_params program.now action < 2 ^ 32 }
    ensures { result ≡ bits_of_params program.now action }
{
    let Some(action) = program.actions.get(action as usize) else {
        return 0;
    };
    sum_of(action.params.as_slice())
}

/// The sum of some bytes, which has 32 bits.
pub fn sum_of(bytes: &[u8]) -> u32
    requires { sum bytes.now < 2 ^ 32 }
    ensures { result ≡ sum bytes.now }
{
    bytes.iter().map(|byte| u32::from(*byte)).sum()
}

/// The bits of data that an entry of a table holds: the parameters of the listed action with most.
pub fn data_bits(program: &Program, table: &Table) -> u32
    requires { All (λ a. bits_of_params program.now a < 2 ^ 32) table.now.actions }
    ensures { result ≡ bits_of_data program.now table.now }
{
    let actions = table.actions.as_slice();
    let mut most = 0;
    for action in actions {
        most = param_bits(program, *action).max(most);
    }
    most
}

/// What a table of a program needs.
pub fn table_need(program: &Program, table: &Table) -> Need
    // As every table of a well-formed program has.
    requires key { bits_of_key program.now table.now < 2 ^ 32 }
    requires data { All (λ a. bits_of_params program.now a < 2 ^ 32) table.now.actions }
    ensures { result ≡ need_of_table program.now table.now }
{
    Need {
        key: key_bits(program, table),
        held: data_bits(program, table),
        size: table.size,
        counted: table.counted,
    }
}
