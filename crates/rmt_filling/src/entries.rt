//! The entries of a part, and where each stands.

ghost use Rattle.std.specs.Prelude.{◌≡◌, ◌+◌, ◌<◌, ◌≤◌, All, Some, length, slice_get, slice_index};
ghost use Rattle.rmt_ast.specs.EntryLists.{params_of as params_by};
ghost use Rattle.rmt_ast.specs.WellFormed.{IsProgram, IsTable};
ghost use Rattle.rmt_filling.specs.Rooms.{CanBeWritten};

use crate::stands::Stand;
use rmt_ast::entry::Entry;
use rmt_ast::program::{Program, Table};

/// The entries of a part: those of a table of a program, where they stand, and the number in the stage of the first
/// instruction of the table.
#[derive(Clone, Copy)]
pub struct PartEntries<'a> {
    /// The program.
    pub program: &'a Program,
    /// The table.
    pub table: &'a Table,
    /// The entries of the table.
    pub entries: &'a [Entry],
    /// Those that stand in the part, by its cells.
    pub stands: &'a [Stand],
    /// The number in the stage of the table's first instruction, 0 to 31.
    pub first: u8,
}

/// An entry of a part, with the widths of its action's parameters and the number in the stage of its instruction.
#[derive(Clone, Copy)]
pub struct PlacedEntry<'a> {
    /// The entry.
    pub entry: &'a Entry,
    /// The bits of each parameter of its action, at most 128 each.
    pub params: &'a [u8],
    /// The number of its instruction, 0 to 31.
    pub code: u8,
}

/// The parameters of the action of an entry.
fn params_of<'a>(program: &'a Program, table: &Table, entry: &Entry) -> &'a [u8]
    requires program { IsProgram program.now }
    requires table { IsTable program.now table.now }
    requires entry { entry.now.action < length table.now.actions }
    ensures params { result.now ≡ params_by program.now (slice_index table.now.actions entry.now.action) }
    ensures widths { All (λ w. w ≤ 128) result.now }
{
    let action = table.actions.as_slice()[entry.action as usize];
    program.actions.as_slice()[action as usize]
        .params
        .as_slice()
}

/// The entry of a part with this number.
pub fn placed_entry<'a>(part: &PartEntries<'a>, number: usize) -> PlacedEntry<'a>
    requires part { CanBeWritten part.now.program.now part.now.table.now part.now.entries.now part.now.first }
    requires number { number < length part.now.entries.now }
    ensures entry { slice_get part.now.entries.now number ≡ Some result.entry.now }
    ensures params { result.params.now ≡ params_by part.now.program.now (slice_index part.now.table.now.actions result.entry.now.action) }
    ensures widths { All (λ w. w ≤ 128) result.params.now }
    ensures code { result.code ≡ part.now.first + result.entry.now.action }
{
    let entry = &part.entries[number];
    PlacedEntry {
        entry,
        params: params_of(part.program, part.table, entry),
        code: part.first + entry.action as u8,
    }
}
