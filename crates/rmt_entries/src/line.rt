//! What a line says by itself.

ghost use Rattle.std.specs.Prelude.{◌≡◌, ◌≤◌, ◌==◌, ◌∷◌, false, length, ℕ, List, Option, All, Some, Err, Ok, [], slice_index_or, IfOk, IfErr, MatchOption};
ghost use Rattle.rmt_ast.specs.EntryLists.{Terms};
ghost use Rattle.rmt_entries.specs.declared.keys.Key.{Key};
ghost use Rattle.rmt_entries.specs.Entries.{arguments, behind_key, of_table, read_words, with_arguments};
ghost use Rattle.rmt_entries.specs.Lines.{is_printable};
ghost use Rattle.rmt_entries.specs.NamedTables.{seen_table};
ghost use Rattle.rmt_entries.specs.LinesSoFar.{IsAppliedBy, IsBelow, IsFault, IsReadable};

use crate::arguments::arguments;
use crate::fault::EntryFault;
use crate::keys::key_of;
use crate::line_table::LineTable;
use crate::tables::{NamedTable, Tables};
use crate::words::Words;
use rmt_ast::entry::Entry;
use std::alloc::Global;

/// Whether a line has printable bytes alone. It looks at all of them, without an end at the first other one, so that
/// many are compared at once.
pub fn is_printable(line: &[u8]) -> bool
    ensures { result ≡ is_printable line.now }
{
    let mut all = true;
    for byte in line {
        all = all & (b' ' <= *byte && *byte <= b'~');
    }
    all
}

/// Takes the first word of a line, behind which others stand. The fault is of code 1.
pub fn take_name<'w>(words: &mut Words<'w>, line: u32) -> Result<&'w [u8], EntryFault>
    ensures name { IfOk result (λ name. words.old ≡ name.now ∷ words.new) }
    ensures more { IfOk result (λ name. (length words.new == 0) ≡ false) }
    ensures few { IfErr result (λ fault. IsFault fault line (λ code. (code ≡ 1) × (length words.old ≤ 1))) }
{
    let Some(name) = words.take() else {
        return Err(EntryFault::At { code: 1, line });
    };
    if words.is_empty() {
        return Err(EntryFault::At { code: 1, line });
    }
    Ok(name)
}

/// Takes the table that the words of a line name first. The fault is of code 1 where there are fewer than two words,
/// and of code 2 where no table has the name.
pub fn take_table<'t, 'a>(
    tables: &'t Tables<'a>,
    words: &mut Words<'_>,
    line: u32,
) -> Result<&'t NamedTable<'a>, EntryFault>
    requires { All IsReadable tables.now }
    ensures table { IfOk result (λ t. (number : ℕ) →
        read_words tables.now number words.old ≡ of_table number words.new (Some (seen_table t.now))) }
    ensures readable { IfOk result (λ t. IsReadable (seen_table t.now)) }
    ensures applied { IfOk result (λ t. (terms : List (Option Terms)) →
        All (IsAppliedBy terms) tables.now → IsAppliedBy terms (seen_table t.now)) }
    ensures within { IfOk result (λ t. (nodes : ℕ) → All (IsBelow nodes) tables.now → IsBelow nodes (seen_table t.now)) }
    ensures fault { IfErr result (λ fault. IsFault fault line (λ code. (number : ℕ) →
        read_words tables.now number words.old ≡ Err code)) }
{
    let name = take_name(words, line)?;
    match tables.named(name) {
        Some(table) => Ok(table),
        None => Err(EntryFault::At { code: 2, line }),
    }
}

/// Takes the name of an action of the table's list, and gives its place in the list.
fn take_action<T: LineTable>(table: &T, words: &mut Words<'_>) -> Option<u32>
    requires { IsReadable (T.applied table.now) }
    ensures action { (number : ℕ) (key : Key) → MatchOption result
        (behind_key (T.applied table.now) number key words.old ≡ Err 4)
        (λ action. behind_key (T.applied table.now) number key words.old ≡ with_arguments (T.applied table.now) number key action
        (arguments (slice_index_or (T.applied table.now).terms.params action []) words.new)) }
{
    let name = words.take()?;
    match table.action(name) {
        Some(action) => Some(action as u32),
        None => None,
    }
}

/// Reads the words behind a table's name as an entry of that number. The fault is of code 3 where they begin with no
/// key of the table, of code 4 where no action of its list follows, and of code 5 where the arguments are wrong.
pub fn read_entry<T: LineTable>(
    alloc: Global,
    table: &T,
    number: u32,
    words: &mut Words<'_>,
    line: u32,
) -> Result<Entry, EntryFault>
    requires { IsReadable (T.applied table.now) }
    ensures entry { IfOk result (λ entry. of_table number words.old (Some (T.applied table.now)) ≡
        Ok (record { table = T.applied table.now; entry = entry })) }
    ensures fault { IfErr result (λ fault. IsFault fault line (λ code.
        of_table number words.old (Some (T.applied table.now)) ≡ Err code)) }
{
    let (node, kind, widths) = table.heading();
    let Some(key) = key_of(alloc, kind, widths, words)? else {
        return Err(EntryFault::At { code: 3, line });
    };
    let Some(action) = take_action(table, words) else {
        return Err(EntryFault::At { code: 4, line });
    };
    let Some(args) = arguments(alloc, table.params(action), words)? else {
        return Err(EntryFault::At { code: 5, line });
    };
    Ok(Entry {
        table: node,
        number,
        tests: key.tests,
        rank: key.rank,
        action,
        args,
    })
}
