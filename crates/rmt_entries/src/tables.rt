//! The tables of a program as their entries' lines see them.

ghost use Rattle.std.specs.Prelude.{◌≡◌, ◌≤◌, length, map, IfOk, option_map, option_copied};
ghost use Rattle.rmt_ast.specs.EntryLists.{params_of};
ghost use Rattle.rmt_ast.specs.State.{width_of};
ghost use Rattle.rmt_ast.specs.NameList.{seen};
ghost use Rattle.rmt_ast.specs.Naming.{name_of_action};
ghost use Rattle.rmt_entries.specs.Tables.{applied_table, applied_tables, table_named, table_of};
ghost use Rattle.rmt_entries.specs.NamedTables.{name_of_table, seen_table, seen_tables};

use rmt_ast::name_list::NameList;
use rmt_ast::program::{Kind, Program, Table, What};
use rmt_bits::sequence::Sequence;
use std::alloc::{AllocError, Global};
use std::marker::Model;

/// A table with the node that applies it, and what its entries' lines are read by.
#[derive(Drop)]
pub struct NamedTable<'a> {
    /// The number of the node.
    pub node: u32,
    /// The table's name.
    pub name: &'a [u8],
    /// How its entries match.
    pub kind: Kind,
    /// The most entries.
    pub size: u32,
    /// The widths of its key's fields.
    pub widths: Vec<u8>,
    /// The names of its list of actions.
    pub actions: NameList<'a>,
    /// The widths of the parameters of each of them.
    pub params: Vec<&'a [u8]>,
}

/// The tables of a program, found by their names. Contracts see their list.
#[derive(Drop)]
pub struct Tables<'a> {
    tables: Sequence<NamedTable<'a>>,
    names: NameList<'a>,
}

impl<'a> Model for Tables<'a> {
    ghost use Rattle.std.specs.Prelude.{◌≡◌, List, map};
    ghost use Rattle.rmt_entries.specs.Tables.{AppliedTable};
    ghost use Rattle.rmt_entries.specs.NamedTables.{seen_tables, name_of_table};

    ghost Value = { List AppliedTable };

    ghost view = { λ t. seen_tables t.tables };

    ghost invariant = { λ t. t.names ≡ map name_of_table (seen_tables t.tables) };
}

impl<'a> Tables<'a> {
    /// The tables that the nodes of a program apply. The only fault is want of memory.
    pub fn of(alloc: Global, program: &'a Program) -> Result<Tables<'a>, AllocError>
        requires { length program.now.nodes ≤ 128 }
        ensures { IfOk result (λ tables. tables ≡ applied_tables program.now) }
    {
        let tables = all_tables(alloc, program)?;
        let names = table_names(alloc, tables.as_slice())?;
        Ok(Tables {
            tables: Sequence::from_vec(tables),
            names,
        })
    }

    /// The table of a name.
    pub fn named(&self, name: &[u8]) -> Option<&NamedTable<'a>>
        ensures { option_map (λ t. seen_table t.now) result ≡ table_named self.now name.now }
    {
        match self.names.number(name) {
            Some(place) => self.tables.get(place),
            None => None,
        }
    }
}

/// The width of a field.
fn width_of(program: &Program, field: u32) -> u8
    ensures { result ≡ width_of program.now field }
{
    match program.fields.get(field as usize) {
        Some(field) => field.width,
        None => 0,
    }
}

/// The name of an action, and the widths of its parameters.
fn listed_action(program: &Program, action: u32) -> (&[u8], &[u8])
    ensures name { result.0.now ≡ name_of_action program.now action }
    ensures params { result.1.now ≡ params_of program.now action }
{
    match program.actions.get(action as usize) {
        Some(action) => (action.name.as_slice(), action.params.as_slice()),
        None => (b"".as_slice(), b"".as_slice()),
    }
}

/// The widths of fields.
fn widths_of(alloc: Global, program: &Program, fields: &[u32]) -> Result<Vec<u8>, AllocError>
    ensures { IfOk result (λ widths. widths.items ≡ map (width_of program.now) fields.now) }
{
    let mut widths = Vec::new(alloc);
    for field in fields {
        widths.push(width_of(program, *field))?;
    }
    Ok(widths)
}

/// The actions of a table's list.
#[derive(Drop)]
struct ListedActions<'a> {
    /// Their names.
    names: Vec<&'a [u8]>,
    /// The widths of the parameters of each of them.
    params: Vec<&'a [u8]>,
}

/// The actions of a list.
fn listed_actions<'a>(
    alloc: Global,
    program: &'a Program,
    actions: &[u32],
) -> Result<ListedActions<'a>, AllocError>
    ensures names { IfOk result (λ listed. seen listed.names.items ≡ map (name_of_action program.now) actions.now) }
    ensures params { IfOk result (λ listed. seen listed.params.items ≡ map (params_of program.now) actions.now) }
{
    let mut names = Vec::new(alloc);
    let mut params = Vec::new(alloc);
    for action in actions {
        let (name, widths) = listed_action(program, *action);
        names.push(name)?;
        params.push(widths)?;
    }
    Ok(ListedActions { names, params })
}

/// A table that a node applies.
fn named_table<'a>(
    alloc: Global,
    program: &'a Program,
    node: u32,
    table: &'a Table,
) -> Result<NamedTable<'a>, AllocError>
    ensures { IfOk result (λ named. seen_table named ≡ applied_table program.now node table.now) }
{
    let listed = listed_actions(alloc, program, table.actions.as_slice())?;
    Ok(NamedTable {
        node,
        name: table.name.as_slice(),
        kind: table.kind,
        size: table.size,
        widths: widths_of(alloc, program, table.key.as_slice())?,
        actions: NameList::of(alloc, listed.names)?,
        params: listed.params,
    })
}

/// The table that a node applies; an `if` has none.
fn table_of<'a>(program: &'a Program, what: &What) -> Option<&'a Table>
    ensures { option_copied result ≡ table_of program.now what.now }
{
    match what {
        What::Apply(table) => program.tables.get(*table as usize),
        What::Gate { .. } => None,
    }
}

/// The tables that the nodes of a program apply.
fn all_tables(alloc: Global, program: &Program) -> Result<Vec<NamedTable<'_>>, AllocError>
    requires { length program.now.nodes ≤ 128 }
    ensures { IfOk result (λ tables. map seen_table tables.items ≡ applied_tables program.now) }
{
    let mut tables = Vec::new(alloc);
    for (number, node) in program.nodes.as_slice().iter().enumerate() {
        if let Some(table) = table_of(program, &node.what) {
            tables.push(named_table(alloc, program, number as u32, table)?)?;
        }
    }
    Ok(tables)
}

/// The names of tables, with their numbers.
fn table_names<'a>(alloc: Global, tables: &[NamedTable<'a>]) -> Result<NameList<'a>, AllocError>
    ensures { IfOk result (λ names. names ≡ map name_of_table (seen_tables tables.now)) }
{
    let mut names = Vec::new(alloc);
    for table in tables {
        names.push(table.name)?;
    }
    NameList::of(alloc, names)
}
