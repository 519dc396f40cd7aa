//! The nodes of a program in order.

ghost use Rattle.std.specs.Prelude.{◌≡◌, ◌/◌, ◌%◌, ◌^◌, ◌==◌, IfOk, OnOk, option_copied, slice_get, slice_index, None, Some};
ghost use Rattle.rmt_ast.specs.Control.{runs as runs_of, act_of, applied_table};
ghost use Rattle.rmt_plain.specs.Runnable.{IsRunnable};
ghost use Rattle.rmt_plain.specs.Running.{run_of, first_of, passed_with, run_with};

use crate::act::act;
use crate::lookup::Lookup;
use crate::matching::first_match;
use crate::numbers::{number_at, put_at};
use crate::run::Run;
use crate::walk::passes;
use rmt_ast::entry::Entry;
use rmt_ast::program::{Guard, Node, Program, Table, What};
use std::alloc::{AllocError, Global};

/// Whether a node with this guard runs.
fn runs(guard: Option<Guard>, outcomes: &[u64]) -> bool
    ensures { result ≡ runs_of guard outcomes.now }
{
    match guard {
        Some(guard) => is_in(guard.mask, outcome_at(outcomes, guard.parent as usize)),
        None => true,
    }
}

/// The outcome of a node.
fn outcome_at(outcomes: &[u64], node: usize) -> u64
    ensures { result ≡ slice_index outcomes.now node }
{
    match outcomes.get(node) {
        Some(outcome) => *outcome,
        None => 0,
    }
}

/// Whether a mask has an outcome.
fn is_in(mask: u16, outcome: u64) -> bool
    ensures { result ≡ (mask / 2 ^ outcome % 2 == 1) }
{
    outcome < 16 && (mask >> outcome) % 2 == 1
}

/// Does an action of the program.
fn do_action(program: &Program, action: u32, args: &[u128], state: &mut [u128])
    requires { IsRunnable program.now }
    ensures { state.new ≡ act_of program.now action args.now state.old }
{
    if let Some(action) = program.actions.get(action as usize) {
        act(program, action.assigns.as_slice(), args, state);
    }
}

/// The action of an entry of a table.
fn action_of(table: &Table, entry: &Entry) -> u32
    ensures { result ≡ slice_index table.now.actions entry.now.action }
{
    match table.actions.as_slice().get(entry.action as usize) {
        Some(action) => *action,
        None => 0,
    }
}

/// A table of node `node` misses.
fn miss(program: &Program, node: usize, table: &Table, run: &mut Run)
    requires { IsRunnable program.now }
    ensures { run_of run.new ≡ applied_table program.now node table.now None (run_of run.old) }
{
    do_action(
        program,
        table.default,
        table.args.as_slice(),
        &mut run.state,
    );
    put_at(&mut run.outcomes, node, 1);
}

/// An entry of the table of node `node` is hit.
fn hit(
    program: &Program,
    node: usize,
    table: &Table,
    entry: &Entry,
    run: &mut Run,
) -> Result<(), AllocError>
    requires { IsRunnable program.now }
    ensures { OnOk result (run_of run.new
        ≡ applied_table program.now node table.now (Some entry.now) (run_of run.old)) }
{
    let action = action_of(table, entry);
    do_action(program, action, entry.args.as_slice(), &mut run.state);
    put_at(&mut run.outcomes, node, 2 + u64::from(entry.action));
    run.hits.push(entry.number)
}

/// The entry of a table that a state hits.
fn found<'a>(
    alloc: Global,
    lookup: Option<&'a Lookup>,
    table: &Table,
    state: &[u128],
) -> Result<Option<&'a Entry>, AllocError>
    ensures { IfOk result (λ found. option_copied found
        ≡ first_of table.now.key state.now (option_copied lookup.entry)) }
{
    match lookup {
        Some(lookup) => first_match(alloc, lookup, table.key.as_slice(), state),
        None => Ok(None),
    }
}

/// A table is applied by node `node`.
fn apply(
    alloc: Global,
    program: &Program,
    node: usize,
    table: &Table,
    lookup: Option<&Lookup>,
    run: &mut Run,
) -> Result<(), AllocError>
    requires { IsRunnable program.now }
    ensures { OnOk result (run_of run.new
        ≡ applied_table program.now node table.now
        (first_of table.now.key run.old.state.items (option_copied lookup.entry)) (run_of run.old)) }
{
    match found(alloc, lookup, table, &run.state)? {
        Some(entry) => hit(program, node, table, entry, run),
        None => {
            miss(program, node, table, run);
            Ok(())
        }
    }
}

/// A node, where it runs.
fn pass_node(
    alloc: Global,
    program: &Program,
    number: usize,
    node: Node,
    lookup: Option<&Lookup>,
    run: &mut Run,
) -> Result<(), AllocError>
    requires { IsRunnable program.now }
    ensures { OnOk result (run_of run.new
        ≡ passed_with program.now (option_copied lookup.entry) number node (run_of run.old)) }
{
    if !runs(node.guard, &run.outcomes) {
        return Ok(());
    }
    match node.what {
        What::Apply(table) => match program.tables.get(table as usize) {
            Some(table) => apply(alloc, program, number, table, lookup, run),
            None => Ok(()),
        },
        What::Gate { field, test } => {
            let passed = passes(test, number_at(&run.state, field as usize));
            put_at(&mut run.outcomes, number, if passed { 2 } else { 1 });
            Ok(())
        }
    }
}

/// The look-up of a node.
fn lookup_at(lookups: &[Lookup], node: usize) -> Option<&Lookup>
    ensures { slice_get lookups.now node ≡ option_copied result }
{
    lookups.get(node)
}

/// All nodes, over a state.
pub fn run_nodes(
    alloc: Global,
    program: &Program,
    lookups: &[Lookup],
    run: &mut Run,
) -> Result<(), AllocError>
    requires { IsRunnable program.now }
    ensures { OnOk result (run_of run.new
        ≡ run_with program.now lookups.now 0 program.now.nodes (run_of run.old)) }
{
    for number in 0..program.nodes.len() {
        let node = program.nodes.as_slice()[number];
        pass_node(
            alloc,
            program,
            number,
            node,
            lookup_at(lookups, number),
            run,
        )?;
    }
    Ok(())
}
