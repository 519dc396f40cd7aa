//! The lines that `compile` prints.

ghost use Rattle.std.specs.Prelude.{◌≡◌, ◌==◌, ◌++◌, IfOk, IsOkUnless, OnOk};
ghost use Rattle.std.specs.List.{flat_map};
ghost use Rattle.rmt_core.specs.CompileText.{bound_line, chain_part, compile_text, minimal_line, proof_text, stages_line};
ghost use Rattle.rmt_core.specs.NoFitText.{AreNodesOf};

use crate::names::add_node_name;
use rmt_ast::program::Program;
use rmt_bits::answer::Bytes;
use rmt_bits::fault::OutOfMemory;
use rmt_bounds::bound::{Bound, Proof};
use rmt_build::built::Built;
use rmt_config::config::Config;
use rmt_config::latency::latency;
use rmt_drive::numbers::add_number;
use rmt_report::ReportFault;
use std::alloc::{AllocError, Global};

/// The lines that `compile` prints of what it made: the stages and the latency, the bound with its proof, and whether no
/// placement has fewer stages. `NoMemory` is its only refusal.
pub fn compile_lines(alloc: Global, program: &Program, built: &Built) -> Result<Bytes, ReportFault>
    requires { AreNodesOf program.now built.now.bound.proof }
    ensures lines { IfOk result (λ text. text ≡ compile_text program.now built.now.config built.now.bound) }
    ensures only_memory { IsOkUnless result OutOfMemory.NoMemory }
{
    let text = lines_of(alloc, program, &built.config, &built.bound)?;
    Ok(Bytes::from_vec(text))
}

/// The three lines of a configuration and a bound.
fn lines_of(
    alloc: Global,
    program: &Program,
    config: &Config,
    bound: &Bound,
) -> Result<Vec<u8>, AllocError>
    ensures { IfOk result (λ text. text.items ≡ compile_text program.now config.now bound.now) }
{
    let mut text = Vec::new(alloc);
    add_stages_line(config, &mut text)?;
    add_bound_line(program, bound, &mut text)?;
    let minimal = config.stages.len() == bound.stages as usize;
    add_minimal_line(minimal, &mut text)?;
    Ok(text)
}

/// Appends the stages and the latency.
fn add_stages_line(config: &Config, text: &mut Vec<u8>) -> Result<(), AllocError>
    ensures { OnOk result (text.new.items ≡ text.old.items ++ stages_line config.now) }
{
    let latency = latency(config.stages.as_slice());
    text.extend_from_slice(b"stages ")?;
    add_number(config.stages.len() as u64, text)?;
    text.extend_from_slice(b" latency ")?;
    add_number(u64::from(latency), text)?;
    text.extend_from_slice(b"\n")
}

/// Appends the bound and what proves it.
fn add_bound_line(program: &Program, bound: &Bound, text: &mut Vec<u8>) -> Result<(), AllocError>
    ensures { OnOk result (text.new.items ≡ text.old.items ++ bound_line program.now bound.now) }
{
    text.extend_from_slice(b"bound ")?;
    add_number(u64::from(bound.stages), text)?;
    text.extend_from_slice(b" ")?;
    add_proof(program, &bound.proof, text)?;
    text.extend_from_slice(b"\n")
}

/// Appends what proves a bound.
fn add_proof(program: &Program, proof: &Proof, text: &mut Vec<u8>) -> Result<(), AllocError>
    ensures { OnOk result (text.new.items ≡ text.old.items ++ proof_text program.now proof.now) }
{
    match proof {
        Proof::Chain(nodes) => {
            text.extend_from_slice(b"chain")?;
            add_chain(program, nodes.as_slice(), text)
        }
        Proof::Sram(blocks) => {
            text.extend_from_slice(b"sram ")?;
            add_number(u64::from(*blocks), text)
        }
        Proof::Tcam(blocks) => {
            text.extend_from_slice(b"tcam ")?;
            add_number(u64::from(*blocks), text)
        }
        Proof::Slots(tables) => {
            text.extend_from_slice(b"slots ")?;
            add_number(u64::from(*tables), text)
        }
    }
}

/// Appends the names of the nodes of a chain.
fn add_chain(program: &Program, nodes: &[u32], text: &mut Vec<u8>) -> Result<(), AllocError>
    ensures { OnOk result (text.new.items ≡ text.old.items ++ flat_map (chain_part program.now) nodes.now) }
{
    for node in nodes {
        text.extend_from_slice(b" ")?;
        add_node_name(program, *node, text)?;
    }
    Ok(())
}

/// Appends whether no placement has fewer stages.
fn add_minimal_line(minimal: bool, text: &mut Vec<u8>) -> Result<(), AllocError>
    ensures { OnOk result (text.new.items ≡ text.old.items ++ minimal_line minimal) }
{
    if minimal {
        text.extend_from_slice(b"minimal yes\n")
    } else {
        text.extend_from_slice(b"minimal no\n")
    }
}
