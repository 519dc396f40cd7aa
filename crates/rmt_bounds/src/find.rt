//! Finds the bound of a program.

ghost use Rattle.std.specs.Prelude.{◌≡◌, ◌≤◌, [], ◌∷◌, length, IfOk};
ghost use Rattle.rmt_ast.specs.WellFormed.{IsProgram};
ghost use Rattle.rmt_pack.specs.declared.placement.Placement.{Placement};
ghost use Rattle.rmt_pack.specs.Formats.{divided_up};
ghost use Rattle.rmt_pack.specs.Placements.{IsLegal};
ghost use Rattle.rmt_bounds.specs.Bounds.{EdgesRise, stage_bound, four_bounds, proof_of, greatest as greatest_number, all_bests as all_bests_of, sram_sum as sram_of, tcam_sum as tcam_of, table_count as tables_of};
ghost use Rattle.rmt_bounds.specs.Fits.{HasBests};
ghost use Rattle.rmt_bounds.specs.Proofs.{Gives};
ghost use Rattle.rmt_bounds.specs.Used.{stages_used};

use crate::best::{Chains, all_bests, greatest, longest_chain};
use crate::bound::{Bound, Proof};
use crate::fault::BoundFault;
use crate::sums::{Blocks, block_sums, table_count};
use rmt_ast::deps::Deps;
use rmt_ast::program::Program;
use rmt_pack::format::divide_up;
use std::alloc::{AllocError, Global};

/// The first of the four proofs that gives so many stages, for nodes that take these blocks and so many slots together.
fn proof_for(
    alloc: Global,
    chains: &Chains,
    blocks: &Blocks,
    tables: u32,
    stages: u32,
) -> Result<Proof, AllocError>
    requires chains { HasBests chains.now.program.now chains.now.edges.now chains.now.bests.now }
    requires bests { chains.now.bests.now ≡ all_bests_of chains.now.program.now chains.now.edges.now }
    requires few { length chains.now.bests.now ≤ 128 }
    requires sram { blocks.now.sram ≡ sram_of chains.now.program.now }
    requires tcam { blocks.now.tcam ≡ tcam_of chains.now.program.now }
    requires tables { tables ≡ tables_of chains.now.program.now }
    requires few_sram { blocks.now.sram ≤ 6946816 }
    requires few_tcam { blocks.now.tcam ≤ 6946816 }
    requires few_tables { tables ≤ 128 }
    ensures { IfOk result (λ proof. proof ≡
        proof_of chains.now.program.now chains.now.edges.now (four_bounds chains.now.program.now chains.now.edges.now) stages) }
{
    if greatest(chains.bests) == stages {
        let chain = longest_chain(alloc, chains)?;
        return Ok(Proof::Chain(chain));
    }
    if divide_up(blocks.sram, 106) == stages {
        return Ok(Proof::Sram(blocks.sram));
    }
    if divide_up(blocks.tcam, 16) == stages {
        return Ok(Proof::Tcam(blocks.tcam));
    }
    Ok(Proof::Slots(tables))
}

/// The greatest of the four numbers of stages that chains, SRAM, TCAM and slots give.
fn greatest_of_four(bests: &[u32], blocks: &Blocks, tables: u32) -> u32
    requires few_sram { blocks.now.sram ≤ 6946816 }
    requires few_tcam { blocks.now.tcam ≤ 6946816 }
    requires few_tables { tables ≤ 128 }
    ensures { result ≡ greatest_number (greatest_number bests.now ∷ divided_up blocks.now.sram 106 ∷ divided_up blocks.now.tcam 16 ∷ divided_up tables 16 ∷ []) }
{
    greatest(bests)
        .max(divide_up(blocks.sram, 106))
        .max(divide_up(blocks.tcam, 16))
        .max(divide_up(tables, 16))
}

/// The stage bound of a program, and what proves it.
///
/// It is the greatest of four numbers: that of the longest chain of nodes along field edges, and those of the SRAM
/// blocks, TCAM blocks and slots that all tables take at least. The first of these that is the bound is told.
///
/// # Errors
///
/// For want of memory alone.
pub fn bound(alloc: Global, program: &Program, deps: &Deps) -> Result<Bound, BoundFault>
    requires program { IsProgram program.now }
    requires rise { EdgesRise program.now deps.now.field }
    // It is the stage bound, with the proof that the rule names.
    ensures bound { IfOk result (λ b. b ≡ stage_bound program.now deps.now.field) }
    // The proof gives it.
    ensures given { IfOk result (λ b. Gives program.now deps.now.field b.proof b.stages) }
    // No legal placement uses fewer stages.
    ensures proved { IfOk result (λ b. (placement : Placement) → IsLegal program.now deps.now.field placement →
        b.stages ≤ stages_used program.now placement) }
{
    let edges = deps.field.as_slice();
    let bests = all_bests(alloc, program, edges)?;
    let chains = Chains {
        program,
        edges,
        bests: bests.as_slice(),
    };
    let blocks = block_sums(program);
    let tables = table_count(program);
    let stages = greatest_of_four(chains.bests, &blocks, tables);
    let proof = proof_for(alloc, &chains, &blocks, tables, stages)?;
    Ok(Bound { stages, proof })
}
