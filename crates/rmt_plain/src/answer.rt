//! The answer to one packet.

ghost use Rattle.std.specs.Prelude.{◌≡◌, ◌<◌, ◌≤◌, ℕ, List, [], drop, map, IfOk};
ghost use Rattle.rmt_ast.specs.declared.entry.Entry.{Entry};
ghost use Rattle.rmt_ast.specs.State.{IsState};
ghost use Rattle.rmt_ast.specs.WellFormed.{IsProgram, HasFields};
ghost use Rattle.rmt_ast.specs.EntryLists.{AreEntries};
ghost use Rattle.rmt_ast.specs.Answers.{answer_of, finished};
ghost use Rattle.rmt_plain.specs.Runnable.{IsRunnable};
ghost use Rattle.rmt_plain.specs.Running.{AreLookups, at_start, run_of, run_with};
ghost use Rattle.rmt_plain.specs.Walking.{bytes_in};

use crate::control::run_nodes;
use crate::lookup::Lookup;
use crate::numbers::number_at;
use crate::reached::{Reached, Span};
use crate::run::Run;
use crate::sent::push_sent;
use crate::walk::{WalkEnd, begin, walk};
use rmt_ast::program::Program;
use rmt_bits::answer::{Answer, Verdict};
use rmt_bits::bits::slice;
use rmt_bits::sequence::Sequence;
use std::alloc::{AllocError, Global};

/// An answer without bytes and hits.
fn bare(alloc: Global, verdict: Verdict) -> Answer
    ensures { result ≡ record { verdict = verdict; bytes = []; hits = [] } }
{
    Answer {
        verdict,
        bytes: Sequence::new(alloc),
        hits: Sequence::new(alloc),
    }
}

/// The answer behind the nodes, to a frame with these tails and a payload from a byte on.
fn finish(
    alloc: Global,
    program: &Program,
    frame: &[u8],
    tails: &[Span],
    at: usize,
    run: Run,
) -> Result<Answer, AllocError>
    requires { IsRunnable program.now }
    ensures { IfOk result (λ answer. HasFields program.now → IsState program.now run.state.items →
        answer ≡ finished program.now (map (bytes_in frame.now) tails.now) (drop at frame.now) (run_of run)) }
{
    let Run { state, hits, .. } = run;
    if number_at(&state, 2) == 1 {
        return Ok(Answer {
            verdict: Verdict::Dropped,
            bytes: Sequence::new(alloc),
            hits,
        });
    }
    let port = slice(number_at(&state, 1), 0, 9) as u16;
    let mut bytes = Vec::with_capacity(alloc, frame.len())?;
    push_sent(&mut bytes, program, frame, tails, at, &state)?;
    Ok(Answer {
        verdict: Verdict::Sent { port },
        bytes: Sequence::from_vec(bytes),
        hits,
    })
}

/// The answer to a frame that a walk accepted.
fn accepted(
    alloc: Global,
    program: &Program,
    lookups: &[Lookup],
    frame: &[u8],
    reached: Reached,
) -> Result<Answer, AllocError>
    requires { IsRunnable program.now }
    ensures { IfOk result (λ answer. HasFields program.now →
        (let run = run_with program.now lookups.now 0 program.now.nodes (at_start program.now reached.state.items) in
        IsState program.now run.state →
        answer ≡ finished program.now (map (bytes_in frame.now) reached.tails.items) (drop reached.at frame.now) run)) }
{
    let Reached { state, tails, at } = reached;
    let outcomes = vec![in alloc; 0; program.nodes.len()]?;
    let mut run = Run {
        state,
        outcomes,
        hits: Sequence::new(alloc),
    };
    run_nodes(alloc, program, lookups, &mut run)?;
    finish(alloc, program, frame, &tails, at, run)
}

/// The answer to a packet.
pub fn answer(
    alloc: Global,
    program: &Program,
    lookups: &[Lookup],
    port: u16,
    frame: &[u8],
) -> Result<Answer, AllocError>
    requires { IsRunnable program.now }
    ensures { IfOk result (λ answer. (lists : List (List Entry)) → IsProgram program.now → AreEntries program.now lists →
        AreLookups program.now lists lookups.now → port < 512 →
        answer ≡ answer_of program.now lists (record { port = port; frame = frame.now })) }
{
    let mut reached = begin(alloc, program, port)?;
    match walk(program, frame, &mut reached) {
        WalkEnd::Short => Ok(bare(alloc, Verdict::Short)),
        WalkEnd::Reject => Ok(bare(alloc, Verdict::Reject)),
        WalkEnd::Accept => accepted(alloc, program, lookups, frame, reached),
    }
}
