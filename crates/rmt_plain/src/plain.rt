//! The plain run.

ghost use Rattle.std.specs.Prelude.{◌≡◌};
ghost use Rattle.std.proofs.Props.{props};
ghost use Rattle.rmt_plain.specs.Runnable.{IsRunnable};

use crate::answer::answer;
use crate::counters::{add_counters, count, first_counters, numbers_of};
use crate::fault::PlainFault;
use crate::lookup::{Lookup, lookups_of};
use rmt_ast::entry::EntryLists;
use rmt_ast::program::Program;
use rmt_bits::answer::Answer;
use rmt_bits::counts::Counts;
use std::alloc::Global;

/// A program with the entries that stand now, and what it has counted so far.
#[derive(Drop)]
pub struct Plain {
    program: Program,
    lookups: Vec<Lookup>,
    counters: Counts,
    ghost runs: { IsRunnable program } by { Prim.hlevel props },
}

impl Plain {
    ghost use Rattle.std.specs.Prelude.{◌<◌, ◌≤◌, ◌++◌, ◌∷◌, [], List, length, IfOk, OnErr, OnOk};
    ghost use Rattle.rmt_bits.specs.Packet.{Packet};
    ghost use Rattle.rmt_ast.specs.declared.program.Program.{Program};
    ghost use Rattle.rmt_ast.specs.declared.entry.Entry.{Entry};
    ghost use Rattle.rmt_ast.specs.WellFormed.{IsProgram};
    ghost use Rattle.rmt_ast.specs.EntryLists.{AreEntries};
    ghost use Rattle.rmt_ast.specs.Answers.{answer_of, counts_of};
    ghost use Rattle.rmt_ast.specs.Events.{Met};
    ghost use Rattle.rmt_plain.specs.Stands.{FollowOn, HasMet, Stands, counts_met, meets};

    /// A plain run of a well-formed program with well-formed entries, before the first packet. It is
    /// refused for want of memory alone.
    pub fn new(alloc: Global, program: Program, entries: EntryLists) -> Result<Plain, PlainFault>
        requires program { IsProgram program }
        requires entries { AreEntries program entries }
        ensures { IfOk result (λ plain. Stands program entries [] plain) }
    {
        let counters = first_counters(alloc, &program, &entries)?;
        let lookups = lookups_of(alloc, &program, entries)?;
        Ok(Plain {
            program,
            lookups,
            counters,
        })
    }

    /// The answer to the next packet, which comes on a port below 512 with a frame of 1 to 9,216
    /// bytes, with the entries that stand now. Its hits are counted. It is refused for want of memory
    /// alone, and all is then as before.
    pub fn packet(&mut self, alloc: Global, port: u16, frame: &[u8]) -> Result<Answer, PlainFault>
        requires port { port < 512 }
        requires some { 1 ≤ length frame.now }
        requires short { length frame.now ≤ 9216 }
        ensures ok { IfOk result (λ answer. (p : Program) (lists : List (List Entry)) (packets : List Packet) →
            Stands p lists packets self.old →
            Stands p lists (packets ++ record { port = port; frame = frame.now } ∷ []) self.new
            × (answer ≡ answer_of p lists (record { port = port; frame = frame.now }))) }
        ensures met { IfOk result (λ answer. (p : Program) (so_far : List (List (List Entry)))
            (lists : List (List Entry)) (met : List Met) → HasMet p so_far lists met self.old →
            HasMet p so_far lists
            (met ++ meets lists (record { port = port; frame = frame.now }) ∷ []) self.new
            × (answer ≡ answer_of p lists (record { port = port; frame = frame.now }))) }
        ensures err { OnErr result (self.new ≡ self.old) }
    {
        let answer = answer(alloc, &self.program, &self.lookups, port, frame)?;
        count(
            &mut self.counters,
            answer.hits.as_slice(),
            frame.len() as u64,
        );
        Ok(answer)
    }

    /// The run goes on with other entries, well formed for its program: each stands now, or has a number
    /// that no entry so far had. Those of counted tables that come get counters at 0, and those that go
    /// keep theirs. It is refused for want of memory alone, and all is then as before.
    pub fn commit(&mut self, alloc: Global, entries: EntryLists) -> Result<(), PlainFault>
        ensures ok { OnOk result ((p : Program) (so_far : List (List (List Entry)))
            (lists : List (List Entry)) (met : List Met) → HasMet p so_far lists met self.old →
            AreEntries p entries → FollowOn so_far lists entries →
            HasMet p (so_far ++ entries ∷ []) entries met self.new) }
        ensures err { OnErr result (self.new ≡ self.old) }
    {
        let numbers = numbers_of(alloc, &self.program, entries.as_slice())?;
        let lookups = lookups_of(alloc, &self.program, entries)?;
        self.counters.reserve(numbers.len())?;
        add_counters(&mut self.counters, &numbers);
        self.lookups = lookups;
        Ok(())
    }

    /// How often each entry of a counted table was hit, by rising number: of the entries that stand now
    /// and of those that are gone.
    pub fn counters(&self) -> &Counts
        ensures packets { (p : Program) (lists : List (List Entry)) (packets : List Packet) →
            Stands p lists packets self.now →
            result.now.counts ≡ counts_of p lists packets }
        ensures met { (p : Program) (so_far : List (List (List Entry))) (lists : List (List Entry))
            (met : List Met) → HasMet p so_far lists met self.now →
            result.now.counts ≡ counts_met p so_far met }
    {
        &self.counters
    }
}
