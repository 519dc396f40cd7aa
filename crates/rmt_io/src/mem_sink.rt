//! Output in memory.

ghost use Rattle.std.specs.Prelude.{◌≡◌, [], ◌+◌, ◌-◌, ◌<◌, ◌≤◌, ◌++◌, length, min, take, IsTrue, IfOk, IsErr, OnErr};
ghost use Rattle.rmt_io.specs.Calls.{fails_next};
ghost use Rattle.rmt_io.specs.Faults.{Rose};
ghost use Rattle.rmt_io.specs.Outside.{OnlyPrinted};
ghost use Rattle.rmt_io.specs.Taken.{MemoryBytes, sink_called, sink_state};

use crate::calls::{is_failing, raise};
use crate::sink::{Sink, SinkFault};
use std::marker::Model;

/// A sink in memory, which tells its bytes: for tests.
///
/// Its calls of `write` are counted from 1. Those whose numbers it was given fail, and no call takes more than `most`
/// bytes.
#[derive(Debug, Drop)]
pub struct MemSink {
    taken: Vec<u8>,
    fails: Vec<u64>,
    most: u32,
    calls: u64,
    faults: u64,
}

impl Model for MemSink {
    ghost use Rattle.std.specs.Prelude.{◌<◌};
    ghost use Rattle.rmt_io.specs.Taken.{MemoryBytes, memory_bytes_code};

    ghost Value = { MemoryBytes };

    ghost coded = { memory_bytes_code };

    ghost view = { λ s. record { bytes = s.taken.items; fails = s.fails.items; most = s.most; calls = s.calls; faults = s.faults } };

    ghost invariant = { λ s. 0 < s.most };
}

impl MemSink {
    /// A sink with no byte, whose calls of the numbers in `fails` fail, and which takes at most `most` bytes a call.
    pub fn new(fails: Vec<u64>, most: u32) -> MemSink
        requires { 0 < most }
        ensures { result ≡ record { bytes = []; fails = fails.items; most = most; calls = 0; faults = 0 } }
    {
        let alloc = *fails.allocator();
        MemSink {
            taken: Vec::new(alloc),
            fails,
            most,
            calls: 0,
            faults: 0,
        }
    }

    /// The bytes taken so far.
    pub fn bytes(&self) -> &Vec<u8>
        ensures { result.now.items ≡ self.now.bytes }
    {
        &self.taken
    }

    /// Counts a call, and answers whether it is to fail.
    fn call(&mut self) -> bool
        ensures failing { result ≡ fails_next self.old.fails self.old.calls }
        ensures after { self.new ≡ sink_called self.old }
    {
        let failing = is_failing(&self.fails, self.calls);
        self.calls = raise(self.calls);
        failing
    }

    /// Keeps the front of a piece, as much as one call takes.
    fn keep(&mut self, piece: &[u8]) -> Result<usize, SinkFault>
        requires { 0 < length piece.now }
        ensures some { IfOk result (λ n. n ≡ min (length piece.now) self.old.most) }
        ensures most { 0 < self.old.most }
        ensures kept { IfOk result (λ n. self.new ≡ record self.old { bytes = self.old.bytes ++ take n piece.now }) }
        ensures unchanged { OnErr result (self.new ≡ self.old) }
    {
        let count = piece.len().min(self.most as usize);
        match self.taken.extend_from_slice(&piece[..count]) {
            Ok(()) => Ok(count),
            Err(_) => Err(SinkFault::Failed),
        }
    }
}

impl Sink for MemSink {
    ghost state = { sink_state };

    fn write(&mut self, piece: &[u8]) -> Result<usize, SinkFault>
        requires { 0 < length piece.now }
        ensures some { IfOk result (λ n. (0 < n) × (n ≤ length piece.now)) }
        ensures most { IfOk result (λ n. n ≡ min (length piece.now) self.old.most) }
        ensures appended { IfOk result (λ n. self.new.bytes ≡ self.old.bytes ++ take n piece.now) }
        ensures unchanged { OnErr result (self.new.bytes ≡ self.old.bytes) }
        ensures listed { IsTrue (fails_next self.old.fails self.old.calls) → IsErr result }

        // What is counted, and nothing else changes.
        ensures counted { self.new ≡ record (sink_called self.old) { bytes = self.new.bytes; faults = self.new.faults } }
        ensures failed { OnErr result (Rose self.old.faults self.new.faults) }
        ensures only_printed { OnlyPrinted (sink_state self.old) (sink_state self.new) }
    {
        if !self.call() {
            if let Ok(count) = self.keep(piece) {
                return Ok(count);
            }
        }
        self.faults = raise(self.faults);
        Err(SinkFault::Failed)
    }
}
