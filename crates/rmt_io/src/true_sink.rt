//! Standard output of the machine.

ghost use Rattle.std.specs.Prelude.{◌≡◌, ℕ, Bool, false, List, [], ◌+◌, ◌-◌, ◌^◌, ◌<◌, ◌≤◌, length, IfOk, OnErr};
ghost use Rattle.std.specs.Io.KnownBytes.{WriteAppends};
ghost use Rattle.rmt_io.specs.Calls.{raised};
ghost use Rattle.rmt_io.specs.Faults.{Rose};

use crate::calls::raise;
use crate::sink::{Sink, SinkFault};
use crate::transfer::write_front;
use std::io;
use std::io::Write;

/// Standard output, whose bytes no contract tells.
///
/// Bytes go to the system before a call answers, so a failing write is seen at once. Nothing is kept back.
#[derive(Drop)]
pub struct TrueSink<'a, R: Print> {
    rt: &'a R,
    faults: u64,
}

impl<'a, R: Print> TrueSink<'a, R> {
    /// The standard output of a runtime, as the one that `main` is given.
    pub fn new(rt: &'a R) -> TrueSink<'a, R>
        ensures { result.faults ≡ 0 }
    {
        TrueSink { rt, faults: 0 }
    }
}

/// Has a writer take bytes from the front of a piece, at least one, and answers how many it took; a fault is counted.
fn take_front<W: Write>(writer: &mut W, piece: &[u8], faults: &mut u64) -> Result<usize, SinkFault>
    requires { 0 < length piece.now }
    ensures some { IfOk result (λ n. (0 < n) × (n ≤ length piece.now)) }
    ensures bytes { WriteAppends (W.contents writer.old) (W.contents writer.new) result piece.now }
    ensures counted { OnErr result (Rose faults.old faults.new) }
    ensures faults { faults.old ≤ faults.new }
{
    match write_front(writer, piece) {
        Ok(count) => Ok(count),
        Err(_) => {
            *faults = raise(*faults);
            Err(SinkFault::Failed)
        }
    }
}

impl<R: Print> Sink for TrueSink<'_, R> {
    ghost state = { λ s. record { tells = false; bytes = []; faults = s.faults } };

    fn write(&mut self, piece: &[u8]) -> Result<usize, SinkFault> {
        take_front(&mut io::writer(self.rt), piece, &mut self.faults)
    }
}
