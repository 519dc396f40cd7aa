//! Output as the commands see it.

ghost use Rattle.std.specs.Prelude.{◌<◌, ◌≤◌, length, take, IfOk, OnErr};
ghost use Rattle.rmt_io.specs.Outside.{SinkState, Gained, GainedNone, PrintingFailed, OnlyPrinted};

use thiserror::Error;

/// Why a sink did not take bytes.
#[derive(Clone, Copy, Debug, Drop, PartialEq, Eq, Error)]
pub enum SinkFault {
    #[error("the output cannot be written")]
    Failed,
}

/// What takes bytes, one piece after another.
pub trait Sink {
    /// What contracts see of it.
    ghost state: { Self → SinkState };

    /// Takes bytes from the front of a piece, at least one, and answers how many.
    fn write(&mut self, piece: &[u8]) -> Result<usize, SinkFault>
        requires { 0 < length piece.now }
        ensures some { IfOk result (λ n. (0 < n) × (n ≤ length piece.now)) }
        ensures appended { IfOk result (λ n. Gained (state self.old) (state self.new) (take n piece.now)) }
        ensures unchanged { OnErr result (GainedNone (state self.old) (state self.new)) }
        ensures failed { OnErr result (PrintingFailed (state self.old) (state self.new)) }
        ensures only_printed { OnlyPrinted (state self.old) (state self.new) };
}
