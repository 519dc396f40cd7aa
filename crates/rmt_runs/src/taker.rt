//! What takes the lines of a packet text.

ghost use Rattle.std.specs.Prelude.{◌≡◌, ◌<◌, ◌⊎◌, ◌^◌, ◌+◌, ◌++◌, ◌∷◌, [], ℕ, List, None, Some, IsErrOf, IfErr, IfOk, OnOk};
ghost use Rattle.rmt_io.specs.Outside.{SinkState, PrintingFailed, OnlyPrinted};
ghost use Rattle.rmt_runs.specs.declared.fault.RunFault.{RunFault};

use crate::fault::RunFault;
use rmt_io::sink::Sink;
use std::alloc::Global;

/// A run that takes one line of a packet text after another, and prints what they give.
pub trait TakesLines {
    /// What a run is of: a program with its entries, or a chip's configuration.
    ghost Subject: { Type 0 };

    /// What it borrows, by name.
    ghost Lent: { Type 0 } = { Unit {0} };

    ghost lent: { Self → Self.Lent };

    /// No more than so many lines brought it so far.
    ghost IsFew: { ℕ → Self → Type 0 };

    /// It is a run over these lines, of which none is bad. Of what they print some was written since the first state of a
    /// sink, and the rest waits.
    ghost Stands: { Self.Subject → List (ℕ × List ℕ) → Self → SinkState → SinkState → Type 0 };

    /// It is one over these lines, and the line behind them is bad by this code.
    ghost Stops: { Self.Subject → List (ℕ × List ℕ) → ℕ × List ℕ → ℕ → Self → SinkState → SinkState → Type 0 };

    /// A run over these lines was cut off at the line behind them.
    ghost Breaks: { Self.Subject → List (ℕ × List ℕ) → ℕ × List ℕ → SinkState → SinkState → RunFault → Type 0 };

    /// Takes the next line of a text, which is not passed over, and writes the lines that wait where they are many. It answers
    /// the code of a bad line.
    fn take_line<O: Sink>(
        &mut self,
        alloc: Global,
        line: &[u8],
        frame: &mut Vec<u8>,
        out: &mut O,
    ) -> Result<Option<u8>, RunFault>
        requires stands { (x : Subject) × (lines : List (ℕ × List ℕ)) × (before : SinkState)
            × Stands x lines self.old before (O.state out.old) }
        requires few { (lines : ℕ) × (lines < 2 ^ 41) × IsFew lines self.old }
        ensures taken { IfOk result
            (λ code. code ≡ None → (x : Subject) (lines : List (ℕ × List ℕ)) (number : ℕ)
            (before : SinkState) → Stands x lines self.old before (O.state out.old) →
            Stands x (lines ++ (number, line.now) ∷ []) self.new before (O.state out.new)) }
        ensures stopped { IfOk result
            (λ code. (bad : ℕ) → code ≡ Some bad → (x : Subject) (lines : List (ℕ × List ℕ))
            (number : ℕ) (before : SinkState) → Stands x lines self.old before (O.state out.old) →
            Stops x lines (number, line.now) bad self.new before (O.state out.new)) }
        ensures cut { IfErr result
            (λ fault. (x : Subject) (lines : List (ℕ × List ℕ)) (number : ℕ) (before : SinkState) →
            Stands x lines self.old before (O.state out.old) →
            Breaks x lines (number, line.now) before (O.state out.new) fault) }
        ensures few { OnOk result ((lines : ℕ) → IsFew lines self.old → IsFew (lines + 1) self.new) }
        ensures lent { lent self.new ≡ lent self.old }
        ensures either { IfErr result
            (λ fault. (fault ≡ RunFault.NoMemory) ⊎ (fault ≡ RunFault.Write)) }
        ensures failed { IsErrOf result RunFault.Write →
            PrintingFailed (O.state out.old) (O.state out.new) }
        ensures only_printed { OnlyPrinted (O.state out.old) (O.state out.new) };
}
