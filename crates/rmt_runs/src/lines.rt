//! The lines of a packet text, one after another.

ghost use Rattle.std.specs.Prelude.{◌≡◌, ◌≤◌, ℕ, [], IsTrue, IsErrOf, IfErr, IfOk, OnOk};
ghost use Rattle.rmt_io.specs.Outside.{ReadingFailed, OnlyRead, PrintingFailed, OnlyPrinted};
ghost use Rattle.rmt_runs.specs.TextLines.{BreaksOff, EndsBy};

use crate::fault::{Bad, RunFault};
use crate::reader::PacketReader;
use crate::taker::TakesLines;
use rmt_io::shelf::Shelf;
use rmt_io::sink::Sink;
use std::alloc::Global;

/// Takes the lines of the shelf's open file, of which so many bytes may be read, up to its end or its first bad line.
pub fn take_all<F: Shelf, T: TakesLines, O: Sink>(
    alloc: Global,
    shelf: &mut F,
    limit: u64,
    taker: &mut T,
    out: &mut O,
) -> Result<Option<Bad>, RunFault>
    requires limit { limit ≤ 1099511627776 }
    requires starts { (x : T.Subject) × T.Stands x [] taker.old (O.state out.old) (O.state out.old) }
    requires few { T.IsFew 0 taker.old }
    ensures ended { IfOk result
        (λ bad. (x : T.Subject) → T.Stands x [] taker.old (O.state out.old) (O.state out.old) →
        EndsBy (F.state shelf.old) limit
        (λ lines. T.Stands x lines taker.new (O.state out.old) (O.state out.new))
        (λ lines line code. T.Stops x lines line code taker.new (O.state out.old) (O.state out.new))
        bad) }
    ensures broken { IfErr result
        (λ fault. (x : T.Subject) → T.Stands x [] taker.old (O.state out.old) (O.state out.old) →
        BreaksOff (F.state shelf.old) limit
        (λ lines. T.Stands x lines taker.new (O.state out.old) (O.state out.new))
        (λ lines line. T.Breaks x lines line (O.state out.old) (O.state out.new) fault) fault) }
    ensures few { OnOk result
        ((lines : ℕ) × (lines ≤ 1099511627776) × T.IsFew lines taker.new) }
    ensures lent { T.lent taker.new ≡ T.lent taker.old }
    ensures write_fault { IsErrOf result RunFault.Write →
        PrintingFailed (O.state out.old) (O.state out.new) }
    ensures read_fault { IsErrOf result RunFault.Read →
        ReadingFailed (F.state shelf.old) (F.state shelf.new) }
    ensures never_fails { IsErrOf result RunFault.Read → IsTrue (F.state shelf.old).steady → ⊥ }
    ensures only_read { OnlyRead (F.state shelf.old) (F.state shelf.new) }
    ensures only_printed { OnlyPrinted (O.state out.old) (O.state out.new) }
{
    let Ok(mut reader) = PacketReader::new(alloc, limit) else {
        return Err(RunFault::NoMemory);
    };
    let mut frame = Vec::new(alloc);
    loop {
        match reader.next_line(shelf) {
            Ok(true) => {}
            Ok(false) => return Ok(None),
            Err(fault) => return Err(fault),
        }
        let line = reader.number();
        match taker.take_line(alloc, reader.line(), &mut frame, out) {
            Ok(None) => {}
            Ok(Some(code)) => return Ok(Some(Bad { code, line })),
            Err(fault) => return Err(fault),
        }
    }
}
