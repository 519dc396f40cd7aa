//! Printing to a sink.

ghost use Rattle.std.specs.Prelude.{◌≢◌, [], OnOk, OnErr};
ghost use Rattle.rmt_io.specs.Outside.{Gained, PrintingFailed, OnlyPrinted};
ghost use Rattle.rmt_runs.specs.Printing.{GainedFront};

use rmt_io::sink::{Sink, SinkFault};

/// Writes a whole text, piece by piece, as the sink takes it. After a fault a front of the text was written.
pub fn print<O: Sink>(out: &mut O, text: &[u8]) -> Result<(), SinkFault>
    ensures printed { OnOk result (Gained (O.state out.old) (O.state out.new) text.now) }
    ensures front { OnErr result (GainedFront (O.state out.old) (O.state out.new) text.now) }
    ensures failed { OnErr result (PrintingFailed (O.state out.old) (O.state out.new)) }
    ensures some { OnErr result (text.now ≢ []) }
    ensures only_printed { OnlyPrinted (O.state out.old) (O.state out.new) }
{
    let mut rest = text;
    while !rest.is_empty() {
        match out.write(rest) {
            Ok(taken) => rest = &rest[taken..],
            Err(fault) => return Err(fault),
        }
    }
    Ok(())
}
