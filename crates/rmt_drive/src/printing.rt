//! Printing to a sink.

ghost use Rattle.std.specs.Prelude.{◌≡◌, ◌≢◌, ◌⊎◌, []};
ghost use Rattle.rmt_io.specs.Outside.{Gained, PrintingFailed, OnlyPrinted};
ghost use Rattle.rmt_runs.specs.Printing.{GainedFront};

use crate::status::Status;
use rmt_io::sink::Sink;
use rmt_runs::printing::print;

/// Prints the whole rest of a command's text, and answers the status; where the sink fails, it is `WriteFault`.
pub fn end_with<O: Sink>(out: &mut O, text: &[u8], status: Status) -> Status
    requires { status ≢ Status.WriteFault }
    ensures some { result ≡ Status.WriteFault → text.now ≢ [] }
    ensures status { (result ≡ status) ⊎ (result ≡ Status.WriteFault) }
    ensures printed { result ≡ status → Gained (O.state out.old) (O.state out.new) text.now }
    ensures front { GainedFront (O.state out.old) (O.state out.new) text.now }
    ensures failed { result ≡ Status.WriteFault →
        PrintingFailed (O.state out.old) (O.state out.new) }
    ensures only_printed { OnlyPrinted (O.state out.old) (O.state out.new) }
{
    match print(out, text) {
        Ok(()) => status,
        Err(_) => Status::WriteFault,
    }
}
