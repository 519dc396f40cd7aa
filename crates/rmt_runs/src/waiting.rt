//! The lines of a run that are not written yet.

ghost use Rattle.std.specs.Prelude.{◌≡◌, ◌≢◌, ◌≤◌, ◌++◌, [], length, OnOk, OnErr};
ghost use Rattle.rmt_io.specs.Outside.{Gained, PrintingFailed, OnlyPrinted};
ghost use Rattle.rmt_runs.specs.Printing.{GainedFront};
ghost use Rattle.rmt_runs.specs.Waiting.{Written};

use crate::printing::print;
use rmt_io::sink::{Sink, SinkFault};
use std::alloc::Global;

/// How many bytes of lines wait at most before they are written.
const MOST: usize = 65_536;

/// Lines that wait until they are many, so that a sink is not called for each of them.
#[derive(Drop)]
pub struct Waiting {
    pub lines: Vec<u8>,
}

impl Waiting {
    /// No lines.
    pub fn new(alloc: Global) -> Waiting
        ensures { result.lines.items ≡ [] }
    {
        Waiting {
            lines: Vec::new(alloc),
        }
    }

    /// Writes the lines where they have more than 65,536 bytes. After a fault a front of them was written.
    pub fn write_many<O: Sink>(&mut self, out: &mut O) -> Result<(), SinkFault>
        ensures few { OnOk result (length self.new.lines.items ≤ 65536) }
        ensures written { OnOk result
            (Written self.old.lines.items self.new.lines.items (O.state out.old)
            (O.state out.new)) }
        ensures front { OnErr result
            (GainedFront (O.state out.old) (O.state out.new) self.old.lines.items) }
        ensures some { OnErr result (self.old.lines.items ≢ []) }
        ensures failed { OnErr result (PrintingFailed (O.state out.old) (O.state out.new)) }
        ensures only_printed { OnlyPrinted (O.state out.old) (O.state out.new) }
    {
        if self.lines.len() <= MOST {
            return Ok(());
        }
        match print(out, self.lines.as_slice()) {
            Ok(()) => {
                self.lines.clear();
                Ok(())
            }
            Err(fault) => Err(fault),
        }
    }

    /// Writes the lines and a last text behind them. After a fault a front of both was written.
    pub fn end<O: Sink>(&self, last: &[u8], out: &mut O) -> Result<(), SinkFault>
        ensures printed { OnOk result
            (Gained (O.state out.old) (O.state out.new) (self.now.lines.items ++ last.now)) }
        ensures front { OnErr result
            (GainedFront (O.state out.old) (O.state out.new) (self.now.lines.items ++ last.now)) }
        ensures some { OnErr result (self.now.lines.items ++ last.now ≢ []) }
        ensures failed { OnErr result (PrintingFailed (O.state out.old) (O.state out.new)) }
        ensures only_printed { OnlyPrinted (O.state out.old) (O.state out.new) }
    {
        let Ok(()) = print(out, self.lines.as_slice()) else {
            return Err(SinkFault::Failed);
        };
        match print(out, last) {
            Ok(()) => Ok(()),
            Err(fault) => Err(fault),
        }
    }
}
