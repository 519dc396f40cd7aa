//! Last lines.

ghost use Rattle.std.specs.Prelude.{◌≡◌, ◌≢◌, ℕ, List, IfOk};
ghost use Rattle.rmt_io.specs.Outside.{OnlyPrinted};
ghost use Rattle.rmt_drive.specs.Telling.{Tells};

use crate::printing::end_with;
use crate::status::Status;
use rmt_io::sink::Sink;
use std::alloc::AllocError;

/// Prints a last line and answers its status, or `WriteFault` where the sink fails. Where there was no memory for the line
/// nothing is printed, and the answer is `NoMemory`.
pub fn tell<O: Sink>(line: Result<Vec<u8>, AllocError>, status: Status, out: &mut O) -> Status
    requires no_fault { status ≢ Status.WriteFault }
    requires no_want { status ≢ Status.NoMemory }
    ensures line { (text : List ℕ) → IfOk line (λ l. l.items ≡ text) →
        Tells (O.state out.old) (O.state out.new) text status result }
    ensures only_printed { OnlyPrinted (O.state out.old) (O.state out.new) }
{
    match line {
        Ok(line) => end_with(out, line.as_slice(), status),
        Err(_) => Status::NoMemory,
    }
}
