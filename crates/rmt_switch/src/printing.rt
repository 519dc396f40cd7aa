//! The line of a run.

ghost use Rattle.std.specs.Prelude.{◌≡◌, string_bytes, IfOk};
ghost use Rattle.rmt_switch.specs.Printed.{lost_part, sent_part, switch_line};

use crate::switched::SwitchCounts;
use std::alloc::{AllocError, Global};

/// The line `switch packets P skipped K out O drop D queue Q cells C`, with a line feed behind it. The only fault is
/// want of memory.
pub fn switch_line(alloc: Global, counts: &SwitchCounts) -> Result<String, AllocError>
    ensures { IfOk result (λ line. string_bytes line ≡ switch_line counts.now) }
{
    let mut line = sent_part(alloc, counts)?;
    let lost = lost_part(alloc, counts)?;
    line.push_str(lost.as_str())?;
    Ok(line)
}

/// What ports sent, beside what came in.
fn sent_part(alloc: Global, counts: &SwitchCounts) -> Result<String, AllocError>
    ensures { IfOk result (λ part. string_bytes part ≡ sent_part counts.now) }
{
    format!(in alloc;
        "switch packets {} skipped {} out {}",
        counts.packets, counts.skipped, counts.out
    )
}

/// What was lost, and the end of the line.
fn lost_part(alloc: Global, counts: &SwitchCounts) -> Result<String, AllocError>
    ensures { IfOk result (λ part. string_bytes part ≡ lost_part counts.now) }
{
    format!(in alloc;
        " drop {} queue {} cells {}\n",
        counts.dropped, counts.queue, counts.cells
    )
}
