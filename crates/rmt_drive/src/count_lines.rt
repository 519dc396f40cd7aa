//! The lines of counters.

ghost use Rattle.std.specs.Prelude.{◌≡◌, ◌++◌, IfOk, OnOk};
ghost use Rattle.std.specs.List.{flat_map};
ghost use Rattle.rmt_drive.specs.SimText.{count_line};

use crate::numbers::add_number;
use rmt_bits::answer::Count;
use rmt_bits::counts::Counts;
use std::alloc::{AllocError, Global};

/// The lines of the counters, `count ENTRY PACKETS BYTES` each.
pub fn count_lines(alloc: Global, counters: &Counts) -> Result<Vec<u8>, AllocError>
    ensures { IfOk result (λ text. text.items ≡ flat_map count_line counters.now.counts) }
{
    let mut text = Vec::new(alloc);
    let mut at = 0;
    while at < counters.len() {
        let counts = counters.run_at(at);
        push_lines(&mut text, counts)?;
        at += counts.len();
    }
    Ok(text)
}

/// Adds the lines of some counters.
fn push_lines(text: &mut Vec<u8>, counts: &[Count]) -> Result<(), AllocError>
    ensures { OnOk result (text.new.items ≡ text.old.items ++ flat_map count_line counts.now) }
{
    for count in counts {
        push_line(text, count)?;
    }
    Ok(())
}

/// Adds the line of a counter.
fn push_line(text: &mut Vec<u8>, count: &Count) -> Result<(), AllocError>
    ensures { OnOk result (text.new.items ≡ text.old.items ++ count_line count.now) }
{
    text.extend_from_slice(b"count ")?;
    add_number(u64::from(count.entry), text)?;
    text.push(b' ')?;
    add_number(count.packets, text)?;
    text.push(b' ')?;
    add_number(count.bytes, text)?;
    text.push(b'\n')?;
    Ok(())
}
