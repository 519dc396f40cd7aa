//! The records of a capture that is written.

ghost use Rattle.std.specs.Prelude.{◌≡◌, ◌<◌, ◌++◌, ◌∷◌, ◌^◌, [], ℕ, List, length, replicate, IfOk, OnOk};
ghost use Rattle.rmt_pcap.specs.Written.{four_bytes, record_text};
ghost use Rattle.rmt_switch.specs.Ports.{file_text};

use rmt_pcap::capture::Capture;
use std::alloc::{AllocError, Global};

/// How many bytes of an item are its time.
const TIME: usize = 8;

/// Puts the record of an item behind the capture of a port, which begins with the head of the capture that was read.
pub fn put_item(file: &mut Vec<u8>, capture: &Capture, item: &[u8]) -> Result<(), AllocError>
    requires head { length capture.now.head ≡ 24 }
    requires short { length item.now < 2 ^ 32 }
    ensures { OnOk result ((items : List (List ℕ)) → file.old.items ≡ file_text capture.now items →
        file.new.items ≡ file_text capture.now (items ++ item.now ∷ [])) }
{
    if file.is_empty() {
        file.extend_from_slice(capture.head.as_slice())?;
    }
    put_record(file, capture.big, item)
}

/// Puts the record of an item behind others.
fn put_record(file: &mut Vec<u8>, big: bool, item: &[u8]) -> Result<(), AllocError>
    requires { length item.now < 2 ^ 32 }
    ensures { OnOk result (file.new.items ≡ file.old.items ++ record_text big item.now) }
{
    let (time, frame) = item.split_at(TIME.min(item.len()));
    let len = if big {
        (frame.len() as u32).to_be_bytes()
    } else {
        (frame.len() as u32).to_le_bytes()
    };
    file.extend_from_slice(time)?;
    file.extend_from_slice(&len)?;
    file.extend_from_slice(&len)?;
    file.extend_from_slice(frame)
}
