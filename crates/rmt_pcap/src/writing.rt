//! Capture files, written.

ghost use Rattle.std.specs.Prelude.{◌≡◌, ◌++◌, [], length, All, IfOk, OnOk, OnErr, IsErrOf};
ghost use Rattle.rmt_pcap.specs.Written.{IsItem, record_text, written};

use crate::fault::CaptureFault;
use crate::numbers::put_four;
use rmt_bits::answer::Bytes;
use rmt_bits::sequence::Sequence;
use std::alloc::{AllocError, Global};

/// How many bytes of an item are its time.
const TIME: usize = 8;

/// Writes the capture file of a head of 24 bytes and of items of 8 to 13,320 bytes each, which are the 8 bytes of
/// seconds and fraction and then the bytes of a frame. Numbers have their highest byte first where `big`, and else
/// their lowest.
///
/// # Errors
///
/// For want of memory alone.
pub fn write_capture(
    alloc: Global,
    head: &Bytes,
    big: bool,
    items: &Sequence<Bytes>,
) -> Result<Bytes, CaptureFault>
    requires head { length head.now ≡ 24 }
    requires items { All IsItem items.now }
    ensures text { IfOk result (λ text. text ≡ written head.now big items.now) }
    ensures no_memory { OnErr result (IsErrOf result CaptureFault.NoMemory) }
{
    let mut out = Vec::new(alloc);
    put_all(&mut out, head, big, items)?;
    Ok(Bytes::from_vec(out))
}

/// Puts the head and the items.
fn put_all(
    out: &mut Vec<u8>,
    head: &Bytes,
    big: bool,
    items: &Sequence<Bytes>,
) -> Result<(), AllocError>
    requires empty { out.old.items ≡ [] }
    requires items { All IsItem items.now }
    ensures { OnOk result (out.new.items ≡ written head.now big items.now) }
{
    out.extend_from_slice(head.as_slice())?;
    for item in items.as_slice() {
        put_item(out, big, item.as_slice())?;
    }
    Ok(())
}

/// Puts the record of an item.
fn put_item(out: &mut Vec<u8>, big: bool, item: &[u8]) -> Result<(), AllocError>
    requires { IsItem item.now }
    ensures { OnOk result (out.new.items ≡ out.old.items ++ record_text big item.now) }
{
    let (time, frame) = item.split_at(TIME);
    out.extend_from_slice(time)?;
    let len = frame.len() as u32;
    put_four(out, big, len)?;
    put_four(out, big, len)?;
    out.extend_from_slice(frame)
}
