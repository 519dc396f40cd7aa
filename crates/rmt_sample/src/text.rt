//! Lines that are added to a text.

ghost use Rattle.std.specs.Prelude.{◌≡◌, ◌++◌, OnOk};
ghost use Rattle.rmt_sample.specs.Texts.{entry_line, station_line, host_line, packet_line};

use crate::frames::{host, put_frame, station};
use std::alloc::{AllocError, Global};

/// The entry of a table that sends the packets to an address by port `i` mod 512.
fn put_entry(
    alloc: Global,
    table: &str,
    address: u64,
    i: u32,
    into: &mut Vec<u8>,
) -> Result<(), AllocError>
    ensures { OnOk result (into.new.items ≡ into.old.items ++ entry_line table.now address i) }
{
    let port = i % 512;
    let line = format!(in alloc; "{table} {address} forward {port}\n")?;
    into.extend_from_slice(line.as_bytes())
}

/// The entry for station `i`.
pub fn put_station(alloc: Global, i: u32, into: &mut Vec<u8>) -> Result<(), AllocError>
    ensures { OnOk result (into.new.items ≡ into.old.items ++ station_line i) }
{
    put_entry(alloc, "macs", station(i), i, into)
}

/// The entry for host `i`.
pub fn put_host(alloc: Global, i: u32, into: &mut Vec<u8>) -> Result<(), AllocError>
    ensures { OnOk result (into.new.items ≡ into.old.items ++ host_line i) }
{
    put_entry(alloc, "hosts", u64::from(host(i)), i, into)
}

/// Packet `j`, by way of a buffer for its frame.
pub fn put_packet(
    alloc: Global,
    j: u32,
    frame: &mut Vec<u8>,
    into: &mut Vec<u8>,
) -> Result<(), AllocError>
    ensures { OnOk result (into.new.items ≡ into.old.items ++ packet_line j) }
{
    frame.clear();
    put_frame(j, frame)?;
    let port = j % 512;
    let bytes = hex::encode(alloc, frame.as_slice())?;
    let line = format!(in alloc; "{port} {bytes}\n")?;
    into.extend_from_slice(line.as_bytes())
}
