//! Addresses and frames.

ghost use Rattle.std.specs.Prelude.{◌≡◌, ◌<◌, ◌^◌, ◌++◌, replicate, OnOk};
ghost use Rattle.rmt_sample.specs.Texts.{station as station_of, host as host_of, ethernet, internet, frame};

use std::alloc::AllocError;

/// The address of station `i`, of 48 bits.
pub fn station(i: u32) -> u64
    ensures address { result ≡ station_of i }
    ensures fits { result < 2 ^ 48 }
{
    0x0200_0000_0000 + (u64::from(i) * 2_654_435_761) % 4_294_967_296
}

/// The address of host `i`, of 32 bits.
pub fn host(i: u32) -> u32
    ensures { result ≡ host_of i }
{
    ((u64::from(i) * 2_246_822_519) % 4_294_967_296) as u32
}

/// The bytes of frame `j`.
pub fn put_frame(j: u32, into: &mut Vec<u8>) -> Result<(), AllocError>
    ensures { OnOk result (into.new.items ≡ into.old.items ++ frame j) }
{
    if j % 2 == 0 {
        put_ethernet(station(j), 0x0806, into)
    } else {
        put_to_host(host(j), into)
    }
}

/// The bytes of a frame to a host, by way of the first station.
#[tactic(auto, using(crate::proofs::Lines::three))]
fn put_to_host(host: u32, into: &mut Vec<u8>) -> Result<(), AllocError>
    ensures { OnOk result (into.new.items ≡ into.old.items ++ (ethernet (station_of 0) 2048 ++ internet host)) }
{
    put_ethernet(station(0), 0x0800, into)?;
    put_internet(host, into)
}

/// An Ethernet header.
fn put_ethernet(to: u64, kind: u16, into: &mut Vec<u8>) -> Result<(), AllocError>
    ensures { OnOk result (into.new.items ≡ into.old.items ++ ethernet to kind) }
{
    let address = to.to_be_bytes();
    into.extend_from_slice(&address[2..])?;
    into.extend_from_slice(&[0; 6])?;
    into.extend_from_slice(&kind.to_be_bytes())
}

/// An IPv4 header.
fn put_internet(to: u32, into: &mut Vec<u8>) -> Result<(), AllocError>
    ensures { OnOk result (into.new.items ≡ into.old.items ++ internet to) }
{
    into.extend_from_slice(&[0; 8])?;
    into.extend_from_slice(&[64, 17, 0, 0, 0, 0, 0, 0])?;
    into.extend_from_slice(&to.to_be_bytes())
}
