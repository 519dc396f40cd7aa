//! Numbers of a capture file, in either order of bytes.

ghost use Rattle.std.specs.Prelude.{◌≡◌, ◌+◌, ◌++◌, ◌≤◌, length, OnOk};
ghost use Rattle.rmt_pcap.specs.Captures.{field};
ghost use Rattle.rmt_pcap.specs.Written.{four_bytes};

use std::alloc::AllocError;

/// The number of the two bytes from a place on.
pub fn two_at(big: bool, bytes: &[u8], at: usize) -> u16
    requires { at + 2 ≤ length bytes.now }
    ensures { result ≡ field big at 2 bytes.now }
{
    let first = u16::from(bytes[at]);
    let second = u16::from(bytes[at + 1]);
    if big {
        256 * first + second
    } else {
        256 * second + first
    }
}

/// The number of the four bytes from a place on.
pub fn four_at(big: bool, bytes: &[u8], at: usize) -> u32
    requires { at + 4 ≤ length bytes.now }
    ensures { result ≡ field big at 4 bytes.now }
{
    let first = u32::from(two_at(big, bytes, at));
    let second = u32::from(two_at(big, bytes, at + 2));
    if big {
        65536 * first + second
    } else {
        65536 * second + first
    }
}

/// Puts the four bytes of a number behind others.
pub fn put_four(out: &mut Vec<u8>, big: bool, number: u32) -> Result<(), AllocError>
    ensures { OnOk result (out.new.items ≡ out.old.items ++ four_bytes big number) }
{
    let bytes = if big {
        number.to_be_bytes()
    } else {
        number.to_le_bytes()
    };
    out.extend_from_slice(&bytes)
}
