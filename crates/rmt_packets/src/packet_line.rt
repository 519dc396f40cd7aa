//! Packet lines.

ghost use Rattle.std.specs.Prelude.{◌≡◌, ℕ, ⊤, ◌+◌, ◌*◌, ◌<◌, ◌≤◌, [], length, take, IsTrue, IfOk, IfErr, OnOk, OnErr, IsErr};
ghost use Rattle.hex.specs.Hex.{decode_of};
ghost use Rattle.rmt_packets.specs.Fault.{MatchFault};
ghost use Rattle.rmt_packets.specs.Pieces.{front_of};
ghost use Rattle.rmt_packets.specs.PacketText.{begins_with_port, packet_of, port_digits};

use rmt_bits::digits::{digits_len, number_up_to};
use thiserror::Error;

/// Why a packet line was not read, or an answer line not written.
#[derive(Clone, Copy, Debug, Drop, PartialEq, Eq, Error)]
pub enum PacketFault {
    #[error("out of memory")]
    NoMemory,
    /// 1: the line's form. 2: a port above 511. 3: a frame of no byte or of more than 9,216 bytes.
    #[error("the packet line has a fault of code {0}")]
    Code(u8),
}

/// The most digits of a port.
const PORT_DIGITS: usize = 10;

/// The greatest port.
const LAST_PORT: u128 = 511;

/// The most digits of a frame, two for each of its 9,216 bytes.
const FRAME_DIGITS: usize = 18432;

/// Reads a packet line: it answers the port, and replaces what `into` held by the frame. After a refusal `into` is
/// empty.
#[tactic(auto, using(crate::proofs::Fronts::packet_of_front))]
pub fn read_packet(line: &[u8], into: &mut Vec<u8>) -> Result<u16, PacketFault>
    ensures packet { IfOk result (λ port. packet_of line.now ≡ Ok (record { port = port; frame = into.new.items })) }
    ensures code { IfErr result (λ fault. MatchFault fault ⊤ (λ code. packet_of line.now ≡ Err code)) }
    ensures emptied { OnErr result (into.new.items ≡ []) }

    // A line is read as its first 18,444 bytes are.
    ensures front { packet_of (front_of line.now) ≡ packet_of line.now }

    // What a packet that was read keeps.
    ensures port { IfOk result (λ port. port < 512) }
    ensures frame { OnOk result ((1 ≤ length into.new.items) × (length into.new.items ≤ 9216)) }
{
    into.clear();
    let count = digits_len(line);
    if !is_port(line, count) {
        return Err(PacketFault::Code(1));
    }
    let Some(port) = number_up_to(LAST_PORT, 10, &line[..count]) else {
        return Err(PacketFault::Code(2));
    };
    let digits = &line[count + 1..];
    if digits.is_empty() || FRAME_DIGITS < digits.len() {
        return Err(PacketFault::Code(3));
    }
    read_frame(digits, into)?;
    Ok(port as u16)
}

/// Whether a line, which begins with so many decimal digits, begins with a port and a space.
fn is_port(line: &[u8], count: usize) -> bool
    requires { length (port_digits line.now) ≡ count }
    ensures value { result ≡ begins_with_port line.now }
    ensures room { IsTrue result → count < length line.now }
{
    1 <= count && count <= PORT_DIGITS && line.get(count) == Some(&b' ')
}

/// Puts the bytes of hexadecimal digits into an empty `into`, which is empty after a refusal too.
fn read_frame(digits: &[u8], into: &mut Vec<u8>) -> Result<(), PacketFault>
    requires { into.old.items ≡ [] }
    ensures frame { OnOk result (decode_of digits.now ≡ Ok into.new.items) }
    ensures len { OnOk result (2 * length into.new.items ≡ length digits.now) }
    ensures code { IfErr result (λ fault. MatchFault fault ⊤ (λ code. (code ≡ 1) × IsErr (decode_of digits.now))) }
    ensures emptied { OnErr result (into.new.items ≡ []) }
{
    if digits.len() % 2 == 1 {
        return Err(PacketFault::Code(1));
    }
    if into.resize(digits.len() / 2, 0).is_err() {
        into.clear();
        return Err(PacketFault::NoMemory);
    }
    match hex::decode_to_slice(digits, into.as_mut_slice()) {
        Ok(()) => Ok(()),
        Err(_) => {
            into.clear();
            Err(PacketFault::Code(1))
        }
    }
}
