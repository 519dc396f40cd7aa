//! Answer lines.

ghost use Rattle.std.specs.Prelude.{◌≡◌, ◌++◌, [], length, take, codes, decimal, OnOk, OnErr, IsErrOf};
ghost use Rattle.rmt_packets.specs.AnswerLine.{answer_line, hex_or_dash, verdict_text};

use crate::packet_line::PacketFault;
use itoa::Buffer;
use rmt_bits::answer::{Answer, Verdict};
use std::alloc::AllocError;

/// Appends the line of the answer to the packet of a number. `NoMemory` is its only refusal, and `into` is then as
/// before.
pub fn write_answer(number: u64, answer: &Answer, into: &mut Vec<u8>) -> Result<(), PacketFault>
    ensures line { OnOk result (into.new.items ≡ into.old.items ++ answer_line number answer.now) }
    ensures no_memory { OnErr result (IsErrOf result PacketFault.NoMemory) }
    ensures unchanged { OnErr result (into.new.items ≡ into.old.items) }
{
    write_line(number, answer.verdict, answer.bytes.as_slice(), into)
}

/// Appends the line of the answer to the packet of a number, given by its verdict and the bytes that are sent, which
/// are shown only behind a port. `NoMemory` is its only refusal, and `into` is then as before.
pub fn write_line(
    number: u64,
    verdict: Verdict,
    bytes: &[u8],
    into: &mut Vec<u8>,
) -> Result<(), PacketFault>
    ensures line { OnOk result (into.new.items ≡ into.old.items ++ answer_line number (record { verdict = verdict; bytes = bytes.now; hits = [] })) }
    ensures no_memory { OnErr result (IsErrOf result PacketFault.NoMemory) }
    ensures unchanged { OnErr result (into.new.items ≡ into.old.items) }
{
    let before = into.len();
    if let Err(_) = into.extend_from_slice(Buffer::new().format(number).as_bytes()) {
        return Err(PacketFault::NoMemory);
    }
    if let Err(_) = append_verdict(verdict, bytes, into) {
        into.truncate(before);
        return Err(PacketFault::NoMemory);
    }
    Ok(())
}

/// Appends what a line says behind the number, or on a refusal maybe its front.
fn append_verdict(verdict: Verdict, bytes: &[u8], into: &mut Vec<u8>) -> Result<(), AllocError>
    ensures line { OnOk result (into.new.items ≡ into.old.items ++ (codes " " ++ (verdict_text verdict bytes.now ++ codes "\n"))) }
    ensures kept { take (length into.old.items) into.new.items ≡ into.old.items }
{
    match verdict {
        Verdict::Short => into.extend_from_slice(b" drop short\n"),
        Verdict::Reject => into.extend_from_slice(b" drop reject\n"),
        Verdict::Dropped => into.extend_from_slice(b" drop action\n"),
        Verdict::Sent { port } => append_sent(port, bytes, into),
    }
}

/// Appends what a line says of a packet that is sent, or on a refusal maybe its front.
fn append_sent(port: u16, bytes: &[u8], into: &mut Vec<u8>) -> Result<(), AllocError>
    ensures line { OnOk result (into.new.items ≡ into.old.items ++ (codes " " ++ (decimal port ++ (codes " " ++ (hex_or_dash bytes.now ++ codes "\n"))))) }
    ensures kept { take (length into.old.items) into.new.items ≡ into.old.items }
{
    into.push(b' ')?;
    into.extend_from_slice(Buffer::new().format(port).as_bytes())?;
    into.push(b' ')?;
    append_hex(bytes, into)?;
    into.push(b'\n')?;
    Ok(())
}

/// Appends bytes in hexadecimal digits of lower case, or a dash where there is none.
fn append_hex(bytes: &[u8], into: &mut Vec<u8>) -> Result<(), AllocError>
    ensures digits { OnOk result (into.new.items ≡ into.old.items ++ hex_or_dash bytes.now) }
    ensures unchanged { OnErr result (into.new.items ≡ into.old.items) }
{
    if bytes.is_empty() {
        return into.extend_from_slice(b"-");
    }
    let from = into.len();
    let digits = bytes.len().checked_mul(2);
    let Some(end) = digits.and_then(|count| from.checked_add(count)) else {
        return Err(AllocError);
    };
    into.resize(end, 0)?;
    match hex::encode_to_slice(bytes, &mut into[from..]) {
        Ok(()) => Ok(()),
        Err(_) => unreachable!(),
    }
}
