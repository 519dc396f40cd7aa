//! What is sent of a packet: the valid headers, each with its tail, and the payload.

ghost use Rattle.std.specs.Prelude.{◌≡◌, ◌+◌, ◌*◌, ◌≤◌, ◌++◌, length, drop, map, OnOk};
ghost use Rattle.std.specs.List.{flat_map, zip};
ghost use Rattle.rmt_bits.specs.Bits.{bytes_of, number_of};
ghost use Rattle.rmt_ast.specs.declared.program.Header.{Header};
ghost use Rattle.rmt_ast.specs.State.{IsState, joined};
ghost use Rattle.rmt_ast.specs.WellFormed.{bits_of};
ghost use Rattle.rmt_ast.specs.Answers.{header_bytes, sent_bytes as sent_of};
ghost use Rattle.rmt_plain.specs.Runnable.{HeaderFits, IsRunnable};
ghost use Rattle.rmt_plain.specs.Walking.{bytes_in};

use crate::fields::width_of;
use crate::numbers::number_at;
use crate::reached::Span;
use rmt_ast::program::{Header, Program};
use rmt_bits::bits::{bytes_of_bits, slice};
use std::alloc::AllocError;

/// Writes fields, the first one highest, into that many bytes.
fn fill(program: &Program, fields: &[u32], state: &[u128], bytes: &mut [u8])
    requires runs { IsRunnable program.now }
    requires whole { bits_of program.now fields.now ≡ 8 * length bytes.old }
    requires short { length bytes.old ≤ 64 }
    ensures { IsState program.now state.now →
        number_of bytes.new ≡ joined program.now fields.now state.now }
{
    bytes.fill(0);
    let mut at: u32 = 0;
    for field in fields {
        let width = width_of(program, *field);
        let value = slice(number_at(state, *field as usize), 0, width);
        bytes_of_bits(value, width, bytes, at);
        at += u32::from(width);
    }
}

/// Adds bytes, said by their number.
fn push_bytes(out: &mut Vec<u8>, bytes: &[u8]) -> Result<(), AllocError>
    ensures { OnOk result (out.new.items ≡ out.old.items ++ bytes_of (length bytes.now) (number_of bytes.now)) }
{
    out.extend_from_slice(bytes)?;
    Ok(())
}

/// Adds the bytes of a header's fields.
fn push_fields(
    out: &mut Vec<u8>,
    program: &Program,
    header: &Header,
    state: &[u128],
) -> Result<(), AllocError>
    requires runs { IsRunnable program.now }
    requires fits { HeaderFits program.now header.now }
    ensures { OnOk result (IsState program.now state.now →
        out.new.items
        ≡ out.old.items ++ bytes_of header.now.bytes (joined program.now header.now.fields state.now)) }
{
    let mut buffer = [0; 64];
    let bytes = &mut buffer[..usize::from(header.bytes)];
    fill(program, header.fields.as_slice(), state, bytes);
    push_bytes(out, bytes)
}

/// The bytes of a span of a frame, as far as they are there.
fn bytes_at(frame: &[u8], span: Span) -> &[u8]
    ensures { result.now ≡ bytes_in frame.now span }
{
    let from = span.from.min(frame.len());
    let len = span.len.min(frame.len() - from);
    &frame[from..from + len]
}

/// Adds the bytes of a header with its tail, where it is valid.
fn push_header(
    out: &mut Vec<u8>,
    program: &Program,
    header: &Header,
    state: &[u128],
    tail: &[u8],
) -> Result<(), AllocError>
    requires runs { IsRunnable program.now }
    requires fits { HeaderFits program.now header.now }
    ensures { OnOk result (IsState program.now state.now →
        out.new.items ≡ out.old.items ++ header_bytes program.now state.now header.now tail.now) }
{
    if number_at(state, header.valid as usize) == 1 {
        push_fields(out, program, header, state)?;
        out.extend_from_slice(tail)?;
    }
    Ok(())
}

/// Adds the bytes of all valid headers, in their order, each with its tail.
fn push_headers(
    out: &mut Vec<u8>,
    program: &Program,
    frame: &[u8],
    tails: &[Span],
    state: &[u128],
) -> Result<(), AllocError>
    requires { IsRunnable program.now }
    ensures { OnOk result (IsState program.now state.now →
        out.new.items ≡ out.old.items
        ++ flat_map (λ (x : Header × Span). header_bytes program.now state.now x.0 (bytes_in frame.now x.1))
        (zip program.now.headers tails.now)) }
{
    let headers = program.headers.as_slice();
    for i in 0..headers.len().min(tails.len()) {
        push_header(out, program, &headers[i], state, bytes_at(frame, tails[i]))?;
    }
    Ok(())
}

/// Adds what is sent of a frame of which a walk has come so far.
pub fn push_sent(
    out: &mut Vec<u8>,
    program: &Program,
    frame: &[u8],
    tails: &[Span],
    at: usize,
    state: &[u128],
) -> Result<(), AllocError>
    requires { IsRunnable program.now }
    ensures { OnOk result (IsState program.now state.now →
        out.new.items ≡ out.old.items
        ++ sent_of program.now state.now (map (bytes_in frame.now) tails.now) (drop at frame.now)) }
{
    push_headers(out, program, frame, tails, state)?;
    out.extend_from_slice(&frame[at.min(frame.len())..])?;
    Ok(())
}
