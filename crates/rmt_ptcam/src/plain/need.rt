//! What the parser of a program needs.

ghost use Rattle.std.specs.Prelude.{◌≡◌, ◌≤◌, ◌<◌, ◌*◌, ◌^◌, ℕ, length, min, List};
ghost use Rattle.rmt_ast.specs.declared.program.Header.{Header};
ghost use Rattle.rmt_ast.specs.WellFormed.{IsProgram, bits_of};
ghost use Rattle.rmt_ptcam.specs.Needs.{lookups_of, extract_count, entries_in, header_fault, refusal, unless};

use crate::fault::ParserFault;
use crate::plain::headers::{is_looked_up, width_of};
use rmt_ast::program::{Header, Program};

/// How many bytes the fields have that a header selects by.
fn count_lookups(program: &Program, header: &Header) -> u32
    requires program { IsProgram program.now }
    requires short { bits_of program.now header.now.fields ≤ 512 }
    ensures { result ≡ length (lookups_of program.now header.now) }
{
    let mut count: u32 = 0;
    for byte in 0..header.bytes {
        if is_looked_up(program, header, byte) {
            count += 1;
        }
    }
    count
}

/// How many extracts a header has: one, and one for each piece of each field.
fn count_extracts(program: &Program, header: &Header) -> u32
    requires program { IsProgram program.now }
    requires short { bits_of program.now header.now.fields ≤ 512 }
    ensures { result ≡ extract_count program.now header.now }
{
    let mut count: u32 = 1;
    for field in header.fields.as_slice() {
        count += u32::from(width_of(program, *field)).div_ceil(32);
    }
    count
}

/// How many entries the headers have, or 4,294,967,295 where there are more.
fn count_entries(headers: &[Header]) -> u32
    ensures { result ≡ min (entries_in headers.now) 4294967295 }
{
    let mut count: u32 = 0;
    for header in headers {
        let cases = header.cases.len().min(4294967294) as u32;
        count = count.saturating_add(cases + 1);
    }
    count
}

/// Refuses a header that looks at more than 4 bytes, or has more than 64 extracts.
fn header_need(program: &Program, number: u32, header: &Header) -> Result<(), ParserFault>
    requires program { IsProgram program.now }
    requires short { bits_of program.now header.now.fields ≤ 512 }
    ensures { result ≡ unless (header_fault program.now number header.now) tt }
{
    let bytes = count_lookups(program, header);
    if bytes > 4 {
        return Err(ParserFault::LookupWide {
            header: number,
            bytes,
        });
    }
    let extracts = count_extracts(program, header);
    if extracts > 64 {
        return Err(ParserFault::StepWide {
            header: number,
            extracts,
        });
    }
    Ok(())
}

/// Refuses a program whose parser the chip can't hold, by the plain parser's need. It takes no memory.
///
/// # Errors
///
/// Of the first header that is refused, `LookupWide` where it selects by fields with bits in more than 4 bytes, else
/// `StepWide` where it has more than 64 extracts; where no header is refused, `ParserFull` where there are more than 256
/// entries.
pub fn parser_need(program: &Program) -> Result<(), ParserFault>
    requires { IsProgram program.now }
    ensures { result ≡ unless (refusal program.now) tt }
{
    for (number, header) in program.headers.as_slice().iter().enumerate() {
        header_need(program, number as u32, header)?;
    }
    let entries = count_entries(program.headers.as_slice());
    if entries > 256 {
        return Err(ParserFault::ParserFull { entries });
    }
    Ok(())
}
