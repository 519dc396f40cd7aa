//! The command `plain`.

ghost use Rattle.std.specs.Prelude.{string_bytes};
ghost use Rattle.rmt_core.specs.Commands.{IsPossible, Plain as Command};
ghost use Rattle.rmt_drive.specs.Ends.{ReadsAndPrints, outside};
ghost use Rattle.rmt_core.specs.PlainText.{GivesPlain};

use crate::loading::{PACKETS_LIMIT, open_file};
use crate::plain_begin::begin;
use crate::text_files::read_texts;
use crate::texts::{tell_text_fault, understand};
use rmt_check::laws::one_meaning;
use rmt_drive::plain_run::run_plain;
use rmt_drive::status::Status;
use rmt_io::shelf::Shelf;
use rmt_io::sink::Sink;
use std::alloc::Global;

/// Runs a program with its entries table by table, one packet of a text after another; the text may change the entries.
pub fn plain<F: Shelf, O: Sink>(
    alloc: Global,
    program: &String,
    entries: &String,
    packets: &String,
    shelf: &mut F,
    out: &mut O,
) -> Status
    ensures possible { IsPossible
        (Command (string_bytes program.now) (string_bytes entries.now)
        (string_bytes packets.now)) result }
    ensures call { ReadsAndPrints (outside (F.state shelf.old) (O.state out.old))
        (outside (F.state shelf.new) (O.state out.new))
        (λ files. GivesPlain files (string_bytes program.now) (string_bytes entries.now)
        (string_bytes packets.now)) result }
{
    one_meaning();
    let texts = match read_texts(alloc, program, entries, shelf) {
        Ok(texts) => texts,
        Err(status) => return status,
    };
    match open_file(alloc, packets, shelf) {
        Ok(()) => {}
        Err(status) => return status,
    }
    let meant = match understand(alloc, texts.program.as_slice(), texts.entries.as_slice()) {
        Ok(meant) => meant,
        Err(fault) => return tell_text_fault(alloc, fault, out),
    };
    match begin(alloc, meant) {
        Ok(mut run) => run_plain(alloc, shelf, PACKETS_LIMIT, &mut run, out),
        Err(_) => Status::NoMemory,
    }
}
