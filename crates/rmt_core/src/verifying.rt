//! The command `verify`.

ghost use Rattle.std.specs.Prelude.{◌≡◌, ◌≤◌, ◌⊎◌, [], IfOk, length, string_bytes};
ghost use Rattle.rmt_core.specs.Parts.{OnlyPrinted, ReadsAndPrints, Tells, outside};
ghost use Rattle.rmt_io.specs.Outside.{ShelfState, GainedNone};
ghost use Rattle.rmt_core.specs.Commands.{IsPossible, Verify};
ghost use Rattle.rmt_drive.specs.Files.{entries_limit, program_limit};
ghost use Rattle.rmt_core.specs.Verifying.{ChecksTexts, GivesVerify, answer_line, bad_map_line};

use crate::bad_image::tell_bad_image;
use crate::loading::{IMAGE_LIMIT, MAP_LIMIT, read_file};
use crate::text_files::{TextFiles, read_texts};
use crate::texts::{tell_text_fault, understand};
use rmt_check::laws::one_meaning;
use rmt_drive::status::Status;
use rmt_drive::telling::tell;
use rmt_image::read_image;
use rmt_io::shelf::Shelf;
use rmt_io::sink::Sink;
use rmt_verify::{MapFault, check_map, read_map, spells_one};
use std::alloc::{AllocError, Global};

/// Tells whether an image and a map belong to a program with its entries, or which part fails first.
pub fn verify<F: Shelf, O: Sink>(
    alloc: Global,
    program: &String,
    entries: &String,
    image: &String,
    map: &String,
    shelf: &mut F,
    out: &mut O,
) -> Status
    ensures possible { IsPossible (Verify (string_bytes program.now) (string_bytes entries.now)
        (string_bytes image.now) (string_bytes map.now)) result }
    ensures call { ReadsAndPrints (outside (F.state shelf.old) (O.state out.old))
        (outside (F.state shelf.new) (O.state out.new))
        (λ files. GivesVerify files (string_bytes program.now) (string_bytes entries.now)
        (string_bytes image.now) (string_bytes map.now)) result }
    ensures quiet { (result ≡ Status.NoMemory) ⊎ (result ≡ Status.ReadFault)
        ⊎ (result ≡ Status.TooLong) → GainedNone (O.state out.old) (O.state out.new) }
{
    let texts = match read_texts(alloc, program, entries, shelf) {
        Ok(texts) => texts,
        Err(status) => return status,
    };
    let image_bytes = match read_file(alloc, image, IMAGE_LIMIT, shelf) {
        Ok(bytes) => bytes,
        Err(status) => return status,
    };
    match read_file(alloc, map, MAP_LIMIT, shelf) {
        Ok(map_bytes) => verify_bytes(alloc, &texts, &image_bytes, &map_bytes, out),
        Err(status) => status,
    }
}

/// The same of the bytes of all four files.
fn verify_bytes<O: Sink>(
    alloc: Global,
    texts: &TextFiles,
    image_bytes: &Vec<u8>,
    map_bytes: &Vec<u8>,
    out: &mut O,
) -> Status
    requires text { length texts.now.program.items ≤ program_limit }
    requires entries { length texts.now.entries.items ≤ entries_limit }
    ensures possible { IsPossible (Verify [] [] [] []) result }
    ensures call { (shelf : ShelfState) →
        ReadsAndPrints (outside shelf (O.state out.old)) (outside shelf (O.state out.new))
        (λ files. ChecksTexts files texts.now.program.items texts.now.entries.items
        image_bytes.now.items map_bytes.now.items) result }
    ensures quiet { (result ≡ Status.NoMemory) ⊎ (result ≡ Status.ReadFault)
        ⊎ (result ≡ Status.TooLong) → GainedNone (O.state out.old) (O.state out.new) }
{
    one_meaning();
    spells_one();
    let meant = match understand(alloc, texts.program.as_slice(), texts.entries.as_slice()) {
        Ok(meant) => meant,
        Err(fault) => return tell_text_fault(alloc, fault, out),
    };
    let config = match read_image(alloc, image_bytes.as_slice()) {
        Ok(config) => config,
        Err(fault) => return tell_bad_image(alloc, fault, out),
    };
    let map = match read_map(alloc, map_bytes.as_slice()) {
        Ok(map) => map,
        Err(MapFault::NoMemory) => return Status::NoMemory,
        Err(MapFault::Form) => return tell_bad_map(alloc, out),
    };
    match check_map(alloc, &meant.program, &meant.entries, &config, &map) {
        Ok(failing) => tell(answer_text(alloc, failing), Status::Done, out),
        Err(_) => Status::NoMemory,
    }
}

/// `yes`, or `no K` with the number of the first part that fails.
fn answer_text(alloc: Global, failing: Option<u8>) -> Result<Vec<u8>, AllocError>
    ensures { IfOk result (λ line. line.items ≡ answer_line failing) }
{
    let line = match failing {
        None => String::from_str(alloc, "yes\n")?,
        Some(part) => format!(in alloc; "no {part}\n")?,
    };
    Ok(line.into_bytes())
}

/// Prints the last line of bytes that are no map, and answers `BadImage`; `NoMemory` where there is no memory, and then nothing
/// is printed.
fn tell_bad_map<O: Sink>(alloc: Global, out: &mut O) -> Status
    ensures line { Tells (O.state out.old) (O.state out.new)
        bad_map_line Status.BadImage result }
    ensures only_printed { OnlyPrinted (O.state out.old) (O.state out.new) }
{
    tell(bad_map_text(alloc), Status::BadImage, out)
}

fn bad_map_text(alloc: Global) -> Result<Vec<u8>, AllocError>
    ensures { IfOk result (λ line. line.items ≡ bad_map_line) }
{
    let line = String::from_str(alloc, "bad image 7\n")?;
    Ok(line.into_bytes())
}
