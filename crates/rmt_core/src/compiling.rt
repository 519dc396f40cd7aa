//! The commands `compile`, with and without a map, and `improve`, which place the nodes of a program in two ways.

ghost use Rattle.std.specs.Prelude.{◌≡◌, ◌≢◌, ◌⊎◌, [], IfOk, string_bytes};
ghost use Rattle.rmt_core.specs.Commands.{IsPossible, Compile};
ghost use Rattle.rmt_core.specs.Compiling.{GivesImage};
ghost use Rattle.rmt_drive.specs.Ends.{WritesAndPrints, outside};
ghost use Rattle.rmt_drive.specs.Given.{Stores};
ghost use Rattle.rmt_core.specs.Making.{bytes_of, image_and};
ghost use Rattle.rmt_core.specs.WantedNames.{names_of};
ghost use Rattle.rmt_core.specs.Writing.{write_of, writes_of};
ghost use Rattle.rmt_core.specs.Placers.{IsPlacer};

use crate::making::{Made, Refusal, make};
use crate::placer::Placer;
use crate::text_files::read_texts;
use crate::texts::{tell_text_fault, understand};
use crate::writing::{NewFile, deliver};
use rmt_check::laws::one_meaning;
use rmt_drive::printing::end_with;
use rmt_drive::status::Status;
use rmt_io::shelf::Shelf;
use rmt_io::sink::Sink;
use std::alloc::{AllocError, Global};

/// The names of the files that are made.
#[derive(Clone, Copy)]
pub struct Wanted<'a> {
    pub image: &'a String,
    /// Of the map, where one is wanted.
    pub map: Option<&'a String>,
}

/// Compiles a program and its entries to an image, with the program's nodes placed so, and to its map where one is wanted, and
/// prints its lines. All is made before anything is written.
pub fn compile<F: Shelf, O: Sink>(
    alloc: Global,
    placer: Placer,
    program: &String,
    entries: &String,
    wanted: Wanted<'_>,
    shelf: &mut F,
    out: &mut O,
) -> Status
    requires { IsPlacer placer }
    ensures possible { IsPossible
        (Compile (string_bytes program.now) (string_bytes entries.now)
        (string_bytes wanted.entry.image.now)) result }
    ensures call { WritesAndPrints (outside (F.state shelf.old) (O.state out.old))
        (outside (F.state shelf.new) (O.state out.new))
        (λ files. GivesImage placer files (string_bytes program.now) (string_bytes entries.now)
        (names_of wanted.entry)) result }
{
    one_meaning();
    let texts = match read_texts(alloc, program, entries, shelf) {
        Ok(texts) => texts,
        Err(status) => return status,
    };
    let meant = match understand(alloc, texts.program.as_slice(), texts.entries.as_slice()) {
        Ok(meant) => meant,
        Err(fault) => return tell_text_fault(alloc, fault, out),
    };
    let has_map = wanted.map.is_some();
    match make(alloc, placer, &meant.program, &meant.entries, has_map) {
        Ok(made) => deliver_made(alloc, made, wanted, shelf, out),
        Err(Refusal::NoMemory) => Status::NoMemory,
        Err(Refusal::NoFit { line }) => end_with(out, line.as_slice(), Status::NoFit),
    }
}

/// Writes an image, and its map behind it where one is wanted, and then prints its lines.
fn deliver_made<F: Shelf, O: Sink>(
    alloc: Global,
    made: Made,
    wanted: Wanted<'_>,
    shelf: &mut F,
    out: &mut O,
) -> Status
    requires { made.lines ≢ [] }
    ensures kind { (result ≡ Status.Done) ⊎ (result ≡ Status.WriteFault)
        ⊎ (result ≡ Status.NoMemory) }
    ensures call { WritesAndPrints (outside (F.state shelf.old) (O.state out.old))
        (outside (F.state shelf.new) (O.state out.new))
        (Stores (image_and (names_of wanted.entry) made.image.items (bytes_of made.map))
        made.lines) result }
{
    let Made { image, map, lines } = made;
    match new_files(alloc, wanted, image, map) {
        Ok(files) => deliver(alloc, files.as_slice(), lines.as_slice(), shelf, out),
        Err(_) => Status::NoMemory,
    }
}

/// An image under its name, and behind it a map under its own.
fn new_files(
    alloc: Global,
    wanted: Wanted<'_>,
    image: Vec<u8>,
    map: Option<Vec<u8>>,
) -> Result<Vec<NewFile>, AllocError>
    ensures { IfOk result (λ files. writes_of files.items
        ≡ image_and (names_of wanted.entry) image.items (bytes_of map)) }
{
    let mut files = Vec::new(alloc);
    files.push(new_file(wanted.image, image)?)?;
    if let Some(name) = wanted.map {
        if let Some(bytes) = map {
            files.push(new_file(name, bytes)?)?;
        }
    }
    Ok(files)
}

/// Bytes under a name.
fn new_file(name: &String, bytes: Vec<u8>) -> Result<NewFile, AllocError>
    ensures { IfOk result (λ file. write_of file
        ≡ record { name = string_bytes name.now; bytes = bytes.items }) }
{
    let name = name.clone()?;
    Ok(NewFile { name, bytes })
}
