//! The commands `sim` and `probe`.

ghost use Rattle.std.specs.Prelude.{string_bytes};
ghost use Rattle.rmt_core.specs.Commands.{IsPossible, Sim};
ghost use Rattle.rmt_drive.specs.Ends.{ReadsAndPrints, outside};
ghost use Rattle.rmt_core.specs.Simulating.{GivesRun};

use crate::bad_image::tell_bad_image;
use crate::loading::{IMAGE_LIMIT, PACKETS_LIMIT, open_file, read_file};
use rmt_chip::chip::Chip;
use rmt_drive::running::run_watched;
use rmt_drive::status::Status;
use rmt_drive::watch::Watch;
use rmt_image::read_image;
use rmt_io::shelf::Shelf;
use rmt_io::sink::Sink;
use std::alloc::Global;

/// Runs the packets of a text through the chip of an image, and prints what is watched.
pub fn simulate<F: Shelf, O: Sink>(
    alloc: Global,
    image: &String,
    packets: &String,
    watch: Watch,
    shelf: &mut F,
    out: &mut O,
) -> Status
    ensures possible { IsPossible (Sim (string_bytes image.now) (string_bytes packets.now)) result }
    ensures call { ReadsAndPrints (outside (F.state shelf.old) (O.state out.old))
        (outside (F.state shelf.new) (O.state out.new))
        (λ files. GivesRun watch files (string_bytes image.now) (string_bytes packets.now)) result }
{
    let bytes = match read_file(alloc, image, IMAGE_LIMIT, shelf) {
        Ok(bytes) => bytes,
        Err(status) => return status,
    };
    match open_file(alloc, packets, shelf) {
        Ok(()) => {}
        Err(status) => return status,
    }
    let config = match read_image(alloc, bytes.as_slice()) {
        Ok(config) => config,
        Err(fault) => return tell_bad_image(alloc, fault, out),
    };
    let Ok(mut chip) = Chip::open(alloc, config) else {
        return Status::NoMemory;
    };
    let mut commits = None;
    run_watched(
        alloc,
        shelf,
        PACKETS_LIMIT,
        &mut chip,
        &mut commits,
        watch,
        out,
    )
}
