//! The command `report`.

ghost use Rattle.std.specs.Prelude.{◌≡◌, ◌⊎◌, IfOk, string_bytes};
ghost use Rattle.rmt_config.specs.Limits.{IsWithinLimits};
ghost use Rattle.rmt_io.specs.Outside.{ShelfState, GainedNone};
ghost use Rattle.rmt_core.specs.Commands.{IsPossible, Report};
ghost use Rattle.rmt_drive.specs.Ends.{ReadsAndPrints, outside};
ghost use Rattle.rmt_drive.specs.Given.{told};
ghost use Rattle.rmt_core.specs.Reporting.{GivesReport, report_line};
ghost use Rattle.rmt_core.specs.Simulating.{Spelled};

use crate::bad_image::tell_bad_image;
use crate::loading::{IMAGE_LIMIT, read_file};
use rmt_config::config::Config;
use rmt_drive::status::Status;
use rmt_drive::telling::tell;
use rmt_image::read_image;
use rmt_io::shelf::Shelf;
use rmt_io::sink::Sink;
use rmt_report::report as use_of;
use std::alloc::{AllocError, Global};

/// Prints the use of an image.
pub fn report<F: Shelf, O: Sink>(
    alloc: Global,
    image: &String,
    shelf: &mut F,
    out: &mut O,
) -> Status
    ensures possible { IsPossible (Report (string_bytes image.now)) result }
    ensures call { ReadsAndPrints (outside (F.state shelf.old) (O.state out.old))
        (outside (F.state shelf.new) (O.state out.new))
        (λ files. GivesReport files (string_bytes image.now)) result }
    ensures quiet { (result ≡ Status.NoMemory) ⊎ (result ≡ Status.ReadFault)
        ⊎ (result ≡ Status.TooLong) → GainedNone (O.state out.old) (O.state out.new) }
{
    match read_file(alloc, image, IMAGE_LIMIT, shelf) {
        Ok(bytes) => report_bytes(alloc, bytes.as_slice(), out),
        Err(status) => status,
    }
}

/// Prints the use of the image that bytes are, or how they are none.
fn report_bytes<O: Sink>(alloc: Global, bytes: &[u8], out: &mut O) -> Status
    ensures possible { (result ≡ Status.Done) ⊎ (result ≡ Status.BadImage)
        ⊎ (result ≡ Status.WriteFault) ⊎ (result ≡ Status.NoMemory) }
    ensures call { (shelf : ShelfState) →
        ReadsAndPrints (outside shelf (O.state out.old)) (outside shelf (O.state out.new))
        (λ files. Spelled files bytes.now
        (λ c g. g ≡ told files Status.Done (report_line c))) result }
    ensures quiet { (result ≡ Status.NoMemory) ⊎ (result ≡ Status.ReadFault)
        ⊎ (result ≡ Status.TooLong) → GainedNone (O.state out.old) (O.state out.new) }
{
    match read_image(alloc, bytes) {
        Ok(config) => tell(use_line(alloc, &config), Status::Done, out),
        Err(fault) => tell_bad_image(alloc, fault, out),
    }
}

/// The use of a configuration as one line.
fn use_line(alloc: Global, config: &Config) -> Result<Vec<u8>, AllocError>
    requires { IsWithinLimits config.now }
    ensures { IfOk result (λ line. line.items ≡ report_line config.now) }
{
    let Ok(text) = use_of(alloc, config) else {
        return Err(AllocError);
    };
    let mut line = text.into_vec();
    line.push(b'\n')?;
    Ok(line)
}
