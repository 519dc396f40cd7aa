//! The last line of a bad image.

ghost use Rattle.std.specs.Prelude.{◌≡◌, IfOk};
ghost use Rattle.rmt_core.specs.Parts.{OnlyPrinted, Tells};
ghost use Rattle.rmt_core.specs.ImageFaults.{bad_image_line};

use rmt_drive::status::Status;
use rmt_drive::telling::tell;
use rmt_image::ImageFault;
use rmt_io::sink::Sink;
use std::alloc::{AllocError, Global};

/// Prints the last line of bytes that are no image, and answers `BadImage`; `NoMemory` where there is no memory, and then
/// nothing is printed.
pub fn tell_bad_image<O: Sink>(alloc: Global, fault: ImageFault, out: &mut O) -> Status
    ensures line { Tells (O.state out.old) (O.state out.new)
        (bad_image_line fault) Status.BadImage result }
    ensures no_memory { fault ≡ ImageFault.NoMemory → result ≡ Status.NoMemory }
    ensures only_printed { OnlyPrinted (O.state out.old) (O.state out.new) }
{
    if let ImageFault::NoMemory = fault {
        return Status::NoMemory;
    }
    tell(bad_image_text(alloc, fault), Status::BadImage, out)
}

/// `bad image CODE`, and for a limit also its number, the stage, the sum and the need.
fn bad_image_text(alloc: Global, fault: ImageFault) -> Result<Vec<u8>, AllocError>
    ensures { IfOk result (λ line. line.items ≡ bad_image_line fault) }
{
    let line = match fault {
        ImageFault::NoMemory => return Err(AllocError),
        ImageFault::Magic => String::from_str(alloc, "bad image 1\n")?,
        ImageFault::Version => String::from_str(alloc, "bad image 2\n")?,
        ImageFault::Short => String::from_str(alloc, "bad image 3\n")?,
        ImageFault::Form => String::from_str(alloc, "bad image 4\n")?,
        ImageFault::Trailing => String::from_str(alloc, "bad image 5\n")?,
        ImageFault::Limit(hit) => {
            let limit = hit.limit;
            let stage = hit.stage;
            let sum = hit.sum;
            let need = hit.need;
            format!(in alloc; "bad image 6 limit {limit} stage {stage} sum {sum} need {need}\n")?
        }
    };
    Ok(line.into_bytes())
}
