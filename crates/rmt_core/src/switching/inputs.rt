//! Reading the files of `switch`.

ghost use Rattle.std.specs.Prelude.{◌≡◌, ◌≤◌, Err, length, IfOk, IfErr, string_bytes};
ghost use Rattle.rmt_io.specs.Outside.{ReadingFailed, OnlyRead};
ghost use Rattle.rmt_drive.specs.Files.{capture_limit, groups_limit};
ghost use Rattle.rmt_core.specs.SwitchSetup.{AreFound, NoneRead};

use crate::commands::SwitchNames;
use crate::loading::{CAPTURE_LIMIT, GROUPS_LIMIT, IMAGE_LIMIT, read_file};
use crate::switching::setup::Inputs;
use rmt_drive::status::Status;
use rmt_io::shelf::Shelf;
use std::alloc::Global;

/// The bytes of the three files, or the status of a command that cannot have them.
pub fn read_inputs<F: Shelf>(
    alloc: Global,
    names: SwitchNames<'_>,
    shelf: &mut F,
) -> Result<Inputs, Status>
    ensures found { IfOk result (λ inputs. AreFound (F.state shelf.old)
        (string_bytes names.entry.image.now) (string_bytes names.entry.groups.now)
        (string_bytes names.entry.capture.now) inputs) }
    ensures groups { IfOk result (λ inputs. length inputs.groups.items ≤ groups_limit) }
    ensures capture { IfOk result (λ inputs. length inputs.capture.items ≤ capture_limit) }
    ensures refused { IfErr result (λ status. NoneRead (F.state shelf.old)
        (string_bytes names.entry.image.now) (string_bytes names.entry.groups.now)
        (string_bytes names.entry.capture.now) status) }
    ensures fault { result ≡ Err Status.ReadFault →
        ReadingFailed (F.state shelf.old) (F.state shelf.new) }
    // The shelf is as before, but for its count of faults of reading.
    ensures only_read { OnlyRead (F.state shelf.old) (F.state shelf.new) }
{
    let image = match read_file(alloc, names.image, IMAGE_LIMIT, shelf) {
        Ok(image) => image,
        Err(status) => return Err(status),
    };
    let groups = match read_file(alloc, names.groups, GROUPS_LIMIT, shelf) {
        Ok(groups) => groups,
        Err(status) => return Err(status),
    };
    match read_file(alloc, names.capture, CAPTURE_LIMIT, shelf) {
        Ok(capture) => Ok(Inputs {
            image,
            groups,
            capture,
        }),
        Err(status) => Err(status),
    }
}
