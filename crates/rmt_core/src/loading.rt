//! Reading the files of a command.

ghost use Rattle.std.specs.Prelude.{◌≡◌, ◌≤◌, Err, length, IfOk, IfErr, OnOk, string_bytes};
ghost use Rattle.rmt_io.specs.Outside.{HasFile, ReadingFailed, OnlyRead};
ghost use Rattle.rmt_drive.specs.Loading.{IsFound, NotOpened, NotRead};

use rmt_drive::status::Status;
use rmt_io::shelf::{Shelf, ShelfFault};
use std::alloc::Global;

/// How many bytes a program text may have.
pub const PROGRAM_LIMIT: u64 = 1_048_576;
/// How many bytes an entry text may have.
pub const ENTRIES_LIMIT: u64 = 67_108_864;
/// How many bytes an image may have.
pub const IMAGE_LIMIT: u64 = 268_435_456;
/// How many bytes a map may have.
pub const MAP_LIMIT: u64 = 268_435_456;
/// How many bytes a group text may have.
pub const GROUPS_LIMIT: u64 = 1_048_576;
/// How many bytes a capture file may have.
pub const CAPTURE_LIMIT: u64 = 16_777_216;
/// How many bytes a packet text may have: a terabyte.
pub const PACKETS_LIMIT: u64 = 1_099_511_627_776;

/// The bytes of a file, of which there may be so many, or the status of a command that cannot have them.
pub fn read_file<F: Shelf>(
    alloc: Global,
    name: &String,
    limit: u64,
    shelf: &mut F,
) -> Result<Vec<u8>, Status>
    ensures found { IfOk result
        (λ bytes. IsFound (F.state shelf.old) (string_bytes name.now) limit bytes.items) }
    ensures short { IfOk result (λ bytes. length bytes.items ≤ limit) }
    ensures refused { IfErr result
        (λ status. NotRead (F.state shelf.old) (string_bytes name.now) limit status) }
    ensures fault { result ≡ Err Status.ReadFault →
        ReadingFailed (F.state shelf.old) (F.state shelf.new) }
    // The shelf is as before, but for its count of faults of reading.
    ensures only_read { OnlyRead (F.state shelf.old) (F.state shelf.new) }
{
    let mut bytes = Vec::new(alloc);
    match shelf.read(alloc, name, limit, &mut bytes) {
        Ok(()) => Ok(bytes),
        Err(fault) => Err(status_of(fault)),
    }
}

/// Opens a file at its first byte, or gives the status of a command that cannot open it.
pub fn open_file<F: Shelf>(alloc: Global, name: &String, shelf: &mut F) -> Result<(), Status>
    ensures opened { OnOk result
        (HasFile (F.state shelf.old) (string_bytes name.now) (F.state shelf.new).rest) }
    ensures refused { IfErr result
        (λ status. NotOpened (F.state shelf.old) (string_bytes name.now) status) }
    ensures fault { result ≡ Err Status.ReadFault →
        ReadingFailed (F.state shelf.old) (F.state shelf.new) }
    // The shelf is as before, but for its count of faults of reading.
    ensures only_read { OnlyRead (F.state shelf.old) (F.state shelf.new) }
{
    match shelf.open(alloc, name) {
        Ok(()) => Ok(()),
        Err(fault) => Err(status_of(fault)),
    }
}

/// The status where a shelf refused.
fn status_of(fault: ShelfFault) -> Status
    ensures failed { fault ≡ ShelfFault.Failed → result ≡ Status.ReadFault }
    ensures too_long { fault ≡ ShelfFault.TooLong → result ≡ Status.TooLong }
    ensures no_memory { fault ≡ ShelfFault.NoMemory → result ≡ Status.NoMemory }
{
    match fault {
        ShelfFault::Failed => Status::ReadFault,
        ShelfFault::TooLong => Status::TooLong,
        ShelfFault::NoMemory => Status::NoMemory,
    }
}
