//! Bytes between memory and any reader or writer. What a reader has left and what a writer holds is `remaining` and
//! `contents` of std's traits, so a clause says it wherever they tell it.

ghost use Rattle.std.specs.Prelude.{◌≡◌, ◌≢◌, ℕ, List, [], ◌-◌, ◌^◌, ◌<◌, ◌≤◌, length, Result, IfOk, IfErr, IfSome, OnOk, OnErr, IsOkAnd, IsErrOf};
ghost use Rattle.std.specs.IoError.{error_kind};
ghost use Rattle.std.specs.Io.{ReadsAtMost};
ghost use Rattle.std.specs.Io.KnownBytes.{Appends, ReadConsumes, WriteAppends};
ghost use Rattle.std.specs.declared.io.Error.{Error};
ghost use Rattle.rmt_io.specs.Transfer.{IsKept, left_in};

use std::fs::OpenFile;
use std::io;
use std::io::{ErrorKind, Read, Write};

/// Why a file was not read whole.
#[derive(Clone, Copy)]
pub(crate) enum ReadFault {
    /// More bytes were left than the limit.
    TooLong,
    /// The machine refused, for this.
    Refused(ErrorKind),
}

/// Reads what one call of the system gives, where it is not interrupted.
pub(crate) fn read_some<R: Read>(reader: &mut R, into: &mut [u8]) -> io::Result<usize>
    ensures within { ReadsAtMost result into.new }
    ensures bytes { ReadConsumes (R.remaining reader.old) (R.remaining reader.new) result into.new }
{
    for _ in 0..u64::MAX {
        match reader.read(into) {
            Ok(count) => return Ok(count),
            Err(error) => {
                if error.kind() != ErrorKind::Interrupted {
                    return Err(error);
                }
            }
        }
    }
    Err(io::Error::from(ErrorKind::TimedOut))
}

/// Reads on in the open file, and gives no byte where none is open.
pub(crate) fn read_next<R: Read>(opened: &mut Option<R>, into: &mut [u8]) -> io::Result<usize>
    ensures within { ReadsAtMost result into.new }
    ensures bytes { ReadConsumes (left_in R.remaining opened.old) (left_in R.remaining opened.new)
        result into.new }
{
    match opened {
        Some(reader) => read_some(reader, into),
        None => Ok(0),
    }
}

/// Replaces what `into` held by all bytes that a reader has left, of which there may be `limit`.
fn read_whole<R: Read + Drop>(reader: R, limit: u64, into: &mut Vec<u8>) -> Result<(), ReadFault>
    ensures content { OnOk result (IfSome (R.remaining reader) (λ bytes. into.new.items ≡ bytes)) }
    ensures within { OnOk result (length into.new.items ≤ limit) }
    ensures too_long { IsErrOf result ReadFault.TooLong →
        IfSome (R.remaining reader) (λ bytes. limit < length bytes) }
    ensures emptied { OnErr result (into.new.items ≡ []) }
{
    into.clear();
    // a byte past the limit shows that more were left
    let mut front = reader.take(limit.saturating_add(1));
    let fault = match front.read_to_end(into) {
        Ok(_) => {
            if into.len() as u64 <= limit {
                return Ok(());
            }
            ReadFault::TooLong
        }
        Err(error) => ReadFault::Refused(error.kind()),
    };
    into.clear();
    Err(fault)
}

/// Reads whole what was opened, or tells why it was not opened.
pub(crate) fn read_opened<R: Read + Drop>(
    opened: io::Result<R>,
    limit: u64,
    into: &mut Vec<u8>,
) -> Result<(), ReadFault>
    ensures content { OnOk result
        (IsOkAnd opened (λ reader. IfSome (R.remaining reader) (λ bytes. into.new.items ≡ bytes))) }
    ensures within { OnOk result (length into.new.items ≤ limit) }
    ensures too_long { IsErrOf result ReadFault.TooLong →
        IsOkAnd opened (λ reader. IfSome (R.remaining reader) (λ bytes. limit < length bytes)) }
    ensures emptied { OnErr result (into.new.items ≡ []) }
    ensures refused { IfErr opened (λ error. IsErrOf result (ReadFault.Refused (error_kind error))) }
{
    match opened {
        Ok(reader) => read_whole(reader, limit, into),
        Err(error) => {
            into.clear();
            Err(ReadFault::Refused(error.kind()))
        }
    }
}

/// A file that the system can be asked to keep.
pub(crate) trait Syncs {
    /// The answers that it may give when it is asked.
    ghost answers: { Self → Result (Unit {0}) Error → Type 0 };

    /// Has the system keep what was written.
    fn sync(&self) -> io::Result<()>
        ensures { answers self.now result };
}

/// The files of the machine, which do not tell what they will answer.
impl<F: OpenFile> Syncs for F {
    ghost answers = { λ _ _. Unit {0} };

    fn sync(&self) -> io::Result<()> {
        self.sync_all()
    }
}

/// Has the system keep what was written, where the place of the file can keep bytes.
fn keep<F: Syncs>(file: &F) -> io::Result<()>
    ensures { OnOk result
        ((answer : Result (Unit {0}) Error) × F.answers file.now answer × IsKept answer) }
{
    match file.sync() {
        // a place that cannot keep bytes, as a pipe, has nothing to be kept
        Err(error)
            if matches!(
                error.kind(),
                ErrorKind::InvalidInput | ErrorKind::Unsupported
            ) => { Ok(()) }
        other => other,
    }
}

/// Writes all bytes into an opened file, and has the system keep them.
pub(crate) fn write_through<F: Write + Syncs>(file: &mut F, bytes: &[u8]) -> io::Result<()>
    ensures appended { OnOk result (Appends (F.contents file.old) (F.contents file.new) bytes.now) }
    ensures kept { OnOk result
        ((answer : Result (Unit {0}) Error) × F.answers file.new answer × IsKept answer) }
{
    file.write_all(bytes)?;
    file.flush()?;
    keep(file)
}

/// Has a writer take bytes from the front of a piece, at least one, and answers how many it took.
pub(crate) fn write_front<W: Write>(writer: &mut W, piece: &[u8]) -> io::Result<usize>
    requires { 0 < length piece.now }
    ensures some { IfOk result (λ n. (0 < n) × (n ≤ length piece.now)) }
    ensures bytes { WriteAppends (W.contents writer.old) (W.contents writer.new) result piece.now }
{
    for _ in 0..u64::MAX {
        match writer.write(piece) {
            Ok(0) => return Err(io::Error::from(ErrorKind::WriteZero)),
            Ok(count) => return Ok(count),
            Err(error) => {
                if error.kind() != ErrorKind::Interrupted {
                    return Err(error);
                }
            }
        }
    }
    Err(io::Error::from(ErrorKind::TimedOut))
}
