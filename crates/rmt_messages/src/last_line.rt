//! A sink that passes on what it takes, and keeps the front of the last line.

ghost use Rattle.std.specs.Prelude.{◌≡◌, ◌≤◌, length};

use rmt_io::sink::{Sink, SinkFault};
use std::alloc::Global;

/// How many bytes of the last line are kept.
const ROOM: usize = 4096;

/// A sink behind which the last line is kept, in room that was taken before.
#[derive(Drop)]
pub struct LastLine<O: Sink> {
    out: O,
    /// The front of the last line, with its line feed where it is kept.
    kept: Vec<u8>,
    /// Whether the last line has its line feed, so that a next byte begins another one.
    is_ended: bool,
}

impl<O: Sink> LastLine<O> {
    /// A sink that passes on to `out`. Where there is no memory for a line, none is kept.
    pub fn new(alloc: Global, out: O) -> LastLine<O> {
        let kept = match Vec::with_capacity(alloc, ROOM) {
            Ok(room) => room,
            Err(_) => Vec::new(alloc),
        };
        LastLine {
            out,
            kept,
            is_ended: false,
        }
    }

    /// The last line, at most its first 4,096 bytes.
    pub fn last_line(&self) -> &[u8] {
        self.kept.as_slice()
    }

    /// Keeps what bytes leave of the last line.
    fn keep(&mut self, taken: &[u8])
        ensures { self.new.out ≡ self.old.out }
    {
        if taken.is_empty() {
            return;
        }
        let from = last_line_start(taken);
        if from > 0 || self.is_ended {
            self.kept.clear();
        }
        self.is_ended = taken.ends_with(b"\n");
        self.keep_front(&taken[from..]);
    }

    /// Keeps bytes as long as there is room.
    fn keep_front(&mut self, bytes: &[u8])
        ensures { self.new.out ≡ self.old.out }
    {
        let room = self.kept.capacity().saturating_sub(self.kept.len());
        let front = if bytes.len() <= room {
            bytes
        } else {
            &bytes[..room]
        };
        // it fits into the room that was taken, so it is not refused
        let _ = self.kept.extend_from_slice(front);
    }
}

/// Where the last line of some bytes begins in them.
fn last_line_start(bytes: &[u8]) -> usize
    ensures { result ≤ length bytes.now }
{
    let end = if bytes.ends_with(b"\n") {
        bytes.len().saturating_sub(1)
    } else {
        bytes.len()
    };
    for behind in 0..end {
        let at = end - behind;
        if bytes.get(at.saturating_sub(1)) == Some(&b'\n') {
            return at;
        }
    }
    0
}

impl<O: Sink> Sink for LastLine<O> {
    ghost state = { λ s. O.state s.out };

    fn write(&mut self, piece: &[u8]) -> Result<usize, SinkFault> {
        let count = self.out.write(piece)?;
        self.keep(&piece[..count]);
        Ok(count)
    }
}
