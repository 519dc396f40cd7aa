//! The lines of a text that comes in pieces.

ghost use Rattle.std.specs.Prelude.{◌≡◌, ℕ, true, false, List, [], ◌∷◌, ◌++◌, ◌+◌, ◌^◌, ◌<◌, ◌≤◌, ◌==◌, ◌&&◌, length, take, IsTrue, IfOk, OnErr, IsErrOf};
ghost use Rattle.std.specs.List.{list_all};
ghost use Rattle.rmt_packets.specs.LineSteps.{begun, fed, grown, passes_over};
ghost use Rattle.rmt_bits.specs.Lines.{numbered_lines};
ghost use Rattle.rmt_packets.specs.Pieces.{EndsLine, IsLast, Stands, ended_lines};

use crate::lines::line_end;
use crate::packet_line::PacketFault;
use rmt_bits::lines::is_blank;
use std::alloc::Global;
use std::marker::Model;

/// The most bytes of a line that are kept, one more than the longest packet line has.
const FRONT: usize = 18444;

/// What one call took of a piece.
#[derive(Clone, Copy, Debug, PartialEq, Eq)]
pub struct Taken {
    /// How many bytes, from the piece's first byte on; at most 65,536.
    pub used: u32,
    /// Whether they end a packet line.
    pub ready: bool,
}

/// A reader of the packet lines of a text that comes in pieces, however it is cut. It keeps the front of one line.
#[derive(Drop)]
pub struct Lines {
    /// Room for the front of a line; its first `count` bytes are the line's.
    room: Vec<u8>,
    count: usize,
    /// Whether the line has spaces alone so far.
    is_blank: bool,
    /// The line's number; the first line of a text has number 1.
    number: u64,
    /// Whether the line's line feed was taken.
    is_ended: bool,
    /// Whether the line may be read.
    is_ready: bool,
    /// How many bytes were taken in all.
    taken: u64,
}

impl Model for Lines {
    ghost use Rattle.std.specs.Prelude.{◌≡◌, ◌+◌, ◌^◌, ◌<◌, ◌≤◌, length, take, if◌then◌else◌};
    ghost use Rattle.rmt_packets.specs.Pieces.{LineState};

    ghost Value = { LineState };

    ghost view = { λ l. record { front = take l.count l.room.items; is_blank = l.is_blank; number = l.number; is_ended = l.is_ended; is_ready = l.is_ready; taken = l.taken } };

    ghost invariant = { λ l. (length l.room.items ≡ 18444) × (l.count ≤ 18444) × (l.number + (if l.is_ended then 1 else 0) ≤ l.taken + 1) × (l.taken < 2 ^ 63) };
}

impl Lines {
    /// A reader that took nothing yet. No other call takes memory.
    pub fn new(alloc: Global) -> Result<Lines, PacketFault>
        ensures stands { IfOk result (λ lines. Stands [] lines) }
        ensures taken { IfOk result (λ lines. lines.taken ≡ 0) }
        ensures no_memory { OnErr result (IsErrOf result PacketFault.NoMemory) }
    {
        let mut room = Vec::new(alloc);
        if room.resize(FRONT, 0).is_err() {
            return Err(PacketFault::NoMemory);
        }
        Ok(Lines {
            room,
            count: 0,
            is_blank: true,
            number: 1,
            is_ended: false,
            is_ready: false,
            taken: 0,
        })
    }

    /// Takes the next piece of the text up to and with the first line feed that ends a packet line, and the whole piece
    /// where there is none.
    pub fn take(&mut self, piece: &[u8]) -> Taken
        requires short { length piece.now ≤ 65536 }
        requires few { self.old.taken + length piece.now < 2 ^ 63 }

        // The text that was taken goes on by the bytes used.
        ensures stands { (text : List ℕ) → Stands text self.old → Stands (text ++ take result.used piece.now) self.new }
        ensures taken { self.new.taken ≡ self.old.taken + result.used }
        ensures used { result.used ≤ length piece.now }

        // Either they end one packet line, or they are the whole piece and end none.
        ensures ready { (text : List ℕ) → Stands text self.old → IsTrue result.ready → EndsLine text (take result.used piece.now) self.new }
        ensures whole { result.ready ≡ false → result.used ≡ length piece.now }
        ensures none { (text : List ℕ) → Stands text self.old → result.ready ≡ false → ended_lines (text ++ piece.now) ≡ ended_lines text }
        ensures readable { self.new.is_ready ≡ result.ready }
    {
        self.begin();
        let mut from = 0;
        while from < piece.len() {
            let to = line_end(piece, from);
            self.grow(&piece[from..to]);
            if to == piece.len() {
                return Taken {
                    used: to as u32,
                    ready: false,
                };
            }
            from = to + 1;
            if self.feed() {
                return Taken {
                    used: from as u32,
                    ready: true,
                };
            }
        }
        Taken {
            used: piece.len() as u32,
            ready: false,
        }
    }

    /// Whether the text that was taken ends in a packet line without a line feed, which may then be read.
    pub fn finish(&mut self) -> bool
        ensures stands { (text : List ℕ) → Stands text self.old → Stands text self.new }
        ensures taken { self.new.taken ≡ self.old.taken }
        ensures last { (text : List ℕ) → Stands text self.old → IsTrue result → IsLast text self.new }
        ensures none { (text : List ℕ) → Stands text self.old → result ≡ false → numbered_lines 1 text ≡ ended_lines text }
        ensures readable { self.new.is_ready ≡ result }
    {
        let is_ready = self.is_packet();
        self.is_ready = is_ready;
        is_ready
    }

    /// The first 18,444 bytes of the line that is ready, or all where it has fewer.
    pub fn text(&self) -> &[u8]
        requires { IsTrue self.now.is_ready }
        ensures front { result.now ≡ self.now.front }
        ensures few { length result.now ≤ 18444 }
    {
        self.front()
    }

    /// The number of the line that is ready; the first line of a text has number 1.
    pub fn number(&self) -> u64
        requires { IsTrue self.now.is_ready }
        ensures { result ≡ self.now.number }
    {
        self.number
    }

    /// The front of the line so far.
    fn front(&self) -> &[u8]
        ensures front { result.now ≡ self.now.front }
        ensures few { length result.now ≤ 18444 }
    {
        &self.room.as_slice()[..self.count]
    }

    /// Begins the next line where this one is ended.
    fn begin(&mut self)
        ensures { self.new ≡ begun self.old }
    {
        if self.is_ended {
            let number = self.number + 1;
            self.start(number);
        }
        self.is_ready = false;
    }

    /// Starts the line of a number.
    fn start(&mut self, number: u64)
        requires { number ≤ self.old.taken + 1 }
        ensures { self.new ≡ record self.old { front = []; is_blank = true; number = number; is_ended = false } }
    {
        self.count = 0;
        self.is_blank = true;
        self.number = number;
        self.is_ended = false;
    }

    /// Takes bytes without a line feed.
    fn grow(&mut self, part: &[u8])
        requires { self.old.taken + length part.now < 2 ^ 63 }
        ensures { self.new ≡ grown self.old part.now }
    {
        let is_blank = self.stays_blank(part);
        let count = part.len().min(FRONT - self.count);
        put_at(self.room.as_mut_slice(), self.count, &part[..count]);
        self.count += count;
        self.is_blank = is_blank;
        self.taken += part.len() as u64;
    }

    /// Takes a line feed, and answers whether it ends a packet line.
    fn feed(&mut self) -> bool
        requires few { self.old.taken + 1 < 2 ^ 63 }
        requires going_on { self.old.is_ended ≡ false }
        ensures state { self.new ≡ fed self.old }
        ensures ready { IsTrue result → passes_over self.old ≡ false }
        ensures passed_over { result ≡ false → passes_over self.old ≡ true }
    {
        let is_packet = !self.passes_over();
        self.taken += 1;
        if is_packet {
            self.is_ended = true;
            self.is_ready = true;
        } else {
            let next = self.number + 1;
            self.start(next);
        }
        is_packet
    }

    /// Whether the line has spaces alone with these bytes too.
    fn stays_blank(&self, part: &[u8]) -> bool
        ensures { result ≡ (self.now.is_blank && list_all (λ b. b == 32) part.now) }
    {
        self.is_blank && is_blank(part)
    }

    /// Whether the line is not ended and so far a packet line.
    fn is_packet(&self) -> bool
        ensures going_on { IsTrue result → self.now.is_ended ≡ false }
        ensures packet { IsTrue result → passes_over self.now ≡ false }
        ensures none { result ≡ false → self.now.is_ended ≡ false → passes_over self.now ≡ true }
    {
        !self.is_ended && !self.passes_over()
    }

    /// Whether the line so far is passed over.
    fn passes_over(&self) -> bool
        ensures { result ≡ passes_over self.now }
    {
        self.is_blank || self.front().first() == Some(&b'#')
    }
}

/// Writes a part over bytes from a place on.
fn put_at(bytes: &mut [u8], at: usize, part: &[u8])
    requires { at + length part.now ≤ length bytes.old }
    ensures { take (at + length part.now) bytes.new ≡ take at bytes.old ++ part.now }
{
    bytes[at..at + part.len()].copy_from_slice(part);
}
