//! Reading the lines of a packet text in pieces, as a shelf gives them.

ghost use Rattle.std.specs.Prelude.{◌≡◌, ◌+◌, ◌<◌, ◌≤◌, ℕ, false, List, [], length, IfOk, IsTrue, IsErrOf};
ghost use Rattle.rmt_bits.specs.Lines.{numbered_lines};
ghost use Rattle.rmt_runs.specs.Pieces.{PassesLimit};
ghost use Rattle.rmt_runs.specs.ReadsOn.{AsksShelf, AtLine, GivesNext, HasLines, ReadsLines};

mod piece;

use crate::fault::RunFault;
use piece::{PIECE, Piece};
use rmt_io::shelf::Shelf;
use rmt_packets::pieces::Lines;
use std::alloc::{AllocError, Global};
use std::marker::Model;

/// A reader of the lines of a packet text in a shelf's open file of which so many bytes may be read.
#[derive(Drop)]
pub struct PacketReader {
    lines: Lines,
    /// The bytes that the shelf gave and that are not taken yet.
    piece: Piece,
    /// How many bytes more may be asked of the shelf.
    left: u64,
    /// Whether the end of the text was seen, and its last line taken.
    is_finished: bool,
    /// How many lines it gave.
    given: u64,
}

impl Model for PacketReader {
    ghost use Rattle.std.specs.Prelude.{◌+◌, ◌≤◌, length};
    ghost use Rattle.rmt_runs.specs.ReadsOn.{HasLines, ReaderState};

    ghost Value = { ReaderState };

    ghost view = { λ r. record { lines = r.lines; waiting = r.piece; left = r.left; is_finished = r.is_finished; given = r.given } };

    ghost invariant = { λ r. (r.lines.taken + (length r.piece + r.left) ≤ 1099511627776) × HasLines r.given r.is_finished r.lines };
}

impl PacketReader {
    /// A reader that gave no line yet, of a text of which `limit` bytes may be read. No other call takes
    /// memory.
    pub fn new(alloc: Global, limit: u64) -> Result<PacketReader, AllocError>
        requires { limit ≤ 1099511627776 }
        ensures lines { IfOk result
            (λ reader. (text : List ℕ) → ReadsLines limit text [] reader text) }
        ensures given { IfOk result (λ reader. reader.given ≡ 0) }
    {
        let Ok(lines) = Lines::new(alloc) else {
            return Err(AllocError);
        };
        Ok(PacketReader {
            lines,
            piece: Piece::new(alloc)?,
            left: limit,
            is_finished: false,
            given: 0,
        })
    }

    /// Goes on to the next line that is not passed over, and answers whether there is one. Behind a refusal what a further
    /// call answers is of no use.
    pub fn next_line<F: Shelf>(&mut self, shelf: &mut F) -> Result<bool, RunFault>
        // What comes next.
        ensures next { GivesNext (F.state shelf.old) (F.state shelf.new) self.old self.new result }
        // How many lines may come.
        ensures given { IfOk result
            (λ is_line. IsTrue is_line → self.new.given ≡ self.old.given + 1) }
        ensures few { IfOk result (λ is_line. self.new.given ≤ 1099511627776) }
        // What else may come of asking the shelf.
        ensures asks { AsksShelf (F.state shelf.old) (F.state shelf.new) result }
    {
        if !self.find(shelf)? {
            return Ok(false);
        }
        self.count_line();
        Ok(true)
    }

    /// Counts the line that is ready.
    fn count_line(&mut self)
        requires { HasLines (self.old.given + 1) self.old.is_finished self.old.lines }
        ensures given { self.new.given ≡ self.old.given + 1 }
        ensures few { self.new.given ≤ 1099511627776 }
        ensures lines { self.new.lines ≡ self.old.lines }
        ensures reads { (limit : ℕ) (text rest : List ℕ) (gave : List (ℕ × List ℕ)) →
            AtLine limit text gave self.old rest → AtLine limit text gave self.new rest }
    {
        self.given += 1;
    }

    /// The first 18,444 bytes of the line that is ready, or all where it has fewer.
    pub fn line(&self) -> &[u8]
        requires { IsTrue self.now.lines.is_ready }
        ensures { result.now ≡ self.now.lines.front }
    {
        self.lines.text()
    }

    /// The number of the line that is ready; the first line of a text has number 1.
    pub fn number(&self) -> u64
        requires { IsTrue self.now.lines.is_ready }
        ensures { result ≡ self.now.lines.number }
    {
        self.lines.number()
    }

    /// Goes on to the next packet line, and answers whether there is one.
    fn find<F: Shelf>(&mut self, shelf: &mut F) -> Result<bool, RunFault>
        ensures next { GivesNext (F.state shelf.old) (F.state shelf.new) self.old self.new result }
        ensures one_more { IfOk result
            (λ is_line. IsTrue is_line →
            HasLines (self.new.given + 1) self.new.is_finished self.new.lines) }
        ensures given { self.new.given ≡ self.old.given }
        ensures few { self.old.given ≤ 1099511627776 }
        ensures asks { AsksShelf (F.state shelf.old) (F.state shelf.new) result }
    {
        if self.is_finished {
            return Ok(false);
        }
        let mut is_ready = self.take_line();
        while !is_ready {
            if !self.fill(shelf)? {
                return Ok(self.finish());
            }
            is_ready = self.take_line();
        }
        Ok(true)
    }

    /// Takes the waiting bytes up to the end of the next packet line, and all where they end none.
    fn take_line(&mut self) -> bool
        requires { self.old.is_finished ≡ false }
        ensures line { IsTrue result → (limit : ℕ) (text rest : List ℕ) (gave : List (ℕ × List ℕ)) →
            ReadsLines limit text gave self.old rest → AtLine limit text gave self.new rest }
        ensures none { result ≡ false → (limit : ℕ) (text rest : List ℕ) (gave : List (ℕ × List ℕ)) →
            ReadsLines limit text gave self.old rest → ReadsLines limit text gave self.new rest }
        ensures empty { result ≡ false → self.new.waiting ≡ [] }
        ensures ready { self.new.lines.is_ready ≡ result }
        ensures one_more { IsTrue result →
            HasLines (self.new.given + 1) self.new.is_finished self.new.lines }
        ensures given { self.new.given ≡ self.old.given }
        ensures left { self.new.left ≡ self.old.left }
        ensures going_on { self.new.is_finished ≡ false }
    {
        let taken = self.lines.take(self.piece.bytes());
        self.piece.skip(taken.used as usize);
        taken.ready
    }

    /// Asks the shelf for the next bytes, and answers whether any came; none come at the end of the text.
    fn fill<F: Shelf>(&mut self, shelf: &mut F) -> Result<bool, RunFault>
        requires empty { self.old.waiting ≡ [] }
        requires going_on { self.old.is_finished ≡ false }
        ensures reads { IfOk result
            (λ _. IsTrue (F.state shelf.old).tells →
            (limit : ℕ) (text : List ℕ) (gave : List (ℕ × List ℕ)) →
            ReadsLines limit text gave self.old (F.state shelf.old).rest →
            ReadsLines limit text gave self.new (F.state shelf.new).rest) }
        ensures less { IfOk result (λ is_more. IsTrue is_more → self.new.left < self.old.left) }
        ensures ended { IfOk result
            (λ is_more. is_more ≡ false → IsTrue (F.state shelf.old).tells →
            (F.state shelf.new).rest ≡ []) }
        ensures empty { IfOk result (λ is_more. is_more ≡ false → self.new.waiting ≡ []) }
        ensures too_long { IsErrOf result RunFault.TooLong → IsTrue (F.state shelf.old).tells →
            (limit : ℕ) (text : List ℕ) (gave : List (ℕ × List ℕ)) →
            ReadsLines limit text gave self.old (F.state shelf.old).rest → PassesLimit limit text gave }
        ensures going_on { self.new.is_finished ≡ false }
        ensures given { self.new.given ≡ self.old.given }
        ensures asks { AsksShelf (F.state shelf.old) (F.state shelf.new) result }
    {
        let most = self.left.min(PIECE as u64).max(1);
        let Ok(count) = self.piece.fill(shelf, most as usize) else {
            return Err(RunFault::Read);
        };
        if self.left < count as u64 {
            self.piece.skip(count);
            return Err(RunFault::TooLong);
        }
        self.left -= count as u64;
        Ok(0 < count)
    }

    /// Ends the text, and answers whether its last line is a packet line without a line feed.
    fn finish(&mut self) -> bool
        requires empty { self.old.waiting ≡ [] }
        requires going_on { self.old.is_finished ≡ false }
        ensures line { IsTrue result → (limit : ℕ) (text rest : List ℕ) (gave : List (ℕ × List ℕ)) →
            rest ≡ [] → ReadsLines limit text gave self.old rest →
            AtLine limit text gave self.new rest }
        ensures end { result ≡ false → (limit : ℕ) (text rest : List ℕ) (gave : List (ℕ × List ℕ)) →
            rest ≡ [] → ReadsLines limit text gave self.old rest →
            (length text ≤ limit) × (numbered_lines 1 text ≡ gave) }
        ensures ready { self.new.lines.is_ready ≡ result }
        ensures one_more { IsTrue result →
            HasLines (self.new.given + 1) self.new.is_finished self.new.lines }
        ensures given { self.new.given ≡ self.old.given }
    {
        self.is_finished = true;
        self.lines.finish()
    }
}
