ghost use Rattle.std.specs.Prelude.{◌≡◌, ℕ, ◌++◌, ◌<◌, ◌≤◌, List, [], length, take, IsTrue, IfOk, IsOk, OnErr};
ghost use Rattle.rmt_io.specs.Outside.{GaveBytes, ReadingFailed, OnlyRead};

use rmt_io::shelf::{Shelf, ShelfFault};
use std::alloc::{AllocError, Global};
use std::marker::Model;

/// The most bytes that are asked of a shelf at once.
pub(super) const PIECE: usize = 65_536;

/// The bytes that a shelf gave and that wait to be taken.
#[derive(Drop)]
pub(super) struct Piece {
    /// Room for a piece; the waiting bytes are those from `from` to `to`.
    room: Vec<u8>,
    from: usize,
    to: usize,
}

impl Model for Piece {
    ghost use Rattle.std.specs.Prelude.{◌≡◌, ◌≤◌, ℕ, List, length, slice_range};

    ghost Value = { List ℕ };

    ghost view = { λ p. slice_range p.room.items p.from p.to };

    ghost invariant = { λ p. (length p.room.items ≡ 65536) × (p.from ≤ p.to) × (p.to ≤ 65536) };
}

impl Piece {
    /// No byte waits yet. No other call takes memory.
    pub(super) fn new(alloc: Global) -> Result<Piece, AllocError>
        ensures { IfOk result (λ piece. piece ≡ []) }
    {
        let mut room = Vec::new(alloc);
        room.resize(PIECE, 0)?;
        Ok(Piece {
            room,
            from: 0,
            to: 0,
        })
    }

    /// The bytes that wait, at most 65,536.
    pub(super) fn bytes(&self) -> &[u8]
        ensures waiting { result.now ≡ self.now }
        ensures few { length result.now ≤ 65536 }
    {
        &self.room.as_slice()[self.from..self.to]
    }

    /// Leaves out the first of the bytes that wait.
    pub(super) fn skip(&mut self, count: usize)
        requires { count ≤ length self.old }
        ensures { self.old ≡ take count self.old ++ self.new }
    {
        self.from += count;
    }

    /// Asks a shelf for at most so many bytes, in place of those that wait, and answers how many came: none at the end
    /// of its file, and else at least one.
    pub(super) fn fill<F: Shelf>(&mut self, shelf: &mut F, most: usize) -> Result<usize, ShelfFault>
        requires some { 0 < most }
        requires fits { most ≤ 65536 }
        ensures count { IfOk result (λ n. length self.new ≡ n) }
        ensures within { IfOk result (λ n. n ≤ most) }
        ensures given { IfOk result
            (λ n. GaveBytes (F.state shelf.old) (F.state shelf.new) self.new) }
        ensures end { IfOk result
            (λ n. IsTrue (F.state shelf.old).tells → n ≡ 0 → (F.state shelf.old).rest ≡ []) }
        ensures emptied { OnErr result (self.new ≡ []) }
        ensures failed { OnErr result (ReadingFailed (F.state shelf.old) (F.state shelf.new)) }
        ensures never_fails { IsTrue (F.state shelf.old).steady → IsOk result }
        ensures only_read { OnlyRead (F.state shelf.old) (F.state shelf.new) }
    {
        self.from = 0;
        self.to = 0;
        let count = ask(shelf, self.room.as_mut_slice(), most)?;
        self.to = count;
        Ok(count)
    }
}

/// Asks a shelf for at most so many bytes, and puts them at the front of `into`.
fn ask<F: Shelf>(shelf: &mut F, into: &mut [u8], most: usize) -> Result<usize, ShelfFault>
    requires some { 0 < most }
    requires fits { most ≤ length into.old }
    ensures within { IfOk result (λ n. n ≤ most) }
    ensures given { IfOk result
        (λ n. GaveBytes (F.state shelf.old) (F.state shelf.new) (take n into.new)) }
    ensures end { IfOk result
        (λ n. IsTrue (F.state shelf.old).tells → n ≡ 0 → (F.state shelf.old).rest ≡ []) }
    ensures failed { OnErr result (ReadingFailed (F.state shelf.old) (F.state shelf.new)) }
    ensures never_fails { IsTrue (F.state shelf.old).steady → IsOk result }
    ensures only_read { OnlyRead (F.state shelf.old) (F.state shelf.new) }
{
    shelf.next(&mut into[..most])
}
