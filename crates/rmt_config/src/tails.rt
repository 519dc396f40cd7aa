//! Where the tails of a packet's headers stand in its frame.

ghost use Rattle.std.specs.Prelude.{◌≡◌, ◌<◌, replicate, length, slice_index_or, slice_set};
ghost use Rattle.rmt_config.specs.Parser.{no_tail};

use std::marker::Model;

/// Where a tail stands in a frame.
#[derive(Clone, Copy, PartialEq, Eq)]
pub struct TailAt {
    /// The number of its first byte in the frame, from 0.
    pub place: u16,
    /// Its length in bytes; 0 where there is none.
    pub len: u16,
}

/// The tails of the headers 0 to 63. Contracts see it as the list of where they stand.
#[derive(Drop)]
pub struct Tails {
    stand: [TailAt; 64],
}

impl Model for Tails {
    ghost use Rattle.std.specs.Prelude.{◌≡◌, List, length};
    ghost use Rattle.rmt_config.specs.declared.tails.TailAt.{TailAt};

    ghost Value = { List TailAt };

    ghost view = { λ t. t.stand };

    ghost invariant = { λ t. length t.stand ≡ 64 };
}

impl Tails {
    /// No header has a tail: every place and length is 0.
    pub fn new() -> Tails
        ensures { result ≡ replicate 64 no_tail }
    {
        Tails {
            stand: [TailAt { place: 0, len: 0 }; 64],
        }
    }

    /// The place and the length of the tail of this header, which must be below 64.
    pub fn get(&self, header: u8) -> (u16, u16)
        requires { header < 64 }
        ensures place { result.0 ≡ (slice_index_or self.now header no_tail).place }
        ensures len { result.1 ≡ (slice_index_or self.now header no_tail).len }
        ensures whole { length self.now ≡ 64 }
    {
        let tail = self.stand[usize::from(header)];
        (tail.place, tail.len)
    }

    /// Replaces the place and the length of the tail of this header, which must be below 64; those of all other
    /// headers stay.
    pub fn set(&mut self, header: u8, place: u16, len: u16)
        requires { header < 64 }
        ensures { self.new ≡ slice_set self.old header (record { place = place; len = len }) }
    {
        self.stand[usize::from(header)] = TailAt { place, len };
    }
}
