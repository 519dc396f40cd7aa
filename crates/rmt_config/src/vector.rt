//! The header vector that a packet carries through the stages.

ghost use Rattle.std.specs.Prelude.{◌≡◌, ◌<◌, ◌^◌, replicate, length, slice_index, slice_set};
ghost use Rattle.rmt_bits.specs.Words.{word_size as word_size_of};

use std::marker::Model;

/// 224 words: 64 of 8 bits, 96 of 16 and 64 of 32. Contracts see it as the list of the words.
#[derive(Drop, Debug)]
pub struct Vector {
    words: [u32; 224],
}

impl Model for Vector {
    ghost use Rattle.std.specs.Prelude.{List, ℕ};
    ghost use Rattle.rmt_bits.specs.Words.{AreWords};

    ghost Value = { List ℕ };

    ghost view = { λ v. v.words };

    ghost invariant = { λ v. AreWords v.words };
}

impl Vector {
    /// A vector with all words 0.
    pub fn new() -> Vector
        ensures { result ≡ replicate 224 0 }
    {
        Vector { words: [0; 224] }
    }

    /// The word of this number, which must be below 224.
    pub fn get(&self, word: u8) -> u32
        requires { word < 224 }
        ensures value { result ≡ slice_index self.now word }
        ensures within { result < 2 ^ word_size_of word }
        ensures whole { length self.now ≡ 224 }
    {
        self.words[usize::from(word)]
    }

    /// Replaces one word. The word must be below 224, and the value within the word's bits.
    pub fn set(&mut self, word: u8, value: u32)
        requires exists { word < 224 }
        requires within { value < 2 ^ word_size_of word }
        ensures { self.new ≡ slice_set self.old word value }
    {
        self.words[usize::from(word)] = value;
    }
}
