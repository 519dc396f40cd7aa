//! Whole words on their way into a vector.

ghost use Rattle.std.specs.Prelude.{◌<◌, ◌^◌};
ghost use Rattle.rmt_bits.specs.Words.{word_size as word_size_of};

/// A value for a whole word of a vector.
#[derive(Clone, Copy)]
pub struct Write {
    pub word: u8,
    pub value: u32,
    pub ghost exists: { word < 224 },
    pub ghost within: { value < 2 ^ word_size_of word },
}
