//! The sizes of words that hold a piece of a field.

ghost use Rattle.std.specs.Prelude.{◌≡◌, ◌≤◌};
ghost use Rattle.rmt_phv.specs.Packing.{class_of as class_of_len, first_word as first_word_for};

/// The size of the least words that hold a piece of this many bits.
pub fn class_of(len: u8) -> u8
    ensures { result ≡ class_of_len len }
{
    match len {
        0..=8 => 8,
        9..=16 => 16,
        _ => 32,
    }
}

/// The first word that holds a piece of this many bits.
pub fn first_word(len: u8) -> u8
    ensures word { result ≡ first_word_for len }
    ensures exists { result ≤ 224 }
{
    match len {
        0..=8 => 0,
        9..=16 => 64,
        _ => 160,
    }
}
