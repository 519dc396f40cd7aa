//! Words of 64 rows each, side by side, from which rows are taken away vector by vector.

ghost use Rattle.std.specs.Prelude.{◌≡◌, ℕ, ◌*◌, ◌/◌, ◌%◌, ◌<◌, true, length, bit_and, slice_index};
ghost use Rattle.std.specs.Int.{bit_at};
ghost use Rattle.rmt_memory.specs.Searching.{FirstIn};

/// How many words stand side by side.
pub const SIDE: usize = 8;

/// Keeps those bits of eight words that are set in eight others too.
pub fn keep(words: &mut [u64], others: &[u64])
    requires size { length words.old ≡ 8 }
    requires others { length others.now ≡ 8 }
    ensures size { length words.new ≡ 8 }
    ensures each { (k : ℕ) → k < 8 → slice_index words.new k ≡ bit_and (slice_index words.old k) (slice_index others.now k) }
{
    for at in 0..SIDE {
        words[at] &= others[at];
    }
}

/// Whether no bit is set.
pub fn is_zero(words: &[u64]) -> bool
    ensures { result ≡ true → (k : ℕ) → k < length words.now → slice_index words.now k ≡ 0 }
{
    let mut any = 0;
    for at in 0..words.len() {
        any |= words[at];
    }
    any == 0
}

/// The first bit that is set.
pub fn first_bit(words: &[u64]) -> Option<usize>
    requires { length words.now ≡ 8 }
    ensures { FirstIn (λ r. bit_at (slice_index words.now (r / 64)) (r % 64) ≡ 1) 0 (64 * 8) result }
{
    for at in 0..SIDE {
        let word = words[at];
        if word != 0 {
            return Some(64 * at + word.trailing_zeros() as usize);
        }
    }
    None
}
