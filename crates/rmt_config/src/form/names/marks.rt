//! Marks of numbers in a table of bits: a number that was marked is found to be so, and so is each other number whose
//! place is the same.

ghost use Rattle.std.specs.Prelude.{◌≡◌, ℕ, ◌<◌, ◌≤◌, ◌^◌, IfOk, All, length, true};
ghost use Rattle.rmt_config.specs.Marks.{is_marked, word_of};

use std::alloc::{AllocError, Global};

/// A table without marks, of so many words or up to twice as many.
pub fn no_marks(alloc: Global, words: usize) -> Result<Vec<u64>, AllocError>
    requires { words ≤ 2 ^ 63 }
    ensures { IfOk result (λ words. 0 < length words.items) }
{
    vec![in alloc; 0u64; words.next_power_of_two()]
}

/// The word in which a number is marked.
fn word_of(words: &[u64], number: u64) -> usize
    requires { 0 < length words.now }
    ensures value { result ≡ word_of words.now number }
    ensures within { result < length words.now }
{
    (number / 64) as usize & (words.len() - 1)
}

/// Whether a number is marked.
pub fn is_marked(words: &[u64], number: u64) -> bool
    requires { 0 < length words.now }
    ensures { result ≡ is_marked words.now number }
{
    words[word_of(words, number)] >> (number % 64) & 1 == 1
}

/// Marks a number.
pub fn mark(words: &mut [u64], number: u64)
    requires { 0 < length words.old }
    ensures len { length words.new ≡ length words.old }
    ensures own { is_marked words.new number ≡ true }
    ensures others { (n : ℕ) → is_marked words.old n ≡ true → is_marked words.new n ≡ true }
{
    let word = word_of(words, number);
    words[word] |= 1 << (number % 64);
}

/// A table in which each of these numbers is marked, of at least some 32 bits for each.
pub fn marks_of(alloc: Global, numbers: &[u64]) -> Result<Vec<u64>, AllocError>
    ensures some { IfOk result (λ words. 0 < length words.items) }
    ensures marked { IfOk result (λ words. All (λ n. is_marked words.items n ≡ true) numbers.now) }
{
    let mut words = no_marks(alloc, numbers.len() / 2)?;
    for number in numbers {
        mark(words.as_mut_slice(), *number);
    }
    Ok(words)
}
