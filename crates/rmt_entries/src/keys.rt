//! The keys that the words of a line say.

ghost use Rattle.std.specs.Prelude.{◌≡◌, ◌≤◌, ◌==◌, ℕ, List, Option, option_map, IfOk};
ghost use Rattle.rmt_ast.specs.declared.program.Test.{Test as TestValue};
ghost use Rattle.std.specs.List.{after_first, before_first};
ghost use Rattle.rmt_entries.specs.Keys.{both, exact_test, masked, pattern_test, prefix_mask, prefix_of, prefix_key, prefix_words, key_of, ranked, read_each};
ghost use Rattle.rmt_entries.specs.Numbers.{number_of_width};
ghost use Rattle.rmt_entries.specs.Taken.{AreNarrow, IsTaken, test_of};

use crate::numbers::{decimal_up_to, number_of_width, priority};
use crate::words::Words;
use rmt_ast::program::{Kind, Test};
use rmt_bits::bits::ones;
use rmt_bits::cuts::cut;
use rmt_bits::sequence::Sequence;
use std::alloc::{AllocError, Global};

/// The key of an entry.
#[derive(Drop)]
pub struct Key {
    /// One for each field of the table's key.
    pub tests: Sequence<Test>,
    /// The length in bits of a prefix, the priority in a ternary table, and else 0.
    pub rank: u32,
}

/// What the words of a key are.
#[derive(Clone, Copy)]
pub enum Form {
    /// Values, of which all bits count.
    Value,
    /// Patterns, with masks.
    Pattern,
}

/// A test of a mask's bits.
fn masked(value: u128, mask: u128) -> Test
    ensures { result ≡ masked value mask }
{
    Test {
        value: value & mask,
        mask,
    }
}

/// The test that a value says.
fn exact_test(width: u8, word: &[u8]) -> Option<Test>
    requires { width ≤ 128 }
    ensures { result ≡ exact_test width word.now }
{
    match number_of_width(width, word) {
        Some(value) => Some(Test {
            value,
            mask: ones(width),
        }),
        None => None,
    }
}

/// The test that `value&mask` says.
fn masked_test(width: u8, word: &[u8]) -> Option<Test>
    requires { width ≤ 128 }
    ensures { result ≡ both masked (number_of_width width (before_first (λ b. b == 38) word.now))
        (number_of_width width (after_first (λ b. b == 38) word.now)) }
{
    let (value, mask) = cut(word, b'&');
    match (number_of_width(width, value), number_of_width(width, mask)) {
        (Some(value), Some(mask)) => Some(masked(value, mask)),
        _ => None,
    }
}

/// The test that a pattern says: `*`, `value&mask` or a value.
fn pattern_test(width: u8, word: &[u8]) -> Option<Test>
    requires { width ≤ 128 }
    ensures { result ≡ pattern_test width word.now }
{
    if word == b"*".as_slice() {
        Some(masked(0, 0))
    } else if word.contains(&b'&') {
        masked_test(width, word)
    } else {
        exact_test(width, word)
    }
}

/// The test that a word of a form says.
fn test_of(form: Form, width: u8, word: &[u8]) -> Option<Test>
    requires { width ≤ 128 }
    ensures { result ≡ test_of form width word.now }
{
    match form {
        Form::Value => exact_test(width, word),
        Form::Pattern => pattern_test(width, word),
    }
}

/// The tests that the next words say, one for each width; None where the words are too few or one isn't of the form.
fn tests_of(
    alloc: Global,
    form: Form,
    widths: &[u8],
    words: &mut Words<'_>,
) -> Result<Option<Sequence<Test>>, AllocError>
    requires { AreNarrow widths.now }
    ensures { IfOk result (λ tests. IsTaken tests words.new (read_each (test_of form) widths.now words.old)) }
{
    let mut tests = Sequence::from_vec(Vec::with_capacity(alloc, widths.len())?);
    for width in widths {
        let Some(word) = words.take() else {
            return Ok(None);
        };
        let Some(test) = test_of(form, *width, word) else {
            return Ok(None);
        };
        tests.push(test)?;
    }
    Ok(Some(tests))
}

/// Tests with their rank.
fn with_rank(rank: u32, tests: Option<Sequence<Test>>) -> Option<Key>
    ensures { (left : List (List ℕ)) (wanted : Option (List TestValue × List (List ℕ))) →
        IsTaken tests left wanted → IsTaken result left (option_map (ranked rank) wanted) }
{
    match tests {
        Some(tests) => Some(Key { tests, rank }),
        None => None,
    }
}

/// The mask of so many highest bits of a field.
fn prefix_mask(width: u8, len: u8) -> u128
    requires width { width ≤ 128 }
    requires len { len ≤ width }
    ensures { result ≡ prefix_mask width len }
{
    let all = ones(width);
    let low = ones(width - len);
    all - low
}

/// A prefix of a field.
fn prefix_of(alloc: Global, width: u8, value: u128, len: u8) -> Result<Key, AllocError>
    requires width { width ≤ 128 }
    requires len { len ≤ width }
    ensures { IfOk result (λ key. key ≡ prefix_of width value len) }
{
    let mut tests = Sequence::from_vec(Vec::with_capacity(alloc, 1)?);
    tests.push(masked(value, prefix_mask(width, len)))?;
    Ok(Key {
        tests,
        rank: u32::from(len),
    })
}

/// The prefix that `value/length` says.
fn prefix_key(alloc: Global, width: u8, word: &[u8]) -> Result<Option<Key>, AllocError>
    requires { width ≤ 128 }
    ensures { IfOk result (λ key. key ≡ prefix_key width word.now) }
{
    if !word.contains(&b'/') {
        return Ok(None);
    }
    let (value, len) = cut(word, b'/');
    match (number_of_width(width, value), decimal_up_to(width, len)) {
        (Some(value), Some(len)) => Ok(Some(prefix_of(alloc, width, value, len)?)),
        _ => Ok(None),
    }
}

/// The key of a table of prefixes.
fn prefix_words(
    alloc: Global,
    widths: &[u8],
    words: &mut Words<'_>,
) -> Result<Option<Key>, AllocError>
    requires { AreNarrow widths.now }
    ensures { IfOk result (λ key. IsTaken key words.new (prefix_words widths.now words.old)) }
{
    let [width] = widths else {
        return Ok(None);
    };
    match words.take() {
        Some(word) => prefix_key(alloc, *width, word),
        None => Ok(None),
    }
}

/// Takes the key of a table of a kind, by the widths of its fields; None where the words are too few, one isn't of
/// the form or has a number that doesn't fit, or the table has no key. The only fault is want of memory.
pub fn key_of(
    alloc: Global,
    kind: Kind,
    widths: &[u8],
    words: &mut Words<'_>,
) -> Result<Option<Key>, AllocError>
    requires { AreNarrow widths.now }
    ensures { IfOk result (λ key. IsTaken key words.new (key_of kind widths.now words.old)) }
{
    match kind {
        Kind::Keyless => Ok(None),
        Kind::Exact => Ok(with_rank(0, tests_of(alloc, Form::Value, widths, words)?)),
        Kind::Prefix => prefix_words(alloc, widths, words),
        Kind::Ternary => {
            let Some(word) = words.take() else {
                return Ok(None);
            };
            let Some(rank) = priority(word) else {
                return Ok(None);
            };
            Ok(with_rank(rank, tests_of(alloc, Form::Pattern, widths, words)?))
        }
    }
}
