//! Which words are names.

ghost use Rattle.std.specs.Prelude.{◌≡◌};
ghost use Rattle.std.specs.List.{list_all};
ghost use Rattle.rmt_bits.specs.Digits.{is_digit};
ghost use Rattle.rmt_ast.specs.NameForm.{has_name_form, is_letter, is_name, is_name_byte, reserved_words};
ghost use Rattle.rmt_ast.specs.NameList.{is_known, seen};

/// The words that are no names.
const RESERVED: &[&[u8]] = &[
    b"header",
    b"next",
    b"accept",
    b"reject",
    b"meta",
    b"action",
    b"table",
    b"exact",
    b"prefix",
    b"ternary",
    b"actions",
    b"default",
    b"size",
    b"counted",
    b"control",
    b"apply",
    b"if",
    b"else",
    b"hit",
    b"miss",
    b"in_port",
    b"out_port",
    b"drop",
    b"valid",
];

fn is_letter(byte: u8) -> bool
    ensures { result ≡ is_letter byte }
{
    (97 <= byte && byte <= 122) || (65 <= byte && byte <= 90) || byte == 95
}

fn is_digit(byte: u8) -> bool
    ensures { result ≡ is_digit byte }
{
    48 <= byte && byte <= 57
}

fn is_name_byte(byte: u8) -> bool
    ensures { result ≡ is_name_byte byte }
{
    is_letter(byte) || is_digit(byte)
}

fn are_name_bytes(bytes: &[u8]) -> bool
    ensures { result ≡ list_all is_name_byte bytes.now }
{
    bytes.iter().all(|byte| is_name_byte(*byte))
}

fn has_name_form(word: &[u8]) -> bool
    ensures { result ≡ has_name_form word.now }
{
    match word {
        [] => false,
        [first, rest @ ..] => is_letter(*first) && are_name_bytes(rest),
    }
}

fn is_among(words: &[&[u8]], word: &[u8]) -> bool
    ensures { result ≡ is_known (seen words.now) word.now }
{
    for other in words {
        if word == *other {
            return true;
        }
    }
    false
}

fn is_reserved(word: &[u8]) -> bool
    ensures { result ≡ is_known reserved_words word.now }
{
    is_among(RESERVED, word)
}

/// Whether a word is of the form of names, and not reserved.
pub fn is_name(word: &[u8]) -> bool
    ensures { result ≡ is_name word.now }
{
    has_name_form(word) && !is_reserved(word)
}
