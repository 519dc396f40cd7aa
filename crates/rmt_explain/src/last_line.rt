//! The words of the last line that was printed.

/// The word of a number, from 0, of a line whose words stand between single spaces.
pub fn word_at(line: &[u8], wanted: usize) -> Option<&[u8]> {
    let mut at = 0usize;
    let mut from = 0;
    for end in 0..line.len() {
        if line[end] == b' ' || line[end] == b'\n' {
            if at == wanted {
                return line.get(from..end);
            }
            at = at.saturating_add(1);
            from = end.saturating_add(1);
        }
    }
    if at == wanted { line.get(from..) } else { None }
}

/// The number that digits say, up to the last one of its size.
pub fn number_of(digits: &[u8]) -> u64 {
    let mut number: u64 = 0;
    for digit in digits {
        number = number
            .saturating_mul(10)
            .saturating_add(u64::from(digit.saturating_sub(b'0')));
    }
    number
}

/// The number of a word of a line; 0 where there is none.
pub fn number_at(line: &[u8], wanted: usize) -> u64 {
    match word_at(line, wanted) {
        Some(word) => number_of(word),
        None => 0,
    }
}
