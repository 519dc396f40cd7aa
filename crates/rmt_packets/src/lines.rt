//! The lines of a text that is there whole.

ghost use Rattle.std.specs.Prelude.{◌≡◌, ℕ, ◌+◌, ◌-◌, ◌<◌, ◌≤◌, ◌==◌, ◌⊎◌, [], ◌∷◌, length, drop, min, slice_index, slice_range, IfSome, IfNone};
ghost use Rattle.std.specs.List.{position, position_or_len};
ghost use Rattle.rmt_bits.specs.Lines.{numbered_lines};

use rmt_bits::lines::is_passed_over;

/// A line of a text that is not passed over.
#[derive(Clone, Copy, Debug, PartialEq, Eq)]
pub struct Line {
    /// Its number; the first line of a text has number 1.
    pub number: u64,
    /// The place of its first byte.
    pub from: usize,
    /// The place after its last byte, its line feed left out.
    pub to: usize,
    /// The place at which the line behind it begins.
    pub next: usize,
}

/// The first line from the place `at` on that is neither blank nor a comment. `number` is the number of the line that
/// begins at `at`.
pub fn next_line(text: &[u8], at: usize, number: u64) -> Option<Line>
    requires within { at ≤ length text.now }
    requires numbered { number ≤ at + 1 }

    // The lines from `at` on are this line and then those from `next` on.
    ensures none { IfNone result (numbered_lines number (drop at text.now) ≡ []) }
    ensures some { IfSome result (λ l. numbered_lines number (drop at text.now) ≡
        (l.number, slice_range text.now l.from l.to) ∷ numbered_lines (l.number + 1) (drop l.next text.now)) }

    // Where it stands.
    ensures places { IfSome result (λ l. (at ≤ l.from) × (l.from < l.to) × (l.to ≤ l.next) × (l.next ≤ length text.now)) }

    // It begins at `at` or behind a line feed, and ends at a line feed or with the text, as the line behind it begins.
    ensures starts { IfSome result (λ l. (l.from ≡ at) ⊎ ((at < l.from) × (slice_index text.now (l.from - 1) ≡ 10))) }
    ensures ends { IfSome result (λ l. (l.to ≡ length text.now) ⊎ (slice_index text.now l.to ≡ 10)) }
    ensures next { IfSome result (λ l. l.next ≡ min (l.to + 1) (length text.now)) }
    ensures counted { IfSome result (λ l. (number ≤ l.number) × (l.number ≤ l.next)) }
{
    let mut from = at;
    let mut line = number;
    while from < text.len() {
        let to = line_end(text, from);
        let next = behind(text, to);
        if !is_passed_over(&text[from..to]) {
            return Some(Line {
                number: line,
                from,
                to,
                next,
            });
        }
        from = next;
        line += 1;
    }
    None
}

/// The place of the first line feed from `from` on, or the text's length.
pub(crate) fn line_end(text: &[u8], from: usize) -> usize
    requires { from ≤ length text.now }
    ensures place { result ≡ from + position_or_len (λ b. b == 10) (drop from text.now) }
    ensures within { result ≤ length text.now }
{
    match line_feed(&text[from..]) {
        Some(count) => from + count,
        None => text.len(),
    }
}

/// The place of the first line feed.
fn line_feed(text: &[u8]) -> Option<usize>
    ensures { result ≡ position (λ b. b == 10) text.now }
{
    text.iter().position(|b| *b == b'\n')
}

/// The place behind the line feed at `to`, or `to` where the text ends there.
fn behind(text: &[u8], to: usize) -> usize
    requires { to ≤ length text.now }
    ensures within { result ≤ length text.now }
    ensures at_least { to ≤ result }
    ensures past { to < length text.now → result ≡ to + 1 }
    ensures rest { drop result text.now ≡ drop (to + 1) text.now }
{
    if to < text.len() { to + 1 } else { to }
}
