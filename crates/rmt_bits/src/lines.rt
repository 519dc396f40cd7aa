//! The lines of a text.

ghost use Rattle.std.specs.Prelude.{◌≡◌, ◌==◌};
ghost use Rattle.std.specs.List.{list_all};
ghost use Rattle.rmt_bits.specs.Lines.{is_passed_over};

/// Whether a line has only spaces.
pub fn is_blank(line: &[u8]) -> bool
    ensures { result ≡ list_all (λ b. b == 32) line.now }
{
    line.iter().all(|byte| *byte == b' ')
}

/// Whether a line is passed over: it is blank, or a comment, which begins with `#`.
pub fn is_passed_over(line: &[u8]) -> bool
    ensures { result ≡ is_passed_over line.now }
{
    is_blank(line) || line.first() == Some(&b'#')
}
