//! Lines and columns.

ghost use Rattle.std.specs.Prelude.{◌≡◌, ◌+◌, ◌≤◌, length, fold};
ghost use Rattle.rmt_lexer.specs.Text.{behind};

/// A place in a text: the line and the column, both from 1.
#[derive(Clone, Copy, Debug)]
pub struct Position {
    /// How many line feeds stand before it, and one.
    pub line: u32,
    /// How many bytes of its line stand before it, and one.
    pub column: u32,
}

/// The place behind these bytes, which begin at `place`.
pub fn moved(place: Position, bytes: &[u8]) -> Position
    requires line { place.line + length bytes.now ≤ 4294967295 }
    requires column { place.column + length bytes.now ≤ 4294967295 }
    ensures place { result ≡ fold behind place bytes.now }
    ensures line { result.line ≤ place.line + length bytes.now }
    ensures column { result.column ≤ place.column + length bytes.now }
{
    let mut line = place.line;
    let mut column = place.column;
    for byte in bytes {
        if *byte == b'\n' {
            line += 1;
            column = 1;
        } else {
            column += 1;
        }
    }
    Position { line, column }
}
