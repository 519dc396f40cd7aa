//! What tokens are to the grammar.

ghost use Rattle.std.specs.Prelude.{◌≡◌, ◌==◌, map};
ghost use Rattle.std.specs.Str.{bytes_eq};
ghost use Rattle.rmt_syntax.specs.declared.terminal.Terminal.TheVariants.{Name, Other};
ghost use Rattle.rmt_syntax.specs.Lookahead.{same};
ghost use Rattle.rmt_syntax.specs.Grammar.{entry, keywords, signs, word_terminal, sign_terminal, terminal_of};

use rmt_lexer::token::{Token, TokenKind};

/// What a token is to the grammar.
#[derive(Clone, Copy, Debug, PartialEq, Eq)]
pub enum Terminal {
    Header,
    Next,
    Accept,
    Reject,
    Meta,
    Action,
    Table,
    Exact,
    Prefix,
    Ternary,
    Actions,
    Default,
    Size,
    Counted,
    Control,
    Apply,
    If,
    Else,
    Hit,
    Miss,
    InPort,
    OutPort,
    Drop,
    Valid,
    Tail,
    Name,
    Number,
    OpenBrace,
    CloseBrace,
    OpenParen,
    CloseParen,
    Colon,
    Semicolon,
    Comma,
    Dot,
    Assign,
    Plus,
    Minus,
    Star,
    Ampersand,
    Bar,
    Caret,
    Equal,
    End,
    Other,
}

/// The reserved words.
const KEYWORDS: &[(&[u8], Terminal)] = &[
    (b"header", Terminal::Header),
    (b"next", Terminal::Next),
    (b"accept", Terminal::Accept),
    (b"reject", Terminal::Reject),
    (b"meta", Terminal::Meta),
    (b"action", Terminal::Action),
    (b"table", Terminal::Table),
    (b"exact", Terminal::Exact),
    (b"prefix", Terminal::Prefix),
    (b"ternary", Terminal::Ternary),
    (b"actions", Terminal::Actions),
    (b"default", Terminal::Default),
    (b"size", Terminal::Size),
    (b"counted", Terminal::Counted),
    (b"control", Terminal::Control),
    (b"apply", Terminal::Apply),
    (b"if", Terminal::If),
    (b"else", Terminal::Else),
    (b"hit", Terminal::Hit),
    (b"miss", Terminal::Miss),
    (b"in_port", Terminal::InPort),
    (b"out_port", Terminal::OutPort),
    (b"drop", Terminal::Drop),
    (b"valid", Terminal::Valid),
    (b"tail", Terminal::Tail),
];

/// The signs of one byte.
const SIGNS: &[(u8, Terminal)] = &[
    (b'{', Terminal::OpenBrace),
    (b'}', Terminal::CloseBrace),
    (b'(', Terminal::OpenParen),
    (b')', Terminal::CloseParen),
    (b':', Terminal::Colon),
    (b';', Terminal::Semicolon),
    (b',', Terminal::Comma),
    (b'.', Terminal::Dot),
    (b'=', Terminal::Assign),
    (b'+', Terminal::Plus),
    (b'-', Terminal::Minus),
    (b'*', Terminal::Star),
    (b'&', Terminal::Ampersand),
    (b'|', Terminal::Bar),
    (b'^', Terminal::Caret),
];

/// The terminal of a word in a table of reserved words, or that of a name.
fn keyword_in(table: &[(&[u8], Terminal)], word: &[u8]) -> Terminal
    ensures { result ≡ entry (λ k. bytes_eq k word.now) (map (λ k. (k.0.now, k.1)) table.now) Name }
{
    for (keyword, terminal) in table {
        if *keyword == word {
            return *terminal;
        }
    }
    Terminal::Name
}

/// What a name or a reserved word is.
fn word_terminal(word: &[u8]) -> Terminal
    ensures { result ≡ word_terminal word.now }
{
    keyword_in(KEYWORDS, word)
}

/// The terminal of a byte in a table of signs.
fn sign_in(table: &[(u8, Terminal)], byte: u8) -> Terminal
    ensures { result ≡ entry (λ k. k == byte) table.now Other }
{
    for (sign, terminal) in table {
        if *sign == byte {
            return *terminal;
        }
    }
    Terminal::Other
}

/// What a sign of one byte is.
fn sign_terminal(byte: u8) -> Terminal
    ensures { result ≡ sign_terminal byte }
{
    sign_in(SIGNS, byte)
}

/// Whether two terminals are the same.
pub fn is_same(a: Terminal, b: Terminal) -> bool
    ensures { result ≡ same a b }
{
    a == b
}

/// What a token is to the grammar.
pub fn terminal_of(token: &Token) -> Terminal
    ensures { result ≡ terminal_of token.now.what }
{
    match &token.what {
        TokenKind::Word(name) => word_terminal(name.as_slice()),
        TokenKind::Number(_) => Terminal::Number,
        TokenKind::Sign(byte) => sign_terminal(*byte),
        TokenKind::Equal => Terminal::Equal,
        TokenKind::End => Terminal::End,
    }
}
