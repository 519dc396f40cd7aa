//! Texts as tokens with their places.

ghost use Rattle.std.specs.Prelude.{◌<◌, length};

use crate::tests::compare::same_text;
use rmt_lexer::fault::ProgramFault;
use rmt_lexer::token::{Token, TokenKind};
use rmt_lexer::tokens;
use std::alloc::{AllocError, Global};

/// The tokens of a text with their places, or its fault.
fn shown(alloc: Global, text: &[u8]) -> Result<String, AllocError>
    requires { length text.now < 4294967295 }
{
    let list = match tokens(alloc, text) {
        Ok(list) => list,
        Err(ProgramFault::At { code, line, column }) => return format!(in alloc;
            "fault {code} {line}:{column}"
        ),
        Err(ProgramFault::NoMemory) => return Err(AllocError),
    };
    let mut out = String::new(alloc);
    for token in &list {
        push_token(&mut out, token)?;
    }
    Ok(out)
}

/// A token with its place.
fn push_token(out: &mut String, token: &Token) -> Result<(), AllocError> {
    write!(out, "{}:{} ", token.line, token.column)?;
    match &token.what {
        TokenKind::Word(name) => write!(out, "{:?}|", name.as_slice()),
        TokenKind::Number(number) => write!(out, "{number}|"),
        TokenKind::Sign(sign) => write!(out, "sign {sign}|"),
        TokenKind::Equal => out.push_str("==|"),
        TokenKind::End => out.push_str("end|"),
    }
}

const TEXTS: [(&[u8], &str); 18] = [
    (b"", "1:1 end|"),
    (b"a\n", "1:1 [97]|2:1 end|"),
    (
        b"a_1 0x1F 007 0X10",
        "1:1 [97, 95, 49]|1:5 31|1:10 7|1:14 0|1:15 [88, 49, 48]|1:18 end|",
    ),
    (b"12ab", "1:1 12|1:3 [97, 98]|1:5 end|"),
    (
        b"a==b= =",
        "1:1 [97]|1:2 ==|1:4 [98]|1:5 sign 61|1:7 sign 61|1:8 end|",
    ),
    (b"a // @\nb", "1:1 [97]|2:1 [98]|2:2 end|"),
    (b"// @", "1:5 end|"),
    (b"a//\r@\n", "1:1 [97]|2:1 end|"),
    (b"a\r\n\tb\rc", "1:1 [97]|2:2 [98]|2:4 [99]|2:5 end|"),
    (
        b"{}():;,.+-&|^",
        "1:1 sign 123|1:2 sign 125|1:3 sign 40|1:4 sign 41|1:5 sign 58|1:6 sign 59|1:7 sign 44|1:8 sign 46|1:9 sign 43|1:10 sign 45|1:11 sign 38|1:12 sign 124|1:13 sign 94|1:14 end|",
    ),
    (b"@", "fault 1 1:1"),
    (b"a\n /b", "fault 1 2:2"),
    (b"\xff", "fault 1 1:1"),
    (b"0x", "fault 2 1:1"),
    (b"a 0xg @", "fault 2 1:3"),
    (b"340282366920938463463374607431768211456", "fault 2 1:1"),
    (b"0x100000000000000000000000000000000", "fault 2 1:1"),
    (
        b"340282366920938463463374607431768211455",
        "1:1 340282366920938463463374607431768211455|1:40 end|",
    ),
];

#[test]
fn reads_texts(rt: HostRuntime) {
    for &(text, want) in &TEXTS {
        assert!(rt; text.len() < 1000);
        let got = shown(rt.alloc(), text).expect(&rt, "memory");
        same_text(&rt, got.as_str(), want);
    }
}
