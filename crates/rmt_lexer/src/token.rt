//! Tokens.

ghost use Rattle.std.specs.Prelude.{◌≡◌, IfOk, IfErr};
ghost use Rattle.rmt_lexer.specs.declared.fault.ProgramFault.TheVariants.{NoMemory};

use crate::fault::ProgramFault;
use rmt_ast::name::Name;
use std::alloc::Global;

/// A token of a program's text and where it begins.
#[derive(Debug, Drop)]
pub struct Token {
    /// The line of its first byte, from 1.
    pub line: u32,
    /// The column of its first byte, in bytes from 1.
    pub column: u32,
    /// What it is.
    pub what: TokenKind,
}

/// What a token is.
#[derive(Debug, Drop)]
pub enum TokenKind {
    /// A name or a reserved word.
    Word(Name),
    /// Decimal, or hexadecimal behind `0x`.
    Number(u128),
    /// A sign of one byte.
    Sign(u8),
    /// The sign `==`.
    Equal,
    /// The end of the text, the last token of each text.
    End,
}

impl Token {
    /// An equal token. It is refused for want of memory alone.
    pub fn copy(&self, alloc: Global) -> Result<Token, ProgramFault>
        ensures token { IfOk result (λ token. token ≡ self.now) }
        ensures err { IfErr result (λ fault. fault ≡ NoMemory) }
    {
        let what = match &self.what {
            TokenKind::Word(name) => match name.copy(alloc) {
                Ok(name) => TokenKind::Word(name),
                Err(_) => return Err(ProgramFault::NoMemory),
            },
            TokenKind::Number(number) => TokenKind::Number(*number),
            TokenKind::Sign(sign) => TokenKind::Sign(*sign),
            TokenKind::Equal => TokenKind::Equal,
            TokenKind::End => TokenKind::End,
        };
        Ok(Token {
            line: self.line,
            column: self.column,
            what,
        })
    }
}
