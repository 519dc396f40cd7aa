//! All tokens of a text.

ghost use Rattle.std.specs.Prelude.{◌≡◌, ◌<◌, ◌++◌, ◌∷◌, [], length, IfOk, OnOk};
ghost use Rattle.rmt_lexer.specs.Text.{EndsOnce, Gives, token_at, tokens_of};
ghost use Rattle.rmt_lexer.specs.declared.fault.ProgramFault.TheVariants.{At};

use crate::fault::ProgramFault;
use crate::item::{Item, item_of};
use crate::position::{Position, moved};
use crate::token::{Token, TokenKind};
use std::alloc::{AllocError, Global};

/// The tokens of a program's text, the last of them the end of the text. It takes time and memory in proportion to
/// the text. Refused for want of memory, and at the earliest of: a byte outside comments that begins no token (code 1),
/// a number of 2^128 or more, or `0x` without a digit (code 2).
pub fn tokens(alloc: Global, text: &[u8]) -> Result<Vec<Token>, ProgramFault>
    requires { length text.now < 4294967295 }
    ensures exact { Gives (λ tokens. tokens.items) result (tokens_of text.now) }
    ensures ends { IfOk result (λ tokens. EndsOnce tokens.items) }
{
    let mut tokens = Vec::new(alloc);
    let mut place = Position { line: 1, column: 1 };
    let mut rest = text;
    while !rest.is_empty() {
        match item_of(alloc, rest)? {
            Item::Gap(len) => {
                let (taken, behind) = rest.split_at(len);
                place = moved(place, taken);
                rest = behind;
            }
            Item::Token(what, len) => {
                put(&mut tokens, token_at(place, what))?;
                let (taken, behind) = rest.split_at(len);
                place = moved(place, taken);
                rest = behind;
            }
            Item::Fault(code) => return Err(fault_at(place, code)),
        }
    }
    put(&mut tokens, token_at(place, TokenKind::End))?;
    Ok(tokens)
}

/// Adds a token behind others.
fn put(tokens: &mut Vec<Token>, token: Token) -> Result<(), AllocError>
    ensures items { OnOk result (tokens.new.items ≡ tokens.old.items ++ token ∷ []) }
{
    tokens.push(token)?;
    Ok(())
}

fn token_at(place: Position, what: TokenKind) -> Token
    ensures { result ≡ token_at place what }
{
    Token {
        line: place.line,
        column: place.column,
        what,
    }
}

fn fault_at(place: Position, code: u8) -> ProgramFault
    ensures { result ≡ At code place.line place.column }
{
    ProgramFault::At {
        code,
        line: place.line,
        column: place.column,
    }
}
