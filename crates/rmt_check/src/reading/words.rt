//! Reads names, numbers and places.

ghost use Rattle.std.specs.Prelude.{◌≡◌, IfOk};
ghost use Rattle.rmt_check.specs.Reading.{name_at, number_at, place_at, place_of, token_place, ident_of, nowhere, no_name, no_number, name_among, number_among, place_among, declared_at};

use crate::reading::lists::{Among, Part};
use crate::rules::places::beyond;
use crate::source::{Declared, Ident, Number};
use rmt_ast::name::Name;
use rmt_lexer::position::Position;
use rmt_lexer::token::{Token, TokenKind};
use rmt_syntax::terminal::{Terminal, is_same, terminal_of};
use rmt_syntax::tree::Tree;
use std::alloc::{AllocError, Global};

/// The place of a token.
pub fn place_of(token: &Token) -> Position
    ensures { result ≡ place_of token.now }
{
    Position {
        line: token.line,
        column: token.column,
    }
}

/// The place of what is nowhere in a text.
pub fn nowhere() -> Position
    ensures { result ≡ nowhere }
{
    Position { line: 0, column: 0 }
}

impl Part for Position {
    ghost seen = { token_place };

    fn read(_alloc: Global, trees: &[Tree]) -> Result<Option<Position>, AllocError> {
        match trees {
            [Tree::One(token), ..] => Ok(Some(place_of(token))),
            _ => Ok(None),
        }
    }
}

impl Among for Position {
    ghost among = { place_among };

    fn among(alloc: Global, trees: &[Tree]) -> Result<Position, AllocError> {
        Ok(Option::among(alloc, trees)?.unwrap_or(nowhere()))
    }
}

/// An equal name.
pub fn copy_name(alloc: Global, name: &Name) -> Result<Name, AllocError>
    ensures { IfOk result (λ copy. copy ≡ name.now) }
{
    Ok(Name::from_vec(Vec::from_slice(alloc, name.as_slice())?))
}

/// An equal name at the same place.
pub fn copy_ident(alloc: Global, ident: &Ident) -> Result<Ident, AllocError>
    ensures { IfOk result (λ copy. copy ≡ ident.now) }
{
    Ok(Ident {
        place: ident.place,
        name: copy_name(alloc, &ident.name)?,
    })
}

/// A token as it is written: a word with its bytes, another one with none.
pub fn ident_of(alloc: Global, token: &Token) -> Result<Ident, AllocError>
    ensures { IfOk result (λ ident. ident ≡ ident_of token.now) }
{
    let name = match &token.what {
        TokenKind::Word(name) => copy_name(alloc, name)?,
        _ => Name::new(alloc),
    };
    Ok(Ident {
        place: place_of(token),
        name,
    })
}

impl Part for Ident {
    ghost seen = { name_at };

    fn read(alloc: Global, trees: &[Tree]) -> Result<Option<Ident>, AllocError> {
        let [Tree::One(token), ..] = trees else {
            return Ok(None);
        };
        match terminal_of(token) {
            Terminal::Name => Ok(Some(ident_of(alloc, token)?)),
            _ => Ok(None),
        }
    }
}

impl Part for Number {
    ghost seen = { number_at };

    fn read(_alloc: Global, trees: &[Tree]) -> Result<Option<Number>, AllocError> {
        let [Tree::One(token), ..] = trees else {
            return Ok(None);
        };
        match token.what {
            TokenKind::Number(value) => Ok(Some(Number {
                place: place_of(token),
                value,
            })),
            _ => Ok(None),
        }
    }
}

/// No name.
pub fn no_name(alloc: Global) -> Ident
    ensures { result ≡ no_name }
{
    Ident {
        place: nowhere(),
        name: Name::new(alloc),
    }
}

/// No number.
pub fn no_number() -> Number
    ensures { result ≡ no_number }
{
    Number {
        place: nowhere(),
        value: 0,
    }
}

impl Among for Ident {
    ghost among = { name_among };

    fn among(alloc: Global, trees: &[Tree]) -> Result<Ident, AllocError> {
        Ok(Option::among(alloc, trees)?.unwrap_or(no_name(alloc)))
    }
}

impl Among for Number {
    ghost among = { number_among };

    fn among(alloc: Global, trees: &[Tree]) -> Result<Number, AllocError> {
        Ok(Option::among(alloc, trees)?.unwrap_or(no_number()))
    }
}

/// The place of the first tree, where it is a token of a kind.
pub fn place_at(wanted: Terminal, trees: &[Tree]) -> Option<Position>
    ensures { result ≡ place_at wanted trees.now }
{
    let [Tree::One(token), ..] = trees else {
        return None;
    };
    if is_same(wanted, terminal_of(token)) {
        Some(place_of(token))
    } else {
        None
    }
}

impl Part for Declared {
    ghost seen = { declared_at };

    fn read(alloc: Global, trees: &[Tree]) -> Result<Option<Declared>, AllocError> {
        match (
            place_at(Terminal::Colon, beyond(1, trees)),
            Number::read(alloc, beyond(2, trees))?,
            Ident::read(alloc, trees)?,
        ) {
            (Some(_), Some(width), Some(ident)) => Ok(Some(Declared { ident, width })),
            _ => Ok(None),
        }
    }
}
