//! Reads fields.

ghost use Rattle.std.specs.Prelude.{◌≡◌, IfOk};
ghost use Rattle.rmt_check.specs.Reading.{word_at, words, field_text, field_at};

use crate::reading::lists::{Part, add_read, parts_of};
use crate::reading::words::{copy_ident, ident_of, no_name, nowhere};
use crate::rules::places::beyond;
use crate::source::{FieldText, Ident, OwnerText};
use rmt_bits::sequence::Sequence;
use rmt_lexer::token::TokenKind;
use rmt_syntax::tree::{Rule, Tree};
use std::alloc::{AllocError, Global};

/// The word that the first tree is, a name or a reserved word.
fn word_at(alloc: Global, trees: &[Tree]) -> Result<Option<Ident>, AllocError>
    ensures { IfOk result (λ word. word ≡ word_at trees.now) }
{
    let [Tree::One(token), ..] = trees else {
        return Ok(None);
    };
    match token.what {
        TokenKind::Word(_) => Ok(Some(ident_of(alloc, token)?)),
        _ => Ok(None),
    }
}

/// The words among some trees.
fn words(alloc: Global, trees: &[Tree]) -> Result<Sequence<Ident>, AllocError>
    ensures { IfOk result (λ found. found ≡ words trees.now) }
{
    let mut found = Sequence::new(alloc);
    for at in 0..trees.len() {
        add_read(&mut found, word_at(alloc, beyond(at, trees)))?;
    }
    Ok(found)
}

/// A field of these words.
fn field_text(
    alloc: Global,
    header: Option<Ident>,
    words: &[Ident],
) -> Result<FieldText, AllocError>
    ensures { IfOk result (λ field. field ≡ field_text header words.now) }
{
    match words {
        [] => Ok(FieldText {
            place: nowhere(),
            owner: OwnerText::Intrinsic,
            ident: no_name(alloc),
        }),
        [word] => Ok(FieldText {
            place: word.place,
            owner: OwnerText::Intrinsic,
            ident: copy_ident(alloc, word)?,
        }),
        [first, word, ..] => Ok(FieldText {
            place: first.place,
            owner: match header {
                Some(header) => OwnerText::Header(header),
                None => OwnerText::Metadata,
            },
            ident: copy_ident(alloc, word)?,
        }),
    }
}

impl Part for FieldText {
    ghost seen = { field_at };

    fn read(alloc: Global, trees: &[Tree]) -> Result<Option<FieldText>, AllocError> {
        let Some(parts) = parts_of(Rule::Field, trees) else {
            return Ok(None);
        };
        let header = Ident::read(alloc, parts)?;
        let words = words(alloc, parts)?;
        Ok(Some(field_text(alloc, header, words.as_slice())?))
    }
}
