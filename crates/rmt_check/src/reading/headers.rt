//! Reads headers and metadata.

ghost use Rattle.std.specs.Prelude.{◌≡◌, IfOk};
ghost use Rattle.rmt_syntax.specs.Grammar.{terminal_of};
ghost use Rattle.rmt_check.specs.Reading.{target_if, target_at, target_among, value_at, case_at, next_among, tail_at, header_at, meta_at};

use crate::pairs::both;
use crate::reading::lists::{Among, Part, Word, first_behind, first_choice, parts_of};
use crate::reading::words::{ident_of, no_name, place_at};
use crate::rules::places::beyond;
use crate::source::{
    CaseText, HeaderText, Ident, MetaText, Number, TailText, TargetText, ValueText,
};
use rmt_lexer::token::Token;
use rmt_syntax::terminal::{Terminal, terminal_of};
use rmt_syntax::tree::{Rule, Tree};
use std::alloc::{AllocError, Global};

impl Word for TargetText {
    ghost said = { λ t. target_if (terminal_of t.what) t };

    fn said(alloc: Global, token: &Token) -> Result<Option<TargetText>, AllocError> {
        match terminal_of(token) {
            Terminal::Name => Ok(Some(TargetText::Header(ident_of(alloc, token)?))),
            Terminal::Accept => Ok(Some(TargetText::Accept)),
            Terminal::Reject => Ok(Some(TargetText::Reject)),
            _ => Ok(None),
        }
    }
}

impl Part for TargetText {
    ghost seen = { target_at };

    fn read(alloc: Global, trees: &[Tree]) -> Result<Option<TargetText>, AllocError> {
        first_choice(alloc, Rule::Target, trees)
    }
}

impl Among for TargetText {
    ghost among = { target_among };

    fn among(alloc: Global, trees: &[Tree]) -> Result<TargetText, AllocError> {
        Ok(Option::among(alloc, trees)?.unwrap_or(TargetText::Header(no_name(alloc))))
    }
}

impl Part for ValueText {
    ghost seen = { value_at };

    fn read(alloc: Global, trees: &[Tree]) -> Result<Option<ValueText>, AllocError> {
        let Some(parts) = parts_of(Rule::Value, trees) else {
            return Ok(None);
        };
        Ok(Some(ValueText {
            value: Number::among(alloc, parts)?,
            mask: first_behind(alloc, Terminal::Ampersand, parts)?,
        }))
    }
}

impl Part for CaseText {
    ghost seen = { case_at };

    fn read(alloc: Global, trees: &[Tree]) -> Result<Option<CaseText>, AllocError> {
        let Some(parts) = parts_of(Rule::Case, trees) else {
            return Ok(None);
        };
        let (values, target) = Among::among(alloc, parts)?;
        Ok(Some(CaseText { values, target }))
    }
}

/// What stands behind `next` in a header.
#[tactic(auto, using(crate::proofs::ReadingLaws::places))]
fn next_among(trees: &[Tree]) -> &[Tree]
    ensures { result.now ≡ next_among trees.now }
{
    for at in 0..trees.len() {
        if let Some(parts) = parts_of(Rule::Next, beyond(at, trees)) {
            return parts;
        }
    }
    &[]
}

impl Part for TailText {
    ghost seen = { tail_at };

    fn read(alloc: Global, trees: &[Tree]) -> Result<Option<TailText>, AllocError> {
        let (Some(place), Some(unit), Some(base)) = (
            place_at(Terminal::Tail, trees),
            Number::read(alloc, beyond(3, trees))?,
            Number::read(alloc, beyond(5, trees))?,
        ) else {
            return Ok(None);
        };
        match Ident::read(alloc, beyond(1, trees))? {
            Some(field) => Ok(Some(TailText {
                place,
                field,
                unit,
                base,
            })),
            None => Ok(None),
        }
    }
}

impl Part for HeaderText {
    ghost seen = { header_at };

    fn read(alloc: Global, trees: &[Tree]) -> Result<Option<HeaderText>, AllocError> {
        let Some(parts) = parts_of(Rule::Header, trees) else {
            return Ok(None);
        };
        let (((ident, fields), tail), ((select, cases), other)) = both(
            Among::among(alloc, parts),
            Among::among(alloc, next_among(parts)),
        )?;
        Ok(Some(HeaderText {
            ident,
            fields,
            tail,
            select,
            cases,
            other,
        }))
    }
}

impl Part for MetaText {
    ghost seen = { meta_at };

    fn read(alloc: Global, trees: &[Tree]) -> Result<Option<MetaText>, AllocError> {
        let Some(parts) = parts_of(Rule::Meta, trees) else {
            return Ok(None);
        };
        let (place, fields) = Among::among(alloc, parts)?;
        Ok(Some(MetaText { place, fields }))
    }
}
