//! What the readers of all kinds of parts share.

ghost use Rattle.std.specs.Prelude.{◌≡◌, ◌++◌, IfOk, IsOk, OnOk, List, Option, option_copied};
ghost use Rattle.std.specs.Option.{option_to_list};
ghost use Rattle.rmt_check.specs.Parts.{Token, Tree};
ghost use Rattle.rmt_check.specs.Reading.{at_rule, at_token, parts_at, each, first, place_at, seen_behind};

use crate::reading::words::place_at;
use crate::rules::places::beyond;
use rmt_bits::sequence::Sequence;
use rmt_lexer::position::Position;
use rmt_lexer::token::Token;
use rmt_syntax::terminal::Terminal;
use rmt_syntax::tree::{Rule, Tree};
use std::alloc::{AllocError, Global};

/// A kind of part of a text, which some trees may begin with.
pub trait Part: Drop {
    ghost seen: { List Tree → Option Self };

    /// The part that the trees begin with, if it is of this kind.
    fn read(alloc: Global, trees: &[Tree]) -> Result<Option<Self>, AllocError>
        ensures { IfOk result (λ part. part ≡ seen trees.now) };
}

/// What some trees say together.
pub trait Among: Drop {
    ghost among: { List Tree → Self };

    /// What these trees say.
    fn among(alloc: Global, trees: &[Tree]) -> Result<Self, AllocError>
        ensures { IfOk result (λ said. said ≡ among trees.now) };
}

/// Adds what was read, if anything, at the end of a list.
pub fn add_read<T: Drop>(
    parts: &mut Sequence<T>,
    read: Result<Option<T>, AllocError>,
) -> Result<(), AllocError>
    ensures { OnOk result (IsOk read × IfOk read (λ part. parts.new ≡ parts.old ++ option_to_list part)) }
{
    match read? {
        Some(part) => parts.push(part),
        None => Ok(()),
    }
}

/// All parts of a kind.
impl<T: Part> Among for Sequence<T> {
    ghost among = { each T.seen };

    fn among(alloc: Global, trees: &[Tree]) -> Result<Sequence<T>, AllocError> {
        let mut parts = Sequence::new(alloc);
        for at in 0..trees.len() {
            add_read(&mut parts, T::read(alloc, beyond(at, trees)))?;
        }
        Ok(parts)
    }
}

/// The first part of a kind.
impl<T: Part> Among for Option<T> {
    ghost among = { first T.seen };

    #[tactic(auto, using(crate::proofs::ReadingLaws::places))]
    fn among(alloc: Global, trees: &[Tree]) -> Result<Option<T>, AllocError> {
        for at in 0..trees.len() {
            if let Some(part) = T::read(alloc, beyond(at, trees))? {
                return Ok(Some(part));
            }
        }
        Ok(None)
    }
}

impl<A: Among, B: Among> Among for (A, B) {
    ghost among = { λ trees. (A.among trees, B.among trees) };

    fn among(alloc: Global, trees: &[Tree]) -> Result<(A, B), AllocError> {
        Ok((A::among(alloc, trees)?, B::among(alloc, trees)?))
    }
}

/// What the text of a rule says by one of its own parts.
pub trait Choice: Drop {
    ghost chosen: { List Tree → Option Self };

    /// What the first of these parts says, if anything.
    fn choose(alloc: Global, trees: &[Tree]) -> Result<Option<Self>, AllocError>
        ensures { IfOk result (λ choice. choice ≡ chosen trees.now) };
}

/// What a token alone says.
pub trait Word: Drop {
    ghost said: { Token → Option Self };

    /// What this token says, if anything.
    fn said(alloc: Global, token: &Token) -> Result<Option<Self>, AllocError>
        ensures { IfOk result (λ word. word ≡ said token.now) };
}

impl<T: Word> Choice for T {
    ghost chosen = { at_token T.said };

    fn choose(alloc: Global, trees: &[Tree]) -> Result<Option<T>, AllocError> {
        match trees {
            [Tree::One(token), ..] => T::said(alloc, token),
            _ => Ok(None),
        }
    }
}

/// What the first part says that says anything, where the first tree is the text of a rule.
#[tactic(auto, using(crate::proofs::ReadingLaws::places))]
pub fn first_choice<T: Choice>(
    alloc: Global,
    rule: Rule,
    trees: &[Tree],
) -> Result<Option<T>, AllocError>
    ensures { IfOk result (λ choice. choice ≡ at_rule rule (first T.chosen) trees.now) }
{
    let Some(parts) = parts_of(rule, trees) else {
        return Ok(None);
    };
    for at in 0..parts.len() {
        if let Some(choice) = T::choose(alloc, beyond(at, parts))? {
            return Ok(Some(choice));
        }
    }
    Ok(None)
}

/// The first part of a kind that stands behind a token of a kind.
#[tactic(auto, using(crate::proofs::ReadingLaws::places))]
pub fn first_behind<T: Part>(
    alloc: Global,
    wanted: Terminal,
    trees: &[Tree],
) -> Result<Option<T>, AllocError>
    ensures { IfOk result (λ part. part ≡ first (seen_behind wanted T.seen) trees.now) }
{
    for at in 0..trees.len() {
        let trees = beyond(at, trees);
        if place_at(wanted, trees).is_some()
            && let Some(part) = T::read(alloc, beyond(1, trees))?
        {
            return Ok(Some(part));
        }
    }
    Ok(None)
}

/// The place of the first token of a kind among some trees.
#[tactic(auto, using(crate::proofs::ReadingLaws::places))]
pub fn first_place(wanted: Terminal, trees: &[Tree]) -> Option<Position>
    ensures { result ≡ first (place_at wanted) trees.now }
{
    for at in 0..trees.len() {
        if let Some(place) = place_at(wanted, beyond(at, trees)) {
            return Some(place);
        }
    }
    None
}

/// The parts of the first tree, where it is the text of a rule.
pub fn parts_of(rule: Rule, trees: &[Tree]) -> Option<&[Tree]>
    ensures { option_copied result ≡ parts_at rule trees.now }
{
    match trees {
        [Tree::Many { rule: own, parts }, ..] if rule == *own => Some(parts.as_slice()),
        _ => None,
    }
}
