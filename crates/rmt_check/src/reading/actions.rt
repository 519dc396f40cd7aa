//! Reads actions.

ghost use Rattle.std.specs.Prelude.{◌≡◌, IfOk};
ghost use Rattle.rmt_check.specs.Reading.{at_token, leaf_part, leaf_at, sign_of, operation_at, expr_at, assign_at, each, param_at, action_at};

use crate::pairs::both;
use crate::reading::lists::{Among, Choice, Part, add_read, first_choice, parts_of};
use crate::reading::words::{no_number, place_at, place_of};
use crate::rules::places::beyond;
use crate::source::{
    ActionText, AssignText, Declared, ExprText, FieldText, Ident, LeafText, Number, Sign,
};
use rmt_ast::program::Op;
use rmt_bits::sequence::Sequence;
use rmt_syntax::terminal::{Terminal, terminal_of};
use rmt_syntax::tree::{Rule, Tree};
use std::alloc::{AllocError, Global};

impl Choice for LeafText {
    ghost chosen = { leaf_part };

    fn choose(alloc: Global, trees: &[Tree]) -> Result<Option<LeafText>, AllocError> {
        if let Some(field) = FieldText::read(alloc, trees)? {
            return Ok(Some(LeafText::Field(field)));
        }
        if let Some(param) = Ident::read(alloc, trees)? {
            return Ok(Some(LeafText::Param(param)));
        }
        match Number::read(alloc, trees)? {
            Some(number) => Ok(Some(LeafText::Number(number))),
            None => Ok(None),
        }
    }
}

impl Part for LeafText {
    ghost seen = { leaf_at };

    fn read(alloc: Global, trees: &[Tree]) -> Result<Option<LeafText>, AllocError> {
        first_choice(alloc, Rule::Leaf, trees)
    }
}

impl Part for Sign {
    ghost seen = { at_token sign_of };

    fn read(_alloc: Global, trees: &[Tree]) -> Result<Option<Sign>, AllocError> {
        let [Tree::One(token), ..] = trees else {
            return Ok(None);
        };
        let op = match terminal_of(token) {
            Terminal::Plus => Op::Add,
            Terminal::Minus => Op::Sub,
            Terminal::Ampersand => Op::And,
            Terminal::Bar => Op::Or,
            Terminal::Caret => Op::Xor,
            _ => return Ok(None),
        };
        Ok(Some(Sign {
            place: place_of(token),
            op,
        }))
    }
}

impl Part for (Sign, LeafText) {
    ghost seen = { operation_at };

    fn read(alloc: Global, trees: &[Tree]) -> Result<Option<(Sign, LeafText)>, AllocError> {
        let Some(sign) = Sign::read(alloc, trees)? else {
            return Ok(None);
        };
        match LeafText::read(alloc, beyond(1, trees))? {
            Some(leaf) => Ok(Some((sign, leaf))),
            None => Ok(None),
        }
    }
}

impl Part for ExprText {
    ghost seen = { expr_at };

    fn read(alloc: Global, trees: &[Tree]) -> Result<Option<ExprText>, AllocError> {
        let Some(parts) = parts_of(Rule::Expr, trees) else {
            return Ok(None);
        };
        let (left, right): (Option<_>, _) = Among::among(alloc, parts)?;
        Ok(Some(ExprText {
            left: left.unwrap_or(LeafText::Number(no_number())),
            right,
        }))
    }
}

impl Part for AssignText {
    ghost seen = { assign_at };

    fn read(alloc: Global, trees: &[Tree]) -> Result<Option<AssignText>, AllocError> {
        if place_at(Terminal::Assign, beyond(1, trees)).is_none() {
            return Ok(None);
        }
        let dest = FieldText::read(alloc, trees);
        let (dest, expr) = both(dest, ExprText::read(alloc, beyond(2, trees)))?;
        match dest.zip(expr) {
            Some((dest, expr)) => Ok(Some(AssignText { dest, expr })),
            None => Ok(None),
        }
    }
}

/// The parameter that the trees begin with, if there is one.
fn param(alloc: Global, trees: &[Tree]) -> Result<Option<Declared>, AllocError>
    ensures { IfOk result (λ param. param ≡ param_at trees.now) }
{
    let Some(parts) = parts_of(Rule::Param, trees) else {
        return Ok(None);
    };
    let (ident, width) = Among::among(alloc, parts)?;
    Ok(Some(Declared { ident, width }))
}

/// The parameters of an action of these parts.
fn params(alloc: Global, trees: &[Tree]) -> Result<Sequence<Declared>, AllocError>
    ensures { IfOk result (λ params. params ≡ each param_at trees.now) }
{
    let mut params = Sequence::new(alloc);
    for at in 0..trees.len() {
        add_read(&mut params, param(alloc, beyond(at, trees)))?;
    }
    Ok(params)
}

impl Part for ActionText {
    ghost seen = { action_at };

    fn read(alloc: Global, trees: &[Tree]) -> Result<Option<ActionText>, AllocError> {
        let Some(parts) = parts_of(Rule::Action, trees) else {
            return Ok(None);
        };
        let (params, (ident, assigns)) = both(params(alloc, parts), Among::among(alloc, parts))?;
        Ok(Some(ActionText {
            ident,
            params,
            assigns,
        }))
    }
}
