//! Reads the control.

ghost use Rattle.std.specs.Prelude.{◌≡◌, ◌++◌, ◌∷◌, [], IfOk, OnOk};
ghost use Rattle.rmt_syntax.specs.Grammar.{terminal_of};
ghost use Rattle.rmt_syntax.specs.declared.tree.Tree.TheViews.{out-Tree};
ghost use Rattle.rmt_check.specs.Reading.{arm_if, arm_at, first, field_at, what_text, node_text, is_arm, is_statement, added, control_text, control_at};

use crate::reading::lists::{Among, Part, Word, first_behind, first_choice, parts_of};
use crate::reading::words::{ident_of, no_number};
use crate::source::{ArmText, NodeText, Under, WhatText};
use rmt_bits::sequence::Sequence;
use rmt_lexer::position::Position;
use rmt_lexer::token::Token;
use rmt_syntax::terminal::{Terminal, terminal_of};
use rmt_syntax::tree::{Rule, Tree};
use std::alloc::{AllocError, Global};

impl Word for ArmText {
    ghost said = { λ t. arm_if (terminal_of t.what) t };

    fn said(alloc: Global, token: &Token) -> Result<Option<ArmText>, AllocError> {
        match terminal_of(token) {
            Terminal::Hit => Ok(Some(ArmText::Hit)),
            Terminal::Miss => Ok(Some(ArmText::Miss)),
            Terminal::Name => Ok(Some(ArmText::Action(ident_of(alloc, token)?))),
            _ => Ok(None),
        }
    }
}

impl Part for ArmText {
    ghost seen = { arm_at };

    fn read(alloc: Global, trees: &[Tree]) -> Result<Option<ArmText>, AllocError> {
        first_choice(alloc, Rule::Arm, trees)
    }
}

/// What a statement of these parts does: an `if` where it has a field.
fn what_text(alloc: Global, trees: &[Tree]) -> Result<WhatText, AllocError>
    ensures { IfOk result (λ what. what ≡ what_text (first field_at trees.now) trees.now) }
{
    let mask = first_behind(alloc, Terminal::Ampersand, trees)?;
    let value = first_behind(alloc, Terminal::Equal, trees)?.unwrap_or(no_number());
    if let Some(field) = Option::among(alloc, trees)? {
        return Ok(WhatText::If { field, mask, value });
    }
    let (table, arms) = Among::among(alloc, trees)?;
    Ok(WhatText::Apply { table, arms })
}

/// Adds the node of a statement of these parts.
fn push_node(
    alloc: Global,
    under: Option<Under>,
    nodes: &mut Sequence<NodeText>,
    trees: &[Tree],
) -> Result<(), AllocError>
    ensures { OnOk result (nodes.new ≡ nodes.old ++ node_text under trees.now ∷ []) }
{
    nodes.push(NodeText {
        place: Position::among(alloc, trees)?,
        under,
        what: what_text(alloc, trees)?,
    })
}

/// Whether a part of a statement is an arm, or the block of an `if`.
fn is_arm(tree: &Tree) -> bool
    ensures { result ≡ is_arm (out-Tree tree.now) }
{
    matches!(
        tree,
        Tree::Many {
            rule: Rule::Arm | Rule::Block,
            ..
        }
    )
}

/// Whether a rule is that of statements.
fn is_statement(rule: Rule) -> bool
    ensures { result ≡ is_statement rule }
{
    matches!(rule, Rule::Stmt)
}

/// Adds the nodes of a part of the control: of a statement itself, and behind it those of its arms.
#[tactic(auto, using(crate::proofs::ReadingLaws::added_laws))]
fn push_nodes(
    alloc: Global,
    under: Option<Under>,
    nodes: &mut Sequence<NodeText>,
    tree: &Tree,
) -> Result<(), AllocError>
    ensures { OnOk result (nodes.new ≡ added tree.now under nodes.old) }
{
    let Tree::Many { rule, parts } = tree else {
        return Ok(());
    };
    if !is_statement(*rule) {
        for part in parts.as_slice() {
            push_nodes(alloc, under, nodes, part)?;
        }
        return Ok(());
    }
    let parent = nodes.len();
    push_node(alloc, under, nodes, parts.as_slice())?;
    let mut arm = 0;
    for part in parts.as_slice() {
        if is_arm(part) {
            push_nodes(alloc, Some(Under { parent, arm }), nodes, part)?;
            arm += 1;
        }
    }
    Ok(())
}

/// The nodes of a control of these parts.
fn control_text(alloc: Global, parts: &[Tree]) -> Result<Sequence<NodeText>, AllocError>
    ensures { IfOk result (λ nodes. nodes ≡ control_text parts.now) }
{
    let mut nodes = Sequence::new(alloc);
    for part in parts {
        push_nodes(alloc, None, &mut nodes, part)?;
    }
    Ok(nodes)
}

impl Part for Sequence<NodeText> {
    ghost seen = { control_at };

    fn read(alloc: Global, trees: &[Tree]) -> Result<Option<Sequence<NodeText>>, AllocError> {
        match parts_of(Rule::Control, trees) {
            Some(parts) => Ok(Some(control_text(alloc, parts)?)),
            None => Ok(None),
        }
    }
}
