//! The nodes that are being read, each in the one around it.

ghost use Rattle.std.specs.Prelude.{◌≡◌, [], ◌∷◌, ◌++◌, ◌<◌, List, Bool, true, false, OnOk, IfOk, IfNone, slice_get, option_copied, length, map};
ghost use Rattle.rmt_syntax.specs.Trees.{Mark, leaf, opens, shuts, marks, Goal, part, phrase, shut, depth_after};
ghost use Rattle.rmt_syntax.specs.State.{marks_of, goals_of};
ghost use Rattle.rmt_syntax.specs.declared.tree.Rule.TheVariants as rule;
ghost use Rattle.rmt_syntax.specs.declared.grammar.Part.{Part};
ghost use Rattle.rmt_syntax.specs.declared.grammar.Part.TheVariants.{Node, One};
ghost use Rattle.rmt_syntax.specs.declared.terminal.Terminal.TheVariants.{Dot};
ghost use Rattle.rmt_syntax.specs.declared.grammar.Phrase.TheVariants.{Whole, Done, FieldEnd};

use crate::grammar::{Choice, Part, Phrase};
use crate::terminal::Terminal;
use crate::tree::{Rule, Tree};
use rmt_bits::sequence::Sequence;
use rmt_lexer::token::Token;
use std::alloc::{AllocError, Global};
use std::mem;

/// A node that is not read to its end.
#[derive(Drop)]
pub struct Frame {
    /// The rule of the node.
    pub rule: Rule,
    /// The parts that are read.
    pub parts: Sequence<Tree>,
    /// The parts that come next.
    pub todo: &'static [Part],
    /// The phrase behind them.
    pub then: Phrase,
}

/// A reader in the middle of a text.
#[derive(Drop)]
pub struct Reader {
    /// Where its nodes are allocated.
    pub alloc: Global,
    /// The nodes around the one that is read, from the outermost on.
    pub outer: Vec<Frame>,
    /// The node that is read.
    pub inner: Frame,
    /// How many of them are blocks.
    pub depth: u8,
}

/// A node of which nothing is read.
fn fresh(alloc: Global, rule: Rule) -> Frame
    ensures parts { result.parts ≡ [] }
    ensures todo { result.todo.now ≡ [] }
    ensures rule { result.rule ≡ rule }
    ensures then { result.then ≡ Whole rule }
{
    Frame {
        rule,
        parts: Sequence::new(alloc),
        todo: &[],
        then: Phrase::Whole(rule),
    }
}

impl Reader {
    /// A reader before the first token.
    pub fn new(alloc: Global) -> Reader
        ensures marks { marks_of result ≡ opens rule.Program ∷ [] }
        ensures goals { goals_of result ≡ phrase (Whole rule.Program) ∷ shut rule.Program ∷ [] }
        ensures depth { result.depth ≡ 0 }
    {
        Reader {
            alloc,
            outer: Vec::new(alloc),
            inner: fresh(alloc, Rule::Program),
            depth: 0,
        }
    }

    /// The part that comes next, or None where a phrase does.
    pub fn next(&self) -> Option<Part>
        ensures part { result ≡ slice_get self.now.inner.todo.now 0 }
        ensures none { IfNone result (self.now.inner.todo.now ≡ []) }
    {
        self.inner.todo.first().copied()
    }

    /// Reads a token as the part that comes next.
    pub fn take(&mut self, token: Token) -> Result<(), AllocError>
        requires { 0 < length self.old.inner.todo.now }
        ensures marks { OnOk result (marks_of self.new ≡ marks_of self.old ++ leaf token ∷ []) }
        ensures goals { (p : Part) → slice_get self.old.inner.todo.now 0 ≡ Some p → OnOk result (goals_of self.old ≡ part p ∷ goals_of self.new) }
        ensures depth { self.new.depth ≡ self.old.depth }
    {
        self.inner.todo = &self.inner.todo[1..];
        self.inner.parts.push(Tree::One(token))?;
        Ok(())
    }

    /// Goes on with a form of the phrase that comes next.
    pub fn choose(&mut self, choice: &Choice)
        requires { self.old.inner.todo.now ≡ [] }
        ensures marks { marks_of self.new ≡ marks_of self.old }
        ensures goals { (gs : List Goal) → goals_of self.old ≡ phrase self.old.inner.then ∷ gs
            → goals_of self.new ≡ map part choice.now.parts.now ++ phrase choice.now.then ∷ gs }
        ensures depth { self.new.depth ≡ self.old.depth }
        ensures todo { self.new.inner.todo.now ≡ choice.now.parts.now }
    {
        self.inner.todo = choice.parts;
        self.inner.then = choice.then;
    }

    /// Begins the node that comes next.
    pub fn enter(&mut self, rule: Rule) -> Result<(), AllocError>
        requires next { slice_get self.old.inner.todo.now 0 ≡ Some (Node rule) }
        requires room { self.old.depth < 255 }
        ensures marks { OnOk result (marks_of self.new ≡ marks_of self.old ++ opens rule ∷ []) }
        ensures goals { (gs : List Goal) → OnOk result (goals_of self.old ≡ part (Node rule) ∷ gs
            → goals_of self.new ≡ phrase (Whole rule) ∷ shut rule ∷ gs) }
        ensures depth { OnOk result (self.new.depth ≡ depth_after self.old.depth (opens rule)) }
        ensures todo { OnOk result (self.new.inner.todo.now ≡ []) }
    {
        self.inner.todo = &self.inner.todo[1..];
        let outer = mem::replace(&mut self.inner, fresh(self.alloc, rule));
        self.outer.push(outer)?;
        if rule == Rule::Block {
            self.depth += 1;
        }
        Ok(())
    }

    /// Ends the node that is read, and tells whether there is one around it.
    #[tactic(auto, using(crate::proofs::Frames::closing))]
    pub fn close(&mut self) -> Result<bool, AllocError>
        requires todo { self.old.inner.todo.now ≡ [] }
        requires then { self.old.inner.then ≡ Done }
        ensures marks { IfOk result (λ closed. closed ≡ true → marks_of self.new ≡ marks_of self.old ++ shuts self.old.inner.rule ∷ []) }
        ensures goals { IfOk result (λ closed. closed ≡ true → goals_of self.old ≡ phrase Done ∷ shut self.old.inner.rule ∷ goals_of self.new) }
        ensures depth { IfOk result (λ closed. closed ≡ true → self.new.depth ≡ depth_after self.old.depth (shuts self.old.inner.rule)) }
        ensures last { IfOk result (λ closed. closed ≡ false → goals_of self.old ≡ phrase Done ∷ shut self.old.inner.rule ∷ []) }
    {
        let Some(outer) = self.outer.pop() else {
            return Ok(false);
        };
        let Frame { rule, parts, .. } = mem::replace(&mut self.inner, outer);
        self.inner.parts.push(Tree::Many { rule, parts })?;
        if rule == Rule::Block {
            self.depth = self.depth.saturating_sub(1);
        }
        Ok(true)
    }

    /// The tree of the text that is read.
    #[tactic(auto, using(crate::proofs::Frames::finished))]
    pub fn finish(self) -> Tree
        ensures { goals_of self ≡ phrase Done ∷ shut rule.Program ∷ [] → marks result ≡ marks_of self ++ shuts rule.Program ∷ [] }
    {
        Tree::Many {
            rule: self.inner.rule,
            parts: self.inner.parts,
        }
    }

    /// Reads a name as an operand.
    pub fn take_name(&mut self, token: Token) -> Result<(), AllocError>
        requires { self.old.inner.todo.now ≡ [] }
        ensures marks { OnOk result (marks_of self.new ≡ marks_of self.old ++ leaf token ∷ []) }
        ensures goals { (gs : List Goal) → OnOk result (goals_of self.old ≡ phrase self.old.inner.then ∷ gs → goals_of self.new ≡ phrase Done ∷ gs) }
        ensures depth { self.new.depth ≡ self.old.depth }
    {
        self.choose(&Choice {
            parts: &[Part::One(Terminal::Name)],
            then: Phrase::Done,
        });
        self.take(token)?;
        Ok(())
    }

    /// Reads a name as the first token of a field that is an operand.
    pub fn take_field(&mut self, token: Token) -> Result<(), AllocError>
        requires next { self.old.inner.todo.now ≡ [] }
        requires room { self.old.depth < 255 }
        ensures marks { OnOk result (marks_of self.new ≡ marks_of self.old ++ opens rule.Field ∷ leaf token ∷ []) }
        ensures goals { (gs : List Goal) → OnOk result (goals_of self.old ≡ phrase self.old.inner.then ∷ gs
            → goals_of self.new ≡ part (One Dot) ∷ phrase FieldEnd ∷ shut rule.Field ∷ phrase Done ∷ gs) }
        ensures depth { OnOk result (self.new.depth ≡ self.old.depth) }
    {
        self.choose(&Choice {
            parts: &[Part::Node(Rule::Field)],
            then: Phrase::Done,
        });
        self.enter(Rule::Field)?;
        self.choose(&Choice {
            parts: &[Part::One(Terminal::Name), Part::One(Terminal::Dot)],
            then: Phrase::FieldEnd,
        });
        self.take(token)?;
        Ok(())
    }
}
