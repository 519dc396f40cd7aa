//! Trees, and the rules that their nodes have.

use rmt_bits::sequence::Sequence;
use rmt_lexer::token::Token;

/// A rule of the grammar.
#[derive(Clone, Copy, Debug, PartialEq, Eq)]
pub enum Rule {
    Program,
    Header,
    Next,
    Case,
    Value,
    Target,
    Meta,
    Action,
    Param,
    Field,
    Expr,
    Leaf,
    Table,
    Key,
    Control,
    Block,
    Stmt,
    Arm,
}

/// The parse tree of a program's text.
#[derive(Debug, Drop)]
pub enum Tree {
    /// A token.
    One(Token),
    /// The text of a rule.
    Many {
        /// The rule.
        rule: Rule,
        /// Its tokens and the texts of the rules in it, in their order.
        parts: Sequence<Tree>,
    },
}
