//! Reads the tokens of a packet program as the parse tree of the language's grammar.
#![tactic(auto)]

mod grammar;
pub mod laws;
mod lookahead;
mod parser;
mod reader;
pub mod terminal;
pub mod tree;

pub use parser::syntax;
