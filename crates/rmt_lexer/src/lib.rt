//! Reads the text of a packet program as tokens, each with its line and column.
#![tactic(auto)]

pub mod fault;
mod item;
pub mod laws;
pub mod position;
mod reader;
pub mod token;

pub use reader::tokens;
