//! Entry texts: the entries of a program's tables, a line each; and single lines, by names of tables alone.
#![tactic(auto)]

mod arguments;
pub mod fault;
mod gathered;
pub mod key_set;
mod keys;
pub mod laws;
mod line;
mod line_table;
pub mod named;
mod numbers;
mod tables;
mod text;
mod words;

pub use named::{entry, key};
pub use text::entries;
