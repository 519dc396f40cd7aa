//! Linked cells of 64 bytes, in which a chip keeps bytes that come and go.
#![tactic(auto)]

pub mod cells;
pub mod fault;
mod links;
mod pieces;
