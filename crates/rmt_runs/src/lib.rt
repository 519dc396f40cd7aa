//! Runs over packet texts: their lines are read in pieces, taken one after another, and what they print is written.
#![tactic(auto)]

pub mod fault;
pub mod lines;
pub mod printing;
pub mod reader;
pub mod taker;
pub mod waiting;
