//! A bound on the stages of a program, and its proof.
#![tactic(auto)]

mod best;
pub mod bound;
pub mod check;
pub mod fault;
pub mod find;
mod stages;
mod sums;
