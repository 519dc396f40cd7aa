//! Places the nodes of a program better than the rule does, by trying several orders.
#![tactic(auto)]

pub mod better;
mod order;
mod rank;
mod tries;
mod weight;

pub use better::place_better;
