//! A packet program as a tree, its entries, and what they mean when run one packet after another.
#![tactic(auto)]

mod copies;
pub mod deps;
pub mod entry;
pub mod name;
pub mod name_list;
pub mod names;
pub mod naming;
pub mod program;
