//! The cells of a configuration with their entries, and what changes of the lists of a run make of them.
#![tactic(auto)]

pub mod book;

pub use rmt_lists::{fault, held, lists};
