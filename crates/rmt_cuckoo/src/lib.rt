//! Loads the keys of an exact table into its cells, or shows keys that have fewer cells than they are.
#![tactic(auto)]

mod choices;
pub mod fault;
pub mod layout;
mod loader;
mod loading;
mod overfull;
mod search;
mod way;

pub use loader::{load, never_both};
