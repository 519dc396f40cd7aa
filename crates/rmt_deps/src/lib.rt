//! Which nodes of a program depend on which, and how deep.
#![tactic(auto)]

mod arms;
pub mod edges;
mod facts;
pub mod fault;
pub mod level;
mod touched;

pub use edges::dependencies;
pub use level::levels;
