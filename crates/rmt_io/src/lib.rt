//! The outside as the program sees it: a shelf of files, and a sink that takes bytes.
#![tactic(auto)]

mod calls;
pub mod mem_shelf;
pub mod mem_sink;
pub mod shelf;
pub mod sink;
mod transfer;
pub mod true_shelf;
pub mod true_sink;
