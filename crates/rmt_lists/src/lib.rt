//! Entry lists of a run, as changes come.
#![tactic(auto)]

pub mod fault;
pub mod held;
mod key_numbers;
pub mod lists;
mod reading;
pub mod settle;
mod start;
