//! Checks the rules of form of a packet program, and gives the program that its text means. Inside, what answers
//! `AllocError` fails for want of memory alone.
#![tactic(auto)]

mod answer;
mod building;
pub mod laws;
mod names;
mod pairs;
mod reading;
mod rules;
mod source;
mod text;

pub use answer::check;
pub use text::read_program;
