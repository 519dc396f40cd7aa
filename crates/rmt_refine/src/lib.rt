//! When a configuration carries a program, and the laws by which it then answers as the program does.
#![tactic(auto)]

pub mod laws;
pub mod map;
