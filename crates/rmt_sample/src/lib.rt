//! A large input made from a number: a program, its entries, and packets for them.
#![tactic(auto)]

mod frames;
pub mod laws;
pub mod make;
pub mod sample;
mod text;
