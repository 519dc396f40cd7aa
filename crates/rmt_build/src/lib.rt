//! The whole back end: a program with its entries becomes a configuration of the chip that carries it.
#![tactic(auto)]

pub mod built;
mod code;
pub mod fault;
mod filling;
mod front;
pub mod joined;
mod lanes;
mod loading;
mod parts;
mod planned;
mod tables;
mod told;
mod units;

pub use joined::{build, build_from};
