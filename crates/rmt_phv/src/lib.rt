//! Packs the fields of a program into the words of the chip's header vector.
#![tactic(auto)]

pub mod fault;
pub mod pack;
mod piece;
pub mod places;
pub mod sets;
mod words;
mod writers;

pub use pack::pack_fields;
