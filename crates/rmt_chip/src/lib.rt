//! The clocked chip: one call is one cycle, with many packets in flight.
#![tactic(auto)]

mod accepted;
pub mod chip;
mod compute;
mod counters;
mod cycle;
mod emit;
mod enter;
pub mod fault;
pub mod frame;
mod frames;
mod header;
mod key;
mod keys;
mod lanes;
mod moment;
mod open;
mod operands;
pub mod out;
mod outcomes;
mod packet_slot;
mod pending;
mod ran;
mod ring;
pub mod seen;
mod taken;
mod words;
mod write;
