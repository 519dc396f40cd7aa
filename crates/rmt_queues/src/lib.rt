//! Output queues: items that are offered to ports, stored once for all their copies, and taken port by port.
#![tactic(auto)]

pub mod fault;
pub mod laws;
pub mod queues;
mod rings;
mod stored;
