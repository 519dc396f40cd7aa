//! A switch: the chip with output queues, which sends the frames of a capture on to ports, and what each port sent.
#![tactic(auto)]

mod clocking;
pub mod fault;
pub mod group_table;
mod group_text;
pub mod laws;
mod numbers;
mod ports;
mod printing;
mod records;
mod running;
pub mod switched;

pub use group_text::groups;
pub use printing::switch_line;
pub use running::run;
