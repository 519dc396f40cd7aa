//! Captures of frames as files of pcap: the records that a file has, and the file of some items.
#![tactic(auto)]

pub mod capture;
pub mod fault;
pub mod laws;
mod numbers;
mod reading;
mod writing;

pub use reading::read_capture;
pub use writing::write_capture;
