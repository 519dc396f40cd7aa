//! What the chip is configured with, and what a configuration means.
#![tactic(auto)]

pub mod cell_write;
pub mod config;
pub mod form;
pub mod latency;
pub mod limits;
pub mod part_ways;
pub mod tails;
pub mod vector;
pub mod way_rows;
