//! Drives the plain program and the chip over the lines of a packet text, and prints what they answer.
#![tactic(auto)]

mod count_lines;
pub mod numbers;
pub mod plain_run;
pub mod printing;
mod run_end;
pub mod running;
pub mod sampling;
pub mod status;
pub mod telling;
mod vectors;
pub mod watch;
