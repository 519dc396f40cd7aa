//! The commands of the program: what it reads, what it writes and prints, and how each call ends.
#![tactic(auto)]

mod bad_image;
mod commands;
mod compiling;
pub mod laws;
mod loading;
mod made_lines;
mod making;
mod names;
mod no_fit;
mod placer;
mod placing;
mod plain;
mod plain_begin;
mod reporting;
pub mod sampling;
mod simulating;
pub mod switching;
mod text_files;
mod texts;
pub mod top;
mod verifying;
mod writing;

pub use made_lines::compile_lines;
pub use rmt_drive::running::run_chip;
pub use rmt_drive::{running, status};
pub use top::rmt;
