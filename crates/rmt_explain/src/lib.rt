//! Messages for people: from how a call of the program ended to the lines that say on standard error what was wrong,
//! where, and what to do. The exit status and what was printed are for programs, and nothing here changes them.
#![tactic(auto)]

mod arguments;
mod captures;
pub mod commands;
pub mod ending;
mod entries;
mod fields;
mod files;
mod grammar;
mod grammar_rows;
mod groups;
mod images;
mod keys;
mod last_line;
mod limits;
mod memory;
mod message;
mod no_fit;
mod numbers;
mod packets;
mod places;
mod program_codes;
mod programs;
mod reader;
mod scan;
mod subjects;
mod tables;
mod top;
mod usage;
mod warnings;
mod words;

pub use top::explain;
