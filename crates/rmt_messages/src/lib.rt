//! Messages after a call of the program, with the texts that they quote read again, and the last line of what was printed
//! kept for them.
#![tactic(auto)]

pub mod last_line;
pub mod messages;
