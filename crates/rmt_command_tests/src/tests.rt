//! Rows of the commands that make, improve and verify images, and faults of all commands.

mod by_hand;
mod compiled;
mod faults;
mod improved;
mod texts;
mod verified;
mod words;
