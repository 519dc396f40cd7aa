//! Items are put behind the bytes before them, each list behind its length.

mod lane;
pub mod names;
pub mod parser;
mod slot;
pub mod spelled;
mod stage;
pub mod tails;
mod vliw;
