//! Items are read from the front of bytes, each in time and memory linear in its bytes.

mod bounded;
mod gate;
pub mod header;
mod items;
pub mod lane;
mod memory;
pub mod names;
pub mod number;
pub mod parser;
mod slot;
pub mod stage;
pub mod tails;
mod vliw;
