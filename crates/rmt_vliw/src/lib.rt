//! Actions on the chip: each is folded to one value for each field that it writes, and these become one instruction.
#![tactic(auto)]

pub mod fault;
pub mod fold;
pub mod folded;
pub mod instructions;
mod operation;
mod piece;
mod value;

pub use fold::fold_action;
pub use instructions::{default_instruction, instruction};
