//! What fills the stages of the chip: cells, rows, words, blocks and instructions of the parts of tables.
#![tactic(auto)]

pub mod cells;
mod data;
pub mod entries;
pub mod exact;
pub mod formats;
pub mod held;
pub mod keys;
pub mod last_part;
pub mod listing;
pub mod memory;
pub mod numbers;
pub mod plan;
mod shapes;
pub mod stands;
pub mod table_code;
pub mod tcam;
pub mod ternary;
mod words;
