//! The memories of the chip's slots: what they hold, look-ups in them, and changes of their cells.
#![tactic(auto)]

mod changes;
mod entry_number;
mod exact;
mod keys;
mod lay;
mod listed;
pub mod looked;
mod marks;
pub mod memory;
pub mod room;
mod row_bits;
mod rows_left;
mod runs;
pub mod sight;
mod sliced;
pub mod stages;
mod ternary;
